ghost use Rattle.std.specs.Prelude.{◌≡◌, ◌==◌, map};
ghost use Rattle.spec_grammar.specs.Kinds.{code_of, kind_in, kind_named, number_kind, symbol_kinds, word_kinds};

use flow_syntax::TokenKind;

/// The kinds of token that the grammar tells apart.
#[derive(Clone, Copy)]
pub enum Kind {
    /// An identifier that is no reserved word.
    Identifier,
    /// An integer without a sign.
    Number,
    /// A quoted text.
    Quoted,
    /// The end of the text.
    EndOfText,
    /// The symbol `|->`.
    MapsTo,
    /// The symbol `->`.
    Arrow,
    /// The symbol `:=`.
    Becomes,
    /// The symbol `==`.
    Equal,
    /// The symbol `!=`.
    Unequal,
    /// The symbol `<=`.
    AtMost,
    /// The symbol `<`.
    Below,
    /// The symbol `=`.
    Is,
    /// The symbol `:`.
    Colon,
    /// The symbol `(`.
    OpenRound,
    /// The symbol `)`.
    CloseRound,
    /// The symbol `[`.
    OpenSquare,
    /// The symbol `]`.
    CloseSquare,
    /// The symbol `{`.
    OpenBrace,
    /// The symbol `}`.
    CloseBrace,
    /// The symbol `,`.
    Comma,
    /// The symbol `+`.
    Plus,
    /// The symbol `-`.
    Dash,
    /// The symbol `*`.
    Star,
    /// The symbol `|`.
    Bar,
    /// The symbol `@`.
    At,
    /// The symbol `.`.
    Dot,
    /// The symbol `_`.
    Underscore,
    /// The word `module`.
    Module,
    /// The word `signature`.
    Signature,
    /// The word `sorts`.
    Sorts,
    /// The word `lattices`.
    Lattices,
    /// The word `functions`.
    Functions,
    /// The word `control`.
    Control,
    /// The word `properties`.
    Properties,
    /// The word `rules`.
    Rules,
    /// The word `messages`.
    Messages,
    /// The word `root`.
    Root,
    /// The word `node`.
    Node,
    /// The word `start`.
    Start,
    /// The word `end`.
    End,
    /// The word `entry`.
    Entry,
    /// The word `exit`.
    Exit,
    /// The word `this`.
    This,
    /// The word `prev`.
    Prev,
    /// The word `next`.
    Next,
    /// The word `name`.
    Name,
    /// The word `pos`.
    Pos,
    /// The word `str`.
    Str,
    /// The word `int`.
    Int,
    /// The word `list`.
    List,
    /// The word `any`.
    Any,
    /// The word `elements`.
    Elements,
    /// The word `bottom`.
    Bottom,
    /// The word `join`.
    Join,
    /// The word `MaySet`.
    MaySet,
    /// The word `MustSet`.
    MustSet,
    /// The word `Flat`.
    Flat,
    /// The word `Map`.
    Map,
    /// The word `Pair`.
    Pair,
    /// The word `if`.
    If,
    /// The word `then`.
    Then,
    /// The word `else`.
    Else,
    /// The word `bind`.
    Bind,
    /// The word `yield`.
    Yield,
    /// The word `for`.
    For,
    /// The word `in`.
    In,
    /// The word `union`.
    Union,
    /// The word `inter`.
    Inter,
    /// The word `minus`.
    Minus,
    /// The word `and`.
    And,
    /// The word `or`.
    Or,
    /// The word `not`.
    Not,
    /// The word `true`.
    True,
    /// The word `false`.
    False,
    /// The word `top`.
    Top,
    /// The word `unreached`.
    Unreached,
    /// The word `flat`.
    MakeFlat,
    /// The word `fst`.
    Fst,
    /// The word `snd`.
    Snd,
    /// The word `error`.
    Error,
    /// The word `warning`.
    Warning,
    /// The word `note`.
    Note,
    /// The word `on`.
    On,
    /// A word or a symbol that the language doesn't have, or a number below zero; `lex` makes none.
    Other,
}

const SYMBOLS: [(&str, Kind); 23] = [
    ("|->", Kind::MapsTo),
    ("->", Kind::Arrow),
    (":=", Kind::Becomes),
    ("==", Kind::Equal),
    ("!=", Kind::Unequal),
    ("<=", Kind::AtMost),
    ("<", Kind::Below),
    ("=", Kind::Is),
    (":", Kind::Colon),
    ("(", Kind::OpenRound),
    (")", Kind::CloseRound),
    ("[", Kind::OpenSquare),
    ("]", Kind::CloseSquare),
    ("{", Kind::OpenBrace),
    ("}", Kind::CloseBrace),
    (",", Kind::Comma),
    ("+", Kind::Plus),
    ("-", Kind::Dash),
    ("*", Kind::Star),
    ("|", Kind::Bar),
    ("@", Kind::At),
    (".", Kind::Dot),
    ("_", Kind::Underscore),
];

const WORDS: [(&str, Kind); 56] = [
    ("module", Kind::Module),
    ("signature", Kind::Signature),
    ("sorts", Kind::Sorts),
    ("lattices", Kind::Lattices),
    ("functions", Kind::Functions),
    ("control", Kind::Control),
    ("properties", Kind::Properties),
    ("rules", Kind::Rules),
    ("messages", Kind::Messages),
    ("root", Kind::Root),
    ("node", Kind::Node),
    ("start", Kind::Start),
    ("end", Kind::End),
    ("entry", Kind::Entry),
    ("exit", Kind::Exit),
    ("this", Kind::This),
    ("prev", Kind::Prev),
    ("next", Kind::Next),
    ("name", Kind::Name),
    ("pos", Kind::Pos),
    ("str", Kind::Str),
    ("int", Kind::Int),
    ("list", Kind::List),
    ("any", Kind::Any),
    ("elements", Kind::Elements),
    ("bottom", Kind::Bottom),
    ("join", Kind::Join),
    ("MaySet", Kind::MaySet),
    ("MustSet", Kind::MustSet),
    ("Flat", Kind::Flat),
    ("Map", Kind::Map),
    ("Pair", Kind::Pair),
    ("if", Kind::If),
    ("then", Kind::Then),
    ("else", Kind::Else),
    ("bind", Kind::Bind),
    ("yield", Kind::Yield),
    ("for", Kind::For),
    ("in", Kind::In),
    ("union", Kind::Union),
    ("inter", Kind::Inter),
    ("minus", Kind::Minus),
    ("and", Kind::And),
    ("or", Kind::Or),
    ("not", Kind::Not),
    ("true", Kind::True),
    ("false", Kind::False),
    ("top", Kind::Top),
    ("unreached", Kind::Unreached),
    ("flat", Kind::MakeFlat),
    ("fst", Kind::Fst),
    ("snd", Kind::Snd),
    ("error", Kind::Error),
    ("warning", Kind::Warning),
    ("note", Kind::Note),
    ("on", Kind::On),
];

/// The kind that stands beside a text.
fn kind_in(rows: &[(&str, Kind)], text: &str) -> Kind
    ensures { result ≡ kind_in (map (λ row. (row.0.now, row.1)) rows.now) text.now }
{
    match rows {
        [(name, kind), rest @ ..] => {
            if *name == text {
                *kind
            } else {
                kind_in(rest, text)
            }
        }
        [] => Kind::Other,
    }
}

fn symbol_kind(text: &str) -> Kind
    ensures { result ≡ kind_in symbol_kinds text.now }
{
    kind_in(&SYMBOLS, text)
}

fn word_kind(text: &str) -> Kind
    ensures { result ≡ kind_in word_kinds text.now }
{
    kind_in(&WORDS, text)
}

fn number_kind(number: i64) -> Kind
    ensures { result ≡ number_kind number }
{
    if number < 0 {
        Kind::Other
    } else {
        Kind::Number
    }
}

impl Kind {
    /// The kind of a token.
    pub fn of(token: &TokenKind) -> Kind
        ensures { result ≡ kind_named token.now }
    {
        match token {
            TokenKind::Ident(_) => Kind::Identifier,
            TokenKind::Number(number) => number_kind(*number),
            TokenKind::Quoted(_) => Kind::Quoted,
            TokenKind::Word(text) => word_kind(text.as_str()),
            TokenKind::Symbol(text) => symbol_kind(text.as_str()),
            TokenKind::Eof => Kind::EndOfText,
        }
    }

    /// The kind's number in the grammar.
    pub fn code(self) -> u8
        ensures { result ≡ code_of self }
    {
        self as u8
    }

    /// Whether it is this kind.
    pub fn is(self, other: Kind) -> bool
        ensures { result ≡ (code_of self == code_of other) }
    {
        self.code() == other.code()
    }
}
