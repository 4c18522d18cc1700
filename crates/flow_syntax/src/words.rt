//! The symbols and the reserved words, each in one table.
ghost use Rattle.std.specs.Prelude.{◌≡◌, ◌↔◌, bytes_eq, Contains, IsTrue};
ghost use Rattle.std.specs.List.{list_any};
ghost use Rattle.flow_syntax.specs.Tokens.{reserved_words};

/// The symbols. A symbol that another one begins with stands behind that one.
pub const SYMBOLS: [&str; 23] = [
    "|->", "->", ":=", "==", "!=", "<=", "<", "=", ":", "(", ")", "[", "]", "{", "}", ",", "+",
    "-", "*", "|", "@", ".", "_",
];

const RESERVED_WORDS: [&str; 56] = [
    "module",
    "signature",
    "sorts",
    "lattices",
    "functions",
    "control",
    "properties",
    "rules",
    "messages",
    "root",
    "node",
    "start",
    "end",
    "entry",
    "exit",
    "this",
    "prev",
    "next",
    "name",
    "pos",
    "str",
    "int",
    "list",
    "any",
    "elements",
    "bottom",
    "join",
    "MaySet",
    "MustSet",
    "Flat",
    "Map",
    "Pair",
    "if",
    "then",
    "else",
    "bind",
    "yield",
    "for",
    "in",
    "union",
    "inter",
    "minus",
    "and",
    "or",
    "not",
    "true",
    "false",
    "top",
    "unreached",
    "flat",
    "fst",
    "snd",
    "error",
    "warning",
    "note",
    "on",
];

fn is_among(texts: &[&str], text: &str) -> bool
    ensures { result ≡ list_any (λ w. bytes_eq w.now text.now) texts.now }
{
    texts.iter().any(|other| *other == text)
}

/// Whether the text is a reserved word, which is no identifier.
pub fn is_reserved(text: &str) -> bool
    ensures { IsTrue result ↔ Contains reserved_words text.now }
{
    is_among(&RESERVED_WORDS, text)
}
