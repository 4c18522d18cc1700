use flow_term::Text;

/// What a token is.
#[derive(Debug, Drop)]
pub enum TokenKind {
    /// An identifier that is no reserved word.
    Ident(Text),
    /// An integer, which has no sign.
    Number(i64),
    /// A quoted text, as what it stands for: without its quotes, each escape as its character.
    Quoted(Text),
    /// A reserved word.
    Word(Text),
    /// A symbol, as it is written.
    Symbol(Text),
    /// The end of the text.
    Eof,
}

/// A token of a specification, with the offset of its first byte.
#[derive(Debug, Drop)]
pub struct Token {
    /// The offset of its first byte in the text of the specification.
    pub place: u64,
    /// What it is.
    pub kind: TokenKind,
}
