use flow_term::{Boxed, List, Text};

/// A pattern of terms, with the offset of its first byte.
#[cycle(pattern)]
#[derive(Drop)]
pub struct Pattern {
    /// The offset of its first byte in the text of the specification.
    pub place: u64,
    /// What it is, with its parts.
    pub kind: PatternKind,
}

/// What a pattern is.
#[cycle(pattern)]
#[derive(Drop)]
pub enum PatternKind {
    /// `_`: each term.
    Wild,
    /// `x`: each term. The variable stands for the term's position.
    Var(Text),
    /// `name x`: a term with a resolved name, which the variable stands for.
    NameVar(Text),
    /// `str x`: a string, which the variable stands for.
    StrVar(Text),
    /// `int x`: an integer, which the variable stands for.
    IntVar(Text),
    /// This integer.
    IntLit(i64),
    /// This string.
    StrLit(Text),
    /// An application of this name, with a pattern for each argument.
    Apply(Text, List<Pattern>),
    /// A tuple, with a pattern for each part.
    Tuple(List<Pattern>),
    /// A list, with a pattern for each item.
    Items(List<Pattern>),
    /// `x @ p`: what the pattern matches. The variable stands for its position.
    Held(Text, Boxed<Pattern>),
}
