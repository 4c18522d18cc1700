ghost use Rattle.std.specs.Prelude.{◌≡◌};

use std::alloc::AllocError;

/// What is wrong with bytes that are no text of tokens.
#[derive(Clone, Copy, Debug, PartialEq, Eq)]
pub enum LexFaultKind {
    /// The bytes aren't UTF-8. The place is the first byte that begins no character.
    NotUtf8,
    /// A character that begins no token, where one is to begin.
    BadCharacter,
    /// A backslash in a quoted text with no escape behind it. The place is the backslash.
    BadEscape,
    /// A quoted text that doesn't end. The place is its opening quote.
    Unclosed,
    /// An integer above the greatest `i64`. The place is its first digit.
    IntRange,
}

/// Why bytes were not read as tokens.
#[derive(Clone, Copy, Debug, PartialEq, Eq)]
pub enum LexRefusal {
    /// The first fault in reading from the left, with its byte offset.
    Fault { offset: u64, kind: LexFaultKind },
    /// Memory ran out.
    NoMemory,
}

impl LexRefusal {
    pub(crate) fn at(offset: u64, kind: LexFaultKind) -> LexRefusal
        ensures { result ≡ LexRefusal.Fault offset kind }
    {
        LexRefusal::Fault { offset, kind }
    }
}

impl From<AllocError> for LexRefusal {
    ghost use Rattle.flow_syntax.specs.declared.lexer.refusal.LexRefusal.TheVariants.{NoMemory};

    ghost from_gives = { λ _ e. e ≡ NoMemory };

    fn from(_error: AllocError) -> Self {
        LexRefusal::NoMemory
    }
}
