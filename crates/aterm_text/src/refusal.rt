use std::alloc::AllocError;

/// What is wrong with a text.
#[derive(Clone, Copy, Debug, PartialEq, Eq)]
pub enum TermFaultKind {
    /// The text isn't UTF-8: no character begins here. This is looked for in the whole text before all else.
    NotUtf8,
    /// No term text goes on with this byte; at the length of the text, it ends where none ends.
    Unexpected,
    /// `!` where a term is to begin.
    Shared,
    /// `<` where a term is to begin.
    Placeholder,
    /// A number that `.`, `e` or `E` directly follows, at its first byte.
    Real,
    /// A number that `:` directly follows, at its first byte.
    Blob,
    /// A backslash inside quotes with which no escape begins.
    BadEscape,
    /// A number that isn't an `i64`, at its first byte.
    IntRange,
    /// A term begins at depth 513, where the outermost has depth 1.
    TooDeep,
    /// The term that begins here has number 2^20 + 1.
    TooMany,
}

/// Why no term was read.
#[derive(Clone, Copy, Debug, PartialEq, Eq)]
pub enum TermRefusal {
    /// The first fault of the text: its kind, and the offset of its byte.
    Fault { offset: u64, kind: TermFaultKind },
    /// Memory ran out.
    NoMemory,
}

impl From<AllocError> for TermRefusal {
    ghost use Rattle.std.specs.Prelude.{◌≡◌};
    ghost use Rattle.aterm_text.specs.declared.refusal.TermRefusal.TheVariants.{NoMemory};

    ghost from_gives = { λ _ e. e ≡ NoMemory };

    fn from(_: AllocError) -> TermRefusal {
        TermRefusal::NoMemory
    }
}

impl TermRefusal {
    ghost use Rattle.std.specs.Prelude.{◌≡◌};
    ghost use Rattle.aterm_text.specs.inner.Answers.{fault_of};

    pub fn fault(offset: u64, kind: TermFaultKind) -> TermRefusal
        ensures { result ≡ fault_of offset kind }
    {
        TermRefusal::Fault { offset, kind }
    }
}
