use std::alloc::AllocError;

/// Why tokens are no specification.
#[derive(Clone, Copy, Debug, PartialEq, Eq)]
pub enum ParseFaultKind {
    /// No specification begins with the tokens up to this one.
    Unexpected,
    /// A specification begins with the tokens up to this one, which is nested deeper than 256.
    TooDeep,
}

/// Why there is no specification.
#[derive(Debug, PartialEq, Eq, Drop)]
pub enum ParseRefusal {
    /// The offset of the first token that can't go on, and why it can't.
    Fault { place: u64, kind: ParseFaultKind },
    /// Memory ran out.
    NoMemory,
}

impl From<AllocError> for ParseRefusal {
    ghost use Rattle.std.specs.Prelude.{◌≡◌};
    ghost use Rattle.flow_parse.specs.declared.refusal.ParseRefusal.TheVariants.{NoMemory};

    ghost from_gives = { λ _ e. e ≡ NoMemory };

    fn from(_error: AllocError) -> ParseRefusal {
        ParseRefusal::NoMemory
    }
}
