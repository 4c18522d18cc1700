use flow_syntax::SpecFaultKind;
use std::alloc::AllocError;

/// Why a specification is refused.
#[derive(Clone, Copy, Debug, PartialEq, Eq)]
pub enum SpecRefusal {
    /// The first fault: of the least place, then of the first kind.
    Fault { place: u64, kind: SpecFaultKind },
    /// Memory ran out.
    NoMemory,
}

impl From<AllocError> for SpecRefusal {
    ghost use Rattle.std.specs.Prelude.{◌≡◌};
    ghost use Rattle.flow_sorts.specs.declared.refusal.SpecRefusal.TheVariants.{NoMemory};

    ghost from_gives = { λ _ e. e ≡ NoMemory };

    fn from(_error: AllocError) -> SpecRefusal {
        SpecRefusal::NoMemory
    }
}
