ghost use Rattle.std.specs.Prelude.{◌≡◌};

use flow_term::PathRefusal;
use std::alloc::AllocError;

/// Why bytes are no value.
#[derive(Clone, Copy, Debug, PartialEq, Eq)]
pub enum ValueRefusal {
    /// No value has this text.
    Form,
    /// Memory ran out.
    NoMemory,
}

impl From<AllocError> for ValueRefusal {
    ghost use Rattle.value_text.specs.declared.refusal.ValueRefusal.TheVariants.{NoMemory};

    ghost from_gives = { λ _ e. e ≡ NoMemory };

    fn from(_: AllocError) -> ValueRefusal {
        ValueRefusal::NoMemory
    }
}

impl From<PathRefusal> for ValueRefusal {
    ghost use Rattle.value_text.specs.inner.Reading.{IsOfPath};

    ghost from_gives = { IsOfPath };

    fn from(refusal: PathRefusal) -> ValueRefusal {
        match refusal {
            PathRefusal::Form => ValueRefusal::Form,
            PathRefusal::NoMemory => ValueRefusal::NoMemory,
        }
    }
}
