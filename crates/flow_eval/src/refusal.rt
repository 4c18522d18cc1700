//! Why a specification isn't accepted.
ghost use Rattle.std.specs.Prelude.{◌≡◌};

use flow_modes::ModeFault;
use std::alloc::AllocError;
use table_laws::LawFault;

/// Why a specification without faults isn't accepted.
#[derive(Clone, Copy, Debug, PartialEq, Eq)]
pub enum PrepareRefusal {
    /// A declared lattice is none.
    Law {
        /// The number of the first such lattice, in the order of the text from 0.
        lattice: u32,
        /// The first law that it breaks, at the first elements; elements are told by their numbers.
        fault: LawFault,
    },
    /// A declared function isn't monotone.
    NotMonotone {
        /// The number of the first such function, in the order of the text from 0.
        function: u32,
        /// The first arguments that are below others while their result isn't below that of the others. They are told by their
        /// numbers; where there is one argument the second is 0.
        lower: (u8, u8),
        /// The first such others.
        higher: (u8, u8),
    },
    /// The body of a rule may fall as what it reads rises: place and mode of the first one.
    Mode(ModeFault),
    /// Memory ran out, or a number of a lattice, a function, a property or a rule doesn't fit 32 bits.
    NoMemory,
}

impl From<AllocError> for PrepareRefusal {
    ghost use Rattle.flow_eval.specs.declared.refusal.PrepareRefusal.TheVariants.{NoMemory};

    ghost from_gives = { λ _ e. e ≡ NoMemory };

    fn from(_: AllocError) -> PrepareRefusal {
        PrepareRefusal::NoMemory
    }
}
