//! Why tables are refused.
ghost use Rattle.std.specs.Prelude.{◌≡◌};

use std::alloc::AllocError;
use table_laws::LawFault;

/// Why a table of joins makes no lattice.
#[derive(Clone, Copy, Debug, PartialEq, Eq)]
pub enum TableRefusal {
    /// It breaks a law of lattices: the first one, at the first elements at which it does.
    Law(LawFault),
    /// Memory ran out.
    NoMemory,
}

impl From<AllocError> for TableRefusal {
    ghost use Rattle.lattice_tables.specs.declared.refusal.TableRefusal.TheVariants.{NoMemory};

    ghost from_gives = { λ _ e. e ≡ NoMemory };

    fn from(_: AllocError) -> TableRefusal {
        TableRefusal::NoMemory
    }
}

/// Why a table of results makes no monotone function.
#[derive(Clone, Copy, Debug, PartialEq, Eq)]
pub enum FunctionRefusal {
    /// Some arguments are below others, and their result isn't below that of the others. These are the first such arguments, by
    /// the lower ones and then by the higher ones. With one argument the second number is 0.
    NotMonotone {
        /// The lower arguments.
        lower: (u8, u8),
        /// The higher arguments.
        higher: (u8, u8),
    },
    /// Memory ran out.
    NoMemory,
}

impl From<AllocError> for FunctionRefusal {
    ghost use Rattle.lattice_tables.specs.declared.refusal.FunctionRefusal.TheVariants.{NoMemory};

    ghost from_gives = { λ _ e. e ≡ NoMemory };

    fn from(_: AllocError) -> FunctionRefusal {
        FunctionRefusal::NoMemory
    }
}
