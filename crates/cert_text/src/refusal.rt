//! Why a text is no certificate.
ghost use Rattle.std.specs.Prelude.{◌≡◌};

use crate::place::CertFaultKind;
use std::alloc::AllocError;

/// Why no certificate is read.
#[derive(Clone, Copy, Debug, PartialEq, Eq)]
pub enum CertRefusal {
    /// No certificate has this text.
    Fault {
        /// The first line that may not stand in its place, counted from 1.
        line: u64,
        /// Why it may not.
        kind: CertFaultKind,
    },
    /// Memory ran out.
    NoMemory,
}

/// Why a line isn't taken.
#[derive(Clone, Copy, Debug, PartialEq, Eq)]
pub enum LineFault {
    /// It may not stand in its place.
    Fault(CertFaultKind),
    /// Memory ran out.
    NoMemory,
}

impl From<AllocError> for LineFault {
    ghost use Rattle.cert_text.specs.declared.refusal.LineFault.TheVariants.{NoMemory};

    ghost from_gives = { λ _ e. e ≡ NoMemory };

    fn from(_: AllocError) -> LineFault {
        LineFault::NoMemory
    }
}
