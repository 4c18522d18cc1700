//! The text of a certificate, both ways.
#![tactic(auto)]

mod certificate;
mod entry;
mod holding;
mod laws;
mod place;
mod reader;
mod reading;
mod refusal;
mod writing;

pub use certificate::Certificate;
pub use laws::certificates_have_one_answer;
pub use place::{CertFaultKind, Place, Progress};
pub use reading::read;
pub use refusal::CertRefusal;
pub use writing::write;
