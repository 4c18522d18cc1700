//! What the lines of a certificate tell of the next one.
use crate::certificate::Certificate;

/// Why a text is no certificate.
#[derive(Clone, Copy, Debug, PartialEq, Eq)]
pub enum CertFaultKind {
    /// The first line isn't `flowcert 1`.
    Header,
    /// What stands in the place of a line with a count isn't one.
    Count,
    /// What stands in the place of an edge, step or value isn't one.
    Form,
    /// An edge or value isn't above the one before.
    Order,
    /// What stands in the place of the last line isn't `end`, or something stands behind it.
    End,
}

/// Which line is next, as the lines before it tell, with the number of entries that are left.
#[derive(Clone, Copy, Debug, PartialEq, Eq)]
pub enum Place {
    /// The first line.
    Header,
    /// The number of edges.
    EdgeCount,
    /// An edge; where none is left, the number of steps.
    Edges(u64),
    /// A step; where none is left, the number of values.
    Steps(u64),
    /// A value; where none is left, the last line.
    Values(u64),
    /// Nothing.
    Finished,
}

/// How far a certificate was read: what its lines tell so far, and which line is next.
#[derive(Drop)]
pub struct Progress {
    /// The place of the next line.
    pub place: Place,
    /// What stands before it.
    pub certificate: Certificate,
}
