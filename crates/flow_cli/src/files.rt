//! The files of a request: read, and accepted or refused.

/// The greatest length of a specification, in bytes.
pub const SPECIFICATION_LIMIT: u64 = 1 << 20;

/// The greatest length of a tree, in bytes.
pub const TREE_LIMIT: u64 = 1 << 25;

/// What a file gave.
#[derive(Drop)]
pub enum Read<T> {
    /// What is in it.
    Accepted(T),
    /// The line with which it is refused.
    Refused(Vec<u8>),
}
