/// Something that the analysis doesn't take yet.
#[derive(Clone, Copy, Debug, PartialEq, Eq)]
pub struct NotYet {
    /// The offset of its first byte in the specification.
    pub place: u64,
}
