//! How a table is no lattice.

/// A law of lattices that the table of a declared lattice breaks, with the elements at which it does. An element is told by its
/// number in the order of the declaration, from 0.
///
/// The laws stand in the order in which they are tested; of two faults the one of the earlier law comes first, and of two of one law
/// the one with the lesser elements, the first one first.
#[derive(Clone, Copy, Debug, PartialEq, Eq)]
pub enum LawFault {
    /// The join of the element with itself is another one.
    Idempotent(u8),
    /// The join of the two is another one when they are exchanged.
    Commutative(u8, u8),
    /// Of the three, the first joined to the join of the others isn't the join of the first two joined to the last.
    Associative(u8, u8, u8),
    /// The join of bottom and the element, on one side or the other, isn't that element.
    BottomLaw(u8),
}
