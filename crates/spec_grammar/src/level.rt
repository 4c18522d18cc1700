/// The levels of binary operators, the loosest first. Between the second and the third stand `not` and comparisons.
#[derive(Clone, Copy)]
pub enum BinaryLevel {
    /// `or`
    Disjunction,
    /// `and`
    Conjunction,
    /// `join`, `union`, `inter`, `minus`
    SetOperation,
    /// `+`, `-`
    Sum,
    /// `*`
    Product,
}
