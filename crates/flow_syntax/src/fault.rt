/// What is wrong with a specification that the grammar has.
#[derive(Clone, Copy, Debug, PartialEq, Eq)]
pub enum SpecFaultKind {
    /// A name that isn't declared.
    Unknown,
    /// A name that is declared or bound twice.
    Duplicate,
    /// A wrong number of entries or arguments.
    Arity,
    /// A wrong type or sort.
    Sort,
    /// A name that isn't bound where it stands.
    Unbound,
    /// Rules of one property with both directions.
    MixedDirection,
    /// `entry`, `exit`, `start` or `end` where it can't stand.
    WrongEnd,
    /// One argument as `x` and as `node x` in one rule.
    MixedItem,
    /// A chain names a variable that is no direct argument.
    Nested,
    /// A pattern or a type that is nested too deep.
    Depth,
}
