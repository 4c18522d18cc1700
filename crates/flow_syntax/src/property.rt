use crate::expr::Expr;
use crate::pattern::Pattern;
use crate::spec::Named;
use crate::types::LatticeType;

/// A property of nodes, with the lattice of its values.
#[derive(Debug, Drop)]
pub struct PropDecl {
    /// Its name.
    pub name: Named,
    /// The lattice of its values.
    pub lattice: LatticeType,
}

/// A rule of a property.
#[derive(Drop)]
pub struct PropRule {
    /// The property that it is a rule of.
    pub property: Named,
    /// Where it applies.
    pub trigger: Trigger,
    /// The value that it gives there.
    pub body: Expr,
}

/// Where a rule of a property applies, with the pattern of the term there.
#[derive(Drop)]
pub enum Trigger {
    /// At nodes, from each predecessor.
    Forward(Pattern),
    /// At nodes, from each successor.
    Backward(Pattern),
    /// At start nodes, which have no predecessor to read.
    AtStart(Pattern),
    /// At end nodes, which have no successor to read.
    AtEnd(Pattern),
}

/// The way in which a property follows the control flow.
#[derive(Clone, Copy, Debug, PartialEq, Eq)]
pub enum Direction {
    /// With the control flow, from predecessors.
    Forward,
    /// Against the control flow, from successors.
    Backward,
}

/// How the value of an expression follows the values that it reads.
#[derive(Clone, Copy, Debug, PartialEq, Eq)]
pub enum Mode {
    /// It doesn't depend on them.
    Fixed,
    /// It rises with them.
    Up,
    /// It falls as they rise.
    Down,
    /// None of these is known.
    Mixed,
}
