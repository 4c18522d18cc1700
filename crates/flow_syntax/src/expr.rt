use flow_term::{Boxed, List, Text};

/// An expression, with the offset of its first byte.
#[cycle(expr)]
#[derive(Drop)]
pub struct Expr {
    /// The offset of its first byte in the text of the specification.
    pub place: u64,
    /// What it is, with its parts.
    pub kind: ExprKind,
}

/// What an expression is.
#[cycle(expr)]
#[derive(Drop)]
pub enum ExprKind {
    /// An integer.
    Int(i64),
    /// A text in quotes.
    Str(Text),
    /// `true` or `false`.
    Truth(bool),
    /// The bottom of the type that is expected.
    Bottom,
    /// The top of a flat lattice.
    Top,
    /// The bottom of a lattice of sets that are joined by intersection.
    Unreached,
    /// A variable, an enum's item or a lattice's element.
    Ident(Text),
    /// A property at a node.
    Read(Text, Side),
    /// A function of tables.
    Call(Text, List<Expr>),
    /// An element as a value of a flat lattice.
    MakeFlat(Boxed<Expr>),
    /// The first part of a pair.
    Fst(Boxed<Expr>),
    /// The second part of a pair.
    Snd(Boxed<Expr>),
    /// A pair.
    Both(Boxed<Expr>, Boxed<Expr>),
    /// The set of these elements.
    SetOf(List<Expr>),
    /// The elements for each member of a set, called by this name, for which the condition holds.
    Choose(Boxed<Expr>, Text, Boxed<Expr>, Option<Boxed<Expr>>),
    /// The map of these keys and their values.
    MapOf(List<Expr>, List<Expr>),
    /// The value of a map at a key.
    Look(Boxed<Expr>, Boxed<Expr>),
    /// A map with the value at a key replaced.
    Update(Boxed<Expr>, Boxed<Expr>, Boxed<Expr>),
    /// An operation on two sets, or the join of two values.
    Set2(SetOp, Boxed<Expr>, Boxed<Expr>),
    /// An operation on two integers.
    Arith(ArithOp, Boxed<Expr>, Boxed<Expr>),
    /// A number with the other sign.
    Minus(Boxed<Expr>),
    /// A comparison of two elements.
    Compare(CompareOp, Boxed<Expr>, Boxed<Expr>),
    /// Whether an element is in a set.
    Member(Boxed<Expr>, Boxed<Expr>),
    /// Whether both conditions hold.
    And(Boxed<Expr>, Boxed<Expr>),
    /// Whether at least one of two conditions holds.
    Or(Boxed<Expr>, Boxed<Expr>),
    /// Whether a condition does not hold.
    Not(Boxed<Expr>),
    /// A flat value, whose element has this name in the second expression.
    Bind(Text, Boxed<Expr>, Boxed<Expr>),
    /// A condition and its two branches.
    If(Boxed<Expr>, Boxed<Expr>, Boxed<Expr>),
}

/// The node at which a property is read.
#[derive(Clone, Copy, Debug, PartialEq, Eq)]
pub enum Side {
    /// The node itself.
    This,
    /// A predecessor in the control-flow graph.
    Prev,
    /// A successor.
    Next,
}

/// An operation on two sets, or the join of two values.
#[derive(Clone, Copy, Debug, PartialEq, Eq)]
pub enum SetOp {
    /// `join`: the join of the type.
    Join,
    /// `union`: what is in one of the sets or in both.
    Union,
    /// `inter`: what is in both sets.
    Inter,
    /// `minus`: what is in the first set and not in the second.
    Minus,
}

/// An operation on two integers, which wraps at 64 bits.
#[derive(Clone, Copy, Debug, PartialEq, Eq)]
pub enum ArithOp {
    /// The sum.
    Add,
    /// The first less the second.
    Sub,
    /// The product.
    Mul,
}

/// A comparison of two elements.
#[derive(Clone, Copy, Debug, PartialEq, Eq)]
pub enum CompareOp {
    /// `==`: they are equal.
    Eq,
    /// `!=`: they differ.
    Ne,
    /// `<`: the first integer is less than the second.
    Lt,
    /// `<=`: the first integer is at most the second.
    Le,
}
