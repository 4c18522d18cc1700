use crate::spec::Named;
use flow_term::{Boxed, List};

/// Which trees there are.
#[derive(Debug, Drop)]
pub struct Signature {
    /// The sort of a whole tree.
    pub start: Named,
    /// The constructors of terms, in the order of the text.
    pub constructors: List<Constructor>,
}

/// A constructor of terms, with the sorts of its arguments and the sort of what it makes.
#[derive(Debug, Drop)]
pub struct Constructor {
    /// Its name.
    pub name: Named,
    /// The sorts of its arguments, in their order.
    pub args: List<TreeSort>,
    /// The sort of what it makes.
    pub result: Named,
}

/// The sort of a tree.
#[derive(Debug, Drop)]
pub enum TreeSort {
    /// A sort that constructors make.
    Sort(Named),
    /// Strings.
    Str,
    /// Integers.
    Int,
    /// Each tree is of this sort.
    Any,
    /// Lists of trees of one sort.
    Items(Boxed<TreeSort>),
    /// Tuples with a part of each of these sorts, in their order.
    Tuple(List<TreeSort>),
}
