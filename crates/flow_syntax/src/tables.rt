use crate::spec::Named;
use flow_term::List;

/// A sort of elements that are listed.
#[derive(Debug, Drop)]
pub struct EnumDecl {
    /// The name of the sort.
    pub name: Named,
    /// Its elements, in the order of the text.
    pub items: List<Named>,
}

/// A lattice of listed elements.
#[derive(Debug, Drop)]
pub struct TableDecl {
    /// The name of the lattice.
    pub name: Named,
    /// Its elements, in the order of the text.
    pub elements: List<Named>,
    /// The least element.
    pub bottom: Named,
    /// The join of each two elements, row by row in the order of the elements.
    pub join: List<Named>,
}

/// A function of one or two arguments between such lattices.
#[derive(Debug, Drop)]
pub struct FunctionDecl {
    /// The name of the function.
    pub name: Named,
    /// The lattices of the arguments.
    pub args: List<Named>,
    /// The lattice of its results.
    pub result: Named,
    /// The result for each argument, row by row in the order of the elements.
    pub table: List<Named>,
}
