//! Where a table of results isn't monotone.
ghost use Rattle.std.specs.Prelude.{◌≡◌};
ghost use Rattle.table_laws.specs.FunctionTables.{result_of};
ghost use Rattle.lattice_tables.specs.inner.Disorders.{IsFirstOfFunction, are_disordered, function_by};

use crate::joins::{Joins, entry};
use crate::tuples::quadruples;

/// A table of results before it is known to be that of a monotone function: the lattices of both arguments and of the results, and
/// the results, row by row.
#[derive(Clone, Copy)]
pub(crate) struct Results<'a> {
    pub left: Joins<'a>,
    pub right: Joins<'a>,
    pub to: Joins<'a>,
    pub results: &'a [u8],
}

impl Results<'_> {
    /// The result for two arguments.
    fn of(&self, arguments: (u8, u8)) -> u8
        ensures { result ≡ result_of (function_by self.now) arguments.0 arguments.1 }
    {
        entry(self.right.count, self.results, arguments.0, arguments.1)
    }

    /// Whether arguments are below others, and their result isn't below that of the others.
    fn are_disordered(&self, lower: (u8, u8), higher: (u8, u8)) -> bool
        ensures { result ≡ are_disordered (function_by self.now) lower higher }
    {
        self.left.is_below(lower.0, higher.0)
            && self.right.is_below(lower.1, higher.1)
            && !self.to.is_below(self.of(lower), self.of(higher))
    }
}

/// The first arguments that are below others while their result isn't below that of the others, and those.
pub(crate) fn first_disorder(results: &Results<'_>) -> Option<((u8, u8), (u8, u8))>
    ensures { IsFirstOfFunction (function_by results.now) result }
{
    let (((a, b), c), d) = quadruples(results.left.count, results.right.count).find(|(
        (lower, c),
        d,
    )| results.are_disordered(*lower, (*c, *d)))?;
    Some(((a, b), (c, d)))
}
