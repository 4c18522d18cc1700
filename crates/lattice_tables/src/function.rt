//! Functions of tables.
ghost use Rattle.std.specs.Prelude.{◌≡◌, ◌*◌, length};

use crate::joins::{copy_entries, entry};
use flow_term::List;
use std::alloc::{AllocError, Global};

/// A function of one or two arguments between lattices of tables. It is made by [`build_unary`](crate::build_unary) or
/// [`build_binary`](crate::build_binary), which test that it is monotone.
#[derive(Drop)]
pub struct TableFn {
    /// How many first arguments there are.
    pub(crate) left: u8,
    /// How many second arguments there are; where there is one argument alone, 1.
    pub(crate) right: u8,
    /// The results, row by row.
    pub(crate) results: List<u8>,
    pub ghost complete: { length results ≡ left * right },
}

impl TableFn {
    ghost use Rattle.std.specs.Prelude.{◌<◌, IfOk};
    ghost use Rattle.table_laws.specs.JoinTables.{entry_at};

    /// The result for two arguments, by one look-up in the table. Where the function has one argument, the second is 0. Takes no
    /// memory.
    pub fn apply(&self, a: u8, b: u8) -> u8
        requires left { a < self.now.left }
        requires right { b < self.now.right }
        ensures { result ≡ entry_at self.now.right self.now.results a b }
    {
        entry(self.right, self.results.as_slice(), a, b)
    }

    /// An equal function. Fails only for want of memory.
    pub fn duplicate(&self, alloc: Global) -> Result<TableFn, AllocError>
        ensures { IfOk result (λ function. function ≡ self.now) }
    {
        let results = copy_entries(alloc, self.results.as_slice())?;
        Ok(TableFn {
            left: self.left,
            right: self.right,
            results,
        })
    }
}
