//! Lattices of tables.
ghost use Rattle.std.specs.Prelude.{◌<◌, ◌^◌};
ghost use Rattle.table_laws.specs.JoinTables.{IsComplete, IsLawful, table_by};

use crate::joins::{Joins, copy_entries, entry};
use flow_term::List;
use lattice_base::Lattice;
use std::alloc::{AllocError, Global};

/// A lattice whose elements are numbers from 0, with the join of each two in a table. It is made by [`build`](crate::build) or
/// [`build_declared`](crate::build_declared), which test the laws.
///
/// ```text
///      3          join   0 1 2 3
///     / \            0   0 1 2 3
///    1   2           1   1 1 3 3
///     \ /            2   2 3 2 3
///      0             3   3 3 3 3
/// ```
#[derive(Drop)]
pub struct TableL {
    pub(crate) count: u8,
    pub(crate) bottom: u8,
    pub(crate) join: List<u8>,
    pub ghost few: { count < 2 ^ 8 },
    pub ghost complete: { IsComplete (table_by count bottom join) },
    pub ghost lawful: { IsLawful (table_by count bottom join) },
}

impl TableL {
    ghost use Rattle.std.specs.Prelude.{◌≡◌, IfOk};
    ghost use Rattle.table_laws.specs.JoinTables.{IsElement, join_of, only_element};
    ghost use Rattle.lattice_tables.specs.Tables.{join_table};
    ghost use Rattle.lattice_tables.specs.inner.Shown.{shown};

    /// The lattice of one element. Fails only for want of memory.
    pub fn only(alloc: Global) -> Result<TableL, AllocError>
        ensures { IfOk result (λ lattice. join_table lattice ≡ only_element) }
    {
        let join = copy_entries(alloc, &[0])?;
        Ok(TableL {
            count: 1,
            bottom: 0,
            join,
        })
    }

    /// How many elements there are. Takes no memory.
    pub fn count(&self) -> u8
        ensures { result ≡ self.now.count }
    {
        self.count
    }

    /// The least element. Takes no memory.
    pub fn least(&self) -> u8
        ensures value { result ≡ self.now.bottom }
        ensures element { IsElement (join_table self.now) result }
    {
        self.bottom
    }

    /// The join of two elements, by one look-up in the table. Takes no memory.
    pub fn join_of(&self, a: u8, b: u8) -> u8
        requires left { IsElement (join_table self.now) a }
        requires right { IsElement (join_table self.now) b }
        ensures value { result ≡ join_of (join_table self.now) a b }
        ensures element { IsElement (join_table self.now) result }
    {
        entry(self.count, self.join.as_slice(), a, b)
    }

    /// An equal lattice. Fails only for want of memory.
    pub fn duplicate(&self, alloc: Global) -> Result<TableL, AllocError>
        ensures { IfOk result (λ lattice. lattice ≡ self.now) }
    {
        let join = copy_entries(alloc, self.join.as_slice())?;
        Ok(TableL {
            count: self.count,
            bottom: self.bottom,
            join,
        })
    }

    /// Its table.
    pub(crate) fn joins(&self) -> Joins<'_>
        ensures { shown result ≡ join_table self.now }
    {
        Joins {
            count: self.count,
            bottom: self.bottom,
            join: self.join.as_slice(),
        }
    }
}

impl Lattice for TableL {
    ghost use Rattle.table_laws.specs.JoinTables.{IsBelow, IsElement, join_of};
    ghost use Rattle.lattice_tables.specs.Tables.{join_table};

    type V = u8;

    ghost valid = { λ l a. IsElement (join_table l) a };

    ghost least = { λ l. l.bottom };

    ghost joined = { λ l a b. join_of (join_table l) a b };

    ghost below = { λ l a b. IsBelow (join_table l) a b };

    fn bottom(&self, alloc: Global) -> Result<u8, AllocError> {
        Ok(self.bottom)
    }

    fn join(&self, alloc: Global, a: &u8, b: &u8) -> Result<u8, AllocError> {
        Ok(self.join_of(*a, *b))
    }

    fn leq(&self, a: &u8, b: &u8) -> bool {
        self.join_of(*a, *b) == *b
    }

    fn equal(&self, a: &u8, b: &u8) -> bool {
        a == b
    }

    fn copy(&self, alloc: Global, a: &u8) -> Result<u8, AllocError> {
        Ok(*a)
    }

    ghost laws = { λ l. l.lawful };

    ghost order = { λ l a b _ _. (λ h. h, λ h. h) };
}
