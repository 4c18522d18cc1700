//! Tables of joins before they are known to be those of lattices.
ghost use Rattle.std.specs.Prelude.{◌≡◌, IfOk};
ghost use Rattle.table_laws.specs.JoinTables.{entry_at, join_of, only_element};
ghost use Rattle.lattice_tables.specs.inner.Shown.{shown};
ghost use Rattle.lattice_tables.specs.inner.Tests.{changes_by_bottom, changes_itself, depends_on_grouping, depends_on_order, is_below};

use flow_term::List;
use std::alloc::{AllocError, Global};

/// The entry for two numbers of a table whose rows have this width; 0 where the table ends before it.
pub(crate) fn entry(width: u8, entries: &[u8], a: u8, b: u8) -> u8
    ensures { result ≡ entry_at width entries.now a b }
{
    let at = usize::from(a) * usize::from(width) + usize::from(b);
    entries.get(at).copied().unwrap_or(0)
}

/// A list of these entries. Fails only for want of memory.
pub(crate) fn copy_entries(alloc: Global, entries: &[u8]) -> Result<List<u8>, AllocError>
    ensures { IfOk result (λ list. list ≡ entries.now) }
{
    Ok(List::from_vec(Vec::from_slice(alloc, entries)?))
}

/// A table of joins: how many elements, the least of them, and the join of each two, row by row.
#[derive(Clone, Copy)]
pub(crate) struct Joins<'a> {
    pub count: u8,
    pub bottom: u8,
    pub join: &'a [u8],
}

impl Joins<'_> {
    /// The table of the lattice of one element.
    pub fn only() -> Joins<'static>
        ensures { shown result ≡ only_element }
    {
        Joins {
            count: 1,
            bottom: 0,
            join: &[0],
        }
    }

    /// The join of two elements.
    pub fn of(&self, a: u8, b: u8) -> u8
        ensures { result ≡ join_of (shown self.now) a b }
    {
        entry(self.count, self.join, a, b)
    }

    /// Whether an element is below another, or equals it.
    pub fn is_below(&self, a: u8, b: u8) -> bool
        ensures { result ≡ is_below (shown self.now) a b }
    {
        self.of(a, b) == b
    }

    /// Whether the join of the element with itself is another one.
    pub fn changes_itself(&self, a: u8) -> bool
        ensures { result ≡ changes_itself (shown self.now) a }
    {
        self.of(a, a) != a
    }

    /// Whether the join of the two is another one when they are exchanged.
    pub fn depends_on_order(&self, a: u8, b: u8) -> bool
        ensures { result ≡ depends_on_order (shown self.now) (a, b) }
    {
        self.of(a, b) != self.of(b, a)
    }

    /// Whether the join of the three depends on which two are joined first.
    pub fn depends_on_grouping(&self, a: u8, b: u8, c: u8) -> bool
        ensures { result ≡ depends_on_grouping (shown self.now) ((a, b), c) }
    {
        self.of(self.of(a, b), c) != self.of(a, self.of(b, c))
    }

    /// Whether the join with bottom, on one side or the other, is another element.
    pub fn changes_by_bottom(&self, a: u8) -> bool
        ensures { result ≡ changes_by_bottom (shown self.now) a }
    {
        self.of(self.bottom, a) != a || self.of(a, self.bottom) != a
    }
}
