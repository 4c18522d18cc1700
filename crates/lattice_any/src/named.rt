//! Lattices of tables with the names of their elements.
ghost use Rattle.std.specs.Prelude.{◌≡◌};
ghost use Rattle.value_domains.specs.Domains.{texts_of};
ghost use Rattle.table_laws.specs.JoinTables.{named, numbered};
ghost use Rattle.lattice_tables.specs.Tables.{join_table};

use crate::names::copy_names;
use flow_syntax::Named;
use flow_term::{List, Text};
use lattice_tables::{TableL, number_of};
use std::alloc::{AllocError, Global};

/// A lattice of a table whose elements have names. Each name that bottom or a join has is told apart from those before it.
#[derive(Drop)]
pub struct NamedTable {
    /// The names of the elements, in the order of their numbers.
    pub(crate) elements: List<Named>,
    /// The lattice of the numbers.
    pub(crate) table: TableL,
    pub ghost numbers: { numbered (named (texts_of elements) (join_table table)) ≡ join_table table },
}

impl NamedTable {
    ghost use Rattle.std.specs.Prelude.{◌↔◌, ◌<◌, [], IfOk, IsTrue, get_or, length};
    ghost use Rattle.value_domains.specs.Domains.{has_element, one_element, place_in, table_join};
    ghost use Rattle.table_laws.specs.JoinTables.{IsElement};
    ghost use Rattle.lattice_any.specs.Tables.{table_of_names};

    /// The lattice of one element, which has the empty name. Fails only for want of memory.
    pub(crate) fn only(alloc: Global) -> Result<NamedTable, AllocError>
        ensures { IfOk result (λ table. table_of_names table ≡ one_element) }
    {
        let mut elements = List::new(alloc);
        elements.push(Named {
            text: Text::new(alloc),
            place: 0,
        })?;
        let table = TableL::only(alloc)?;
        Ok(NamedTable { elements, table })
    }

    /// The number of a name; where it is none of the elements, how many there are.
    fn number(&self, name: &Text) -> u8
        ensures { result ≡ place_in (texts_of self.now.elements) name.now }
    {
        number_of(self.elements.as_slice(), name)
    }

    /// The name of an element.
    fn name(&self, element: u8) -> &Text
        requires { IsElement (join_table self.now.table) element }
        ensures { result.now ≡ get_or (texts_of self.now.elements) element [] }
    {
        &self.elements.as_slice()[usize::from(element)].text
    }

    /// Whether the name is that of an element.
    pub(crate) fn has(&self, name: &Text) -> bool
        ensures { IsTrue result ↔ IsTrue (has_element (table_of_names self.now) name.now) }
    {
        usize::from(self.number(name)) < self.elements.len()
    }

    /// The name of the least element.
    pub(crate) fn least(&self) -> &Text
        ensures { result.now ≡ (table_of_names self.now).bottom }
    {
        self.name(self.table.least())
    }

    /// The name of the join of two elements.
    pub(crate) fn join(&self, x: &Text, y: &Text) -> &Text
        requires left { IsTrue (has_element (table_of_names self.now) x.now) }
        requires right { IsTrue (has_element (table_of_names self.now) y.now) }
        ensures { result.now ≡ table_join (table_of_names self.now) x.now y.now }
    {
        self.name(self.table.join_of(self.number(x), self.number(y)))
    }

    /// Whether an element is below another, or equals it.
    pub(crate) fn is_below(&self, x: &Text, y: &Text) -> bool
        requires left { IsTrue (has_element (table_of_names self.now) x.now) }
        requires right { IsTrue (has_element (table_of_names self.now) y.now) }
        ensures { IsTrue result ↔ (table_join (table_of_names self.now) x.now y.now ≡ y.now) }
    {
        let above = self.number(y);
        self.table.join_of(self.number(x), above) == above
    }

    /// An equal one. Fails only for want of memory.
    pub(crate) fn duplicate(&self, alloc: Global) -> Result<NamedTable, AllocError>
        ensures { IfOk result (λ table. table ≡ self.now) }
    {
        let elements = copy_names(alloc, self.elements.as_slice())?;
        let table = self.table.duplicate(alloc)?;
        Ok(NamedTable { elements, table })
    }
}
