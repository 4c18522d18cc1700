//! The tables of a specification's declared lattices.
ghost use Rattle.std.specs.Prelude.{◌≡◌, ◌++◌, ◌∷◌, [], IfOk, OnErr, OnOk};
ghost use Rattle.std.specs.Option.{option_copied};
ghost use Rattle.lattice_tables.specs.Tables.{IsBuiltFrom};
ghost use Rattle.lattice_any.specs.Tables.{declaration_of, declarations_in, declared_by, found_table, table_among};

use crate::named::NamedTable;
use crate::names::copy_names;
use flow_syntax::TableDecl;
use flow_term::Text;
use lattice_tables::TableL;
use std::alloc::{AllocError, Global};
use std::marker::Model;

/// A declared lattice: its name and its table.
#[derive(Drop)]
pub struct DeclaredTable {
    name: Text,
    table: NamedTable,
}

/// The table of a declaration with its name. Fails only for want of memory.
fn declared_table(
    alloc: Global,
    decl: &TableDecl,
    table: TableL,
) -> Result<DeclaredTable, AllocError>
    requires { IsBuiltFrom decl.now table }
    ensures { IfOk result (λ declared. declared_by declared ≡ declaration_of decl.now) }
{
    let name = decl.name.text.duplicate()?;
    let elements = copy_names(alloc, decl.elements.as_slice())?;
    Ok(DeclaredTable {
        name,
        table: NamedTable { elements, table },
    })
}

/// The same tables. Fails only for want of memory.
fn copy_tables(alloc: Global, tables: &[DeclaredTable]) -> Result<Vec<DeclaredTable>, AllocError>
    ensures { IfOk result (λ copy. copy.items ≡ tables.now) }
{
    let mut copy = Vec::new(alloc);
    for declared in tables {
        let name = declared.name.duplicate()?;
        let table = declared.table.duplicate(alloc)?;
        copy.push(DeclaredTable { name, table })?;
    }
    Ok(copy)
}

/// The first table of this name, if there is one.
fn find_table<'a>(tables: &'a [DeclaredTable], name: &Text) -> Option<&'a NamedTable>
    ensures { found_table (option_copied result) ≡ table_among (declarations_in tables.now) name.now }
{
    for declared in tables {
        if declared.name == *name {
            return Some(&declared.table);
        }
    }
    None
}

/// The tables of declared lattices, by the names of these. Contracts see the list of them.
#[derive(Drop)]
pub struct Tables {
    entries: Vec<DeclaredTable>,
}

impl Model for Tables {
    ghost use Rattle.std.specs.Prelude.{List};
    ghost use Rattle.lattice_any.specs.declared.tables.DeclaredTable.{DeclaredTable};

    ghost Value = { List DeclaredTable };

    ghost view = { λ t. t.entries.items };
}

impl Tables {
    /// No tables. Takes no memory.
    pub fn new(alloc: Global) -> Tables
        ensures { result ≡ [] }
    {
        Tables {
            entries: Vec::new(alloc),
        }
    }

    /// Puts the table of a declaration behind the others. Of two with one name the first counts. Fails only for want of memory, and
    /// then the tables stay as they were.
    pub fn add(&mut self, decl: &TableDecl, table: TableL) -> Result<(), AllocError>
        requires { IsBuiltFrom decl.now table }
        ensures ok { OnOk result (declarations_in self.new ≡ declarations_in self.old ++ declaration_of decl.now ∷ []) }
        ensures err { OnErr result (self.new ≡ self.old) }
    {
        let declared = declared_table(*self.entries.allocator(), decl, table)?;
        self.entries.push(declared)?;
        Ok(())
    }

    /// Equal tables. Fails only for want of memory.
    pub fn duplicate(&self, alloc: Global) -> Result<Tables, AllocError>
        ensures { IfOk result (λ tables. tables ≡ self.now) }
    {
        let entries = copy_tables(alloc, self.entries.as_slice())?;
        Ok(Tables { entries })
    }

    /// The first table of this name, if there is one.
    pub(crate) fn named(&self, name: &Text) -> Option<&NamedTable>
        ensures { found_table (option_copied result) ≡ table_among (declarations_in self.now) name.now }
    {
        find_table(self.entries.as_slice(), name)
    }
}
