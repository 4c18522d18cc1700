//! The declared lattices of a specification.
ghost use Rattle.std.specs.Prelude.{◌≡◌, ◌<◌, ◌^◌, IfErr, IfOk, Some, bytes_eq, find, length, slice_get};
ghost use Rattle.flow_eval.specs.inner.Built.{AreLatticesOf, IsKnown, IsLatticeRefusal, refused_lattice};
ghost use Rattle.lattice_any.specs.Tables.{AreDeclared};
ghost use Rattle.lattice_tables.specs.Tables.{join_table};
ghost use Rattle.table_laws.specs.JoinTables.{numbered};
ghost use Rattle.value_domains.specs.Domains.{table_named};

use crate::refusal::PrepareRefusal;
use flow_syntax::{Named, TableDecl, TypedSpec};
use flow_term::{List, Text};
use lattice_any::Tables;
use lattice_tables::{TableL, TableRefusal, build_declared};
use std::alloc::{AllocError, Global};

/// The lattices of the declarations, in their order. The first that breaks a law is told.
pub(crate) fn build_lattices(
    alloc: Global,
    spec: &TypedSpec,
) -> Result<List<TableL>, PrepareRefusal>
    requires { length spec.now.spec.lattices < 2 ^ 32 }
    ensures built { IfOk result (AreLatticesOf spec.now.spec.lattices) }
    ensures refused { IfErr result (IsLatticeRefusal spec.now.spec) }
{
    let mut lattices = List::new(alloc);
    for (number, decl) in spec.spec.lattices.as_slice().iter().enumerate() {
        match build_declared(alloc, decl) {
            Ok(lattice) => lattices.push(lattice)?,
            Err(refusal) => return Err(refused_lattice(number as u32, refusal)),
        }
    }
    Ok(lattices)
}

/// The refusal of a specification for the lattice of this number.
fn refused_lattice(lattice: u32, refusal: TableRefusal) -> PrepareRefusal
    ensures { result ≡ refused_lattice lattice refusal }
{
    match refusal {
        TableRefusal::Law(fault) => PrepareRefusal::Law { lattice, fault },
        TableRefusal::NoMemory => PrepareRefusal::NoMemory,
    }
}

/// The number of the first declared lattice of this name; where there is none, how many there are. Takes no memory.
pub fn lattice_number(declared: &[TableDecl], name: &Text) -> usize
    ensures { slice_get declared.now result ≡ find (λ d. bytes_eq name.now d.name.text) declared.now }
{
    for (number, decl) in declared.iter().enumerate() {
        if decl.name.text == *name {
            return number;
        }
    }
    declared.len()
}

/// The first declaration of this name.
pub(crate) fn declaration_named<'a>(declared: &'a [TableDecl], name: &Text) -> &'a TableDecl
    requires { IsKnown declared.now name.now }
    ensures { find (λ d. bytes_eq name.now d.name.text) declared.now ≡ Some result.now }
{
    &declared[lattice_number(declared, name)]
}

/// The first lattice of this name.
pub(crate) fn lattice_named<'a>(
    declared: &[TableDecl],
    lattices: &'a [TableL],
    name: &Named,
) -> &'a TableL
    requires are { AreLatticesOf declared.now lattices.now }
    requires known { IsKnown declared.now name.now.text }
    ensures { join_table result.now ≡ numbered (table_named declared.now name.now.text) }
{
    &lattices[lattice_number(declared, &name.text)]
}

/// The tables of lattices, by their names. Fails only for want of memory.
pub(crate) fn tables_of(
    alloc: Global,
    declared: &[TableDecl],
    lattices: &[TableL],
) -> Result<Tables, AllocError>
    requires { AreLatticesOf declared.now lattices.now }
    ensures { IfOk result (AreDeclared declared.now) }
{
    let mut tables = Tables::new(alloc);
    for (number, decl) in declared.iter().enumerate() {
        let table = lattices[number].duplicate(alloc)?;
        tables.add(decl, table)?;
    }
    Ok(tables)
}
