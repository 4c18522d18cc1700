//! Lattices made from types, and copies of them.
ghost use Rattle.std.specs.Prelude.{◌≡◌, IfOk};
ghost use Rattle.value_domains.specs.Domains.{listed};
ghost use Rattle.lattice_any.specs.Tables.{declarations_in, domain_in, table_among};
ghost use Rattle.lattice_any.specs.Types.{domain_of_any};

use crate::any::AnyL;
use crate::named::NamedTable;
use crate::tables::Tables;
use flow_syntax::LatticeType;
use flow_term::{Boxed, Text};
use std::alloc::{AllocError, Global};

/// The lattice of a table.
fn build_table(alloc: Global, tables: &Tables, name: &Text) -> Result<AnyL, AllocError>
    ensures { IfOk result (λ lattice. domain_of_any lattice ≡ listed (table_among (declarations_in tables.now) name.now)) }
{
    match tables.named(name) {
        Some(table) => Ok(AnyL::Table(table.duplicate(alloc)?)),
        None => Ok(AnyL::Table(NamedTable::only(alloc)?)),
    }
}

/// The lattice of a type.
pub(crate) fn build_lattice(
    alloc: Global,
    tables: &Tables,
    of: &LatticeType,
) -> Result<AnyL, AllocError>
    ensures { IfOk result (λ lattice. domain_of_any lattice ≡ domain_in tables.now of.now) }
{
    match of {
        LatticeType::May(sort) => Ok(AnyL::May(sort.duplicate(alloc)?)),
        LatticeType::Must(sort) => Ok(AnyL::Must(sort.duplicate(alloc)?)),
        LatticeType::Flat(sort) => Ok(AnyL::Flat(sort.duplicate(alloc)?)),
        LatticeType::Map(sort, values) => {
            let keys = sort.duplicate(alloc)?;
            let inner = build_lattice(alloc, tables, values.get())?;
            Ok(AnyL::Map(keys, Boxed::new(alloc, inner)?))
        }
        LatticeType::Pair(left, right) => {
            let first = build_lattice(alloc, tables, left.get())?;
            let second = build_lattice(alloc, tables, right.get())?;
            Ok(AnyL::Pair(Boxed::new(alloc, first)?, Boxed::new(alloc, second)?))
        }
        LatticeType::Table(name) => build_table(alloc, tables, &name.text),
    }
}

/// An equal lattice.
pub(crate) fn copy_lattice(alloc: Global, lattice: &AnyL) -> Result<AnyL, AllocError>
    ensures { IfOk result (λ copy. copy ≡ lattice.now) }
{
    match lattice {
        AnyL::May(sort) => Ok(AnyL::May(sort.duplicate(alloc)?)),
        AnyL::Must(sort) => Ok(AnyL::Must(sort.duplicate(alloc)?)),
        AnyL::Flat(sort) => Ok(AnyL::Flat(sort.duplicate(alloc)?)),
        AnyL::Map(sort, values) => {
            let keys = sort.duplicate(alloc)?;
            let inner = copy_lattice(alloc, values.get())?;
            Ok(AnyL::Map(keys, Boxed::new(alloc, inner)?))
        }
        AnyL::Pair(left, right) => {
            let first = copy_lattice(alloc, left.get())?;
            let second = copy_lattice(alloc, right.get())?;
            Ok(AnyL::Pair(Boxed::new(alloc, first)?, Boxed::new(alloc, second)?))
        }
        AnyL::Table(table) => Ok(AnyL::Table(table.duplicate(alloc)?)),
    }
}
