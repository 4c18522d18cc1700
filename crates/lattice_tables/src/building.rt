//! Lattices made of tables of joins.
ghost use Rattle.std.specs.Prelude.{◌≡◌, IfOk, IfErr};
ghost use Rattle.table_laws.specs.JoinTables.{IsComplete, table_by};
ghost use Rattle.lattice_tables.specs.Tables.{IsRefusal, join_table};

use crate::joins::{Joins, copy_entries};
use crate::lattice::TableL;
use crate::law_faults::law_fault;
use crate::refusal::TableRefusal;
use std::alloc::Global;

/// The lattice of `count` elements with this bottom and these joins, one for each two elements, row by row: the join of 0 and 0, of
/// 0 and 1, and so on. Refused exactly where it breaks a law of lattices; the first law is told, at the first elements.
pub fn build(alloc: Global, count: u8, bottom: u8, join: &[u8]) -> Result<TableL, TableRefusal>
    requires { IsComplete (table_by count bottom join.now) }
    ensures ok { IfOk result (λ lattice. join_table lattice ≡ table_by count bottom join.now) }
    ensures err { IfErr result (IsRefusal (table_by count bottom join.now)) }
{
    if let Some(fault) = law_fault(&Joins {
        count,
        bottom,
        join,
    }) {
        return Err(TableRefusal::Law(fault));
    }
    let join = copy_entries(alloc, join)?;
    Ok(TableL {
        count,
        bottom,
        join,
    })
}
