//! Functions made of tables of results.
ghost use Rattle.std.specs.Prelude.{IfOk, IfErr};
ghost use Rattle.table_laws.specs.FunctionTables.{IsTotal};
ghost use Rattle.lattice_tables.specs.Functions.{IsFunctionRefusal, IsMadeOf, binary, unary};

use crate::disorder::{Results, first_disorder};
use crate::function::TableFn;
use crate::joins::{Joins, copy_entries};
use crate::lattice::TableL;
use crate::refusal::FunctionRefusal;
use std::alloc::Global;

/// The function from one lattice to another with these results, in the order of its arguments. Refused exactly where it isn't
/// monotone; the first arguments that are below others while their result isn't are told, by the lower and then by the higher ones,
/// each with 0 as its second number.
pub fn build_unary(
    alloc: Global,
    from: &TableL,
    to: &TableL,
    table: &[u8],
) -> Result<TableFn, FunctionRefusal>
    requires { IsTotal (unary from.now to.now table.now) }
    ensures ok { IfOk result (IsMadeOf (unary from.now to.now table.now)) }
    ensures err { IfErr result (IsFunctionRefusal (unary from.now to.now table.now)) }
{
    let given = Results {
        left: from.joins(),
        right: Joins::only(),
        to: to.joins(),
        results: table,
    };
    if let Some((lower, higher)) = first_disorder(&given) {
        return Err(FunctionRefusal::NotMonotone { lower, higher });
    }
    let results = copy_entries(alloc, table)?;
    Ok(TableFn {
        left: from.count,
        right: 1,
        results,
    })
}

/// The function from two lattices to another with these results, one for each two arguments, row by row: for the first arguments 0
/// and 0, for 0 and 1, and so on. Refused exactly where it isn't monotone; the first arguments that are below others while their
/// result isn't are told, by the lower and then by the higher ones.
pub fn build_binary(
    alloc: Global,
    left: &TableL,
    right: &TableL,
    to: &TableL,
    table: &[u8],
) -> Result<TableFn, FunctionRefusal>
    requires { IsTotal (binary left.now right.now to.now table.now) }
    ensures ok { IfOk result (IsMadeOf (binary left.now right.now to.now table.now)) }
    ensures err { IfErr result (IsFunctionRefusal (binary left.now right.now to.now table.now)) }
{
    let given = Results {
        left: left.joins(),
        right: right.joins(),
        to: to.joins(),
        results: table,
    };
    if let Some((lower, higher)) = first_disorder(&given) {
        return Err(FunctionRefusal::NotMonotone { lower, higher });
    }
    let results = copy_entries(alloc, table)?;
    Ok(TableFn {
        left: left.count,
        right: right.count,
        results,
    })
}
