//! Rows of numbers, turned round.
ghost use Rattle.std.specs.Prelude.{◌≡◌, ◌<◌, ◌+◌, ℕ, List as Sequence, [], All, IfOk, OnOk, filter, get_or, length, nat_eq, take};
ghost use Rattle.std.specs.List.{range_with_len};
ghost use Rattle.list_theory.specs.Lists.{has};
ghost use Rattle.index_tables.specs.inner.Gained.{gained};

use crate::rows::{empty_rows, push_at};
use flow_term::List;
use std::alloc::{AllocError, Global};

/// For each number below `count` the rows that have it, by their places, in order; a row that has a number twice is there once.
/// It takes time in the lengths of the rows and in their number, as long as each row is short.
pub fn turned(
    alloc: Global,
    rows: &[List<usize>],
    count: usize,
) -> Result<Vec<List<usize>>, AllocError>
    requires { All (λ row. All (λ u. u < count) row) rows.now }
    ensures len { IfOk result (λ table. length table.items ≡ count) }
    ensures rows { IfOk result (λ table. (u : ℕ) → u < count
        → get_or table.items u [] ≡ filter (λ k. has nat_eq (get_or rows.now k []) u) (range_with_len 0 (length rows.now))) }
{
    let mut table = empty_rows(alloc, count)?;
    for number in 0..rows.len() {
        add_to_each(&mut table, rows[number].as_slice(), number)?;
    }
    Ok(table)
}

/// Puts a number last into each of these rows, once.
fn add_to_each(
    table: &mut Vec<List<usize>>,
    places: &[usize],
    number: usize,
) -> Result<(), AllocError>
    requires { All (λ u. u < length table.old.items) places.now }
    ensures len { OnOk result (length table.new.items ≡ length table.old.items) }
    ensures each { OnOk result ((u : ℕ) → get_or table.new.items u [] ≡ gained (get_or table.old.items u []) (has nat_eq places.now u) number) }
{
    for at in 0..places.len() {
        add_at(table, places, at, number)?;
    }
    Ok(())
}

/// Puts a number last into the row of this place, unless the place stands before.
fn add_at(
    table: &mut Vec<List<usize>>,
    places: &[usize],
    at: usize,
    number: usize,
) -> Result<(), AllocError>
    requires at { at < length places.now }
    requires row { get_or places.now at 0 < length table.old.items }
    ensures len { OnOk result (length table.new.items ≡ length table.old.items) }
    ensures step { OnOk result ((u : ℕ) (row : Sequence ℕ) → get_or table.old.items u [] ≡ gained row (has nat_eq (take at places.now) u) number
        → get_or table.new.items u [] ≡ gained row (has nat_eq (take (at + 1) places.now) u) number) }
{
    if is_before(places, at) {
        return Ok(());
    }
    push_at(table, places[at], number)
}

/// Whether what stands at a place stands before it too.
fn is_before(places: &[usize], at: usize) -> bool
    requires { at < length places.now }
    ensures { result ≡ has nat_eq (take at places.now) (get_or places.now at 0) }
{
    for earlier in 0..at {
        if places[earlier] == places[at] {
            return true;
        }
    }
    false
}
