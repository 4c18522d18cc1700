//! The tables of a system, worked out from where its constraints stand.
ghost use Rattle.std.specs.Prelude.{◌≡◌, ◌≤◌, ◌<◌, ◌*◌, ◌+◌, ◌++◌, ℕ, [], Some, All, get_or, IfOk, OnOk, length, map};
ghost use Rattle.std.specs.List.{flat_map, range_with_len};
ghost use Rattle.flow_syntax.specs.declared.expr.Side.{Side as SideValue};
ghost use Rattle.tree_system.specs.Reading.{number_at};
ghost use Rattle.tree_system.specs.Tables.{no_bases, no_constraint};
ghost use Rattle.tree_system.specs.inner.Rows.{IsRow, bases_by, no_ends, number_by};

use crate::bodies::{Bodies, Reading};
use crate::reading::{Bases, base_at};
use flow_term::{List, Node};
use std::alloc::{AllocError, Global};
use tree_build::Ends;
use tree_constraints::Constraint;

/// The numbers below a count, in order.
pub(crate) fn numbers_below(alloc: Global, count: usize) -> Result<List<usize>, AllocError>
    ensures { IfOk result (λ list. list ≡ range_with_len 0 count) }
{
    let mut list = List::new(alloc);
    for number in 0..count {
        list.push(number)?;
    }
    Ok(list)
}

/// For each constraint the numbers of the first unknowns of the two nodes at which its body reads, where each node has so many
/// properties, and there are so many unknowns.
pub(crate) fn bases_of(
    alloc: Global,
    ends: &[Ends],
    properties: usize,
    unknowns: usize,
) -> Result<Vec<Bases>, AllocError>
    requires { All (λ e. (e.number * properties ≤ unknowns) × (e.origin * properties ≤ unknowns)) ends.now }
    ensures { IfOk result (λ bases. bases.items ≡ map (bases_by properties) ends.now) }
{
    let mut bases = Vec::new(alloc);
    for at in 0..ends.len() {
        bases.push(Bases {
            this: ends[at].number * properties,
            other: ends[at].origin * properties,
        })?;
    }
    Ok(bases)
}

/// The numbers of what a body reads, where there are so many unknowns.
pub(crate) fn add_readings(
    readings: &[Reading],
    bases: Bases,
    places: &[usize],
    unknowns: usize,
    row: &mut List<usize>,
) -> Result<(), AllocError>
    requires { All (λ r. (r.property < length places.now) × (number_by bases places.now r < unknowns)) readings.now }
    ensures { OnOk result (row.new ≡ row.old ++ map (number_by bases places.now) readings.now) }
{
    for at in 0..readings.len() {
        let place = places[readings[at].property as usize];
        row.push(base_at(bases, readings[at].side) + place)?;
    }
    Ok(())
}

/// The numbers of what a constraint reads, whose value this rule gives, or is copied; there are so many unknowns.
pub(crate) fn row_of<B: Bodies>(
    alloc: Global,
    bodies: &B,
    rule: Option<u32>,
    bases: Bases,
    place: usize,
    places: &[usize],
    unknowns: usize,
) -> Result<List<usize>, AllocError>
    requires there { (i : ℕ) → rule ≡ Some i → i < length (B.spec bodies.now).rules }
    requires copied { bases.other + place < unknowns }
    requires places { length places.now ≡ length (B.spec bodies.now).properties }
    requires within { (p : ℕ) (s : SideValue) → p < length places.now → number_at bases places.now p s < unknowns }
    ensures { IfOk result (IsRow (B.spec bodies.now) bases place places.now rule) }
{
    let mut row = List::new(alloc);
    match rule {
        Some(rule) => add_readings(
            bodies.readings(rule).as_slice(),
            bases,
            places,
            unknowns,
            &mut row,
        )?,
        None => row.push(bases.other + place)?,
    }
    Ok(row)
}

/// For each constraint the numbers of what it reads, where there are so many unknowns.
pub(crate) fn reads_of<B: Bodies>(
    alloc: Global,
    bodies: &B,
    constraints: &[Constraint],
    ends: &[Ends],
    bases: &[Bases],
    places: &[usize],
    unknowns: usize,
) -> Result<Vec<List<usize>>, AllocError>
    requires there { (k i : ℕ) → k < length constraints.now → (get_or constraints.now k no_constraint).rule ≡ Some i → i < length (B.spec bodies.now).rules }
    requires ends { length ends.now ≡ length constraints.now }
    requires bases { length bases.now ≡ length constraints.now }
    requires copied { (k : ℕ) → k < length constraints.now → (get_or bases.now k no_bases).other + (get_or ends.now k no_ends).place < unknowns }
    requires places { length places.now ≡ length (B.spec bodies.now).properties }
    requires within { (k p : ℕ) (s : SideValue) → k < length constraints.now → p < length places.now → number_at (get_or bases.now k no_bases) places.now p s < unknowns }
    ensures len { IfOk result (λ rows. length rows.items ≡ length constraints.now) }
    ensures rows { IfOk result (λ rows. (k : ℕ) → k < length constraints.now
        → IsRow (B.spec bodies.now) (get_or bases.now k no_bases) (get_or ends.now k no_ends).place places.now (get_or constraints.now k no_constraint).rule (get_or rows.items k [])) }
{
    let mut rows = Vec::new(alloc);
    for at in 0..constraints.len() {
        rows.push(row_of(
            alloc,
            bodies,
            constraints[at].rule,
            bases[at],
            ends[at].place,
            places,
            unknowns,
        )?)?;
    }
    Ok(rows)
}

/// Puts these numbers last.
fn add_each(numbers: &[u32], table: &mut Vec<u32>) -> Result<(), AllocError>
    ensures { OnOk result (table.new.items ≡ table.old.items ++ numbers.now) }
{
    for at in 0..numbers.len() {
        table.push(numbers[at])?;
    }
    Ok(())
}

/// For each unknown the number of its property, where each node has properties of these numbers.
pub(crate) fn properties_of(
    alloc: Global,
    numbers: &[u32],
    nodes: &[Node],
) -> Result<Vec<u32>, AllocError>
    ensures { IfOk result (λ table. table.items ≡ flat_map (λ n. numbers.now) nodes.now) }
{
    let mut table = Vec::new(alloc);
    for _node in nodes {
        add_each(numbers, &mut table)?;
    }
    Ok(table)
}
