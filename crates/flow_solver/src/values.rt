//! Values by unknown.
ghost use Rattle.std.specs.Prelude.{◌≡◌, ◌≢◌, ◌<◌, ◌≤◌, ℕ, [], OnOk, true, false, cond, map, length, IsSome, Some, None, slice_index_or, slice_set, option_map};
ghost use Rattle.list_theory.specs.Lists.{has};
ghost use Rattle.constraint_theory.specs.Systems.{numbers};
ghost use Rattle.constraint_theory.specs.Edits.{Movable};
ghost use Rattle.flow_solver.specs.Assigned.{given};
ghost use Rattle.std.specs.Option.{option_copied};

use crate::system::System;
use lattice_base::Lattice;
use std::alloc::{AllocError, Global};
use std::marker::Model;

/// Makes slots up to a number, with no value in them.
fn reach<V: Drop>(slots: &mut Vec<Option<V>>, unknown: usize) -> Result<(), AllocError>
    ensures long { OnOk result (unknown < length slots.new.items) }
    ensures longer { length slots.old.items ≤ length slots.new.items }
    ensures kept { (u : ℕ) → slice_index_or slots.new.items u None ≡ slice_index_or slots.old.items u None }
{
    while slots.len() <= unknown {
        slots.push(None)?;
    }
    Ok(())
}

/// A value for each unknown that has one.
#[derive(Drop)]
pub struct Values<V: Drop> {
    slots: Vec<Option<V>>,
}

impl<V: Drop> Model for Values<V> {
    ghost use Rattle.std.specs.Prelude.{List, Option};

    ghost Value = { List (Option V) };

    ghost view = { λ v. v.slots.items };
}

impl<V: Drop> Values<V> {
    /// The unknown's value. There is none exactly where there is no such unknown.
    pub fn get(&self, unknown: usize) -> Option<&V>
        ensures { option_copied result ≡ slice_index_or self.now unknown None }
    {
        if unknown < self.slots.len() {
            self.slots[unknown].as_ref()
        } else {
            None
        }
    }

    /// No values.
    pub(crate) fn new(alloc: Global) -> Values<V>
        ensures { result ≡ [] }
    {
        Values {
            slots: Vec::new(alloc),
        }
    }

    /// Gives an unknown its first value, and a slot where it has none.
    pub(crate) fn put(&mut self, unknown: usize, value: V) -> Result<(), AllocError>
        ensures here { OnOk result (slice_index_or self.new unknown None ≡ Some value) }
        ensures others { OnOk result ((u : ℕ) → u ≢ unknown → slice_index_or self.new u None ≡ slice_index_or self.old u None) }
    {
        reach(&mut self.slots, unknown)?;
        self.slots[unknown] = Some(value);
        Ok(())
    }

    /// Gives an unknown that has a slot a value.
    pub(crate) fn set(&mut self, unknown: usize, value: V)
        requires { unknown < length self.old }
        ensures { self.new ≡ slice_set self.old unknown (Some value) }
    {
        self.slots[unknown] = Some(value);
    }

    /// Takes away the value of an unknown that has a slot.
    fn clear(&mut self, unknown: usize)
        ensures others { (u : ℕ) → slice_index_or self.new u None ≡ cond (numbers.unknown unknown u) None (slice_index_or self.old u None) }
        ensures len { length self.new ≡ length self.old }
    {
        if unknown < self.slots.len() {
            self.slots[unknown] = None;
        }
    }

    /// Makes slots up to an unknown, with no value in them.
    fn reach(&mut self, unknown: usize) -> Result<(), AllocError>
        ensures long { OnOk result (unknown < length self.new) }
        ensures longer { length self.old ≤ length self.new }
        ensures kept { (u : ℕ) → slice_index_or self.new u None ≡ slice_index_or self.old u None }
    {
        reach(&mut self.slots, unknown)
    }

    /// The number of slots.
    fn len(&self) -> usize
        ensures { result ≡ length self.now }
    {
        self.slots.len()
    }
}

/// Makes slots for unknowns, with no value in them.
pub(crate) fn reach_each<V: Drop>(
    values: &mut Values<V>,
    unknowns: &[usize],
) -> Result<(), AllocError>
    ensures long { OnOk result ((u : ℕ) → has numbers.unknown unknowns.now u ≡ true → u < length values.new) }
    ensures longer { length values.old ≤ length values.new }
    ensures kept { (u : ℕ) → slice_index_or values.new u None ≡ slice_index_or values.old u None }
{
    for unknown in unknowns {
        values.reach(*unknown)?;
    }
    Ok(())
}

/// Takes away the values of the unknowns.
pub(crate) fn clear_each<V: Drop>(values: &mut Values<V>, unknowns: &[usize])
    ensures cleared { (u : ℕ) → slice_index_or values.new u None
        ≡ cond (has numbers.unknown unknowns.now u) None (slice_index_or values.old u None) }
    ensures len { length values.new ≡ length values.old }
{
    for unknown in unknowns {
        values.clear(*unknown);
    }
}

/// Renames the value that is there.
fn shift_there<S: System>(system: &S, edit: &S::Edit, slot: &mut Option<<S::L as Lattice>::V>)
    requires edit { S.is_edit system.now edit.now }
    requires movable { (v : S.L.V) → slot.old ≡ Some v → Movable (S.change edit.now) v }
    ensures { slot.new ≡ option_map (S.change edit.now).shift slot.old }
{
    if let Some(value) = slot {
        system.shift(edit, value);
    }
}

/// Renames each value that is there.
fn shift_slots<S: System>(system: &S, edit: &S::Edit, slots: &mut Vec<Option<<S::L as Lattice>::V>>)
    requires edit { S.is_edit system.now edit.now }
    requires movable { (u : ℕ) (v : S.L.V) → slice_index_or slots.old.items u None ≡ Some v → Movable (S.change edit.now) v }
    ensures shifted { (u : ℕ) → slice_index_or slots.new.items u None ≡ option_map (S.change edit.now).shift (slice_index_or slots.old.items u None) }
    ensures len { length slots.new.items ≡ length slots.old.items }
{
    for slot in slots.iter_mut() {
        shift_there(system, edit, slot);
    }
}

/// Renames each value. Where the edit renames nothing, none is touched.
pub(crate) fn shift_each<S: System>(
    system: &S,
    edit: &S::Edit,
    values: &mut Values<<S::L as Lattice>::V>,
)
    requires edit { S.is_edit system.now edit.now }
    requires movable { (u : ℕ) (v : S.L.V) → slice_index_or values.old u None ≡ Some v → Movable (S.change edit.now) v }
    ensures shifted { (u : ℕ) → slice_index_or values.new u None ≡ option_map (S.change edit.now).shift (slice_index_or values.old u None) }
    ensures len { length values.new ≡ length values.old }
{
    if system.renamed(edit) {
        shift_slots(system, edit, &mut values.slots);
    }
}

/// Gives values to unknowns that have slots.
pub(crate) fn put_each<V: Drop>(values: &mut Values<V>, pairs: &mut Vec<(usize, V)>)
    requires { (u : ℕ) → has numbers.unknown (map (λ pair. pair.0) pairs.old.items) u ≡ true → u < length values.old }
    ensures given { (u : ℕ) → slice_index_or values.new u None ≡ given pairs.old.items u (slice_index_or values.old u None) }
    ensures none { pairs.new.items ≡ [] }
    ensures len { length values.new ≡ length values.old }
{
    while let Some((unknown, value)) = pairs.pop() {
        values.set(unknown, value);
    }
}
