//! The steps that a solver made, in order.
ghost use Rattle.std.specs.Prelude.{◌≡◌, [], ◌∷◌, ◌++◌, OnOk, OnErr, ◌<◌, ◌≤◌, filter, length, nat_eq, true};
ghost use Rattle.std.specs.Iterator.{YieldsFirst, item_count};
ghost use Rattle.list_theory.specs.Lists.{has};
ghost use Rattle.index_lists.specs.Records.{numbers, pairs, without_number};
ghost use Rattle.index_lists.specs.Traces.{IsTrace, aims_elsewhere};

use crate::records::PairRecords;
use linked_lists::{ChainIter, Chains};
use std::alloc::{AllocError, Global};
use std::marker::Model;

/// Takes the memory for one step more, to a target.
fn make_room(
    steps: &mut PairRecords,
    by_target: &mut Chains,
    target: usize,
) -> Result<(), AllocError>
    requires trace { IsTrace steps.old.entries by_target.old }
    ensures trace { IsTrace steps.new.entries by_target.new }
    ensures entries { steps.new.entries ≡ steps.old.entries }
    ensures spare { OnOk result (0 < steps.new.spare) }
    ensures linked { OnOk result (steps.new.capacity ≤ steps.new.linked) }
    ensures items { OnOk result (steps.new.capacity ≤ by_target.new.items) }
    ensures target { OnOk result (target < length by_target.new.lists) }
{
    let targets = target.checked_add(1).ok_or(AllocError)?;
    steps.reserve(1)?;
    by_target.grow_items(steps.capacity())?;
    by_target.grow_lists(targets)
}

/// Appends a step.
fn push_step(
    steps: &mut PairRecords,
    by_target: &mut Chains,
    target: usize,
    key: usize,
) -> Result<(), AllocError>
    requires trace { IsTrace steps.old.entries by_target.old }
    ensures trace { IsTrace steps.new.entries by_target.new }
    ensures ok { OnOk result (pairs steps.new.entries ≡ pairs steps.old.entries ++ (target, key) ∷ []) }
    ensures err { OnErr result (pairs steps.new.entries ≡ pairs steps.old.entries) }
{
    make_room(steps, by_target, target)?;
    let number = steps.add((target, key));
    by_target.push(target, number);
    Ok(())
}

/// Takes a step out of the order and of its target's list.
fn remove_step(steps: &mut PairRecords, by_target: &mut Chains, number: usize)
    requires trace { IsTrace steps.old.entries by_target.old }
    requires there { has nat_eq (numbers steps.old.entries) number ≡ true }
    ensures trace { IsTrace steps.new.entries by_target.new }
    ensures entries { steps.new.entries ≡ without_number steps.old.entries number }
{
    let (target, _key) = steps.remove(number);
    by_target.remove(target, number);
}

/// Takes out the target's steps.
fn drop_target(steps: &mut PairRecords, by_target: &mut Chains, target: usize)
    requires trace { IsTrace steps.old.entries by_target.old }
    ensures trace { IsTrace steps.new.entries by_target.new }
    ensures steps { pairs steps.new.entries ≡ filter (aims_elsewhere target) (pairs steps.old.entries) }
{
    while let Some(number) = by_target.first(target) {
        remove_step(steps, by_target, number);
    }
}

/// Steps from first to last, each a target and a key.
///
/// A step is in the one order and in the list of its target, so the removal of a target's steps touches no step of another
/// target but the neighbours in the order.
#[derive(Drop)]
pub struct TraceList {
    steps: PairRecords,
    /// A list for each target up to the greatest that a step had.
    by_target: Chains,
}

impl Model for TraceList {
    ghost use Rattle.std.specs.Prelude.{ℕ, List};
    ghost use Rattle.index_lists.specs.Records.{pairs};
    ghost use Rattle.index_lists.specs.Traces.{IsTrace};

    ghost Value = { List (ℕ × ℕ) };

    ghost view = { λ t. pairs t.steps.entries };

    ghost invariant = { λ t. IsTrace t.steps.entries t.by_target };
}

impl TraceList {
    /// No steps.
    pub fn new(alloc: Global) -> TraceList
        ensures { result ≡ [] }
    {
        TraceList {
            steps: PairRecords::new(alloc),
            by_target: Chains::new(alloc),
        }
    }

    /// Appends a step. The first step of a target takes memory for a list of each target below it that has none yet.
    pub fn push(&mut self, target: usize, key: usize) -> Result<(), AllocError>
        ensures ok { OnOk result (self.new ≡ self.old ++ (target, key) ∷ []) }
        ensures err { OnErr result (self.new ≡ self.old) }
    {
        push_step(&mut self.steps, &mut self.by_target, target, key)
    }

    /// Takes out exactly the target's steps, and keeps the order of the rest. It goes over those steps alone.
    pub fn remove_target(&mut self, target: usize)
        ensures { self.new ≡ filter (aims_elsewhere target) self.old }
    {
        drop_target(&mut self.steps, &mut self.by_target, target);
    }

    /// Each step as `(target, key)`, from first to last.
    pub fn iter(&self) -> TraceIter<'_>
        ensures { result ≡ self.now }
    {
        list_steps(&self.steps)
    }
}

/// All steps.
fn list_steps(steps: &PairRecords) -> TraceIter<'_>
    ensures { result ≡ pairs steps.now.entries }
{
    TraceIter {
        steps,
        numbers: steps.numbers(),
    }
}

/// The steps that are left, in order.
#[derive(Drop)]
pub struct TraceIter<'a> {
    steps: &'a PairRecords,
    numbers: ChainIter<'a>,
}

impl<'a> Model for TraceIter<'a> {
    ghost use Rattle.std.specs.Prelude.{ℕ, List, map};
    ghost use Rattle.index_lists.specs.Records.{pair_of};

    ghost Value = { List (ℕ × ℕ) };

    ghost view = { λ it. map (pair_of it.steps.now.entries) it.numbers };
}

impl<'a> Iterator for TraceIter<'a> {
    type Item = (usize, usize);

    ghost next_gives = { YieldsFirst (λ rest. rest) };

    ghost remaining = { item_count (λ rest. rest) };

    fn next(&mut self) -> Option<(usize, usize)> {
        let number = self.numbers.next()?;
        Some(self.steps.pair(number))
    }
}
