//! Marks of numbers, and a set of numbers.
ghost use Rattle.std.specs.Prelude.{◌≡◌, ◌<◌, ◌≤◌, ℕ, [], cond, length, true, false, nat_eq, slice_index_or, OnOk, OnErr};
ghost use Rattle.std.specs.List.Sorted.{IsPermutation, IsSortedBy};
ghost use Rattle.std.specs.Ordering.{is_lt};
ghost use Rattle.list_theory.specs.Lists.{has, push_all, push_one, distinct};
ghost use Rattle.flow_solver.specs.inner.NumberSets.{IsNumberSet};

use crate::system::System;
use std::alloc::{AllocError, Global};
use std::marker::Model;

/// Whether the marks say that the item is there.
pub(crate) fn is_marked(marks: &[bool], item: usize) -> bool
    ensures { result ≡ slice_index_or marks.now item false }
{
    item < marks.len() && marks[item]
}

/// Makes marks up to an item, which say no.
pub(crate) fn reach_mark(marks: &mut Vec<bool>, item: usize) -> Result<(), AllocError>
    ensures long { OnOk result (item < length marks.new.items) }
    ensures longer { length marks.old.items ≤ length marks.new.items }
    ensures kept { (x : ℕ) → slice_index_or marks.new.items x false ≡ slice_index_or marks.old.items x false }
{
    while marks.len() <= item {
        marks.push(false)?;
    }
    Ok(())
}

/// Makes marks up to each of the items, which say no.
pub(crate) fn reach_marks(marks: &mut Vec<bool>, items: &[usize]) -> Result<(), AllocError>
    ensures long { OnOk result ((x : ℕ) → has nat_eq items.now x ≡ true → x < length marks.new.items) }
    ensures longer { length marks.old.items ≤ length marks.new.items }
    ensures kept { (x : ℕ) → slice_index_or marks.new.items x false ≡ slice_index_or marks.old.items x false }
{
    for item in items {
        reach_mark(marks, *item)?;
    }
    Ok(())
}

/// Takes the item's mark away.
fn unmark(marks: &mut Vec<bool>, item: usize)
    ensures marks { (x : ℕ) → slice_index_or marks.new.items x false ≡ cond (nat_eq item x) false (slice_index_or marks.old.items x false) }
    ensures len { length marks.new.items ≡ length marks.old.items }
{
    if item < marks.len() {
        marks[item] = false;
    }
}

/// Takes the marks of the items away.
pub(crate) fn unmark_each(marks: &mut Vec<bool>, items: &[usize])
    ensures marks { (x : ℕ) → slice_index_or marks.new.items x false
        ≡ cond (has nat_eq items.now x) false (slice_index_or marks.old.items x false) }
    ensures len { length marks.new.items ≡ length marks.old.items }
{
    for item in items {
        unmark(marks, *item);
    }
}

/// Puts the item last, unless it is there.
fn put_new(items: &mut Vec<usize>, marks: &mut Vec<bool>, item: usize) -> Result<(), AllocError>
    requires { IsNumberSet items.old.items marks.old.items }
    ensures ok { OnOk result (items.new.items ≡ push_one nat_eq items.old.items item) }
    ensures err { OnErr result (items.new.items ≡ items.old.items) }
    ensures set { IsNumberSet items.new.items marks.new.items }
{
    if is_marked(marks, item) {
        return Ok(());
    }
    reach_mark(marks, item)?;
    items.push(item)?;
    marks[item] = true;
    Ok(())
}

/// Takes all items out, by way of the items alone.
fn take_all(items: &mut Vec<usize>, marks: &mut Vec<bool>)
    requires { IsNumberSet items.old.items marks.old.items }
    ensures none { items.new.items ≡ [] }
    ensures set { IsNumberSet items.new.items marks.new.items }
{
    unmark_each(marks, items);
    items.clear();
}

/// Brings keys into the order of keys. It takes no memory.
fn sort_keys<S: System>(system: &S, keys: &mut Vec<usize>)
    ensures permutation { IsPermutation keys.old.items keys.new.items }
    ensures sorted { IsSortedBy (λ a b. is_lt (S.order system.now a b)) keys.new.items }
{
    keys.sort_unstable_by(|a, b| system.compare(*a, *b));
}

/// Numbers, each once, in the order in which they came.
///
/// What is emptied and filled again costs time in the number of items that it had and gets: a mark stays for each number
/// up to the greatest that was ever there.
#[derive(Drop)]
pub(crate) struct NumberSet {
    items: Vec<usize>,
    marks: Vec<bool>,
}

impl Model for NumberSet {
    ghost use Rattle.std.specs.Prelude.{List, ℕ};
    ghost use Rattle.flow_solver.specs.inner.NumberSets.{IsNumberSet};

    ghost Value = { List ℕ };

    ghost view = { λ s. s.items.items };

    ghost invariant = { λ s. IsNumberSet s.items.items s.marks.items };
}

impl NumberSet {
    /// No numbers.
    pub(crate) fn new(alloc: Global) -> NumberSet
        ensures { result ≡ [] }
    {
        NumberSet {
            items: Vec::new(alloc),
            marks: Vec::new(alloc),
        }
    }

    /// Takes all numbers out.
    pub(crate) fn clear(&mut self)
        ensures { self.new ≡ [] }
    {
        take_all(&mut self.items, &mut self.marks);
    }

    /// Puts the item last. Where it is there, the set stays as it is.
    pub(crate) fn insert(&mut self, item: usize) -> Result<(), AllocError>
        ensures ok { OnOk result (self.new ≡ push_one nat_eq self.old item) }
        ensures err { OnErr result (self.new ≡ self.old) }
    {
        put_new(&mut self.items, &mut self.marks, item)
    }

    /// Brings the items, which are keys, into the order of keys. It takes no memory.
    pub(crate) fn sort<S: System>(&mut self, system: &S)
        ensures same { (x : ℕ) → has nat_eq self.new x ≡ has nat_eq self.old x }
        ensures once { distinct nat_eq self.new ≡ true }
        ensures sorted { IsSortedBy (λ a b. is_lt (S.order system.now a b)) self.new }
    {
        sort_keys(system, &mut self.items);
    }

    /// Whether the item is there.
    pub(crate) fn contains(&self, item: usize) -> bool
        ensures { result ≡ has nat_eq self.now item }
    {
        is_marked(&self.marks, item)
    }

    /// The items, in the order in which they came.
    pub(crate) fn items(&self) -> &[usize]
        ensures items { result.now ≡ self.now }
        ensures once { distinct nat_eq self.now ≡ true }
    {
        &self.items
    }
}

/// Puts in each of the items.
pub(crate) fn insert_each(set: &mut NumberSet, items: &[usize]) -> Result<(), AllocError>
    ensures { OnOk result (set.new ≡ push_all nat_eq set.old items.now) }
{
    for item in items {
        set.insert(*item)?;
    }
    Ok(())
}
