//! A queue of numbers in which each stands at most once.
ghost use Rattle.std.specs.Prelude.{◌≡◌, ◌<◌, ◌≤◌, [], length, true, false, nat_eq, max, slice_index, slice_index_or, OnOk, OnErr};
ghost use Rattle.list_theory.specs.Lists.{has, without, push_one, distinct};
ghost use Rattle.index_lists.specs.Records.{all_in};
ghost use Rattle.index_lists.specs.Queues.{IsQueue};

use linked_lists::Chains;
use std::alloc::{AllocError, Global};
use std::marker::Model;

/// Whether the marks say that the item is there.
fn is_marked(marks: &[bool], item: usize) -> bool
    ensures { result ≡ slice_index_or marks.now item false }
{
    item < marks.len() && marks[item]
}

/// Gives room to the items below a number.
fn grow_chain(chain: &mut Chains, number: usize) -> Result<(), AllocError>
    requires listed { 0 < chain.old.items → 0 < length chain.old.lists }
    requires one { length chain.old.lists ≤ 1 }
    ensures all { all_in chain.new ≡ all_in chain.old }
    ensures listed { 0 < chain.new.items → 0 < length chain.new.lists }
    ensures one { length chain.new.lists ≤ 1 }
    ensures more { chain.old.items ≤ chain.new.items }
    ensures ok { OnOk result (number ≤ chain.new.items) }
{
    chain.grow_lists(1)?;
    chain.grow_items(number)
}

/// Allows the items below a number that is above the present one, and takes the memory for all of them.
fn allow_below(
    chain: &mut Chains,
    marks: &mut Vec<bool>,
    len: usize,
    number: usize,
) -> Result<(), AllocError>
    requires queue { IsQueue chain.old marks.old.items len }
    requires more { length marks.old.items < number }
    ensures items { all_in chain.new ≡ all_in chain.old }
    ensures ok { OnOk result (length marks.new.items ≡ number) }
    ensures err { OnErr result (marks.new.items ≡ marks.old.items) }
    ensures queue { IsQueue chain.new marks.new.items len }
{
    grow_chain(chain, number)?;
    marks.resize(number, false)
}

/// Puts the item last, unless it is there.
fn put_last(chain: &mut Chains, marks: &mut Vec<bool>, len: &mut usize, item: usize)
    requires queue { IsQueue chain.old marks.old.items len.old }
    requires allowed { item < length marks.old.items }
    ensures items { all_in chain.new ≡ push_one nat_eq (all_in chain.old) item }
    ensures marks { length marks.new.items ≡ length marks.old.items }
    ensures queue { IsQueue chain.new marks.new.items len.new }
{
    if !marks[item] {
        marks[item] = true;
        chain.push(0, item);
        *len += 1;
    }
}

/// The item at the place, by steps from the nearer end.
fn item_at(chain: &Chains, len: usize, place: usize) -> usize
    requires len { len ≡ length (all_in chain.now) }
    requires place { place < len }
    ensures { result ≡ slice_index (all_in chain.now) place }
{
    if place <= len / 2 {
        chain.item_at(0, place)
    } else {
        chain.item_before(0, len - 1 - place)
    }
}

/// Takes out an item that is there.
fn unlink(chain: &mut Chains, marks: &mut Vec<bool>, len: &mut usize, item: usize)
    requires queue { IsQueue chain.old marks.old.items len.old }
    requires there { has nat_eq (all_in chain.old) item ≡ true }
    ensures items { all_in chain.new ≡ without nat_eq (all_in chain.old) item }
    ensures marks { length marks.new.items ≡ length marks.old.items }
    ensures queue { IsQueue chain.new marks.new.items len.new }
{
    chain.remove(0, item);
    marks[item] = false;
    *len -= 1;
}

/// Takes out the item at the place.
fn take_at(chain: &mut Chains, marks: &mut Vec<bool>, len: &mut usize, place: usize) -> usize
    requires queue { IsQueue chain.old marks.old.items len.old }
    requires place { place < length (all_in chain.old) }
    ensures item { result ≡ slice_index (all_in chain.old) place }
    ensures was_there { has nat_eq (all_in chain.old) result ≡ true }
    ensures items { all_in chain.new ≡ without nat_eq (all_in chain.old) result }
    ensures marks { length marks.new.items ≡ length marks.old.items }
    ensures queue { IsQueue chain.new marks.new.items len.new }
{
    let item = item_at(chain, *len, place);
    unlink(chain, marks, len, item);
    item
}

/// Takes the item out, and answers whether it was there.
fn take_out(chain: &mut Chains, marks: &mut Vec<bool>, len: &mut usize, item: usize) -> bool
    requires queue { IsQueue chain.old marks.old.items len.old }
    ensures was_there { result ≡ has nat_eq (all_in chain.old) item }
    ensures items { all_in chain.new ≡ without nat_eq (all_in chain.old) item }
    ensures marks { length marks.new.items ≡ length marks.old.items }
    ensures queue { IsQueue chain.new marks.new.items len.new }
{
    if !is_marked(marks, item) {
        return false;
    }
    unlink(chain, marks, len, item);
    true
}

/// Numbers in order, each at most once: what waits for its turn.
///
/// An item is allowed where it is below a number that only `grow` raises. Each item has a mark that says whether it is
/// there, and links to the items before it and behind it. So `push`, `remove` and `contains` go over no other items, and
/// `pop_at` over those between the place and the nearer end.
#[derive(Drop)]
pub struct WorkQueue {
    /// One list of all items, or no list as long as none is allowed.
    chain: Chains,
    /// One for each allowed item.
    marks: Vec<bool>,
    /// The number of items.
    len: usize,
}

impl Model for WorkQueue {
    ghost use Rattle.std.specs.Prelude.{length};
    ghost use Rattle.index_lists.specs.Records.{all_in};
    ghost use Rattle.index_lists.specs.Queues.{Queue, IsQueue};

    ghost Value = { Queue };

    ghost view = { λ q. record { items = all_in q.chain; allowed = length q.marks.items } };

    ghost invariant = { λ q. IsQueue q.chain q.marks.items q.len };
}

impl WorkQueue {
    /// An empty queue, for which no item is allowed.
    pub fn new(alloc: Global) -> WorkQueue
        ensures { result ≡ record { items = []; allowed = 0 } }
    {
        WorkQueue {
            chain: Chains::new(alloc),
            marks: Vec::new(alloc),
            len: 0,
        }
    }

    /// Allows the items below the number, and takes the memory for all of them.
    pub fn grow(&mut self, items: usize) -> Result<(), AllocError>
        ensures ok { OnOk result (self.new ≡ record self.old { allowed = max self.old.allowed items }) }
        ensures err { OnErr result (self.new ≡ self.old) }
    {
        if items > self.marks.len() {
            allow_below(&mut self.chain, &mut self.marks, self.len, items)?;
        }
        Ok(())
    }

    /// Puts the item last. Where it is there, the queue stays as it is.
    pub fn push(&mut self, item: usize)
        requires { item < self.old.allowed }
        ensures { self.new ≡ record self.old { items = push_one nat_eq self.old.items item } }
    {
        put_last(&mut self.chain, &mut self.marks, &mut self.len, item)
    }

    /// Takes out the item at the place, counted from 0.
    pub fn pop_at(&mut self, place: usize) -> usize
        requires { place < length self.old.items }
        ensures item { result ≡ slice_index self.old.items place }
        ensures was_there { has nat_eq self.old.items result ≡ true }
        ensures rest { self.new ≡ record self.old { items = without nat_eq self.old.items result } }
    {
        take_at(&mut self.chain, &mut self.marks, &mut self.len, place)
    }

    /// Takes the item out, and answers whether it was there.
    pub fn remove(&mut self, item: usize) -> bool
        ensures was_there { result ≡ has nat_eq self.old.items item }
        ensures rest { self.new ≡ record self.old { items = without nat_eq self.old.items item } }
    {
        take_out(&mut self.chain, &mut self.marks, &mut self.len, item)
    }

    /// Whether the item is there.
    pub fn contains(&self, item: usize) -> bool
        ensures { result ≡ has nat_eq self.now.items item }
    {
        is_marked(&self.marks, item)
    }

    /// The number of items.
    pub fn len(&self) -> usize
        ensures len { result ≡ length self.now.items }
        ensures no_repeats { distinct nat_eq self.now.items ≡ true }
    {
        self.len
    }
}
