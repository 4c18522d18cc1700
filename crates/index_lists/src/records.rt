//! Pairs of numbers, each under a number of its own, in order of adding.
ghost use Rattle.std.specs.Prelude.{◌≡◌, ◌≤◌, ◌<◌, ◌++◌, ◌∷◌, ◌+◌, [], Some, None, length, true, false, nat_eq, OnOk};
ghost use Rattle.slab.specs.Slab.{HasRoomFor, Updates, slab_len};
ghost use Rattle.list_theory.specs.Lists.{distinct, has, without};
ghost use Rattle.index_lists.specs.Records.{IsOrdered, entries_in, numbers, pair_of, without_number};

use linked_lists::{ChainIter, Chains};
use slab::Slab;
use std::alloc::{AllocError, Global};
use std::marker::Model;

/// Adds a pair behind all others, and answers its number.
fn add_pair(slab: &mut Slab<(usize, usize)>, order: &mut Chains, pair: (usize, usize)) -> usize
    requires ordered { IsOrdered slab.old order.old }
    requires room { HasRoomFor slab.old 1 }
    requires linked { slab.old.capacity ≤ order.old.items }
    ensures ordered { IsOrdered slab.new order.new }
    ensures entries { entries_in slab.new order.new ≡ entries_in slab.old order.old ++ (result, pair) ∷ [] }
    ensures fresh { has nat_eq (numbers (entries_in slab.old order.old)) result ≡ false }
    ensures below { result < slab.new.capacity }
    ensures len { slab_len slab.new ≡ slab_len slab.old + 1 }
    ensures capacity { slab.new.capacity ≡ slab.old.capacity }
    ensures items { order.new.items ≡ order.old.items }
{
    let number = slab.insert_reserved(pair);
    order.push(0, number);
    number
}

/// Takes out the pair with a number.
fn remove_pair(slab: &mut Slab<(usize, usize)>, order: &mut Chains, number: usize) -> (usize, usize)
    requires ordered { IsOrdered slab.old order.old }
    requires there { has nat_eq (numbers (entries_in slab.old order.old)) number ≡ true }
    ensures value { result ≡ pair_of (entries_in slab.old order.old) number }
    ensures ordered { IsOrdered slab.new order.new }
    ensures entries { entries_in slab.new order.new ≡ without_number (entries_in slab.old order.old) number }
    ensures len { slab_len slab.new + 1 ≡ slab_len slab.old }
    ensures room { slab_len slab.old ≤ slab.new.capacity }
    ensures capacity { slab.new.capacity ≡ slab.old.capacity }
    ensures items { order.new.items ≡ order.old.items }
{
    order.remove(0, number);
    slab.remove(number)
}

/// Pairs of numbers, in order of adding. Each has a number, which no other pair has while it is there.
#[derive(Drop)]
pub struct PairRecords {
    slab: Slab<(usize, usize)>,
    /// One list of all numbers, in order of adding.
    order: Chains,
}

impl Model for PairRecords {
    ghost use Rattle.std.specs.Prelude.{◌-◌};
    ghost use Rattle.slab.specs.Slab.{slab_len};
    ghost use Rattle.index_lists.specs.Records.{Records, IsOrdered, entries_in};

    ghost Value = { Records };

    ghost view = { λ r. record { entries = entries_in r.slab r.order; spare = r.slab.capacity - slab_len r.slab; capacity = r.slab.capacity; linked = r.order.items } };

    ghost invariant = { λ r. IsOrdered r.slab r.order };
}

impl PairRecords {
    /// No pairs.
    pub fn new(alloc: Global) -> PairRecords
        ensures { result ≡ record { entries = []; spare = 0; capacity = 0; linked = 0 } }
    {
        PairRecords {
            slab: Slab::new(alloc),
            order: Chains::new(alloc),
        }
    }

    /// Takes the memory for so many pairs more.
    pub fn reserve(&mut self, pairs: usize) -> Result<(), AllocError>
        ensures entries { self.new.entries ≡ self.old.entries }
        ensures spare { OnOk result (pairs ≤ self.new.spare) }
        ensures linked { OnOk result (self.new.capacity ≤ self.new.linked) }
        ensures kept { self.old.spare ≤ self.new.spare }
    {
        self.slab.reserve(pairs)?;
        self.order.grow_lists(1)?;
        self.order.grow_items(self.slab.capacity())
    }

    /// The number below which all numbers are that are given out before more memory is taken.
    pub fn capacity(&self) -> usize
        ensures { result ≡ self.now.capacity }
    {
        self.slab.capacity()
    }

    /// Adds a pair behind all others, and answers its number.
    pub fn add(&mut self, pair: (usize, usize)) -> usize
        requires spare { 0 < self.old.spare }
        requires linked { self.old.capacity ≤ self.old.linked }
        ensures entries { self.new.entries ≡ self.old.entries ++ (result, pair) ∷ [] }
        ensures once { distinct nat_eq (numbers self.new.entries) ≡ true }
        ensures fresh { has nat_eq (numbers self.old.entries) result ≡ false }
        ensures below { result < self.old.capacity }
        ensures spare { self.new.spare + 1 ≡ self.old.spare }
        ensures capacity { self.new.capacity ≡ self.old.capacity }
        ensures linked { self.new.linked ≡ self.old.linked }
    {
        add_pair(&mut self.slab, &mut self.order, pair)
    }

    /// Takes out the pair with a number.
    pub fn remove(&mut self, number: usize) -> (usize, usize)
        requires { has nat_eq (numbers self.old.entries) number ≡ true }
        ensures value { result ≡ pair_of self.old.entries number }
        ensures entries { self.new.entries ≡ without_number self.old.entries number }
        ensures once { distinct nat_eq (numbers self.new.entries) ≡ true }
        ensures spare { self.new.spare ≡ self.old.spare + 1 }
        ensures capacity { self.new.capacity ≡ self.old.capacity }
        ensures linked { self.new.linked ≡ self.old.linked }
    {
        remove_pair(&mut self.slab, &mut self.order, number)
    }

    /// The pair with a number. Where there is none, two zeros.
    pub fn pair(&self, number: usize) -> (usize, usize)
        ensures { result ≡ pair_of self.now.entries number }
    {
        self.slab.get(number).copied().unwrap_or((0, 0))
    }

    /// The numbers of all pairs, in order of adding.
    pub fn numbers(&self) -> ChainIter<'_>
        ensures numbers { result ≡ numbers self.now.entries }
        ensures once { distinct nat_eq (numbers self.now.entries) ≡ true }
    {
        self.order.iter(0)
    }
}
