//! Lists of numbers that share no item.
ghost use Rattle.std.specs.Prelude.{◌≡◌, ◌<◌, ◌++◌, ◌∷◌, ◌-◌, [], ℕ, length, max, true, false, nat_eq, slice_index, OnErr, OnOk};
ghost use Rattle.list_theory.specs.Lists.{distinct, has, without};
ghost use Rattle.linked_lists.specs.Chains.{first_of, list_in, with_list};

use crate::changes::{add_lists, allow_items, push_item, remove_item};
use crate::links::Link;
use crate::walks::{ChainIter, first_item, item_from_first, item_from_last, walk_from};
use std::alloc::{AllocError, Global};
use std::marker::Model;

/// Lists of numbers. Each list has a number, and an item is in one list at most.
///
/// An item has a link back and one forth, and a list has one to its first item and one to its last. So `push`, `remove`
/// and `first` touch no record of other items than the neighbours.
#[derive(Drop)]
pub struct Chains {
    /// One for each list.
    heads: Vec<Link>,
    /// One for each allowed item.
    links: Vec<Link>,
}

impl Model for Chains {
    ghost use Rattle.std.specs.Prelude.{length};
    ghost use Rattle.linked_lists.specs.Chains.{AreChains, Lists, lists_of};

    ghost Value = { Lists };

    ghost view = { λ c. record { lists = lists_of c.heads.items c.links.items; items = length c.links.items } };

    ghost invariant = { λ c. AreChains c.heads.items c.links.items };
}

impl Chains {
    /// No lists, and no item allowed.
    pub fn new(alloc: Global) -> Chains
        ensures { result ≡ record { lists = []; items = 0 } }
    {
        Chains {
            heads: Vec::new(alloc),
            links: Vec::new(alloc),
        }
    }

    /// Allows the items below the number. Those that are allowed stay so.
    pub fn grow_items(&mut self, items: usize) -> Result<(), AllocError>
        ensures ok { OnOk result (self.new ≡ record self.old { items = max self.old.items items }) }
        ensures err { OnErr result (self.new ≡ self.old) }
    {
        allow_items(&self.heads, &mut self.links, items)
    }

    /// Adds empty lists, until there are as many lists as the number says. Those that are there stay.
    pub fn grow_lists(&mut self, lists: usize) -> Result<(), AllocError>
        ensures lists { (k : ℕ) → list_in self.new k ≡ list_in self.old k }
        ensures items { self.new.items ≡ self.old.items }
        ensures ok { OnOk result (length self.new.lists ≡ max (length self.old.lists) lists) }
        ensures err { OnErr result (self.new ≡ self.old) }
    {
        add_lists(&mut self.heads, &self.links, lists)
    }

    /// Puts an item that is in no list last in one.
    pub fn push(&mut self, list: usize, item: usize)
        requires list { list < length self.old.lists }
        requires item { item < self.old.items }
        requires absent { (k : ℕ) → has nat_eq (list_in self.old k) item ≡ false }
        ensures { self.new ≡ with_list self.old list (list_in self.old list ++ item ∷ []) }
    {
        push_item(&mut self.heads, &mut self.links, list, item);
    }

    /// Takes an item out of the list in which it is.
    pub fn remove(&mut self, list: usize, item: usize)
        requires { has nat_eq (list_in self.old list) item ≡ true }
        ensures { self.new ≡ with_list self.old list (without nat_eq (list_in self.old list) item) }
    {
        remove_item(&mut self.heads, &mut self.links, list, item);
    }

    /// The first item of a list, where it has one.
    pub fn first(&self, list: usize) -> Option<usize>
        ensures { result ≡ first_of (list_in self.now list) }
    {
        first_item(&self.heads, &self.links, list)
    }

    /// The item at a place of a list, counted from 0. It takes as many steps as the place says.
    pub fn item_at(&self, list: usize, place: usize) -> usize
        requires { place < length (list_in self.now list) }
        ensures { result ≡ slice_index (list_in self.now list) place }
    {
        item_from_first(&self.heads, &self.links, list, place)
    }

    /// The item of a list with this number of items behind it. It takes as many steps as the number says.
    pub fn item_before(&self, list: usize, behind: usize) -> usize
        requires { behind < length (list_in self.now list) }
        ensures { result ≡ slice_index (list_in self.now list) (length (list_in self.now list) - 1 - behind) }
    {
        item_from_last(&self.heads, &self.links, list, behind)
    }

    /// The items of a list, from first to last.
    pub fn iter(&self, list: usize) -> ChainIter<'_>
        ensures items { result ≡ list_in self.now list }
        ensures once { distinct nat_eq (list_in self.now list) ≡ true }
    {
        walk_from(&self.heads, &self.links, list)
    }
}
