//! A set as the list of its items in order.
ghost use Rattle.std.specs.Prelude.{◌≡◌, ◌↔◌, [], Contains, IsTrue, IfOk, OnOk, OnErr};
ghost use Rattle.std.specs.List.Sorted.{IsStrictlySortedBy};
ghost use Rattle.lattice_sets.specs.Sets.{IsInserted};

use crate::operations::{place_of, push_copies};
use flow_term::{Element, List};
use std::alloc::{AllocError, Global};
use std::marker::Model;

/// Items in rising order, each once. Contracts see the list of them.
#[derive(Debug, Drop)]
pub struct SortedSet<E: Element> {
    items: Vec<E>,
}

impl<E: Element> Model for SortedSet<E> {
    ghost use Rattle.std.specs.Prelude.{List as Sequence};
    ghost use Rattle.std.specs.List.Sorted.{IsStrictlySortedBy};

    ghost Value = { Sequence E };

    ghost view = { λ s. s.items.items };

    ghost invariant = { λ s. IsStrictlySortedBy E.cmp s.items.items };
}

impl<E: Element> SortedSet<E> {
    /// No items. Takes no memory.
    pub fn new(alloc: Global) -> SortedSet<E>
        ensures { result ≡ [] }
    {
        SortedSet {
            items: Vec::new(alloc),
        }
    }

    /// Puts the item in its place, and answers false exactly where it was there.
    pub fn insert(&mut self, item: E) -> Result<bool, AllocError>
        ensures inserted { OnOk result (IsInserted E.cmp item self.old self.new) }
        ensures was_absent { IfOk result (λ absent. IsTrue absent ↔ (Contains self.old item → ⊥)) }
        ensures err { OnErr result (self.new ≡ self.old) }
    {
        insert_item(&mut self.items, item)
    }

    /// The items in order.
    pub fn items(&self) -> &[E]
        ensures items { result.now ≡ self.now }
        ensures rising { IsStrictlySortedBy E.cmp self.now }
    {
        &self.items
    }

    /// An equal set.
    pub fn duplicate(&self, alloc: Global) -> Result<SortedSet<E>, AllocError>
        ensures { IfOk result (λ copy. copy ≡ self.now) }
    {
        let mut items = List::new(alloc);
        push_copies(alloc, &mut items, &self.items)?;
        Ok(SortedSet::from_rising(items))
    }

    /// The items in order, as a list. Takes no memory.
    pub fn into_list(self) -> List<E>
        ensures items { result ≡ self }
        ensures rising { IsStrictlySortedBy E.cmp self }
    {
        List::from_vec(self.items)
    }

    /// The set of the items of a list that rises strictly.
    pub(crate) fn from_rising(items: List<E>) -> SortedSet<E>
        requires { IsStrictlySortedBy E.cmp items }
        ensures { result ≡ items }
    {
        SortedSet {
            items: items.into_vec(),
        }
    }
}

/// Puts an item in its place among items that rise, and answers false where it was there.
fn insert_item<E: Element>(items: &mut Vec<E>, item: E) -> Result<bool, AllocError>
    requires { IsStrictlySortedBy E.cmp items.old.items }
    ensures inserted { OnOk result (IsInserted E.cmp item items.old.items items.new.items) }
    ensures was_absent { IfOk result (λ absent. IsTrue absent ↔ (Contains items.old.items item → ⊥)) }
    ensures err { OnErr result (items.new.items ≡ items.old.items) }
    ensures rising { IsStrictlySortedBy E.cmp items.new.items }
{
    match place_of(items, &item) {
        Ok(_) => Ok(false),
        Err(place) => {
            items.insert(place, item)?;
            Ok(true)
        }
    }
}
