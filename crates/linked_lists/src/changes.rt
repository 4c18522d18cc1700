//! What a call changes in the lists, over the links of the lists and those of the items.
ghost use Rattle.std.specs.Prelude.{◌≡◌, ◌<◌, ◌++◌, ◌∷◌, [], ℕ, length, max, true, false, nat_eq, slice_index_or, slice_set, OnErr, OnOk};
ghost use Rattle.list_theory.specs.Lists.{has, without};
ghost use Rattle.linked_lists.specs.Chains.{AreChains, Changes, list_at, listed, lists_of};

use crate::links::{Link, add_links, link_of, set_back, set_forth};
use std::alloc::AllocError;

/// Takes an item out of the list in which it is.
fn unlink(heads: &mut Vec<Link>, links: &mut Vec<Link>, list: usize, item: usize)
    requires chains { AreChains heads.old.items links.old.items }
    requires list { list < length heads.old.items }
    requires there { has nat_eq (list_at heads.old.items links.old.items list) item ≡ true }
    ensures { Changes heads.old.items links.old.items heads.new.items links.new.items list (without nat_eq (list_at heads.old.items links.old.items list) item) }
{
    let link = link_of(links, item);
    set_forth(heads, links, list, link.back, link.forth);
    set_back(heads, links, list, link.forth, link.back);
}

/// Puts an item that is in no list last in one.
fn link_last(heads: &mut Vec<Link>, links: &mut Vec<Link>, list: usize, item: usize)
    requires chains { AreChains heads.old.items links.old.items }
    requires list { list < length heads.old.items }
    requires item { item < length links.old.items }
    requires absent { (k : ℕ) → k < length heads.old.items → has nat_eq (list_at heads.old.items links.old.items k) item ≡ false }
    ensures { Changes heads.old.items links.old.items heads.new.items links.new.items list (list_at heads.old.items links.old.items list ++ item ∷ []) }
{
    let last = link_of(heads, list).back;
    set_forth(heads, links, list, Some(item), None);
    set_back(heads, links, list, Some(item), last);
    set_forth(heads, links, list, last, Some(item));
    set_back(heads, links, list, None, Some(item));
}

/// Puts an item that is in no list last in one, in the words of the model.
pub fn push_item(heads: &mut Vec<Link>, links: &mut Vec<Link>, list: usize, item: usize)
    requires chains { AreChains heads.old.items links.old.items }
    requires list { list < length (lists_of heads.old.items links.old.items) }
    requires item { item < length links.old.items }
    requires absent { (k : ℕ) → has nat_eq (listed heads.old.items links.old.items k) item ≡ false }
    ensures chains { AreChains heads.new.items links.new.items }
    ensures lists { lists_of heads.new.items links.new.items ≡ slice_set (lists_of heads.old.items links.old.items) list (listed heads.old.items links.old.items list ++ item ∷ []) }
    ensures items { length links.new.items ≡ length links.old.items }
{
    link_last(heads, links, list, item);
}

/// Takes an item out of the list in which it is, in the words of the model.
pub fn remove_item(heads: &mut Vec<Link>, links: &mut Vec<Link>, list: usize, item: usize)
    requires chains { AreChains heads.old.items links.old.items }
    requires there { has nat_eq (listed heads.old.items links.old.items list) item ≡ true }
    ensures chains { AreChains heads.new.items links.new.items }
    ensures lists { lists_of heads.new.items links.new.items ≡ slice_set (lists_of heads.old.items links.old.items) list (without nat_eq (listed heads.old.items links.old.items list) item) }
    ensures items { length links.new.items ≡ length links.old.items }
{
    unlink(heads, links, list, item);
}

/// Allows the items below a number.
pub fn allow_items(heads: &[Link], links: &mut Vec<Link>, items: usize) -> Result<(), AllocError>
    requires chains { AreChains heads.now links.old.items }
    ensures chains { AreChains heads.now links.new.items }
    ensures lists { lists_of heads.now links.new.items ≡ lists_of heads.now links.old.items }
    ensures ok { OnOk result (length links.new.items ≡ max (length links.old.items) items) }
    ensures err { OnErr result (links.new.items ≡ links.old.items) }
{
    add_links(links, items)
}

/// Adds empty lists, up to this number of lists.
pub fn add_lists(heads: &mut Vec<Link>, links: &[Link], lists: usize) -> Result<(), AllocError>
    requires chains { AreChains heads.old.items links.now }
    ensures chains { AreChains heads.new.items links.now }
    ensures lists { (k : ℕ) → listed heads.new.items links.now k ≡ listed heads.old.items links.now k }
    ensures ok { OnOk result (length (lists_of heads.new.items links.now) ≡ max (length (lists_of heads.old.items links.now)) lists) }
    ensures err { OnErr result (heads.new.items ≡ heads.old.items) }
{
    add_links(heads, lists)
}
