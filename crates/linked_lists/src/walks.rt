//! Walks along the links of a list.
ghost use Rattle.std.specs.Prelude.{◌≡◌, ◌<◌, ◌-◌, length, slice_index};
ghost use Rattle.std.specs.Iterator.{YieldsFirst, item_count};
ghost use Rattle.linked_lists.specs.Chains.{AreChains, first_of, listed};

use crate::links::{Link, any_link_of};
use std::marker::Model;

/// The first item of a list, where it has one.
pub fn first_item(heads: &[Link], links: &[Link], list: usize) -> Option<usize>
    requires { AreChains heads.now links.now }
    ensures { result ≡ first_of (listed heads.now links.now list) }
{
    any_link_of(heads, list).forth
}

/// The item at a place, by steps from the first.
pub fn item_from_first(heads: &[Link], links: &[Link], list: usize, place: usize) -> usize
    requires chains { AreChains heads.now links.now }
    requires place { place < length (listed heads.now links.now list) }
    ensures { result ≡ slice_index (listed heads.now links.now list) place }
{
    let mut item = any_link_of(heads, list).forth.unwrap();
    for _step in 0..place {
        item = any_link_of(links, item).forth.unwrap();
    }
    item
}

/// The item with this number of items behind it, by steps from the last.
pub fn item_from_last(heads: &[Link], links: &[Link], list: usize, behind: usize) -> usize
    requires chains { AreChains heads.now links.now }
    requires behind { behind < length (listed heads.now links.now list) }
    ensures { result ≡ slice_index (listed heads.now links.now list) (length (listed heads.now links.now list) - 1 - behind) }
{
    let mut item = any_link_of(heads, list).back.unwrap();
    for _step in 0..behind {
        item = any_link_of(links, item).back.unwrap();
    }
    item
}

/// The items of a list.
pub fn walk_from<'a>(heads: &[Link], links: &'a [Link], list: usize) -> ChainIter<'a>
    ensures { result ≡ listed heads.now links.now list }
{
    ChainIter {
        links,
        place: any_link_of(heads, list).forth,
        left: links.len(),
    }
}

/// The items of a list that are left.
#[derive(Drop)]
pub struct ChainIter<'a> {
    links: &'a [Link],
    place: Option<usize>,
    left: usize,
}

impl<'a> Model for ChainIter<'a> {
    ghost use Rattle.std.specs.Prelude.{ℕ, List};
    ghost use Rattle.linked_lists.specs.Chains.{walk};

    ghost Value = { List ℕ };

    ghost view = { λ it. walk it.links.now it.left it.place };
}

impl<'a> Iterator for ChainIter<'a> {
    type Item = usize;

    ghost next_gives = { YieldsFirst (λ rest. rest) };

    ghost remaining = { item_count (λ rest. rest) };

    fn next(&mut self) -> Option<usize> {
        match self.place {
            Some(item) if self.left > 0 => {
                self.left -= 1;
                self.place = any_link_of(self.links, item).forth;
                Some(item)
            }
            _ => None,
        }
    }
}
