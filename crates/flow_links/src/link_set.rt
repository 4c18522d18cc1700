//! A set of links in the order of their first insertion.
ghost use Rattle.std.specs.Prelude.{◌≡◌, [], IfOk, OnOk};
ghost use Rattle.indexmap.specs.IndexSet.{IsUnique};
ghost use Rattle.flow_links.specs.Below.{is_same_link};

use flow_term::{Link, List};
use indexmap::IndexSet;
use std::alloc::{AllocError, Global};
use std::marker::Model;

/// Links, each once. Contracts see the list of them, in the order in which they came.
#[derive(Drop)]
pub struct LinkSet {
    links: IndexSet<Link>,
}

impl Model for LinkSet {
    ghost use Rattle.std.specs.Prelude.{List as Sequence};
    ghost use Rattle.flow_term.specs.declared.graph.Link.{Link};

    ghost Value = { Sequence Link };

    ghost view = { λ s. s.links.keys };
}

impl LinkSet {
    ghost use Rattle.flow_term.specs.Orders.{EachOnce};
    ghost use Rattle.flow_links.specs.Below.{Adds};

    /// No links.
    pub fn new(alloc: Global) -> LinkSet
        ensures { result ≡ [] }
    {
        LinkSet {
            links: IndexSet::new(alloc),
        }
    }

    /// Adds a link, unless it is there.
    pub fn insert(&mut self, link: Link) -> Result<(), AllocError>
        ensures { OnOk result (Adds self.old self.new (λ a b. (a ≡ link.from) × (b ≡ link.to))) }
    {
        self.links.insert(link)?;
        Ok(())
    }

    /// The links, in order.
    pub fn into_list(self, alloc: Global) -> Result<List<Link>, AllocError>
        ensures same { IfOk result (λ links. links ≡ self) }
        ensures once { IfOk result EachOnce }
    {
        let LinkSet { links } = self;
        in_order(alloc, links)
    }
}

/// The links of a set, and that `==` tells them apart.
fn in_order(alloc: Global, links: IndexSet<Link>) -> Result<List<Link>, AllocError>
    ensures same { IfOk result (λ list. list ≡ links.keys) }
    ensures distinct { IfOk result (λ list. IsUnique is_same_link links) }
{
    Ok(List::from_vec(links.into_iter().collect(alloc)?))
}
