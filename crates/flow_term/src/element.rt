ghost use Rattle.std.specs.Prelude.{◌≡◌, IfOk};
ghost use Rattle.std.specs.declared.cmp.Ordering.TheVariants.{Equal};
ghost use Rattle.flow_term.specs.Elements.{elem_cmp};
ghost use Rattle.flow_term.specs.Orders.{node_cmp, edge_cmp};

use crate::elem::Elem;
use crate::graph::{Edge, Node};
use crate::list::List;
use std::alloc::{AllocError, Global};

/// What sets and maps are made of: ordered values with copies, of which no two different ones tie.
pub trait Element: Ord + Drop {
    /// A value that equals this one. Fails only for want of memory.
    fn copy(&self, alloc: Global) -> Result<Self, AllocError>
    where
        Self: Sized,
        ensures { IfOk result (λ copy. copy ≡ self.now) };

    // Values that compare as equal are the same.
    ghost exact: { (x y : Self) → Self.cmp x y ≡ Equal → x ≡ y };
}

impl Element for u32 {
    ghost use Rattle.std.proofs.lemmas.Map.Lookups.{exact_unsigned};

    fn copy(&self, alloc: Global) -> Result<u32, AllocError> {
        Ok(*self)
    }

    ghost exact = { exact_unsigned };
}

impl Element for Elem {
    ghost use Rattle.flow_term.specs.ElementsLaws.{same_elements};

    fn copy(&self, alloc: Global) -> Result<Elem, AllocError> {
        self.duplicate(alloc)
    }

    ghost exact = { same_elements };
}

impl Element for Node {
    ghost use Rattle.flow_term.specs.GraphLaws.{same_nodes};

    fn copy(&self, alloc: Global) -> Result<Node, AllocError> {
        self.duplicate()
    }

    ghost exact = { same_nodes };
}

impl Element for Edge {
    ghost use Rattle.flow_term.specs.GraphLaws.{same_edges};

    fn copy(&self, alloc: Global) -> Result<Edge, AllocError> {
        self.duplicate()
    }

    ghost exact = { same_edges };
}

impl<E: Element> List<E> {
    /// An equal list. Fails only for want of memory.
    pub fn duplicate(&self, alloc: Global) -> Result<List<E>, AllocError>
        ensures { IfOk result (λ copy. copy ≡ self.now) }
    {
        copy_items(alloc, self.as_slice())
    }
}

fn copy_items<E: Element>(alloc: Global, items: &[E]) -> Result<List<E>, AllocError>
    ensures { IfOk result (λ copy. copy ≡ items.now) }
{
    let mut copy = List::new(alloc);
    for item in items {
        copy.push(item.copy(alloc)?)?;
    }
    Ok(copy)
}

/// Elements are ordered by kind: names, strings, positions, items, integers, pairs. Within a kind texts go by their bytes,
/// positions as paths, integers by value, and pairs by the first part and then the second.
pub fn elements_are_ordered()
    ensures { (x y : Elem) → ⟦<Elem as Ord>⟧.cmp x y ≡ elem_cmp x y }
{}

/// Nodes are ordered by path, a prefix before what continues it, and then by kind: `Start`, `Node`, `End`.
pub fn nodes_are_ordered()
    ensures { (x y : Node) → ⟦<Node as Ord>⟧.cmp x y ≡ node_cmp x y }
{}

/// Edges are ordered by source, and then by target.
pub fn edges_are_ordered()
    ensures { (x y : Edge) → ⟦<Edge as Ord>⟧.cmp x y ≡ edge_cmp x y }
{}
