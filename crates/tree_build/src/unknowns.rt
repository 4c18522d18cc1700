//! The unknowns of a tree.
ghost use Rattle.std.specs.Prelude.{◌≡◌, ◌++◌, IfOk, OnOk};
ghost use Rattle.flow_syntax.specs.declared.spec.Spec.{Spec};
ghost use Rattle.flow_term.specs.declared.term.Term.{Term as TermValue};
ghost use Rattle.tree_constraints.specs.Solutions.{AreUnknowns};
ghost use Rattle.tree_listing.specs.Given.{AreNodes, AreProperties};
ghost use Rattle.tree_listing.specs.Listing.{listed_unknowns, unknowns_at};

use flow_term::{List, Node, Unknown};
use std::alloc::{AllocError, Global};
use tree_listing::Property;

/// The unknowns of a tree, in their order, by its nodes and the properties in the order of names. Fails only for want of memory.
pub fn unknowns_of(
    alloc: Global,
    properties: &[Property],
    nodes: &[Node],
) -> Result<List<Unknown>, AllocError>
    ensures listed { IfOk result (λ list. list ≡ listed_unknowns properties.now nodes.now) }
    ensures unknowns { IfOk result (λ list. (spec : Spec) (tree : TermValue) → AreProperties spec properties.now → AreNodes spec tree nodes.now → AreUnknowns spec tree list) }
{
    list_unknowns(alloc, properties, nodes)
}

fn list_unknowns(
    alloc: Global,
    properties: &[Property],
    nodes: &[Node],
) -> Result<List<Unknown>, AllocError>
    ensures { IfOk result (λ list. list ≡ listed_unknowns properties.now nodes.now) }
{
    let mut list = List::new(alloc);
    for node in nodes {
        add_unknowns(properties, node, &mut list)?;
    }
    Ok(list)
}

/// Adds an unknown for each property.
fn add_unknowns(
    properties: &[Property],
    node: &Node,
    list: &mut List<Unknown>,
) -> Result<(), AllocError>
    ensures { OnOk result (list.new ≡ list.old ++ unknowns_at properties.now node.now) }
{
    for property in properties {
        list.push(Unknown {
            node: node.duplicate()?,
            property: property.name.duplicate()?,
        })?;
    }
    Ok(())
}
