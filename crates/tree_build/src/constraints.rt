//! The constraints of a tree.
ghost use Rattle.std.specs.Prelude.{◌≡◌, ◌≢◌, ◌<◌, ◌^◌, ◌++◌, All, IfOk, List as Sequence, None, OnOk, length, map};
ghost use Rattle.std.specs.Option.{option_copied};
ghost use Rattle.flow_term.specs.declared.graph.Edge.{Edge as EdgeValue};
ghost use Rattle.flow_term.specs.declared.graph.Node.{Node as NodeValue};
ghost use Rattle.flow_term.specs.Trees.{At, term_size};
ghost use Rattle.flow_match.specs.Few.{HasFewRules};
ghost use Rattle.tree_constraints.specs.declared.constraint.Origin.TheVariants as from;
ghost use Rattle.tree_constraints.specs.Constraints.{unknown_at};
ghost use Rattle.tree_constraints.specs.Solutions.{AreConstraints};
ghost use Rattle.tree_listing.specs.declared.property.Property.{Property as PropertyValue};
ghost use Rattle.tree_listing.specs.Given.{AreEdges, AreNodes};
ghost use Rattle.tree_listing.specs.Listing as listing;
ghost use Rattle.tree_listing.specs.Listing.{constraint_by, listed, origins};
ghost use Rattle.tree_build.specs.Ends.{AreEnds, StandsAt};
ghost use Rattle.tree_build.specs.Numbers.{AreOrigins, HasRows, node_of};
ghost use Rattle.tree_build.specs.Prepared.{ArePrepared};
ghost use Rattle.tree_build.specs.inner.Hits.{boundary_by, listed_at_each, listed_by};

use crate::ends::{Ends, Rows};
use crate::hits::{hit_of, ordinary_hit, rules_at};
use crate::numbers::numbered;
use crate::origins::{Origins, origins_of};
use crate::properties::Properties;
use flow_match::{RuleHit, RuleSource};
use flow_syntax::Direction;
use flow_term::{Edge, List, Node, NodeKind, Term, Text, Unknown};
use std::alloc::{AllocError, Global};
use tree_constraints::{Constraint, Key, Origin};
use tree_listing::Property;

/// The constraints of a tree, in the order of their keys, by its nodes and edges, each with the numbers of where it stands.
/// Fails only for want of memory.
///
/// It takes one match of the rules a node, a look-up of each end of an edge, and a copy of what each constraint holds.
pub fn constraints_of<R: RuleSource>(
    alloc: Global,
    rules: &R,
    properties: &Properties,
    tree: &Term,
    nodes: &List<Node>,
    edges: &List<Edge>,
) -> Result<Rows, AllocError>
    requires small { term_size tree.now < 2 ^ 32 }
    requires few { HasFewRules (R.spec rules.now) }
    requires properties { ArePrepared (R.spec rules.now) properties.now }
    requires nodes { AreNodes (R.spec rules.now) tree.now nodes.now }
    requires edges { AreEdges (R.spec rules.now) tree.now edges.now }
    ensures constraints { IfOk result (λ rows. AreConstraints (R.spec rules.now) tree.now rows.constraints) }
    ensures ends { IfOk result (λ rows. AreEnds properties.now.list nodes.now rows.ends rows.constraints) }
{
    let numbers = numbered(alloc, nodes.as_slice())?;
    let origins = origins_of(alloc, &numbers, edges.as_slice())?;
    list_all(alloc, rules, tree, properties, nodes.as_slice(), &origins)
}

/// The constraints of all nodes.
fn list_all<R: RuleSource>(
    alloc: Global,
    rules: &R,
    tree: &Term,
    properties: &Properties,
    nodes: &[Node],
    origins: &Origins,
) -> Result<Rows, AllocError>
    requires small { term_size tree.now < 2 ^ 32 }
    requires few { HasFewRules (R.spec rules.now) }
    requires properties { ArePrepared (R.spec rules.now) properties.now }
    requires stand { All (λ n. At tree.now n.path ≢ None) nodes.now }
    requires sizes { HasRows nodes.now origins.now.forward.items origins.now.backward.items }
    ensures constraints { IfOk result (λ rows. (edges : Sequence EdgeValue) → AreOrigins nodes.now edges origins.now.forward.items origins.now.backward.items
        → rows.constraints ≡ listed (R.spec rules.now) tree.now properties.now.list nodes.now edges) }
    ensures ends { IfOk result (λ rows. AreEnds properties.now.list nodes.now rows.ends rows.constraints) }
{
    let mut rows = Rows::new(alloc);
    for number in 0..nodes.len() {
        let matched = rules_at(alloc, rules, tree, &nodes[number].path)?;
        add_at_node(
            alloc,
            matched.hits.as_slice(),
            properties,
            nodes,
            origins,
            number,
            &mut rows,
        )?;
    }
    Ok(rows)
}

/// Adds the constraints that aim at the node with this number, at which these rules match.
fn add_at_node(
    alloc: Global,
    hits: &[RuleHit],
    properties: &Properties,
    nodes: &[Node],
    origins: &Origins,
    number: usize,
    rows: &mut Rows,
) -> Result<(), AllocError>
    requires numbered { length properties.now.numbers ≡ length properties.now.list }
    requires sizes { HasRows nodes.now origins.now.forward.items origins.now.backward.items }
    requires number { number < length nodes.now }
    ensures ends { OnOk result (AreEnds properties.now.list nodes.now rows.old.ends rows.old.constraints → AreEnds properties.now.list nodes.now rows.new.ends rows.new.constraints) }
    ensures constraints { OnOk result ((edges : Sequence EdgeValue) → AreOrigins nodes.now edges origins.now.forward.items origins.now.backward.items
        → rows.new.constraints ≡ rows.old.constraints ++ listed_at_each hits.now properties.now.numbers properties.now.list edges (node_of nodes.now number)) }
{
    for place in 0..properties.list.len() {
        let property = &properties.list.as_slice()[place];
        let row = origins.row(property.direction, number);
        add_at(
            alloc,
            hits,
            property,
            properties.numbers.as_slice()[place],
            nodes,
            number,
            place,
            row,
            rows,
        )?;
    }
    Ok(())
}

/// Adds the constraints that aim at a property at the node with this number: the one at its boundary, if there is one, and one
/// for each origin.
fn add_at(
    alloc: Global,
    hits: &[RuleHit],
    property: &Property,
    declared: u32,
    nodes: &[Node],
    number: usize,
    place: usize,
    row: &[usize],
    rows: &mut Rows,
) -> Result<(), AllocError>
    requires number { number < length nodes.now }
    requires row { All (λ i. i < length nodes.now) row.now }
    ensures ends { OnOk result ((properties : Sequence PropertyValue) → StandsAt properties nodes.now number place (node_of nodes.now number) property.now.name
        → AreEnds properties nodes.now rows.old.ends rows.old.constraints → AreEnds properties nodes.now rows.new.ends rows.new.constraints) }
    ensures constraints { OnOk result ((edges : Sequence EdgeValue) → map (node_of nodes.now) row.now ≡ origins property.now.direction edges (node_of nodes.now number)
        → rows.new.constraints ≡ rows.old.constraints ++ listed_by hits.now declared edges (node_of nodes.now number) property.now) }
{
    let node = &nodes[number];
    add_boundary(alloc, hits, property, declared, node, number, place, rows)?;
    add_along(
        alloc,
        &property.name,
        node,
        number,
        place,
        ordinary_hit(hits, declared, node.kind),
        nodes,
        row,
        rows,
    )
}

/// Adds the constraint of a property at a boundary, if there is one.
fn add_boundary(
    alloc: Global,
    hits: &[RuleHit],
    property: &Property,
    declared: u32,
    node: &Node,
    number: usize,
    place: usize,
    rows: &mut Rows,
) -> Result<(), AllocError>
    ensures ends { OnOk result ((properties : Sequence PropertyValue) (nodes : Sequence NodeValue) → StandsAt properties nodes number place node.now property.now.name
        → AreEnds properties nodes rows.old.ends rows.old.constraints → AreEnds properties nodes rows.new.ends rows.new.constraints) }
    ensures constraints { OnOk result (rows.new.constraints ≡ rows.old.constraints ++ boundary_by hits.now declared node.now property.now) }
{
    if !begins_at(property.direction, node.kind) {
        return Ok(());
    }
    match hit_of(hits, declared, true) {
        None => Ok(()),
        Some(hit) => {
            let made = made(alloc, node, &property.name, Origin::Boundary, Some(hit))?;
            rows.push(
                made,
                Ends {
                    number,
                    place,
                    origin: number,
                },
            )
        }
    }
}

/// Whether control begins at nodes of this kind, in a direction.
fn begins_at(direction: Direction, kind: NodeKind) -> bool
    ensures { result ≡ listing.begins_at direction kind }
{
    match direction {
        Direction::Forward => kind == NodeKind::Start,
        Direction::Backward => kind == NodeKind::End,
    }
}

/// Adds a constraint for each origin.
fn add_along(
    alloc: Global,
    property: &Text,
    node: &Node,
    number: usize,
    place: usize,
    hit: Option<&RuleHit>,
    nodes: &[Node],
    row: &[usize],
    rows: &mut Rows,
) -> Result<(), AllocError>
    requires { All (λ i. i < length nodes.now) row.now }
    ensures ends { OnOk result ((properties : Sequence PropertyValue) → StandsAt properties nodes.now number place node.now property.now
        → AreEnds properties nodes.now rows.old.ends rows.old.constraints → AreEnds properties nodes.now rows.new.ends rows.new.constraints) }
    ensures constraints { OnOk result (rows.new.constraints ≡ rows.old.constraints ++ map (λ i. constraint_by (option_copied hit.entry) (unknown_at node.now property.now) (from.Along (node_of nodes.now i))) row.now) }
{
    for origin in row {
        let from = Origin::Along(nodes[*origin].duplicate()?);
        let made = made(alloc, node, property, from, hit)?;
        let origin = *origin;
        rows.push(
            made,
            Ends {
                number,
                place,
                origin,
            },
        )?;
    }
    Ok(())
}

/// The constraint at a property of a node with this origin, whose value this rule gives; a copy where there is none.
fn made(
    alloc: Global,
    node: &Node,
    property: &Text,
    origin: Origin,
    hit: Option<&RuleHit>,
) -> Result<Constraint, AllocError>
    ensures { IfOk result (λ c. c ≡ constraint_by (option_copied hit.entry) (unknown_at node.now property.now) origin) }
{
    let target = Unknown {
        node: node.duplicate()?,
        property: property.duplicate()?,
    };
    let key = Key { target, origin };
    match hit {
        Some(hit) => Ok(Constraint {
            key,
            rule: Some(hit.rule),
            bindings: hit.bindings.duplicate(alloc)?,
        }),
        None => Ok(Constraint {
            key,
            rule: None,
            bindings: List::new(alloc),
        }),
    }
}
