//! The system of a tree, built from its nodes and edges.
ghost use Rattle.std.specs.Prelude.{◌≡◌, ◌<◌, ◌^◌, IfOk, length};
ghost use Rattle.std.specs.List.{range_with_len};
ghost use Rattle.flow_term.specs.Trees.{term_size};
ghost use Rattle.flow_match.specs.Few.{HasFewRules};
ghost use Rattle.tree_constraints.specs.Solutions.{AreConstraints, AreUnknowns};
ghost use Rattle.tree_listing.specs.Given.{AreEdges, AreNodes};
ghost use Rattle.tree_build.specs.Prepared.{ArePrepared};
ghost use Rattle.tree_system.specs.inner.Rows.{AreListed};

use crate::bodies::Bodies;
use crate::rows::{bases_of, numbers_below, properties_of, reads_of};
use crate::system::TreeSystem;
use flow_match::RuleSource;
use flow_term::{Edge, List, Node, Term, Unknown};
use index_tables::{grouped, turned};
use std::alloc::{AllocError, Global};
use tree_build::{Properties, Rows, constraints_of, targets_of, unknowns_of};

impl<B: Bodies> TreeSystem<B> {
    /// The system of a tree, by its nodes and edges: its constraints and its unknowns, each numbered by its place in their order.
    /// Fails only for want of memory.
    pub fn build<R: RuleSource>(
        alloc: Global,
        bodies: B,
        rules: &R,
        properties: &Properties,
        tree: &Term,
        nodes: &List<Node>,
        edges: &List<Edge>,
    ) -> Result<TreeSystem<B>, AllocError>
        requires same { R.spec rules.now ≡ B.spec bodies }
        requires small { term_size tree.now < 2 ^ 32 }
        requires few { HasFewRules (R.spec rules.now) }
        requires properties { ArePrepared (R.spec rules.now) properties.now }
        requires nodes { AreNodes (R.spec rules.now) tree.now nodes.now }
        requires edges { AreEdges (R.spec rules.now) tree.now edges.now }
        ensures bodies { IfOk result (λ s. s.bodies ≡ bodies) }
        ensures constraints { IfOk result (λ s. AreConstraints (B.spec bodies) tree.now s.constraints) }
        ensures unknowns { IfOk result (λ s. AreUnknowns (B.spec bodies) tree.now s.unknowns) }
        ensures keys { IfOk result (λ s. s.keys ≡ range_with_len 0 (length s.constraints)) }
        ensures in_use { IfOk result (λ s. s.in_use ≡ range_with_len 0 (length s.unknowns)) }
    {
        let rows = constraints_of(alloc, rules, properties, tree, nodes, edges)?;
        let unknowns = unknowns_of(alloc, properties.list.as_slice(), nodes.as_slice())?;
        in_tables(alloc, bodies, properties, nodes, rows, unknowns)
    }
}

/// The system of constraints and unknowns that are those of a tree with these nodes.
fn in_tables<B: Bodies>(
    alloc: Global,
    bodies: B,
    properties: &Properties,
    nodes: &List<Node>,
    rows: Rows,
    unknowns: List<Unknown>,
) -> Result<TreeSystem<B>, AllocError>
    requires { AreListed (B.spec bodies) properties.now nodes.now rows.constraints rows.ends unknowns }
    ensures bodies { IfOk result (λ s. s.bodies ≡ bodies) }
    ensures constraints { IfOk result (λ s. s.constraints ≡ rows.constraints) }
    ensures unknowns { IfOk result (λ s. s.unknowns ≡ unknowns) }
    ensures keys { IfOk result (λ s. s.keys ≡ range_with_len 0 (length s.constraints)) }
    ensures in_use { IfOk result (λ s. s.in_use ≡ range_with_len 0 (length s.unknowns)) }
{
    let width = properties.list.len();
    let count = unknowns.len();
    let ends = rows.ends.as_slice();
    let targets = targets_of(alloc, ends, width, count)?;
    let bases = bases_of(alloc, ends, width, count)?;
    let reads = reads_of(
        alloc,
        &bodies,
        rows.constraints.as_slice(),
        ends,
        &bases,
        properties.places.as_slice(),
        count,
    )?;
    let readers = turned(alloc, &reads, count)?;
    let aiming = grouped(alloc, &targets, count)?;
    Ok(TreeSystem {
        bodies,
        keys: numbers_below(alloc, rows.constraints.len())?,
        in_use: numbers_below(alloc, count)?,
        constraints: rows.constraints,
        properties: properties_of(alloc, properties.numbers.as_slice(), nodes.as_slice())?,
        places: properties.places.as_slice().to_vec(alloc)?,
        unknowns,
        targets,
        reads,
        bases,
        readers,
        aiming,
        none: List::new(alloc),
    })
}
