//! The edges from each of some nodes to each of others.
ghost use Rattle.std.specs.Prelude.{◌≡◌, Contains, OnOk};
ghost use Rattle.flow_links.specs.inner.Gains.{Gains};
ghost use Rattle.graph_edges.specs.inner.Pairs.{IsPairOf, LeadsTo};

use flow_term::{Edge, List, Node};
use std::alloc::AllocError;

/// Adds the edges from each of the first nodes to each of the others.
pub fn add_pairs(sources: &[Node], targets: &[Node], out: &mut List<Edge>) -> Result<(), AllocError>
    ensures { OnOk result (Gains out.old out.new (IsPairOf sources.now targets.now)) }
{
    for source in sources {
        add_edges(source, targets, out)?;
    }
    Ok(())
}

/// Adds the edges from a node to each of others.
fn add_edges(source: &Node, targets: &[Node], out: &mut List<Edge>) -> Result<(), AllocError>
    ensures { OnOk result (Gains out.old out.new (LeadsTo source.now targets.now)) }
{
    for target in targets {
        add_edge(source, target, out)?;
    }
    Ok(())
}

fn add_edge(source: &Node, target: &Node, out: &mut List<Edge>) -> Result<(), AllocError>
    ensures { OnOk result (Gains out.old out.new (λ e. (e.from ≡ source.now) × (e.to ≡ target.now))) }
{
    let from = source.duplicate()?;
    let to = target.duplicate()?;
    out.push(Edge { from, to })
}
