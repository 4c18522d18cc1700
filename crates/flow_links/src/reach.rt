//! What can be reached from a point over `In` and `Out` points.
ghost use Rattle.std.specs.Prelude.{◌≡◌, ◌<◌, ◌++◌, [], ℕ, List as Sequence, Contains, IfOk, OnOk, IsTrue, ◌↔◌, length};
ghost use Rattle.flow_syntax.specs.Graph.{IsInner};
ghost use Rattle.flow_links.specs.inner.Gains.{Gains};
ghost use Rattle.flow_links.specs.inner.Reach.{IsArrow, IsInnerAt, Leads, row};

use crate::numbers::PointGraph;
use flow_term::Point;
use indexmap::IndexSet;
use std::alloc::{AllocError, Global};

/// The numbers to which one or more arrows lead from a number, over `In` and `Out` points alone.
pub fn reached(
    alloc: Global,
    graph: &PointGraph,
    from: usize,
) -> Result<IndexSet<usize>, AllocError>
    requires sizes { length graph.now.successors.items ≡ length graph.now.points.keys }
    requires within { (j k : ℕ) → IsArrow graph.now.successors.items j k → k < length graph.now.points.keys }
    requires start { from < length graph.now.points.keys }
    ensures { IfOk result (λ found. Gains [] found.keys (Leads graph.now.points.keys graph.now.successors.items from)) }
{
    let mut found = IndexSet::new(alloc);
    add_all(&mut found, graph.successors_of(from))?;
    let mut next = 0;
    while next < found.len() {
        let number = found.as_slice()[next];
        expand(graph, number, &mut found)?;
        next += 1;
    }
    Ok(found)
}

/// Adds the successors of an `In` or `Out` point.
fn expand(graph: &PointGraph, number: usize, found: &mut IndexSet<usize>) -> Result<(), AllocError>
    requires sizes { length graph.now.successors.items ≡ length graph.now.points.keys }
    requires within { number < length graph.now.points.keys }
    ensures gains { OnOk result (Gains found.old.keys found.new.keys (λ k. IsInnerAt graph.now.points.keys number × IsArrow graph.now.successors.items number k)) }
    ensures order { OnOk result ((more : Sequence ℕ) × (found.new.keys ≡ found.old.keys ++ more)) }
{
    if is_inner(graph.point(number)) {
        add_all(found, graph.successors_of(number))?;
    }
    Ok(())
}

fn is_inner(point: &Point) -> bool
    ensures { IsTrue result ↔ IsInner point.now }
{
    matches!(point, Point::In(_) | Point::Out(_))
}

fn add_all(found: &mut IndexSet<usize>, numbers: &[usize]) -> Result<(), AllocError>
    ensures gains { OnOk result (Gains found.old.keys found.new.keys (Contains numbers.now)) }
    ensures order { OnOk result ((more : Sequence ℕ) × (found.new.keys ≡ found.old.keys ++ more)) }
{
    for number in numbers {
        found.insert(*number)?;
    }
    Ok(())
}
