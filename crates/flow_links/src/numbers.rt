//! Points by numbers, so that ways between them are found without comparing points.
ghost use Rattle.std.specs.Prelude.{◌≡◌, ◌<◌, ◌∷◌, ◌++◌, [], List as Sequence, IfOk, OnOk, Some, length, slice_get, slice_set};
ghost use Rattle.flow_term.specs.declared.graph.Link.{Link as LinkValue};
ghost use Rattle.flow_links.specs.inner.Numbers.{IsGraphOf, IsNumbered};
ghost use Rattle.flow_links.specs.inner.Reach.{row};

use flow_term::{Link, List, Point};
use indexmap::IndexSet;
use std::alloc::{AllocError, Global};

/// The points of links, numbered by their places, and the successors of each by their numbers.
#[derive(Drop)]
pub struct PointGraph {
    /// The points, each at the place of its number.
    pub points: IndexSet<Point>,
    /// At the place of each point, the numbers of the points to which links lead from it, in the order of the links.
    pub successors: Vec<List<usize>>,
}

impl PointGraph {
    /// The point with this number.
    pub fn point(&self, number: usize) -> &Point
        requires { number < length self.now.points.keys }
        ensures { slice_get self.now.points.keys number ≡ Some result.now }
    {
        &self.points.as_slice()[number]
    }

    /// The numbers of the points to which links lead from the point with this number.
    pub fn successors_of(&self, number: usize) -> &[usize]
        requires { number < length self.now.successors.items }
        ensures { result.now ≡ row self.now.successors.items number }
    {
        self.successors[number].as_slice()
    }
}

/// The graph of a list of links.
pub fn number_points(alloc: Global, links: &[Link]) -> Result<PointGraph, AllocError>
    ensures { IfOk result (λ graph. IsGraphOf links.now graph.points.keys graph.successors.items) }
{
    let mut points = IndexSet::new(alloc);
    let mut successors = Vec::new(alloc);
    for link in links {
        add_link(alloc, &mut points, &mut successors, link)?;
    }
    Ok(PointGraph { points, successors })
}

fn add_link(
    alloc: Global,
    points: &mut IndexSet<Point>,
    successors: &mut Vec<List<usize>>,
    link: &Link,
) -> Result<(), AllocError>
    requires { length successors.old.items ≡ length points.old.keys }
    ensures sizes { OnOk result (length successors.new.items ≡ length points.new.keys) }
    ensures graph { OnOk result ((links : Sequence LinkValue) → IsGraphOf links points.old.keys successors.old.items → IsGraphOf (links ++ link.now ∷ []) points.new.keys successors.new.items) }
{
    let from = number_of(alloc, points, successors, &link.from)?;
    let to = number_of(alloc, points, successors, &link.to)?;
    add_arrow(successors, from, to)
}

/// The number of a point, which is a new one if the point has none yet.
fn number_of(
    alloc: Global,
    points: &mut IndexSet<Point>,
    successors: &mut Vec<List<usize>>,
    point: &Point,
) -> Result<usize, AllocError>
    requires { length successors.old.items ≡ length points.old.keys }
    ensures sizes { OnOk result (length successors.new.items ≡ length points.new.keys) }
    ensures within { IfOk result (λ number. number < length points.new.keys) }
    ensures numbered { IfOk result (λ number. IsNumbered points.old.keys successors.old.items points.new.keys successors.new.items point.now number) }
{
    let (number, is_new) = points.insert_full(point.duplicate()?)?;
    if is_new {
        successors.push(List::new(alloc))?;
    }
    Ok(number)
}

fn add_arrow(successors: &mut Vec<List<usize>>, from: usize, to: usize) -> Result<(), AllocError>
    requires { from < length successors.old.items }
    ensures { OnOk result (successors.new.items ≡ slice_set successors.old.items from (row successors.old.items from ++ to ∷ [])) }
{
    successors[from].push(to)
}
