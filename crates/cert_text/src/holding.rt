//! What the types of a certificate's parts say of them: the numbers of paths are below 2^32, and lists have fewer items than 10^19.
ghost use Rattle.std.specs.Prelude.{All, length};
ghost use Rattle.flow_term.specs.Paths.{AreSteps};
ghost use Rattle.cert_text.specs.Texts.{IsCount, IsEdgeEntry, IsFrom};
ghost use Rattle.cert_text.specs.inner.Bodies.{HasStepPaths};

use flow_term::{Edge, Valued};
use tree_constraints::{Key, Origin};
use value_text::steps_are_small;

pub fn edges_hold(edges: &[Edge])
    ensures paths { All IsEdgeEntry edges.now }
    ensures count { IsCount (length edges.now) }
{
    edges.len();
    for edge in edges {
        edge_holds(edge);
    }
}

fn edge_holds(edge: &Edge)
    ensures { IsEdgeEntry edge.now }
{
    steps_are_small(&edge.from.path);
    steps_are_small(&edge.to.path);
}

pub fn steps_hold(steps: &[Key])
    ensures paths { All HasStepPaths steps.now }
    ensures count { IsCount (length steps.now) }
{
    steps.len();
    for step in steps {
        step_holds(step);
    }
}

fn step_holds(step: &Key)
    ensures { HasStepPaths step.now }
{
    steps_are_small(&step.target.node.path);
    origin_holds(&step.origin);
}

fn origin_holds(origin: &Origin)
    ensures { IsFrom origin.now }
{
    match origin {
        Origin::Boundary => {}
        Origin::Along(node) => steps_are_small(&node.path),
    }
}

pub fn values_hold(values: &[Valued])
    ensures paths { All (λ v. AreSteps v.unknown.node.path) values.now }
    ensures count { IsCount (length values.now) }
{
    values.len();
    for value in values {
        steps_are_small(&value.unknown.node.path);
    }
}
