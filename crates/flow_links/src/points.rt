//! The points that items of a chain stand for, at a position.
ghost use Rattle.std.specs.Prelude.{◌≡◌, IfOk};
ghost use Rattle.flow_syntax.specs.Control.{HasSmallHead};
ghost use Rattle.flow_syntax.specs.Graph.{arriving, below, child_called, leaving};

use crate::rules::argument_number;
use flow_syntax::{FlowRule, ItemKind};
use flow_term::{Path, Point, Text};
use std::alloc::{AllocError, Global};

/// A path of its own.
pub fn same_path(alloc: Global, path: &[u32]) -> Result<Path, AllocError>
    ensures { IfOk result (λ copy. copy ≡ path.now) }
{
    Ok(Path::from_vec(Vec::from_slice(alloc, path)?))
}

/// The path of a child.
pub fn child_path(alloc: Global, path: &[u32], n: u32) -> Result<Path, AllocError>
    ensures { IfOk result (λ child. child ≡ below path.now n) }
{
    let mut longer = Vec::from_slice(alloc, path)?;
    longer.push(n)?;
    Ok(Path::from_vec(longer))
}

fn called_path(
    alloc: Global,
    rule: &FlowRule,
    name: &Text,
    path: &[u32],
) -> Result<Option<Path>, AllocError>
    requires { HasSmallHead rule.now }
    ensures { IfOk result (λ child. child ≡ child_called rule.now path.now name.now) }
{
    match argument_number(rule, name) {
        None => Ok(None),
        Some(n) => Ok(Some(child_path(alloc, path, n as u32)?)),
    }
}

/// The point of an item on the left of an arrow.
pub fn leaving_point(
    alloc: Global,
    rule: &FlowRule,
    kind: &ItemKind,
    path: &[u32],
) -> Result<Option<Point>, AllocError>
    requires { HasSmallHead rule.now }
    ensures { IfOk result (λ point. point ≡ leaving rule.now path.now kind.now) }
{
    match kind {
        ItemKind::Entry => Ok(Some(Point::In(same_path(alloc, path)?))),
        ItemKind::Exit => Ok(Some(Point::Out(same_path(alloc, path)?))),
        ItemKind::Start => Ok(Some(Point::Start(same_path(alloc, path)?))),
        ItemKind::End => Ok(Some(Point::End(same_path(alloc, path)?))),
        ItemKind::This => Ok(Some(Point::Node(same_path(alloc, path)?))),
        ItemKind::Whole(name) => match called_path(alloc, rule, name, path)? {
            Some(child) => Ok(Some(Point::Out(child))),
            None => Ok(None),
        },
        ItemKind::Single(name) => match called_path(alloc, rule, name, path)? {
            Some(child) => Ok(Some(Point::Node(child))),
            None => Ok(None),
        },
    }
}

/// The point of an item on the right of an arrow.
pub fn arriving_point(
    alloc: Global,
    rule: &FlowRule,
    kind: &ItemKind,
    path: &[u32],
) -> Result<Option<Point>, AllocError>
    requires { HasSmallHead rule.now }
    ensures { IfOk result (λ point. point ≡ arriving rule.now path.now kind.now) }
{
    match kind {
        ItemKind::Whole(name) => match called_path(alloc, rule, name, path)? {
            Some(child) => Ok(Some(Point::In(child))),
            None => Ok(None),
        },
        ItemKind::Entry => leaving_point(alloc, rule, kind, path),
        ItemKind::Exit => leaving_point(alloc, rule, kind, path),
        ItemKind::Start => leaving_point(alloc, rule, kind, path),
        ItemKind::End => leaving_point(alloc, rule, kind, path),
        ItemKind::This => leaving_point(alloc, rule, kind, path),
        ItemKind::Single(_) => leaving_point(alloc, rule, kind, path),
    }
}
