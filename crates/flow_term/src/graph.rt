//! Nodes, edges, unknowns, points and links of a control-flow graph.
ghost use Rattle.std.specs.Prelude.{◌≡◌, IfOk};

use crate::path::Path;
use crate::text::Text;
use std::alloc::AllocError;

/// What a node stands for at its position: where control starts there, the position itself, or where control ends there.
#[derive(Clone, Copy, Debug, PartialEq, Eq, PartialOrd, Ord, Hash)]
pub enum NodeKind {
    /// Where control starts at the position.
    Start,
    /// The position itself.
    Node,
    /// Where control ends at the position.
    End,
}

/// A node of the control-flow graph. Nodes are ordered by path, then `Start`, `Node`, `End`.
#[derive(Debug, PartialEq, Eq, PartialOrd, Ord, Hash, Drop)]
pub struct Node {
    /// The path to the position.
    pub path: Path,
    /// What the node stands for there.
    pub kind: NodeKind,
}

/// An edge of the control-flow graph. Edges are ordered by source, then by target.
#[derive(Debug, PartialEq, Eq, PartialOrd, Ord, Hash, Drop)]
pub struct Edge {
    /// The node that control comes from.
    pub from: Node,
    /// The node that control goes to.
    pub to: Node,
}

/// A property at a node. Unknowns are ordered by node, then by the bytes of the property's name.
#[derive(Debug, PartialEq, Eq, PartialOrd, Ord, Hash, Drop)]
pub struct Unknown {
    /// The node.
    pub node: Node,
    /// The name of the property.
    pub property: Text,
}

/// A point of a position that control passes: into it, out of it, or a node at it.
#[derive(Debug, PartialEq, Eq, PartialOrd, Ord, Hash, Drop)]
pub enum Point {
    /// Where control comes into the position.
    In(Path),
    /// Where control leaves the position.
    Out(Path),
    /// The node that is the position itself.
    Node(Path),
    /// The node where control starts at the position.
    Start(Path),
    /// The node where control ends at the position.
    End(Path),
}

/// A step of control from one point to the next.
#[derive(Debug, PartialEq, Eq, PartialOrd, Ord, Hash, Drop)]
pub struct Link {
    /// The point that control comes from.
    pub from: Point,
    /// The point that control goes to.
    pub to: Point,
}

impl Node {
    /// An equal node. Fails only for want of memory.
    pub fn duplicate(&self) -> Result<Node, AllocError>
        ensures { IfOk result (λ node. node ≡ self.now) }
    {
        Ok(Node {
            path: self.path.duplicate()?,
            kind: self.kind,
        })
    }
}

impl Edge {
    /// An equal edge. Fails only for want of memory.
    pub fn duplicate(&self) -> Result<Edge, AllocError>
        ensures { IfOk result (λ edge. edge ≡ self.now) }
    {
        Ok(Edge {
            from: self.from.duplicate()?,
            to: self.to.duplicate()?,
        })
    }
}

impl Unknown {
    /// An equal unknown. Fails only for want of memory.
    pub fn duplicate(&self) -> Result<Unknown, AllocError>
        ensures { IfOk result (λ unknown. unknown ≡ self.now) }
    {
        Ok(Unknown {
            node: self.node.duplicate()?,
            property: self.property.duplicate()?,
        })
    }
}

impl Point {
    /// An equal point. Fails only for want of memory.
    pub fn duplicate(&self) -> Result<Point, AllocError>
        ensures { IfOk result (λ point. point ≡ self.now) }
    {
        Ok(match self {
            Point::In(path) => Point::In(path.duplicate()?),
            Point::Out(path) => Point::Out(path.duplicate()?),
            Point::Node(path) => Point::Node(path.duplicate()?),
            Point::Start(path) => Point::Start(path.duplicate()?),
            Point::End(path) => Point::End(path.duplicate()?),
        })
    }
}

impl Link {
    /// An equal link. Fails only for want of memory.
    pub fn duplicate(&self) -> Result<Link, AllocError>
        ensures { IfOk result (λ link. link ≡ self.now) }
    {
        Ok(Link {
            from: self.from.duplicate()?,
            to: self.to.duplicate()?,
        })
    }
}
