//! The texts of nodes.
ghost use Rattle.std.specs.Prelude.{◌≡◌, ◌++◌, ℕ, List as Sequence, IfOk, IfSome, IsSomeAnd, OnOk, string_bytes};
ghost use Rattle.flow_term.specs.declared.graph.Node.{Node as NodeValue};
ghost use Rattle.flow_term.specs.declared.graph.NodeKind.{NodeKind as KindValue};
ghost use Rattle.flow_term.specs.Nodes.{IsNodeReadAs, kind_text, node_text};
ghost use Rattle.flow_term.specs.Paths.{AreSteps};

use crate::graph::{Node, NodeKind};
use crate::list::List;
use crate::path::push_path;
use crate::path_text::{PathRefusal, read_path};
use std::alloc::{AllocError, Global};

/// The text of a node: its path, a colon, and `start`, `node` or `end`. Fails only for want of memory.
pub fn write_node(alloc: Global, node: &Node) -> Result<List<u8>, AllocError>
    ensures { IfOk result (λ bytes. bytes ≡ node_text node.now) }
{
    let mut text = String::new(alloc);
    push_node(&mut text, node)?;
    Ok(List::from_vec(text.into_bytes()))
}

/// Adds the text of a node. After want of memory a part of it may be there.
pub fn push_node(text: &mut String, node: &Node) -> Result<(), AllocError>
    ensures { OnOk result (string_bytes text.new ≡ string_bytes text.old ++ node_text node.now) }
{
    push_path(text, &node.path)?;
    text.push_str(kind_word(node.kind))
}

fn kind_word(kind: NodeKind) -> &'static str
    ensures { result.now ≡ kind_text kind }
{
    match kind {
        NodeKind::Start => ":start",
        NodeKind::Node => ":node",
        NodeKind::End => ":end",
    }
}

/// The node of which these bytes are the text. `Form` exactly where no node has this text.
pub fn read_node(alloc: Global, bytes: &[u8]) -> Result<Node, PathRefusal>
    ensures found { IfOk result (λ node. node_text node ≡ bytes.now) }
    ensures only { (node : NodeValue) → AreSteps node.path → node_text node ≡ bytes.now → IsNodeReadAs result node }
{
    let Some((kind, front)) = split_kind(bytes) else {
        return Err(PathRefusal::Form);
    };
    let path = read_path(alloc, front)?;
    Ok(Node { path, kind })
}

/// What a node's text says that it is, and what stands before that.
fn split_kind(bytes: &[u8]) -> Option<(NodeKind, &[u8])>
    ensures found { IfSome result (λ x. bytes.now ≡ x.1.now ++ kind_text x.0) }
    ensures only { (front : Sequence ℕ) (kind : KindValue) → bytes.now ≡ front ++ kind_text kind → IsSomeAnd result (λ x. (x.0 ≡ kind) × (x.1.now ≡ front)) }
{
    if let Some(front) = front_of(bytes, NodeKind::Start) {
        return Some((NodeKind::Start, front));
    }
    if let Some(front) = front_of(bytes, NodeKind::Node) {
        return Some((NodeKind::Node, front));
    }
    let front = front_of(bytes, NodeKind::End)?;
    Some((NodeKind::End, front))
}

/// What stands before the words for this kind.
fn front_of(bytes: &[u8], kind: NodeKind) -> Option<&[u8]>
    ensures found { IfSome result (λ front. bytes.now ≡ front.now ++ kind_text kind) }
    ensures none { (front : Sequence ℕ) → bytes.now ≡ front ++ kind_text kind → IsSomeAnd result (λ _. Unit {0}) }
{
    bytes.strip_suffix(kind_word(kind).as_bytes())
}
