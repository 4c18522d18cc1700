//! Adding lines at the end of bytes, in place. After want of memory a part of what is added may be there.
ghost use Rattle.std.specs.Prelude.{◌≡◌, ◌++◌, ◌∷◌, [], OnOk, codes, decimal};
ghost use Rattle.std.specs.List.{flat_map};
ghost use Rattle.flow_term.specs.Nodes.{kind_text, node_text};
ghost use Rattle.flow_lines.specs.Lines.{count_line, edge_line, node_line, value_line};

use flow_term::{Edge, Node, NodeKind, Valued};
use itoa::Buffer;
use std::alloc::AllocError;
use value_text::{push_position, push_value};

/// Adds a word and a number: `nodes 6`. The word has the blank at its end.
pub fn push_count(bytes: &mut Vec<u8>, word: &str, count: usize) -> Result<(), AllocError>
    ensures { OnOk result (bytes.new.items ≡ bytes.old.items ++ count_line word.now count) }
{
    bytes.extend_from_slice(word.as_bytes())?;
    let mut buffer = Buffer::new();
    bytes.extend_from_slice(buffer.format(count).as_bytes())?;
    bytes.extend_from_slice(b"\n")
}

/// Adds a line for each node: `/0/1:node`.
pub fn push_nodes(bytes: &mut Vec<u8>, nodes: &[Node]) -> Result<(), AllocError>
    ensures { OnOk result (bytes.new.items ≡ bytes.old.items ++ flat_map node_line nodes.now) }
{
    for node in nodes {
        push_node_line(bytes, node)?;
    }
    Ok(())
}

/// Adds a line for each edge: `/:start -> /0/1:node`.
pub fn push_edges(bytes: &mut Vec<u8>, edges: &[Edge]) -> Result<(), AllocError>
    ensures { OnOk result (bytes.new.items ≡ bytes.old.items ++ flat_map edge_line edges.now) }
{
    for edge in edges {
        push_edge_line(bytes, edge)?;
    }
    Ok(())
}

/// Adds a line for each value: `/0/1:node live = {"x"}`.
pub fn push_values(bytes: &mut Vec<u8>, values: &[Valued]) -> Result<(), AllocError>
    ensures { OnOk result (bytes.new.items ≡ bytes.old.items ++ flat_map value_line values.now) }
{
    for value in values {
        push_value_line(bytes, value)?;
    }
    Ok(())
}

/// Adds the text of a node: `/0/1:node`.
pub fn push_node(bytes: &mut Vec<u8>, node: &Node) -> Result<(), AllocError>
    ensures { OnOk result (bytes.new.items ≡ bytes.old.items ++ node_text node.now) }
{
    push_position(bytes, &node.path)?;
    bytes.extend_from_slice(kind_word(node.kind).as_bytes())
}

fn kind_word(kind: NodeKind) -> &'static str
    ensures { result.now ≡ kind_text kind }
{
    match kind {
        NodeKind::Start => ":start",
        NodeKind::Node => ":node",
        NodeKind::End => ":end",
    }
}

fn push_node_line(bytes: &mut Vec<u8>, node: &Node) -> Result<(), AllocError>
    ensures { OnOk result (bytes.new.items ≡ bytes.old.items ++ node_line node.now) }
{
    push_node(bytes, node)?;
    bytes.extend_from_slice(b"\n")
}

fn push_edge_line(bytes: &mut Vec<u8>, edge: &Edge) -> Result<(), AllocError>
    ensures { OnOk result (bytes.new.items ≡ bytes.old.items ++ edge_line edge.now) }
{
    push_node(bytes, &edge.from)?;
    bytes.extend_from_slice(b" -> ")?;
    push_node(bytes, &edge.to)?;
    bytes.extend_from_slice(b"\n")
}

fn push_value_line(bytes: &mut Vec<u8>, valued: &Valued) -> Result<(), AllocError>
    ensures { OnOk result (bytes.new.items ≡ bytes.old.items ++ value_line valued.now) }
{
    push_node(bytes, &valued.unknown.node)?;
    bytes.extend_from_slice(b" ")?;
    bytes.extend_from_slice(valued.unknown.property.as_str().as_bytes())?;
    bytes.extend_from_slice(b" = ")?;
    push_value(bytes, &valued.value)?;
    bytes.extend_from_slice(b"\n")
}
