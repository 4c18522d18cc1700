//! The text of a graph.
ghost use Rattle.std.specs.Prelude.{◌≡◌, ◌++◌, ◌∷◌, ℕ, IfOk, OnOk, codes, decimal, length, string_bytes};
ghost use Rattle.std.specs.List.{flat_map};
ghost use Rattle.flow_cli.specs.GraphText.{count_line, edge_line, graph_text, node_line};

use flow_term::{Edge, List, Node, push_node};
use std::alloc::{AllocError, Global};

/// `nodes` and their number, a line for each, `edges` and their number, and a line for each.
pub fn print_graph(
    alloc: Global,
    nodes: &List<Node>,
    edges: &List<Edge>,
) -> Result<Vec<u8>, AllocError>
    ensures { IfOk result (λ bytes. bytes.items ≡ graph_text nodes.now edges.now) }
{
    let mut text = String::new(alloc);
    push_count(&mut text, "nodes ", nodes.len())?;
    push_nodes(&mut text, nodes.as_slice())?;
    push_count(&mut text, "edges ", edges.len())?;
    push_edges(&mut text, edges.as_slice())?;
    Ok(text.into_bytes())
}

fn push_count(text: &mut String, word: &str, count: usize) -> Result<(), AllocError>
    ensures { OnOk result (string_bytes text.new ≡ string_bytes text.old ++ count_line word.now count) }
{
    writeln!(text, "{word}{count}")
}

fn push_nodes(text: &mut String, nodes: &[Node]) -> Result<(), AllocError>
    ensures { OnOk result (string_bytes text.new ≡ string_bytes text.old ++ flat_map node_line nodes.now) }
{
    for node in nodes {
        push_node_line(text, node)?;
    }
    Ok(())
}

fn push_node_line(text: &mut String, node: &Node) -> Result<(), AllocError>
    ensures { OnOk result (string_bytes text.new ≡ string_bytes text.old ++ node_line node.now) }
{
    push_node(text, node)?;
    text.push_str("\n")
}

fn push_edges(text: &mut String, edges: &[Edge]) -> Result<(), AllocError>
    ensures { OnOk result (string_bytes text.new ≡ string_bytes text.old ++ flat_map edge_line edges.now) }
{
    for edge in edges {
        push_edge_line(text, edge)?;
    }
    Ok(())
}

fn push_edge_line(text: &mut String, edge: &Edge) -> Result<(), AllocError>
    ensures { OnOk result (string_bytes text.new ≡ string_bytes text.old ++ edge_line edge.now) }
{
    push_node(text, &edge.from)?;
    text.push_str(" -> ")?;
    push_node(text, &edge.to)?;
    text.push_str("\n")
}
