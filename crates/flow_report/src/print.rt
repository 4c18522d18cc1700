//! Printing graphs and solutions.
ghost use Rattle.std.specs.Prelude.{◌≡◌, ◌++◌, IfOk, OnOk, codes, length};
ghost use Rattle.flow_report.specs.GraphText.{graph_text};
ghost use Rattle.flow_report.specs.SolutionText.{HaveTexts, solution_text};

use flow_cert::Solution;
use flow_lines::{push_count, push_edges, push_nodes, push_values};
use flow_term::{Edge, List, Node};
use std::alloc::{AllocError, Global};

/// `nodes` and their number, a line for each, `edges` and their number, and a line for each. Fails only for want of memory.
pub fn print_graph(
    alloc: Global,
    nodes: &List<Node>,
    edges: &List<Edge>,
) -> Result<List<u8>, AllocError>
    ensures { IfOk result (λ bytes. bytes ≡ graph_text nodes.now edges.now) }
{
    let mut bytes = Vec::new(alloc);
    push_graph(&mut bytes, nodes, edges)?;
    Ok(List::from_vec(bytes))
}

/// The text of the graph, `values` and their number, and a line for each. Fails only for want of memory.
pub fn print_solution(alloc: Global, solution: &Solution) -> Result<List<u8>, AllocError>
    requires { HaveTexts solution.now.values }
    ensures { IfOk result (λ bytes. bytes ≡ solution_text solution.now) }
{
    let mut bytes = Vec::new(alloc);
    push_graph(&mut bytes, &solution.nodes, &solution.edges)?;
    push_count(&mut bytes, "values ", solution.values.len())?;
    push_values(&mut bytes, solution.values.as_slice())?;
    Ok(List::from_vec(bytes))
}

fn push_graph(bytes: &mut Vec<u8>, nodes: &List<Node>, edges: &List<Edge>) -> Result<(), AllocError>
    ensures { OnOk result (bytes.new.items ≡ bytes.old.items ++ graph_text nodes.now edges.now) }
{
    push_count(bytes, "nodes ", nodes.len())?;
    push_nodes(bytes, nodes.as_slice())?;
    push_count(bytes, "edges ", edges.len())?;
    push_edges(bytes, edges.as_slice())
}
