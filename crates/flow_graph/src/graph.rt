ghost use Rattle.std.specs.Prelude.{◌≡◌, ◌↔◌, ◌+◌, ◌<◌, ◌^◌, Contains, IfOk};
ghost use Rattle.std.specs.List.Sorted.{IsStrictlySortedBy};
ghost use Rattle.flow_term.specs.declared.graph.Edge.{Edge as EdgeValue};
ghost use Rattle.flow_term.specs.declared.term.Term.{Term as TermValue};
ghost use Rattle.flow_term.specs.Orders.{edge_cmp};
ghost use Rattle.flow_term.specs.Trees.{position_count, term_size};
ghost use Rattle.flow_syntax.specs.declared.spec.Spec.{Spec as SpecValue};
ghost use Rattle.flow_syntax.specs.Graph.{IsEdge};
ghost use Rattle.flow_match.specs.Few.{HasFewRules};
ghost use Rattle.flow_graph.specs.Graphs.{IsGraph, IsGraphOf};

use crate::sorted::sorted_edges;
use flow_match::RuleSource;
use flow_syntax::TypedSpec;
use flow_term::{Edge, List, Path, Term};
use graph_edges::{BothPlans, add_below};
use graph_shape::{Kept, build};
use lattice_base::Steps;
use path_tree::PathTree;
use std::alloc::{AllocError, Global};
use std::sync::ledger::Ledger;

/// The graph of a tree: of each position what matches there, and what control does.
#[derive(Drop)]
pub struct Graph {
    /// What the control rules say.
    pub plans: BothPlans,
    /// What is kept of each position.
    pub shape: PathTree<Kept>,
}

impl Graph {
    /// The graph of the tree. It takes one step a position. Fails only for want of memory.
    pub fn build<R: RuleSource, C: Ledger>(
        alloc: Global,
        rules: &R,
        spec: &TypedSpec,
        tree: &Term,
        steps: &mut Steps<C>,
    ) -> Result<Graph, AllocError>
        requires source { R.spec rules.now ≡ spec.now.spec }
        requires small { term_size tree.now < 2 ^ 32 }
        requires few { HasFewRules spec.now.spec }
        ensures graph { IfOk result (λ graph. IsGraphOf spec.now.spec tree.now graph) }
        ensures steps { IfOk result (λ _. steps.new ≡ steps.old + position_count tree.now) }
    {
        let plans = BothPlans::new(alloc, spec.spec.control.as_slice())?;
        let root = Path::from_vec(Vec::new(alloc));
        let shape = build(alloc, rules, &plans.forth, tree, &root, tree, steps)?;
        Ok(Graph { plans, shape })
    }

    /// The edges of the tree, in order, each once. Fails only for want of memory.
    pub fn edges(&self, alloc: Global) -> Result<List<Edge>, AllocError>
        requires graph { IsGraph self.now }
        ensures exactly { (spec : SpecValue) (tree : TermValue) → IsGraphOf spec tree self.now → IfOk result (λ edges. (edge : EdgeValue) → Contains edges edge ↔ IsEdge spec tree edge.from edge.to) }
        ensures ordered { IfOk result (IsStrictlySortedBy edge_cmp) }
    {
        let mut found = List::new(alloc);
        add_below(alloc, &self.plans, false, &self.shape, &[], &mut found)?;
        sorted_edges(alloc, found.as_slice())
    }
}
