//! The shape of a tree, with what matches at each position.
ghost use Rattle.std.specs.Prelude.{◌≡◌, ◌↔◌, ◌<◌, ◌^◌, ◌+◌, IfOk, IsTrue, Some, None, option_and_then, slice_get, sum_by, true, false};
ghost use Rattle.flow_term.specs.Annotations.{term_layer};
ghost use Rattle.flow_term.specs.Trees.{At, children, position_count, term_size};
ghost use Rattle.flow_syntax.specs.declared.spec.Spec.{Spec as SpecValue};
ghost use Rattle.flow_syntax.specs.Control.{rule_for};
ghost use Rattle.flow_syntax.specs.Graph.{below};
ghost use Rattle.flow_syntax.specs.Matching.{is_list};
ghost use Rattle.flow_match.specs.Matched.{matched};
ghost use Rattle.graph_shape.specs.Shapes.{AreShapesOf, AreUsable, CanBuild, HasMatches, HaveMatches, IsPassable, IsShapeOf, IsSummaryOf};

use crate::kept::{Kept, Summary};
use crate::passing::{are_all_passed, is_through};
use crate::paths::child_path;
use crate::plans::Plans;
use flow_match::{Matched, RuleSource};
use flow_term::{Kind, List, Path, Term};
use lattice_base::Steps;
use path_tree::PathTree;
use std::alloc::{AllocError, Global};
use std::sync::ledger::Ledger;

fn is_items(term: &Term) -> bool
    ensures { result ≡ is_list (term_layer term.now) }
{
    matches!(&term.kind, Kind::Items(_))
}

/// Whether a position would be passed, by its matching rule and by its children's shapes.
fn is_passable(
    alloc: Global,
    plans: &Plans,
    rule: Option<u32>,
    term: &Term,
    shapes: &[PathTree<Kept>],
) -> Result<bool, AllocError>
    requires { term_size term.now < 2 ^ 32 }
    ensures { (spec : SpecValue) → AreUsable spec plans.now → option_and_then (slice_get spec.control) rule ≡ rule_for spec term.now → AreShapesOf spec (children term.now) shapes.now → IfOk result (λ b. IsPassable spec term.now b) }
{
    if is_items(term) {
        return Ok(are_all_passed(shapes));
    }
    is_through(alloc, plans.steps(rule), shapes)
}

/// What is kept of a position.
fn kept(
    alloc: Global,
    plans: &Plans,
    found: Matched,
    term: &Term,
    shapes: &[PathTree<Kept>],
) -> Result<Kept, AllocError>
    requires { term_size term.now < 2 ^ 32 }
    ensures summary { (spec : SpecValue) → AreUsable spec plans.now → option_and_then (slice_get spec.control) found.control ≡ rule_for spec term.now → AreShapesOf spec (children term.now) shapes.now → IfOk result (λ kept. IsSummaryOf spec term.now kept.summary) }
    ensures hits { IfOk result (λ kept. kept.hits ≡ found.hits) }
    ensures rule { IfOk result (λ kept. kept.summary.rule ≡ found.control) }
{
    let Matched { control, hits } = found;
    let passes = is_passable(alloc, plans, control, term, shapes)?;
    let summary = Summary {
        rule: control,
        list: is_items(term),
        passes,
    };
    Ok(Kept { summary, hits })
}

/// The shape of the term at the path of a tree, with the rules that match at each of its positions. It takes one step a position. Fails only for want of memory.
#[cycle(build)]
pub fn build<R: RuleSource, C: Ledger>(
    alloc: Global,
    rules: &R,
    plans: &Plans,
    tree: &Term,
    path: &Path,
    term: &Term,
    steps: &mut Steps<C>,
) -> Result<PathTree<Kept>, AllocError>
    requires can { CanBuild (R.spec rules.now) plans.now tree.now }
    requires here { At tree.now path.now ≡ Some term.now }
    ensures shape { IfOk result (λ shape. IsShapeOf (R.spec rules.now) term.now shape) }
    ensures matches { IfOk result (λ shape. HasMatches (R.spec rules.now) term.now path.now shape) }
    ensures steps { IfOk result (λ _. steps.new ≡ steps.old + position_count term.now) }
{
    let found = rules.rules_at(alloc, tree, path, steps)?;
    let children = build_children(alloc, rules, plans, tree, path, term, steps)?;
    let value = kept(alloc, plans, found, term, children.as_slice())?;
    Ok(PathTree { value, children })
}

/// The shapes of the children of the term at the path.
#[cycle(build)]
fn build_children<R: RuleSource, C: Ledger>(
    alloc: Global,
    rules: &R,
    plans: &Plans,
    tree: &Term,
    path: &Path,
    term: &Term,
    steps: &mut Steps<C>,
) -> Result<List<PathTree<Kept>>, AllocError>
    requires can { CanBuild (R.spec rules.now) plans.now tree.now }
    requires here { At tree.now path.now ≡ Some term.now }
    ensures shapes { IfOk result (λ shapes. AreShapesOf (R.spec rules.now) (children term.now) shapes) }
    ensures matches { IfOk result (λ shapes. HaveMatches (R.spec rules.now) (children term.now) path.now shapes) }
    ensures steps { IfOk result (λ _. steps.new ≡ steps.old + sum_by position_count (children term.now)) }
{
    let mut shapes = List::new(alloc);
    let mut n: u32 = 0;
    for child in term.children() {
        let below = child_path(alloc, path.as_slice(), n)?;
        let shape = build(alloc, rules, plans, tree, &below, child, steps)?;
        shapes.push(shape)?;
        n += 1;
    }
    Ok(shapes)
}
