//! The rules that match at a node.
ghost use Rattle.std.specs.Prelude.{◌≡◌, ◌≢◌, ◌&&◌, ◌==◌, ◌<◌, ◌^◌, IfOk, None, Some, find};
ghost use Rattle.std.specs.Option.{option_copied};
ghost use Rattle.flow_term.specs.Trees.{At, term_size};
ghost use Rattle.flow_match.specs.Few.{HasFewRules};
ghost use Rattle.flow_match.specs.Matched.{matched_in};
ghost use Rattle.tree_build.specs.inner.Hits.{is_hit_of, ordinary_in};

use flow_match::{Matched, RuleHit, RuleSource};
use flow_term::{Node, NodeKind, Path, Term};
use lattice_base::Steps;
use std::alloc::{AllocError, Global};
use std::marker::Brand;
use std::sync::ledger::{Blank, Ledger};

/// The rules that match at a position. Its step is counted by a counter of its own.
pub(crate) fn rules_at<R: RuleSource>(
    alloc: Global,
    rules: &R,
    tree: &Term,
    path: &Path,
) -> Result<Matched, AllocError>
    requires small { term_size tree.now < 2 ^ 32 }
    requires position { At tree.now path.now ≢ None }
    requires few { HasFewRules (R.spec rules.now) }
    ensures { IfOk result (λ matched. Some matched ≡ matched_in (R.spec rules.now) tree.now path.now) }
{
    counted_rules::<R, Brand>(alloc, rules, tree, path, Blank::new(1))
}

fn counted_rules<R: RuleSource, C: Ledger>(
    alloc: Global,
    rules: &R,
    tree: &Term,
    path: &Path,
    blank: Blank,
) -> Result<Matched, AllocError>
    requires name { blank.name ≡ C.name }
    requires parts { blank.parts ≡ C.parts }
    requires some { 0 < C.parts }
    requires small { term_size tree.now < 2 ^ 32 }
    requires position { At tree.now path.now ≢ None }
    requires few { HasFewRules (R.spec rules.now) }
    ensures { IfOk result (λ matched. Some matched ≡ matched_in (R.spec rules.now) tree.now path.now) }
{
    let mut steps: Steps<C> = Steps::new(blank);
    rules.rules_at(alloc, tree, path, &mut steps)
}

/// The first rule of the property with this number that matches, an ordinary one or one for a boundary.
pub(crate) fn hit_of(hits: &[RuleHit], property: u32, boundary: bool) -> Option<&RuleHit>
    ensures { option_copied result ≡ find (is_hit_of property boundary) hits.now }
{
    for hit in hits {
        if is_hit_of(hit, property, boundary) {
            return Some(hit);
        }
    }
    None
}

fn is_hit_of(hit: &RuleHit, property: u32, boundary: bool) -> bool
    ensures { result ≡ is_hit_of property boundary hit.now }
{
    hit.property == property && hit.boundary == boundary
}

/// The ordinary rule of the property with this number: only a node that is a position itself has one.
pub(crate) fn ordinary_hit(hits: &[RuleHit], property: u32, kind: NodeKind) -> Option<&RuleHit>
    ensures { option_copied result ≡ ordinary_in hits.now property kind }
{
    match kind {
        NodeKind::Node => hit_of(hits, property, false),
        _ => None,
    }
}
