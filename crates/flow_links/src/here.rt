//! The links that one position makes.
ghost use Rattle.std.specs.Prelude.{◌≡◌, ◌<◌, ◌^◌, ◌-◌, ◌||◌, OnOk, IfSome, IfNone, Some, true, false, length};
ghost use Rattle.std.specs.Option.{option_copied};
ghost use Rattle.flow_term.specs.Annotations.{term_layer};
ghost use Rattle.flow_term.specs.Trees.{children, term_size};
ghost use Rattle.flow_term.specs.declared.graph.Point.TheVariants.{In, Out};
ghost use Rattle.flow_syntax.specs.declared.rule.FlowRule.{FlowRule as Rule};
ghost use Rattle.flow_syntax.specs.Control.{HasSmallHead};
ghost use Rattle.flow_syntax.specs.Graph.{LinksAt, below};
ghost use Rattle.flow_syntax.specs.Matching.{is_list};
ghost use Rattle.flow_links.specs.Below.{Adds};
ghost use Rattle.flow_links.specs.inner.Here.{EnteredLinks, ListLinks, NextBelow, RuleLinks};

use crate::chain::add_chains;
use crate::link_set::LinkSet;
use crate::points::{child_path, same_path};
use flow_syntax::FlowRule;
use flow_term::{Kind, Link, Point, Term};
use std::alloc::{AllocError, Global};

/// Whether a position with this matching rule counts.
fn is_counting(rule: &FlowRule, entered: bool) -> bool
    ensures { result ≡ (rule.now.root || entered) }
{
    rule.root || entered
}

/// The number of items of a list; of another term, none.
fn list_len(term: &Term) -> Option<usize>
    ensures some { IfSome result (λ n. (is_list (term_layer term.now) ≡ true) × (n ≡ length (children term.now))) }
    ensures none { IfNone result (is_list (term_layer term.now) ≡ false) }
{
    match &term.kind {
        Kind::Items(items) => Some(items.len()),
        _ => None,
    }
}

/// Adds the links of the matching rule, if the position counts.
fn add_rule(
    alloc: Global,
    matching: Option<&FlowRule>,
    entered: bool,
    path: &[u32],
    out: &mut LinkSet,
) -> Result<(), AllocError>
    requires { (rule : Rule) → option_copied matching ≡ Some rule → HasSmallHead rule }
    ensures { OnOk result (Adds out.old out.new (RuleLinks (option_copied matching.entry) entered path.now)) }
{
    match matching {
        None => Ok(()),
        Some(rule) => {
            if is_counting(rule, entered) {
                add_chains(alloc, rule, rule.chains.as_slice(), path, out)
            } else {
                Ok(())
            }
        }
    }
}

/// Adds the link through a position.
fn add_through(alloc: Global, path: &[u32], out: &mut LinkSet) -> Result<(), AllocError>
    ensures { OnOk result (Adds out.old out.new (λ a b. (a ≡ In path.now) × (b ≡ Out path.now))) }
{
    let from = Point::In(same_path(alloc, path)?);
    let to = Point::Out(same_path(alloc, path)?);
    out.insert(Link { from, to })
}

/// Adds the link into the first item of a list.
fn add_first(alloc: Global, path: &[u32], out: &mut LinkSet) -> Result<(), AllocError>
    ensures { OnOk result (Adds out.old out.new (λ a b. (a ≡ In path.now) × (b ≡ In (below path.now 0)))) }
{
    let from = Point::In(same_path(alloc, path)?);
    let to = Point::In(child_path(alloc, path, 0)?);
    out.insert(Link { from, to })
}

/// Adds the link from an item of a list to the one with the number k.
fn add_next(alloc: Global, path: &[u32], k: u32, out: &mut LinkSet) -> Result<(), AllocError>
    requires { 0 < k }
    ensures { OnOk result (Adds out.old out.new (λ a b. (a ≡ Out (below path.now (k - 1))) × (b ≡ In (below path.now k)))) }
{
    let from = Point::Out(child_path(alloc, path, k - 1)?);
    let to = Point::In(child_path(alloc, path, k)?);
    out.insert(Link { from, to })
}

/// Adds the link out of the last item of a list.
fn add_last(alloc: Global, path: &[u32], k: u32, out: &mut LinkSet) -> Result<(), AllocError>
    ensures { OnOk result (Adds out.old out.new (λ a b. (a ≡ Out (below path.now k)) × (b ≡ Out path.now))) }
{
    let from = Point::Out(child_path(alloc, path, k)?);
    let to = Point::Out(same_path(alloc, path)?);
    out.insert(Link { from, to })
}

/// Adds the links between the items of a list of n.
fn add_nexts(alloc: Global, path: &[u32], n: u32, out: &mut LinkSet) -> Result<(), AllocError>
    requires { 0 < n }
    ensures { OnOk result (Adds out.old out.new (NextBelow path.now n)) }
{
    for k in 1..n {
        add_next(alloc, path, k, out)?;
    }
    Ok(())
}

/// Adds the links of an entered list of n items.
fn add_list(alloc: Global, path: &[u32], n: u32, out: &mut LinkSet) -> Result<(), AllocError>
    ensures { OnOk result (Adds out.old out.new (ListLinks path.now n)) }
{
    if n == 0 {
        return add_through(alloc, path, out);
    }
    add_first(alloc, path, out)?;
    add_nexts(alloc, path, n, out)?;
    add_last(alloc, path, n - 1, out)
}

/// Whether no rule matches, or a root rule does.
fn is_passed_through(matching: Option<&FlowRule>) -> bool
    ensures passed { result ≡ true → (rule : Rule) → option_copied matching.entry ≡ Some rule → rule.root ≡ true }
    ensures plain { result ≡ false → (rule : Rule) × (option_copied matching.entry ≡ Some rule) × (rule.root ≡ false) }
{
    match matching {
        None => true,
        Some(rule) => rule.root,
    }
}

/// Adds the link through an entered position that is no list, unless it counts by a plain rule.
fn add_unlisted(
    alloc: Global,
    matching: Option<&FlowRule>,
    term: &Term,
    path: &[u32],
    out: &mut LinkSet,
) -> Result<(), AllocError>
    requires { is_list (term_layer term.now) ≡ false }
    ensures { OnOk result (Adds out.old out.new (EnteredLinks (option_copied matching.entry) term.now path.now)) }
{
    if is_passed_through(matching) {
        return add_through(alloc, path, out);
    }
    Ok(())
}

/// Adds the links that a position makes because it is entered.
fn add_entered(
    alloc: Global,
    matching: Option<&FlowRule>,
    term: &Term,
    path: &[u32],
    out: &mut LinkSet,
) -> Result<(), AllocError>
    requires { term_size term.now < 2 ^ 32 }
    ensures { OnOk result (Adds out.old out.new (EnteredLinks (option_copied matching.entry) term.now path.now)) }
{
    match list_len(term) {
        Some(n) => add_list(alloc, path, n as u32, out),
        None => add_unlisted(alloc, matching, term, path, out),
    }
}

/// Adds the links that one position makes, where `matching` is its matching rule.
pub fn add_here(
    alloc: Global,
    matching: Option<&FlowRule>,
    entered: bool,
    term: &Term,
    path: &[u32],
    out: &mut LinkSet,
) -> Result<(), AllocError>
    requires small { term_size term.now < 2 ^ 32 }
    requires head { (rule : Rule) → option_copied matching ≡ Some rule → HasSmallHead rule }
    ensures { OnOk result (Adds out.old out.new (LinksAt (option_copied matching.entry) entered term.now path.now)) }
{
    add_rule(alloc, matching, entered, path, out)?;
    if entered {
        add_entered(alloc, matching, term, path, out)?;
    }
    Ok(())
}
