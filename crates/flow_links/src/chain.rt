//! The links of the chains of a rule.
ghost use Rattle.std.specs.Prelude.{◌≡◌, Some, OnOk, length};
ghost use Rattle.flow_syntax.specs.Control.{HasSmallHead};
ghost use Rattle.flow_syntax.specs.Graph.{arriving, leaving};
ghost use Rattle.flow_links.specs.Below.{Adds};
ghost use Rattle.flow_links.specs.inner.Here.{PairsBelow, ChainsOf};

use crate::link_set::LinkSet;
use crate::points::{arriving_point, leaving_point};
use flow_syntax::{Chain, FlowRule, Item, ItemKind};
use flow_term::Link;
use std::alloc::{AllocError, Global};

fn add_pair(
    alloc: Global,
    rule: &FlowRule,
    left: &ItemKind,
    right: &ItemKind,
    path: &[u32],
    out: &mut LinkSet,
) -> Result<(), AllocError>
    requires { HasSmallHead rule.now }
    ensures { OnOk result (Adds out.old out.new (λ a b. (leaving rule.now path.now left.now ≡ Some a) × (arriving rule.now path.now right.now ≡ Some b))) }
{
    let Some(from) = leaving_point(alloc, rule, left, path)? else {
        return Ok(());
    };
    let Some(to) = arriving_point(alloc, rule, right, path)? else {
        return Ok(());
    };
    out.insert(Link { from, to })
}

fn add_chain(
    alloc: Global,
    rule: &FlowRule,
    items: &[Item],
    path: &[u32],
    out: &mut LinkSet,
) -> Result<(), AllocError>
    requires { HasSmallHead rule.now }
    ensures { OnOk result (Adds out.old out.new (PairsBelow rule.now items.now path.now (length items.now))) }
{
    for k in 1..items.len() {
        add_pair(alloc, rule, &items[k - 1].kind, &items[k].kind, path, out)?;
    }
    Ok(())
}

/// Adds the links of the chains of a rule.
pub fn add_chains(
    alloc: Global,
    rule: &FlowRule,
    chains: &[Chain],
    path: &[u32],
    out: &mut LinkSet,
) -> Result<(), AllocError>
    requires { HasSmallHead rule.now }
    ensures { OnOk result (Adds out.old out.new (ChainsOf rule.now chains.now path.now)) }
{
    for chain in chains {
        add_chain(alloc, rule, chain.items.as_slice(), path, out)?;
    }
    Ok(())
}
