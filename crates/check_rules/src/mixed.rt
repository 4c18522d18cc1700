//! Items of one rule that name an argument as itself and as its node.
ghost use Rattle.std.specs.Prelude.{◌≡◌, ◌++◌, ◌&&◌, OnOk, map};
ghost use Rattle.std.specs.List.{flat_map};
ghost use Rattle.check_base.specs.Earliest.{Gathers, SomeHas};
ghost use Rattle.check_rules.specs.Faults.{IsMixedItem, IsMixedWith};
ghost use Rattle.check_rules.specs.inner.Tables.{HasNamed, IsHeadOf, has_name, is_mixed_by, shown};

use crate::head::Head;
use crate::name_set::{NameSet, add_name, has_name};
use check_base::Earliest;
use flow_syntax::{Chain, FlowRule, Item, ItemKind, SpecFaultKind};
use flow_term::Text;
use indexmap::IndexSet;
use std::alloc::{AllocError, Global};

fn push_items<'a>(items: &'a [Item], out: &mut Vec<&'a Item>) -> Result<(), AllocError>
    ensures { OnOk result (map shown out.new.items ≡ map shown out.old.items ++ items.now) }
{
    for item in items {
        out.push(item)?;
    }
    Ok(())
}

/// Adds the items of the chains, in the order of the text.
fn push_chains<'a>(chains: &'a [Chain], out: &mut Vec<&'a Item>) -> Result<(), AllocError>
    ensures { OnOk result (map shown out.new.items ≡ map shown out.old.items ++ flat_map (λ chain. chain.items) chains.now) }
{
    for chain in chains {
        push_items(chain.items.as_slice(), out)?;
    }
    Ok(())
}

/// The variables that items named so far.
#[derive(Drop)]
struct Named<'a> {
    /// By items `x`.
    whole: NameSet<'a>,
    /// By items `node x`.
    single: NameSet<'a>,
}

/// Whether a variable is an argument and among these.
fn is_among(arguments: &NameSet<'_>, names: &NameSet<'_>, name: &Text) -> bool
    ensures { result ≡ (has_name arguments.now name.now && has_name names.now name.now) }
{
    has_name(arguments, name) && has_name(names, name)
}

/// Whether an earlier item names the argument of this one in the other way.
fn is_mixed(arguments: &NameSet<'_>, named: &Named<'_>, item: &Item) -> bool
    ensures { result ≡ is_mixed_by arguments.now named.now item.now.kind }
{
    match &item.kind {
        ItemKind::Whole(name) => is_among(arguments, &named.single, name),
        ItemKind::Single(name) => is_among(arguments, &named.whole, name),
        _ => false,
    }
}

fn add_item<'a>(named: &mut Named<'a>, item: &'a Item) -> Result<(), AllocError>
    ensures { OnOk result (HasNamed named.old item.now.kind named.new) }
{
    match &item.kind {
        ItemKind::Whole(name) => add_name(&mut named.whole, name),
        ItemKind::Single(name) => add_name(&mut named.single, name),
        _ => Ok(()),
    }
}

/// Notes each item that an earlier one mixes with.
fn note_mixed(
    alloc: Global,
    arguments: &NameSet<'_>,
    items: &[&Item],
    earliest: &mut Earliest,
) -> Result<(), AllocError>
    ensures { OnOk result (Gathers earliest.old earliest.new (SomeHas (IsMixedWith arguments.now (map shown items.now)) (map shown items.now))) }
{
    let mut named = Named {
        whole: IndexSet::new(alloc),
        single: IndexSet::new(alloc),
    };
    for item in items {
        let is_mixed = is_mixed(arguments, &named, item);
        earliest.note_if(is_mixed, item.place, SpecFaultKind::MixedItem);
        add_item(&mut named, item)?;
    }
    Ok(())
}

/// Looks for items that name an argument otherwise than an earlier one.
pub fn check_mixed(
    alloc: Global,
    rule: &FlowRule,
    head: &Head<'_>,
    earliest: &mut Earliest,
) -> Result<(), AllocError>
    requires { IsHeadOf rule.now head.now }
    ensures { OnOk result (Gathers earliest.old earliest.new (IsMixedItem rule.now)) }
{
    let mut items = Vec::new(alloc);
    push_chains(rule.chains.as_slice(), &mut items)?;
    note_mixed(alloc, &head.arguments, items.as_slice(), earliest)
}
