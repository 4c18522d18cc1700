//! The items of chains: which variables they name, and where they stand.
ghost use Rattle.std.specs.Prelude.{◌≡◌, ◌<◌, length};
ghost use Rattle.check_base.specs.Earliest.{Gathers, SomeHas};
ghost use Rattle.check_rules.specs.inner.Items.{is_misplaced};
ghost use Rattle.check_rules.specs.Faults.{IsFaultyChain, IsFaultyItem, IsMisnamed, IsMisnamedBy};
ghost use Rattle.check_rules.specs.inner.Tables.{IsHeadOf};
ghost use Rattle.check_base.specs.Tables.{value_in};

use crate::head::Head;
use crate::name_set::has_name;
use check_base::Earliest;
use flow_syntax::{Chain, FlowRule, Item, ItemKind, SpecFaultKind};
use flow_term::Text;

/// Whether the variable of a head is a position, if there is one of this name.
fn is_position(head: &Head<'_>, name: &Text) -> Option<bool>
    ensures { result ≡ value_in head.now.variables name.now }
{
    head.variables.get(name.as_str()).copied()
}

/// Notes what is wrong with the variable that an item at this place names.
fn note_variable(head: &Head<'_>, name: &Text, place: u64, earliest: &mut Earliest)
    ensures { Gathers earliest.old earliest.new (IsMisnamedBy head.now name.now place) }
{
    match is_position(head, name) {
        None => earliest.note(place, SpecFaultKind::Unbound),
        Some(is_position) => {
            earliest.note_if(!is_position, place, SpecFaultKind::Sort);
            let is_direct = has_name(&head.direct, name);
            earliest.note_if(!is_direct, place, SpecFaultKind::Nested);
        }
    }
}

fn check_name(rule: &FlowRule, head: &Head<'_>, item: &Item, earliest: &mut Earliest)
    requires { IsHeadOf rule.now head.now }
    ensures { Gathers earliest.old earliest.new (IsMisnamed rule.now item.now) }
{
    match &item.kind {
        ItemKind::Whole(name) | ItemKind::Single(name) => {
            note_variable(head, name, item.place, earliest)
        }
        _ => {}
    }
}

/// Whether an item can't stand at this place of a chain of so many items.
fn is_misplaced(root: bool, count: usize, at: usize, item: &Item) -> bool
    requires { at < count }
    ensures { result ≡ is_misplaced root count at item.now.kind }
{
    match &item.kind {
        ItemKind::Entry => root || at > 0,
        ItemKind::Exit => root || at + 1 < count,
        ItemKind::Start => !root || at > 0,
        ItemKind::End => !root || at + 1 < count,
        _ => false,
    }
}

fn check_item(
    rule: &FlowRule,
    head: &Head<'_>,
    count: usize,
    at: usize,
    item: &Item,
    earliest: &mut Earliest,
)
    requires headed { IsHeadOf rule.now head.now }
    requires within { at < count }
    ensures { Gathers earliest.old earliest.new (IsFaultyItem rule.now count at item.now) }
{
    check_name(rule, head, item, earliest);
    let is_misplaced = is_misplaced(rule.root, count, at, item);
    earliest.note_if(is_misplaced, item.place, SpecFaultKind::WrongEnd);
}

fn check_items(rule: &FlowRule, head: &Head<'_>, items: &[Item], earliest: &mut Earliest)
    requires { IsHeadOf rule.now head.now }
    ensures { Gathers earliest.old earliest.new (SomeHas (IsFaultyItem rule.now (length items.now)) items.now) }
{
    for (at, item) in items.iter().enumerate() {
        check_item(rule, head, items.len(), at, item, earliest);
    }
}

/// Looks for items that name a wrong variable or stand at a wrong end of their chain.
pub fn check_chains(rule: &FlowRule, head: &Head<'_>, chains: &[Chain], earliest: &mut Earliest)
    requires { IsHeadOf rule.now head.now }
    ensures { Gathers earliest.old earliest.new (SomeHas (λ k. IsFaultyChain rule.now) chains.now) }
{
    for chain in chains {
        check_items(rule, head, chain.items.as_slice(), earliest);
    }
}
