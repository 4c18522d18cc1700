//! The variables of control rules, of rules of properties and of messages, and the parts of messages.
ghost use Rattle.std.specs.Prelude.{◌≡◌, ◌||◌, ℕ, List as Sequence, IfOk, OnOk, bytes_eq, map};
ghost use Rattle.std.specs.List.{list_any};
ghost use Rattle.check_base.specs.Earliest.{Gathers, SomeHas};
ghost use Rattle.flow_syntax.specs.VariableFaults.{IsFaultyVariable};
ghost use Rattle.check_rules.specs.Faults.{HasLoosePart, IsLooseIn, IsRepeatedIn, RebindsIn};
ghost use Rattle.check_rules.specs.inner.Tables.{binder_by, has_name, is_constant_in};
ghost use Rattle.check_base.specs.Tables.{AreNames};

use crate::bindings::{Binding, push_variables};
use crate::binds::Binds;
use crate::name_set::{NameSet, add_name, has_name};
use check_base::{Earliest, Names};
use flow_syntax::{Message, Part, Spec, SpecFaultKind};
use flow_term::Text;
use indexmap::IndexSet;
use std::alloc::{AllocError, Global};

/// Whether the name is an item or an element.
fn is_constant(names: &Names<'_>, name: &Text) -> bool
    ensures { result ≡ is_constant_in names.now name.now }
{
    names.enum_with_item(name).is_some() || names.lattice_with_element(name).is_some()
}

/// Whether a name can't be bound where these are bound already.
fn is_taken(names: &Names<'_>, bound: &NameSet<'_>, name: &Text) -> bool
    ensures { result ≡ (has_name bound.now name.now || is_constant_in names.now name.now) }
{
    has_name(bound, name) || is_constant(names, name)
}

/// Notes each name that is bound before, or is that of an item or an element.
fn note_repeated(
    alloc: Global,
    names: &Names<'_>,
    bindings: &[Binding<'_>],
    earliest: &mut Earliest,
) -> Result<(), AllocError>
    ensures { OnOk result (Gathers earliest.old earliest.new (SomeHas (IsRepeatedIn names.now (map binder_by bindings.now)) (map binder_by bindings.now))) }
{
    let mut bound = IndexSet::new(alloc);
    for binding in bindings {
        let is_taken = is_taken(names, &bound, binding.name);
        earliest.note_if(is_taken, binding.place, SpecFaultKind::Duplicate);
        add_name(&mut bound, binding.name)?;
    }
    Ok(())
}

/// Notes each name that a rule or message binds again, or that is that of an item or an element.
fn note_rebound<B: Binds>(
    alloc: Global,
    spec: &Spec,
    names: &Names<'_>,
    whole: &B,
    earliest: &mut Earliest,
) -> Result<(), AllocError>
    requires { AreNames spec.now names.now }
    ensures { OnOk result (Gathers earliest.old earliest.new (RebindsIn spec.now (B.binders whole.now))) }
{
    let bindings = whole.bindings(alloc)?;
    note_repeated(alloc, names, bindings.as_slice(), earliest)
}

/// The same of each of these rules or messages.
fn note_all_rebound<B: Binds>(
    alloc: Global,
    spec: &Spec,
    names: &Names<'_>,
    wholes: &[B],
    earliest: &mut Earliest,
) -> Result<(), AllocError>
    requires { AreNames spec.now names.now }
    ensures { OnOk result (Gathers earliest.old earliest.new (SomeHas (λ k whole. RebindsIn spec.now (B.binders whole)) wholes.now)) }
{
    for whole in wholes {
        note_rebound(alloc, spec, names, whole, earliest)?;
    }
    Ok(())
}

fn names_of_bindings<'a>(alloc: Global, bindings: &[Binding<'a>]) -> Result<NameSet<'a>, AllocError>
    ensures { IfOk result (λ names. (x : Sequence ℕ) → has_name names x ≡ list_any (λ b. bytes_eq x b.name) (map binder_by bindings.now)) }
{
    let mut names = IndexSet::new(alloc);
    for binding in bindings {
        add_name(&mut names, binding.name)?;
    }
    Ok(names)
}

fn note_loose(variables: &NameSet<'_>, part: &Part, earliest: &mut Earliest)
    ensures { Gathers earliest.old earliest.new (IsLooseIn variables.now part.now) }
{
    match part {
        Part::Words(_) => {}
        Part::Bound(named) => {
            let is_bound = has_name(variables, &named.text);
            earliest.note_if(!is_bound, named.place, SpecFaultKind::Unbound);
        }
    }
}

fn note_loose_parts(variables: &NameSet<'_>, parts: &[Part], earliest: &mut Earliest)
    ensures { Gathers earliest.old earliest.new (SomeHas (λ k. IsLooseIn variables.now) parts.now) }
{
    for part in parts {
        note_loose(variables, part, earliest);
    }
}

/// Looks for parts of a message that are no variables of its pattern.
fn check_parts(alloc: Global, message: &Message, earliest: &mut Earliest) -> Result<(), AllocError>
    ensures { OnOk result (Gathers earliest.old earliest.new (HasLoosePart message.now)) }
{
    let mut bindings = Vec::new(alloc);
    push_variables(&message.pattern, &mut bindings)?;
    let variables = names_of_bindings(alloc, bindings.as_slice())?;
    note_loose_parts(&variables, message.parts.as_slice(), earliest);
    Ok(())
}

/// The same of each of these messages.
fn check_all_parts(
    alloc: Global,
    messages: &[Message],
    earliest: &mut Earliest,
) -> Result<(), AllocError>
    ensures { OnOk result (Gathers earliest.old earliest.new (SomeHas (λ k. HasLoosePart) messages.now)) }
{
    for message in messages {
        check_parts(alloc, message, earliest)?;
    }
    Ok(())
}

/// Looks for the faults of variables: of those of control rules, rules of properties and messages, and of the parts of messages.
/// Fails only for want of memory.
///
/// A name isn't to be bound twice in one rule or message, nor to be that of an item or an element. A part of a message is to be
/// a variable of its pattern.
pub fn check_variables(
    alloc: Global,
    spec: &Spec,
    names: &Names<'_>,
    earliest: &mut Earliest,
) -> Result<(), AllocError>
    requires { AreNames spec.now names.now }
    ensures { OnOk result (Gathers earliest.old earliest.new (IsFaultyVariable spec.now)) }
{
    note_all_rebound(alloc, spec, names, spec.control.as_slice(), earliest)?;
    note_all_rebound(alloc, spec, names, spec.rules.as_slice(), earliest)?;
    note_all_rebound(alloc, spec, names, spec.messages.as_slice(), earliest)?;
    check_all_parts(alloc, spec.messages.as_slice(), earliest)
}
