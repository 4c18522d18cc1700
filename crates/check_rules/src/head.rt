//! What the chains of a rule need to know of the variables of its head.
ghost use Rattle.std.specs.Prelude.{◌≡◌, ◌||◌, ℕ, List as Sequence, IfOk, OnOk, map};
ghost use Rattle.std.specs.List.{list_any};
ghost use Rattle.flow_syntax.specs.Binders.{bound_in};
ghost use Rattle.flow_syntax.specs.Control.{is_variable_in};
ghost use Rattle.flow_syntax.specs.RuleFaults.{arguments};
ghost use Rattle.flow_syntax.specs.Matching.{pattern_layer};
ghost use Rattle.flow_syntax.specs.RuleFaults.{binds_itself};
ghost use Rattle.check_rules.specs.inner.Tables.{IsHeadOf, first_position, has_name, known_bound, known_by};
ghost use Rattle.check_base.specs.Tables.{value_in};

use crate::bindings::{Binding, push_variables};
use crate::name_set::{NameSet, add_name};
use check_base::put_first;
use flow_syntax::{FlowRule, Pattern, PatternKind};
use indexmap::{IndexMap, IndexSet};
use std::alloc::{AllocError, Global};

/// The variables of a rule's head by their names.
#[derive(Drop)]
pub struct Head<'a> {
    /// Whether the first variable of a name is a position.
    pub variables: IndexMap<&'a str, bool>,
    /// The variables that arguments themselves bind.
    pub direct: NameSet<'a>,
    /// The variables that arguments are, plain or held.
    pub arguments: NameSet<'a>,
}

/// Whether the first variable of each name is a position.
fn first_of_each<'a>(
    alloc: Global,
    variables: &[Binding<'a>],
) -> Result<IndexMap<&'a str, bool>, AllocError>
    ensures { IfOk result (λ table. (x : Sequence ℕ) → value_in table x ≡ first_position x (map known_by variables.now)) }
{
    let mut table = IndexMap::new(alloc);
    for variable in variables {
        put_first(&mut table, variable.name, variable.is_position)?;
    }
    Ok(table)
}

/// Adds the variable that a pattern itself binds.
fn add_own<'a>(names: &mut NameSet<'a>, pattern: &'a Pattern) -> Result<(), AllocError>
    ensures { OnOk result ((x : Sequence ℕ) → has_name names.new x ≡ (has_name names.old x || binds_itself x (pattern_layer pattern.now))) }
{
    match &pattern.kind {
        PatternKind::Var(name)
        | PatternKind::NameVar(name)
        | PatternKind::StrVar(name)
        | PatternKind::IntVar(name)
        | PatternKind::Held(name, _) => add_name(names, name),
        _ => Ok(()),
    }
}

/// The variables that arguments themselves bind.
fn direct_variables<'a>(alloc: Global, arguments: &'a [Pattern]) -> Result<NameSet<'a>, AllocError>
    ensures { IfOk result (λ names. (x : Sequence ℕ) → has_name names x ≡ list_any (λ p. binds_itself x (pattern_layer p)) arguments.now) }
{
    let mut names = IndexSet::new(alloc);
    for argument in arguments {
        add_own(&mut names, argument)?;
    }
    Ok(names)
}

/// Adds the variable that a pattern is, plain or held.
fn add_variable<'a>(names: &mut NameSet<'a>, pattern: &'a Pattern) -> Result<(), AllocError>
    ensures { OnOk result ((x : Sequence ℕ) → has_name names.new x ≡ (has_name names.old x || is_variable_in x (pattern_layer pattern.now))) }
{
    match &pattern.kind {
        PatternKind::Var(name) | PatternKind::Held(name, _) => add_name(names, name),
        _ => Ok(()),
    }
}

/// The variables that arguments are, plain or held.
fn argument_names<'a>(alloc: Global, arguments: &'a [Pattern]) -> Result<NameSet<'a>, AllocError>
    ensures { IfOk result (λ names. (x : Sequence ℕ) → has_name names x ≡ list_any (λ p. is_variable_in x (pattern_layer p)) arguments.now) }
{
    let mut names = IndexSet::new(alloc);
    for argument in arguments {
        add_variable(&mut names, argument)?;
    }
    Ok(names)
}

fn arguments(rule: &FlowRule) -> &[Pattern]
    ensures { result.now ≡ arguments rule.now }
{
    match &rule.head.kind {
        PatternKind::Apply(_, arguments) => arguments.as_slice(),
        _ => &[],
    }
}

/// Whether the first variable of each name in a pattern is a position.
fn variables_of(alloc: Global, pattern: &Pattern) -> Result<IndexMap<&str, bool>, AllocError>
    ensures { IfOk result (λ table. (x : Sequence ℕ) → value_in table x ≡ first_position x (map known_bound (bound_in pattern.now))) }
{
    let mut bindings = Vec::new(alloc);
    push_variables(pattern, &mut bindings)?;
    first_of_each(alloc, bindings.as_slice())
}

/// The variables of a rule's head.
pub fn head_of(alloc: Global, rule: &FlowRule) -> Result<Head<'_>, AllocError>
    ensures { IfOk result (IsHeadOf rule.now) }
{
    let variables = variables_of(alloc, &rule.head)?;
    let direct = direct_variables(alloc, arguments(rule))?;
    let arguments = argument_names(alloc, arguments(rule))?;
    Ok(Head {
        variables,
        direct,
        arguments,
    })
}
