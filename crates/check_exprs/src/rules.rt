//! The faults and types of the expressions of a specification: of the bodies of its rules and the conditions of its messages.
ghost use Rattle.std.specs.Prelude.{◌≡◌, ◌∷◌, ◌++◌, [], IfOk, OnOk, map};
ghost use Rattle.std.specs.List.{flat_map};
ghost use Rattle.check_base.specs.Earliest.{Gathers, SomeHas};
ghost use Rattle.flow_syntax.specs.Binders.{bound_in, variable_of as bound_variable};
ghost use Rattle.flow_syntax.specs.Occurrences.{optional, occurrence, expected_truth};
ghost use Rattle.flow_syntax.specs.ExprFaults.{IsFaultyExpression, body_of, expected_body, message_scope, trigger_scope};
ghost use Rattle.flow_syntax.specs.Inferred.{property_named};
ghost use Rattle.flow_syntax.specs.ExprTypes.{wholes_of};
ghost use Rattle.flow_syntax.specs.Types.{sort_of, typing_of};
ghost use Rattle.check_base.specs.Tables.{AreNames};
ghost use Rattle.expr_typing.specs.Listing.{AreListed, Lists};
ghost use Rattle.check_exprs.specs.inner.Noted.{IsNoted, conditions_of, noted_types};
ghost use Rattle.check_exprs.specs.inner.Own.{ConditionHas, WholeHas};
ghost use Rattle.check_exprs.specs.inner.Scoping.{whole_scope};
ghost use Rattle.check_exprs.specs.inner.Variables.{bound_to, pattern_variable};
ghost use Rattle.expr_typing.specs.Views.{expected_of};

use crate::names::{Context, property_named};
use crate::notes::Notes;
use crate::scope::{Scope, Whole};
use crate::variables::{PatternVariable, PatternVariables};
use crate::walk::note;
use check_base::{Earliest, Names};
use expr_typing::{Expected, known_lattice, truth, unconstrained};
use flow_syntax::{
    ElemSort, Expr, ExprType, Message, Pattern, PatternKind, PropRule, Spec, Trigger,
};
use flow_term::{List, Text};
use std::alloc::{AllocError, Global};
use std::mem;

/// Adds a variable of this sort.
fn push_variable<'a>(
    out: &mut Vec<PatternVariable<'a>>,
    name: &'a Text,
    sort: ElemSort,
) -> Result<(), AllocError>
    ensures { OnOk result (map pattern_variable out.new.items ≡ map pattern_variable out.old.items ++ bound_to name.now (sort_of sort) ∷ []) }
{
    out.push(PatternVariable { name, sort })?;
    Ok(())
}

/// Adds the variables of a pattern, in the order of the text.
#[cycle(variables)]
#[tactic(auto, using(crate::proofs::Patterns::variables_out))]
fn push_variables<'a>(
    pattern: &'a Pattern,
    out: &mut Vec<PatternVariable<'a>>,
) -> Result<(), AllocError>
    ensures { OnOk result (map pattern_variable out.new.items ≡ map pattern_variable out.old.items ++ map bound_variable (bound_in pattern.now)) }
{
    match &pattern.kind {
        PatternKind::Var(name) => push_variable(out, name, ElemSort::Pos),
        PatternKind::NameVar(name) => push_variable(out, name, ElemSort::Name),
        PatternKind::StrVar(name) => push_variable(out, name, ElemSort::Str),
        PatternKind::IntVar(name) => push_variable(out, name, ElemSort::Int),
        PatternKind::Apply(_, parts) | PatternKind::Tuple(parts) | PatternKind::Items(parts) => {
            push_variables_of_each(parts.as_slice(), out)
        }
        PatternKind::Held(name, inner) => {
            push_variable(out, name, ElemSort::Pos)?;
            push_variables(inner.get(), out)
        }
        PatternKind::Wild | PatternKind::IntLit(_) | PatternKind::StrLit(_) => Ok(()),
    }
}

#[cycle(variables)]
fn push_variables_of_each<'a>(
    patterns: &'a [Pattern],
    out: &mut Vec<PatternVariable<'a>>,
) -> Result<(), AllocError>
    ensures { OnOk result (map pattern_variable out.new.items ≡ map pattern_variable out.old.items ++ map bound_variable (flat_map bound_in patterns.now)) }
{
    for pattern in patterns {
        push_variables(pattern, out)?;
    }
    Ok(())
}

/// The variables of a pattern.
fn variables_of(alloc: Global, pattern: &Pattern) -> Result<PatternVariables<'_>, AllocError>
    ensures { IfOk result (λ variables. map pattern_variable variables.list.items ≡ map bound_variable (bound_in pattern.now)) }
{
    let mut list = Vec::new(alloc);
    push_variables(pattern, &mut list)?;
    PatternVariables::new(alloc, list)
}

/// The scope of the whole of a rule.
fn rule_scope(alloc: Global, trigger: &Trigger) -> Result<Whole<'_>, AllocError>
    ensures { IfOk result (λ w. whole_scope w ≡ trigger_scope trigger.now) }
{
    let (pattern, prev, next) = match trigger {
        Trigger::Forward(pattern) => (pattern, true, false),
        Trigger::Backward(pattern) => (pattern, false, true),
        Trigger::AtStart(pattern) => (pattern, false, false),
        Trigger::AtEnd(pattern) => (pattern, false, false),
    };
    let variables = variables_of(alloc, pattern)?;
    Ok(Whole {
        variables,
        prev,
        next,
    })
}

/// The scope of the whole of a message.
fn message_scope(alloc: Global, message: &Message) -> Result<Whole<'_>, AllocError>
    ensures { IfOk result (λ w. whole_scope w ≡ message_scope message.now) }
{
    let variables = variables_of(alloc, &message.pattern)?;
    Ok(Whole {
        variables,
        prev: true,
        next: true,
    })
}

/// What is expected of the body of a property's rule.
fn expected_body(cx: &Context<'_>, property: &Text) -> Result<Expected, AllocError>
    requires { AreNames cx.now.spec.now cx.now.names.now }
    ensures { IfOk result (λ w. expected_of w ≡ expected_body (property_named cx.now.spec.now property.now)) }
{
    match property_named(cx, property) {
        Some(declared) => known_lattice(cx.alloc, &declared.lattice),
        None => Ok(unconstrained()),
    }
}

/// Notes the faults and types of an expression in the scope of the whole.
fn check_in(
    expr: &Expr,
    cx: &Context<'_>,
    whole: &Whole<'_>,
    expected: &Expected,
    notes: &mut Notes,
) -> Result<(), AllocError>
    requires { AreNames cx.now.spec.now cx.now.names.now }
    ensures { OnOk result (IsNoted cx.now.spec.now (occurrence (whole_scope whole.now) (expected_of expected.now) expr.now) notes.old notes.new) }
{
    note(expr, cx, &Scope::Outer(&*whole), expected, notes)
}

/// Notes the faults and types of the body of a rule.
fn check_rule(cx: &Context<'_>, rule: &PropRule, notes: &mut Notes) -> Result<(), AllocError>
    requires { AreNames cx.now.spec.now cx.now.names.now }
    ensures { OnOk result (IsNoted cx.now.spec.now (body_of cx.now.spec.now rule.now) notes.old notes.new) }
{
    let whole = rule_scope(cx.alloc, &rule.trigger)?;
    let expected = expected_body(cx, &rule.property.text)?;
    check_in(&rule.body, cx, &whole, &expected, notes)
}

/// Notes the faults and types of the condition of a message.
fn check_message(cx: &Context<'_>, message: &Message, notes: &mut Notes) -> Result<(), AllocError>
    requires { AreNames cx.now.spec.now cx.now.names.now }
    ensures gathers { OnOk result (Gathers notes.old.earliest notes.new.earliest (ConditionHas cx.now.spec.now message.now)) }
    ensures lists { OnOk result (Lists cx.now.spec.now (optional (message_scope message.now) expected_truth message.now.condition) (noted_types notes.old) (noted_types notes.new)) }
{
    let Some(condition) = &message.condition else {
        return Ok(());
    };
    let whole = message_scope(cx.alloc, message)?;
    check_in(condition, cx, &whole, &truth(), notes)
}

fn check_rules(cx: &Context<'_>, rules: &[PropRule], notes: &mut Notes) -> Result<(), AllocError>
    requires { AreNames cx.now.spec.now cx.now.names.now }
    ensures gathers { OnOk result (Gathers notes.old.earliest notes.new.earliest (SomeHas (λ k rule. WholeHas cx.now.spec.now (body_of cx.now.spec.now rule)) rules.now)) }
    ensures lists { OnOk result (Lists cx.now.spec.now (map (body_of cx.now.spec.now) rules.now) (noted_types notes.old) (noted_types notes.new)) }
{
    for rule in rules {
        check_rule(cx, rule, notes)?;
    }
    Ok(())
}

fn check_messages(
    cx: &Context<'_>,
    messages: &[Message],
    notes: &mut Notes,
) -> Result<(), AllocError>
    requires { AreNames cx.now.spec.now cx.now.names.now }
    ensures gathers { OnOk result (Gathers notes.old.earliest notes.new.earliest (SomeHas (λ k message. ConditionHas cx.now.spec.now message) messages.now)) }
    ensures lists { OnOk result (Lists cx.now.spec.now (conditions_of messages.now) (noted_types notes.old) (noted_types notes.new)) }
{
    for message in messages {
        check_message(cx, message, notes)?;
    }
    Ok(())
}

/// Notes the faults of the expressions of a specification, and answers the type of each: the one that is expected of it where that is
/// known, else the one that is inferred of it. An expression stands before its parts, the rules' bodies before the messages' conditions.
///
/// Fails only for want of memory, and then nothing is left in `earliest`.
pub fn check_expressions(
    alloc: Global,
    spec: &Spec,
    names: &Names<'_>,
    earliest: &mut Earliest,
) -> Result<List<ExprType>, AllocError>
    requires { AreNames spec.now names.now }
    ensures gathers { OnOk result (Gathers earliest.old earliest.new (IsFaultyExpression spec.now)) }
    ensures lists { IfOk result (λ types. AreListed spec.now (wholes_of spec.now) (map typing_of types)) }
{
    let cx = Context { alloc, spec, names };
    let mut notes = Notes {
        earliest: mem::replace(earliest, Earliest::new()),
        types: Vec::new(alloc),
    };
    check_rules(&cx, spec.rules.as_slice(), &mut notes)?;
    check_messages(&cx, spec.messages.as_slice(), &mut notes)?;
    let Notes {
        earliest: found,
        types,
    } = notes;
    *earliest = found;
    Ok(List::from_vec(types))
}
