//! The names that patterns and expressions bind, in the order of the text.
ghost use Rattle.std.specs.Prelude.{◌≡◌, ◌++◌, ◌∷◌, [], OnOk, map};
ghost use Rattle.std.specs.List.{flat_map};
ghost use Rattle.flow_syntax.specs.Binders.{binder, binders_in, bound_in};
ghost use Rattle.check_rules.specs.inner.Tables.{known_binder, known_bound, known_by, names_at, names_of_choice, names_of_map};

use flow_syntax::{Expr, ExprKind, Pattern, PatternKind};
use flow_term::Text;
use std::alloc::AllocError;

/// A name that is bound.
#[derive(Clone, Copy)]
pub struct Binding<'a> {
    pub name: &'a Text,
    /// The place of the pattern or expression that binds it.
    pub place: u64,
    /// Whether a pattern binds it to a position.
    pub is_position: bool,
}

fn push_binding<'a>(
    out: &mut Vec<Binding<'a>>,
    name: &'a Text,
    place: u64,
    is_position: bool,
) -> Result<(), AllocError>
    ensures { OnOk result (map known_by out.new.items ≡ map known_by out.old.items ++ (binder name.now place, is_position) ∷ []) }
{
    out.push(Binding {
        name,
        place,
        is_position,
    })?;
    Ok(())
}

/// Adds the variables of a pattern.
#[cycle(variables)]
#[tactic(auto, using(crate::proofs::PatternLayers::known_in_out))]
pub fn push_variables<'a>(
    pattern: &'a Pattern,
    out: &mut Vec<Binding<'a>>,
) -> Result<(), AllocError>
    ensures { OnOk result (map known_by out.new.items ≡ map known_by out.old.items ++ map known_bound (bound_in pattern.now)) }
{
    match &pattern.kind {
        PatternKind::Wild | PatternKind::IntLit(_) | PatternKind::StrLit(_) => {}
        PatternKind::Var(name) => return push_binding(out, name, pattern.place, true),
        PatternKind::NameVar(name) | PatternKind::StrVar(name) | PatternKind::IntVar(name) => {
            return push_binding(out, name, pattern.place, false);
        }
        PatternKind::Apply(_, parts) => return push_variables_of_each(parts.as_slice(), out),
        PatternKind::Tuple(parts) | PatternKind::Items(parts) => {
            return push_variables_of_each(parts.as_slice(), out);
        }
        PatternKind::Held(name, inner) => {
            push_binding(out, name, pattern.place, true)?;
            return push_variables(inner.get(), out);
        }
    }
    Ok(())
}

#[cycle(variables)]
fn push_variables_of_each<'a>(
    patterns: &'a [Pattern],
    out: &mut Vec<Binding<'a>>,
) -> Result<(), AllocError>
    ensures { OnOk result (map known_by out.new.items ≡ map known_by out.old.items ++ map known_bound (flat_map bound_in patterns.now)) }
{
    for pattern in patterns {
        push_variables(pattern, out)?;
    }
    Ok(())
}

/// Adds the names that an expression binds.
#[cycle(binders)]
#[tactic(auto, using(crate::proofs::ExprBinders::names_in_out))]
pub fn push_binders<'a>(e: &'a Expr, out: &mut Vec<Binding<'a>>) -> Result<(), AllocError>
    ensures { OnOk result (map known_by out.new.items ≡ map known_by out.old.items ++ map known_binder (binders_in e.now)) }
{
    match &e.kind {
        ExprKind::Call(_, parts) | ExprKind::SetOf(parts) => {
            return push_binders_of_each(parts.as_slice(), out);
        }
        ExprKind::MapOf(_, _) => return push_binders_of_map(e, out),
        ExprKind::Choose(_, _, _, _) => return push_binders_of_choice(e, out),
        ExprKind::MakeFlat(a)
        | ExprKind::Fst(a)
        | ExprKind::Snd(a)
        | ExprKind::Minus(a)
        | ExprKind::Not(a) => return push_binders(a.get(), out),
        ExprKind::Both(a, b)
        | ExprKind::Look(a, b)
        | ExprKind::Set2(_, a, b)
        | ExprKind::Arith(_, a, b)
        | ExprKind::Compare(_, a, b)
        | ExprKind::Member(a, b)
        | ExprKind::And(a, b)
        | ExprKind::Or(a, b) => {
            push_binders(a.get(), out)?;
            return push_binders(b.get(), out);
        }
        ExprKind::Update(a, b, c) | ExprKind::If(a, b, c) => {
            push_binders(a.get(), out)?;
            push_binders(b.get(), out)?;
            return push_binders(c.get(), out);
        }
        ExprKind::Bind(name, a, b) => {
            push_binding(out, name, e.place, false)?;
            push_binders(a.get(), out)?;
            return push_binders(b.get(), out);
        }
        _ => {}
    }
    Ok(())
}

/// Adds the names that a choice of elements binds: those of the element, its own, those of the set and of the condition; of another
/// expression none.
#[cycle(binders)]
fn push_binders_of_choice<'a>(e: &'a Expr, out: &mut Vec<Binding<'a>>) -> Result<(), AllocError>
    ensures { OnOk result (map known_by out.new.items ≡ map known_by out.old.items ++ names_of_choice e.now) }
{
    let ExprKind::Choose(element, name, set, condition) = &e.kind else {
        return Ok(());
    };
    push_binders(element.get(), out)?;
    push_binding(out, name, e.place, false)?;
    push_binders(set.get(), out)?;
    match condition {
        Some(condition) => return push_binders(condition.get(), out),
        None => return Ok(()),
    }
}

/// Adds the names that the keys and values of a map bind, in turn; of another expression none.
#[cycle(binders)]
fn push_binders_of_map<'a>(e: &'a Expr, out: &mut Vec<Binding<'a>>) -> Result<(), AllocError>
    ensures { OnOk result (map known_by out.new.items ≡ map known_by out.old.items ++ names_of_map e.now) }
{
    let ExprKind::MapOf(keys, values) = &e.kind else {
        return Ok(());
    };
    for at in 0..keys.len().max(values.len()) {
        push_binders_at(keys.as_slice(), at, out)?;
        push_binders_at(values.as_slice(), at, out)?;
    }
    Ok(())
}

#[cycle(binders)]
fn push_binders_of_each<'a>(parts: &'a [Expr], out: &mut Vec<Binding<'a>>) -> Result<(), AllocError>
    ensures { OnOk result (map known_by out.new.items ≡ map known_by out.old.items ++ map known_binder (flat_map binders_in parts.now)) }
{
    for part in parts {
        push_binders(part, out)?;
    }
    Ok(())
}

/// Adds the names that the expression with this number binds, if there is one.
#[cycle(binders)]
fn push_binders_at<'a>(
    parts: &'a [Expr],
    at: usize,
    out: &mut Vec<Binding<'a>>,
) -> Result<(), AllocError>
    ensures { OnOk result (map known_by out.new.items ≡ map known_by out.old.items ++ names_at parts.now at) }
{
    if at < parts.len() {
        push_binders(&parts[at], out)?;
    }
    Ok(())
}
