//! The table of modes: the mode of an expression by its form, from the modes of its parts.
ghost use Rattle.std.specs.Prelude.{◌≡◌};
ghost use Rattle.flow_syntax.specs.declared.expr.ExprKind.{out-ExprKind};
ghost use Rattle.flow_syntax.specs.Expressions.{expr_layer};
ghost use Rattle.expr_meaning.specs.Modes.{combined, is_bottom_word, needs, turned};
ghost use Rattle.flow_modes.specs.inner.Table.{choose_mode, member_mode, one_mode, set_mode, three_mode, two_mode};

use flow_syntax::{Expr, ExprKind, Mode, SetOp};

/// The mode of a whole whose parts have these modes.
pub(crate) fn combined(first: Mode, second: Mode) -> Mode
    ensures { result ≡ combined first second }
{
    match (first, second) {
        (Mode::Fixed, mode) | (mode, Mode::Fixed) => mode,
        (Mode::Up, Mode::Up) => Mode::Up,
        (Mode::Down, Mode::Down) => Mode::Down,
        _ => Mode::Mixed,
    }
}

/// The mode of what falls where the part rises.
pub(crate) fn turned(mode: Mode) -> Mode
    ensures { result ≡ turned mode }
{
    match mode {
        Mode::Up => Mode::Down,
        Mode::Down => Mode::Up,
        _ => mode,
    }
}

/// This mode, for a whole that needs a part to be fixed.
pub(crate) fn needs(part: Mode, mode: Mode) -> Mode
    ensures { result ≡ needs part mode }
{
    match part {
        Mode::Fixed => mode,
        _ => Mode::Mixed,
    }
}

/// The mode of an expression with one part.
pub(crate) fn one_mode(kind: &ExprKind, part: Mode) -> Mode
    ensures { result ≡ one_mode (out-ExprKind kind.now) part }
{
    match kind {
        ExprKind::MakeFlat(_) => needs(part, Mode::Fixed),
        ExprKind::Minus(_) => needs(part, Mode::Fixed),
        ExprKind::Not(_) => turned(part),
        _ => part,
    }
}

/// The mode of an expression with two parts, whose own type is one of must sets or isn't.
pub(crate) fn two_mode(kind: &ExprKind, is_must: bool, first: Mode, second: Mode) -> Mode
    ensures { result ≡ two_mode (out-ExprKind kind.now) is_must first second }
{
    match kind {
        ExprKind::Look(_, _) => needs(second, first),
        ExprKind::Set2(operation, _, _) => set_mode(*operation, is_must, first, second),
        ExprKind::Arith(_, _, _) => needs(first, needs(second, Mode::Fixed)),
        ExprKind::Compare(_, _, _) => needs(first, needs(second, Mode::Fixed)),
        _ => combined(first, second),
    }
}

/// The mode of an operation on two sets, or of a join.
fn set_mode(operation: SetOp, is_must: bool, first: Mode, second: Mode) -> Mode
    ensures { result ≡ set_mode operation is_must first second }
{
    match operation {
        SetOp::Minus if is_must => needs(second, first),
        SetOp::Minus => combined(first, turned(second)),
        _ => combined(first, second),
    }
}

/// The mode of the membership of an element in a set, whose type is one of must sets or isn't.
pub(crate) fn member_mode(is_must: bool, element: Mode, set: Mode) -> Mode
    ensures { result ≡ member_mode is_must element set }
{
    let set = if is_must { turned(set) } else { set };
    needs(element, set)
}

/// The mode of an update or of a choice between two branches.
pub(crate) fn three_mode(kind: &ExprKind, first: Mode, second: Mode, third: Mode) -> Mode
    ensures { result ≡ three_mode (out-ExprKind kind.now) first second third }
{
    match kind {
        ExprKind::If(_, _, otherwise) if is_bottom(otherwise.get()) => combined(first, second),
        ExprKind::If(_, _, _) => needs(first, combined(second, third)),
        _ => needs(second, combined(first, third)),
    }
}

/// Whether an expression is the word `bottom`.
fn is_bottom(e: &Expr) -> bool
    ensures { result ≡ is_bottom_word (expr_layer e.now) }
{
    matches!(e.kind, ExprKind::Bottom)
}

/// The mode of a set that is chosen from another one, whose own type is one of must sets or isn't.
pub(crate) fn choose_mode(is_must: bool, element: Mode, set: Mode, condition: Mode) -> Mode
    ensures { result ≡ choose_mode is_must element set condition }
{
    let condition = if is_must {
        turned(condition)
    } else {
        condition
    };
    needs(element, combined(set, condition))
}
