//! Expressions by their levels: a function for each symbol of the grammar, and for each of its longer parts.
ghost use Rattle.std.specs.Prelude.{◌<◌, ◌≤◌, IfOk};
ghost use Rattle.parse_exprs.specs.inner.Entries.{operator_and_operand};
ghost use Rattle.spec_grammar.specs.Expressions.{combined, suffixed, conditional, make_conditional, binding, make_binding, expr_after, one_or_two, first_and_second};
ghost use Rattle.grammar_theory.specs.Texts.{Optional, Symbol, Then};
ghost use Rattle.spec_grammar.specs.Parts.{behind_in, the};
ghost use Rattle.spec_grammar.specs.Reading.{reads, reads_part, reads_as};
ghost use Rattle.spec_grammar.specs.Symbols.{AnExpr, ALevel, AnOperand, ANegation, AComparison, AnOpposite, ALookup, ASuffix};
ghost use Rattle.spec_grammar.specs.declared.kind.Kind.TheVariants as kinds;
ghost use Rattle.spec_grammar.specs.Gives.{Gives};

use crate::builders::{binding_of, combined, conditional_of, negated_of, signed_of, suffixed};
use crate::kinds::{
    COMPARISONS, EXPR, level_beginnings, negation_beginnings, operators_of, opposite_beginnings,
    primary_beginnings,
};
use crate::primaries::primary;
use flow_syntax::{Expr, Token};
use flow_term::Boxed;
use spec_grammar::{BinaryLevel, Cursor, Kind, LIMIT, Read};
use std::alloc::Global;

/// An expression.
#[cycle(exprs)]
pub fn expr<'a>(alloc: Global, cursor: Cursor<'a>, nesting: u64) -> Read<'a, Expr>
    requires { nesting ≤ 257 }
    ensures { Gives (λ x. (x.0, x.1.tokens.now)) result (reads nesting AnExpr cursor.entry.tokens.now) }
{
    if nesting > LIMIT {
        return Err(cursor.too_deep(&EXPR));
    }
    if cursor.begins(Kind::If) {
        return conditional(alloc, cursor, nesting + 1);
    }
    if cursor.begins(Kind::Bind) {
        return binding(alloc, cursor, nesting + 1);
    }
    level_of(alloc, cursor, nesting, BinaryLevel::Disjunction)
}

/// A word, and the expression behind it.
#[cycle(exprs)]
pub fn expr_after<'a>(
    alloc: Global,
    cursor: Cursor<'a>,
    nesting: u64,
    word: Kind,
) -> Read<'a, (&'a Token, Expr)>
    requires { nesting ≤ 257 }
    ensures { Gives (λ x. ((x.0.0.now, x.0.1), x.1.tokens.now)) result (reads_part nesting (expr_after word) cursor.entry.tokens.now) }
{
    let (token, rest) = cursor.token(word, nesting)?;
    let (e, rest) = expr(alloc, rest, nesting)?;
    Ok(((token, e), rest))
}

/// A condition and its two branches, from the word `if` on.
#[cycle(exprs)]
fn conditional<'a>(alloc: Global, cursor: Cursor<'a>, nesting: u64) -> Read<'a, Expr>
    requires { nesting ≤ 257 }
    ensures { Gives (λ x. (x.0, x.1.tokens.now)) result (reads_as nesting conditional make_conditional cursor.entry.tokens.now) }
{
    let ((word, condition), rest) = expr_after(alloc, cursor, nesting, Kind::If)?;
    let condition = Boxed::new(alloc, condition)?;
    let ((_, yes), rest) = expr_after(alloc, rest, nesting, Kind::Then)?;
    let yes = Boxed::new(alloc, yes)?;
    let ((_, no), rest) = expr_after(alloc, rest, nesting, Kind::Else)?;
    let whole = conditional_of(alloc, word.place, condition, yes, no)?;
    Ok((whole, rest))
}

/// A flat value whose element is named, from the word `bind` on.
#[cycle(exprs)]
fn binding<'a>(alloc: Global, cursor: Cursor<'a>, nesting: u64) -> Read<'a, Expr>
    requires { nesting ≤ 257 }
    ensures { Gives (λ x. (x.0, x.1.tokens.now)) result (reads_as nesting binding make_binding cursor.entry.tokens.now) }
{
    let (word, rest) = cursor.token(Kind::Bind, nesting)?;
    let (name, rest) = rest.token(Kind::Identifier, nesting)?;
    let ((_, value), rest) = expr_after(alloc, rest, nesting, Kind::Is)?;
    let value = Boxed::new(alloc, value)?;
    let ((_, body), rest) = expr_after(alloc, rest, nesting, Kind::Yield)?;
    let whole = binding_of(alloc, word.place, name, value, body)?;
    Ok((whole, rest))
}

/// Operands with the binary operators of a level between them.
#[cycle(exprs)]
pub fn level_of<'a>(
    alloc: Global,
    cursor: Cursor<'a>,
    nesting: u64,
    level: BinaryLevel,
) -> Read<'a, Expr>
    requires { nesting ≤ 257 }
    ensures { Gives (λ x. (x.0, x.1.tokens.now)) result (reads nesting (ALevel level) cursor.entry.tokens.now) }
{
    if nesting > LIMIT {
        return Err(cursor.too_deep(level_beginnings(level)));
    }
    let (mut left, mut rest) = operand(alloc, cursor, nesting, level)?;
    let operators = operators_of(level);
    let mut deeper = nesting;
    while rest.begins_any(operators) {
        let (whole, after) = operated(alloc, rest, deeper, level, left)?;
        left = whole;
        rest = after;
        deeper += 1;
    }
    Ok((left, rest))
}

/// An operand with the operator behind it and that one's right operand.
#[cycle(exprs)]
fn operated<'a>(
    alloc: Global,
    cursor: Cursor<'a>,
    nesting: u64,
    level: BinaryLevel,
    left: Expr,
) -> Read<'a, Expr>
    requires { nesting ≤ 257 }
    ensures reads { Gives (λ x. (x.0, x.1.tokens.now)) result (reads_as nesting (operator_and_operand level) (combined left) cursor.entry.tokens.now) }
    ensures fits { IfOk result (λ _. nesting ≤ 256) }
{
    let left = Boxed::new(alloc, left)?;
    let (operator, kind, rest) = cursor.any_token(operators_of(level), nesting)?;
    let (right, rest) = operand(alloc, rest, nesting + 1, level)?;
    let whole = combined(alloc, left, operator, kind, right)?;
    Ok((whole, rest))
}

/// What stands between the operators of a level.
#[cycle(exprs)]
fn operand<'a>(
    alloc: Global,
    cursor: Cursor<'a>,
    nesting: u64,
    level: BinaryLevel,
) -> Read<'a, Expr>
    requires { nesting ≤ 257 }
    ensures { Gives (λ x. (x.0, x.1.tokens.now)) result (reads nesting (AnOperand level) cursor.entry.tokens.now) }
{
    if nesting > LIMIT {
        return Err(cursor.too_deep(level_beginnings(level)));
    }
    match level {
        BinaryLevel::Disjunction => {
            return level_of(alloc, cursor, nesting, BinaryLevel::Conjunction);
        }
        BinaryLevel::Conjunction => {
            return negation(alloc, cursor, nesting);
        }
        BinaryLevel::SetOperation => {
            return level_of(alloc, cursor, nesting, BinaryLevel::Sum);
        }
        BinaryLevel::Sum => {
            return level_of(alloc, cursor, nesting, BinaryLevel::Product);
        }
        BinaryLevel::Product => {
            return opposite(alloc, cursor, nesting);
        }
    }
}

/// A truth, with none or more `not` before it.
#[cycle(exprs)]
fn negation<'a>(alloc: Global, cursor: Cursor<'a>, nesting: u64) -> Read<'a, Expr>
    requires { nesting ≤ 257 }
    ensures { Gives (λ x. (x.0, x.1.tokens.now)) result (reads nesting ANegation cursor.entry.tokens.now) }
{
    if nesting > LIMIT {
        return Err(cursor.too_deep(negation_beginnings()));
    }
    if cursor.begins(Kind::Not) {
        let (word, rest) = cursor.token(Kind::Not, nesting + 1)?;
        let (e, rest) = negation(alloc, rest, nesting + 1)?;
        let whole = negated_of(alloc, word.place, e)?;
        return Ok((whole, rest));
    }
    comparison(alloc, cursor, nesting)
}

/// One operand, or two that are compared.
#[cycle(exprs)]
fn comparison<'a>(alloc: Global, cursor: Cursor<'a>, nesting: u64) -> Read<'a, Expr>
    requires { nesting ≤ 257 }
    ensures { Gives (λ x. (x.0, x.1.tokens.now)) result (reads nesting AComparison cursor.entry.tokens.now) }
{
    if nesting > LIMIT {
        return Err(cursor.too_deep(opposite_beginnings()));
    }
    let (left, rest) = level_of(alloc, cursor, nesting, BinaryLevel::SetOperation)?;
    if !rest.begins_any(&COMPARISONS) {
        return Ok((left, rest));
    }
    let left = Boxed::new(alloc, left)?;
    let (operator, kind, rest) = rest.any_token(&COMPARISONS, nesting)?;
    let (right, rest) = level_of(alloc, rest, nesting + 1, BinaryLevel::SetOperation)?;
    let whole = combined(alloc, left, operator, kind, right)?;
    Ok((whole, rest))
}

/// A value with suffixes, with none or more `-` before it.
#[cycle(exprs)]
fn opposite<'a>(alloc: Global, cursor: Cursor<'a>, nesting: u64) -> Read<'a, Expr>
    requires { nesting ≤ 257 }
    ensures { Gives (λ x. (x.0, x.1.tokens.now)) result (reads nesting AnOpposite cursor.entry.tokens.now) }
{
    if nesting > LIMIT {
        return Err(cursor.too_deep(opposite_beginnings()));
    }
    if cursor.begins(Kind::Dash) {
        let (sign, rest) = cursor.token(Kind::Dash, nesting + 1)?;
        let (e, rest) = opposite(alloc, rest, nesting + 1)?;
        let whole = signed_of(alloc, sign.place, e)?;
        return Ok((whole, rest));
    }
    lookup(alloc, cursor, nesting)
}

/// A primary with its look-ups and updates.
#[cycle(exprs)]
fn lookup<'a>(alloc: Global, cursor: Cursor<'a>, nesting: u64) -> Read<'a, Expr>
    requires { nesting ≤ 257 }
    ensures { Gives (λ x. (x.0, x.1.tokens.now)) result (reads nesting ALookup cursor.entry.tokens.now) }
{
    if nesting > LIMIT {
        return Err(cursor.too_deep(primary_beginnings()));
    }
    let (mut whole, mut rest) = primary(alloc, cursor, nesting)?;
    let mut deeper = nesting;
    while rest.begins(Kind::OpenSquare) {
        let (next, after) = suffix(alloc, rest, deeper, whole)?;
        whole = next;
        rest = after;
        deeper += 1;
    }
    Ok((whole, rest))
}

/// An expression with the look-up or the update behind it.
#[cycle(exprs)]
fn suffix<'a>(alloc: Global, cursor: Cursor<'a>, nesting: u64, e: Expr) -> Read<'a, Expr>
    requires { nesting ≤ 256 }
    ensures reads { Gives (λ x. (x.0, x.1.tokens.now)) result (reads_as nesting (Symbol ASuffix) (suffixed e) cursor.entry.tokens.now) }
    ensures fits { IfOk result (λ _. nesting < 256) }
{
    let e = Boxed::new(alloc, e)?;
    let (_, rest) = cursor.token(Kind::OpenSquare, nesting + 1)?;
    let ((key, value), rest) = bracketed(alloc, rest, nesting + 1)?;
    Ok((suffixed(e, key, value), rest))
}

/// The key of a look-up or an update and the new value of an update, up to the end of their bracket.
#[cycle(exprs)]
fn bracketed<'a>(
    alloc: Global,
    cursor: Cursor<'a>,
    nesting: u64,
) -> Read<'a, (Boxed<Expr>, Option<Boxed<Expr>>)>
    requires { nesting ≤ 257 }
    ensures { Gives (λ x. (x.0, x.1.tokens.now)) result (reads_as nesting (Then (one_or_two kinds.Becomes) (the kinds.CloseSquare)) (λ x. first_and_second x.0) cursor.entry.tokens.now) }
{
    let (key, rest) = expr(alloc, cursor, nesting)?;
    let key = Boxed::new(alloc, key)?;
    let (value, rest) = optional_after(alloc, rest, nesting, Kind::Becomes)?;
    let (_, rest) = rest.token(Kind::CloseSquare, nesting)?;
    Ok(((key, value), rest))
}

/// The expression behind a word, where that word stands.
#[cycle(exprs)]
pub fn optional_after<'a>(
    alloc: Global,
    cursor: Cursor<'a>,
    nesting: u64,
    word: Kind,
) -> Read<'a, Option<Boxed<Expr>>>
    requires { nesting ≤ 257 }
    ensures { Gives (λ x. (x.0, x.1.tokens.now)) result (reads_as nesting (Optional (expr_after word)) behind_in cursor.entry.tokens.now) }
{
    if !cursor.begins(word) {
        return Ok((None, cursor));
    }
    let ((_, e), rest) = expr_after(alloc, cursor, nesting, word)?;
    let e = Boxed::new(alloc, e)?;
    Ok((Some(e), rest))
}
