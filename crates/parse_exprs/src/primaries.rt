//! The primaries of expressions: literals, names, reads, calls, and what stands in brackets.
ghost use Rattle.std.specs.Prelude.{◌≤◌};
ghost use Rattle.flow_syntax.specs.declared.expr.ExprKind.TheVariants.{Both};
ghost use Rattle.grammar_theory.specs.Texts.{Then};
ghost use Rattle.parse_exprs.specs.inner.Entries.{chosen, further_entry, keys_and_values, with_entry, with_further_entry};
ghost use Rattle.spec_grammar.proofs.Unrolled.{reads_fold, reads_more};
ghost use Rattle.spec_grammar.specs.Expressions.{expr_after, expr_at, first_and_second, one_or_two};
ghost use Rattle.spec_grammar.specs.Parts.{any_of, behind_in, between, second, several, the};
ghost use Rattle.spec_grammar.specs.Primaries.{applied, arguments_of, brace_parts, brace_rule, call_parts, called, comprehension, literal_of, literals, make_applied, make_brace, make_map, make_named_expr, make_parenthesis, map_entry, map_rule, named_expr_rule, parenthesis_rule, set_of_parts};
ghost use Rattle.spec_grammar.specs.Reading.{reads, reads_as};
ghost use Rattle.spec_grammar.specs.Rules.{condition};
ghost use Rattle.spec_grammar.specs.Symbols.{APrimary};
ghost use Rattle.spec_grammar.specs.declared.kind.Kind.TheVariants as kinds;
ghost use Rattle.spec_grammar.specs.Gives.{Gives};

use crate::builders::{applied_to, literal_of, one_element, side_of};
use crate::exprs::{expr, expr_after, level_of, optional_after};
use crate::kinds::{APPLIED, EXPR, LITERALS, SIDES, primary_beginnings};
use flow_syntax::{Expr, ExprKind};
use flow_term::{Boxed, List, Text};
use spec_grammar::{BinaryLevel, Cursor, Kind, LIMIT, Read, text_of};
use std::alloc::Global;

/// A value without a sign or suffixes.
#[cycle(exprs)]
pub fn primary<'a>(alloc: Global, cursor: Cursor<'a>, nesting: u64) -> Read<'a, Expr>
    requires { nesting ≤ 257 }
    ensures { Gives (λ x. (x.0, x.1.tokens.now)) result (reads nesting APrimary cursor.entry.tokens.now) }
{
    if nesting > LIMIT {
        return Err(cursor.too_deep(primary_beginnings()));
    }
    if cursor.begins_any(&LITERALS) {
        return literal(alloc, cursor, nesting);
    }
    if cursor.begins_any(&APPLIED) {
        return applied(alloc, cursor, nesting);
    }
    if cursor.begins(Kind::Identifier) {
        return named(alloc, cursor, nesting);
    }
    if cursor.begins(Kind::OpenRound) {
        return parenthesis(alloc, cursor, nesting);
    }
    if cursor.begins(Kind::OpenBrace) {
        return brace(alloc, cursor, nesting);
    }
    map(alloc, cursor, nesting)
}

fn literal<'a>(alloc: Global, cursor: Cursor<'a>, nesting: u64) -> Read<'a, Expr>
    ensures { Gives (λ x. (x.0, x.1.tokens.now)) result (reads_as nesting (any_of literals) (λ token. expr_at token.place (literal_of token)) cursor.entry.tokens.now) }
{
    let (token, kind, rest) = cursor.any_token(&LITERALS, nesting)?;
    let kind = literal_of(alloc, token, kind)?;
    let place = token.place;
    Ok((Expr { place, kind }, rest))
}

/// `flat`, `fst` or `snd` of an expression.
#[cycle(exprs)]
fn applied<'a>(alloc: Global, cursor: Cursor<'a>, nesting: u64) -> Read<'a, Expr>
    requires { nesting ≤ 256 }
    ensures { Gives (λ x. (x.0, x.1.tokens.now)) result (reads_as nesting applied make_applied cursor.entry.tokens.now) }
{
    let (word, kind, rest) = cursor.any_token(&APPLIED, nesting)?;
    let (_, rest) = rest.token(Kind::OpenRound, nesting + 1)?;
    let (e, rest) = expr(alloc, rest, nesting + 1)?;
    let e = Boxed::new(alloc, e)?;
    let (_, rest) = rest.token(Kind::CloseRound, nesting + 1)?;
    let place = word.place;
    let kind = applied_to(kind, e);
    Ok((Expr { place, kind }, rest))
}

/// A name, a read or a call.
#[cycle(exprs)]
fn named<'a>(alloc: Global, cursor: Cursor<'a>, nesting: u64) -> Read<'a, Expr>
    requires { nesting ≤ 256 }
    ensures { Gives (λ x. (x.0, x.1.tokens.now)) result (reads_as nesting named_expr_rule make_named_expr cursor.entry.tokens.now) }
{
    let (token, rest) = cursor.token(Kind::Identifier, nesting)?;
    let text = text_of(alloc, token)?;
    let place = token.place;
    if !rest.begins(Kind::OpenRound) {
        let kind = ExprKind::Ident(text);
        return Ok((Expr { place, kind }, rest));
    }
    let (kind, rest) = called(alloc, rest, nesting + 1, text)?;
    Ok((Expr { place, kind }, rest))
}

/// What a name with a bracket behind it is: a read of a property, or a call.
#[cycle(exprs)]
fn called<'a>(alloc: Global, cursor: Cursor<'a>, nesting: u64, text: Text) -> Read<'a, ExprKind>
    requires { nesting ≤ 257 }
    ensures { Gives (λ x. (x.0, x.1.tokens.now)) result (reads_as nesting (between kinds.OpenRound call_parts kinds.CloseRound) (λ x. called text x.1.0) cursor.entry.tokens.now) }
{
    let (_, rest) = cursor.token(Kind::OpenRound, nesting)?;
    if rest.begins_any(&SIDES) {
        let (_, side, rest) = rest.any_token(&SIDES, nesting)?;
        let (_, rest) = rest.token(Kind::CloseRound, nesting)?;
        return Ok((ExprKind::Read(text, side_of(side)), rest));
    }
    let (values, rest) = arguments(alloc, rest, nesting)?;
    Ok((ExprKind::Call(text, values), rest))
}

/// The arguments of a call, up to the end of their bracket.
#[cycle(exprs)]
fn arguments<'a>(alloc: Global, cursor: Cursor<'a>, nesting: u64) -> Read<'a, List<Expr>>
    requires { nesting ≤ 257 }
    ensures { Gives (λ x. (x.0, x.1.tokens.now)) result (reads_as nesting (Then (one_or_two kinds.Comma) (the kinds.CloseRound)) (λ x. arguments_of (first_and_second x.0)) cursor.entry.tokens.now) }
{
    let (first, rest) = expr(alloc, cursor, nesting)?;
    let mut values = one_element(alloc, first)?;
    if !rest.begins(Kind::Comma) {
        let (_, rest) = rest.token(Kind::CloseRound, nesting)?;
        return Ok((values, rest));
    }
    let ((_, second), rest) = expr_after(alloc, rest, nesting, Kind::Comma)?;
    values.push(second)?;
    let (_, rest) = rest.token(Kind::CloseRound, nesting)?;
    Ok((values, rest))
}

/// An expression in parentheses, or a pair.
#[cycle(exprs)]
fn parenthesis<'a>(alloc: Global, cursor: Cursor<'a>, nesting: u64) -> Read<'a, Expr>
    requires { nesting ≤ 256 }
    ensures { Gives (λ x. (x.0, x.1.tokens.now)) result (reads_as nesting parenthesis_rule make_parenthesis cursor.entry.tokens.now) }
{
    let (bracket, rest) = cursor.token(Kind::OpenRound, nesting + 1)?;
    let place = bracket.place;
    let (first, rest) = expr(alloc, rest, nesting + 1)?;
    if rest.begins(Kind::Comma) {
        return pair(alloc, rest, nesting + 1, place, first);
    }
    closed(place, first.kind, rest, nesting + 1, Kind::CloseRound)
}

/// A pair, from the comma behind its first part on.
#[cycle(exprs)]
fn pair<'a>(
    alloc: Global,
    cursor: Cursor<'a>,
    nesting: u64,
    place: u64,
    first: Expr,
) -> Read<'a, Expr>
    requires { nesting ≤ 257 }
    ensures { Gives (λ x. (x.0, x.1.tokens.now)) result (reads_as nesting (Then (expr_after kinds.Comma) (the kinds.CloseRound)) (λ x. expr_at place (Both first x.0.1)) cursor.entry.tokens.now) }
{
    let first = Boxed::new(alloc, first)?;
    let ((_, second), rest) = expr_after(alloc, cursor, nesting, Kind::Comma)?;
    let second = Boxed::new(alloc, second)?;
    let (_, rest) = rest.token(Kind::CloseRound, nesting)?;
    let kind = ExprKind::Both(first, second);
    Ok((Expr { place, kind }, rest))
}

/// An expression of this kind, behind the token that closes its bracket.
fn closed<'a>(
    place: u64,
    kind: ExprKind,
    cursor: Cursor<'a>,
    nesting: u64,
    closing: Kind,
) -> Read<'a, Expr>
    ensures { Gives (λ x. (x.0, x.1.tokens.now)) result (reads_as nesting (the closing) (λ _. expr_at place kind) cursor.entry.tokens.now) }
{
    let (_, rest) = cursor.token(closing, nesting)?;
    Ok((Expr { place, kind }, rest))
}

/// A set.
#[cycle(exprs)]
fn brace<'a>(alloc: Global, cursor: Cursor<'a>, nesting: u64) -> Read<'a, Expr>
    requires { nesting ≤ 256 }
    ensures { Gives (λ x. (x.0, x.1.tokens.now)) result (reads_as nesting brace_rule make_brace cursor.entry.tokens.now) }
{
    let (opening, rest) = cursor.token(Kind::OpenBrace, nesting + 1)?;
    let place = opening.place;
    if !rest.begins_any(&EXPR) {
        let (_, rest) = rest.token(Kind::CloseBrace, nesting + 1)?;
        let kind = ExprKind::SetOf(List::new(alloc));
        return Ok((Expr { place, kind }, rest));
    }
    let (kind, rest) = elements(alloc, rest, nesting + 1)?;
    closed(place, kind, rest, nesting + 1, Kind::CloseBrace)
}

/// The inside of a set that isn't empty: a comprehension or a list.
#[cycle(exprs)]
fn elements<'a>(alloc: Global, cursor: Cursor<'a>, nesting: u64) -> Read<'a, ExprKind>
    requires { nesting ≤ 257 }
    ensures { Gives (λ x. (x.0, x.1.tokens.now)) result (reads_as nesting brace_parts set_of_parts cursor.entry.tokens.now) }
{
    let (first, rest) = expr(alloc, cursor, nesting)?;
    if rest.begins(Kind::For) {
        return comprehension(alloc, rest, nesting, first);
    }
    let elements = one_element(alloc, first)?;
    let (elements, rest) = further(alloc, rest, nesting, elements)?;
    Ok((ExprKind::SetOf(elements), rest))
}

/// These elements and those that follow, each behind a comma.
#[cycle(exprs)]
fn further<'a>(
    alloc: Global,
    cursor: Cursor<'a>,
    nesting: u64,
    mut elements: List<Expr>,
) -> Read<'a, List<Expr>>
    requires { nesting ≤ 257 }
    ensures { Gives (λ x. (x.0, x.1.tokens.now)) result (reads_more nesting (expr_after kinds.Comma) second elements cursor.entry.tokens.now) }
{
    let mut rest = cursor;
    while rest.begins(Kind::Comma) {
        let (_, after) = rest.token(Kind::Comma, nesting)?;
        let (element, after) = expr(alloc, after, nesting)?;
        elements.push(element)?;
        rest = after;
    }
    Ok((elements, rest))
}

/// The values that an element has for each value of a set that meets the condition, from the word `for` on.
#[cycle(exprs)]
fn comprehension<'a>(
    alloc: Global,
    cursor: Cursor<'a>,
    nesting: u64,
    element: Expr,
) -> Read<'a, ExprKind>
    requires { nesting ≤ 257 }
    ensures { Gives (λ x. (x.0, x.1.tokens.now)) result (reads_as nesting comprehension (chosen element) cursor.entry.tokens.now) }
{
    let element = Boxed::new(alloc, element)?;
    let (_, rest) = cursor.token(Kind::For, nesting)?;
    let (name, rest) = rest.token(Kind::Identifier, nesting)?;
    let (_, rest) = rest.token(Kind::In, nesting)?;
    let (set, rest) = level_of(alloc, rest, nesting, BinaryLevel::Disjunction)?;
    let set = Boxed::new(alloc, set)?;
    let (holds, rest) = optional_after(alloc, rest, nesting + 1, Kind::If)?;
    let text = text_of(alloc, name)?;
    Ok((ExprKind::Choose(element, text, set, holds), rest))
}

/// The condition behind the word `if`, where that word stands.
pub fn condition<'a>(alloc: Global, cursor: Cursor<'a>, nesting: u64) -> Read<'a, Option<Expr>>
    requires { nesting ≤ 256 }
    ensures { Gives (λ x. (x.0, x.1.tokens.now)) result (reads_as nesting condition behind_in cursor.entry.tokens.now) }
{
    if !cursor.begins(Kind::If) {
        return Ok((None, cursor));
    }
    let ((_, e), rest) = expr_after(alloc, cursor, nesting + 1, Kind::If)?;
    Ok((Some(e), rest))
}

/// A map of keys and values.
#[cycle(exprs)]
fn map<'a>(alloc: Global, cursor: Cursor<'a>, nesting: u64) -> Read<'a, Expr>
    requires { nesting ≤ 256 }
    ensures { Gives (λ x. (x.0, x.1.tokens.now)) result (reads_as nesting map_rule make_map cursor.entry.tokens.now) }
{
    let (opening, rest) = cursor.token(Kind::OpenSquare, nesting + 1)?;
    let place = opening.place;
    if !rest.begins_any(&EXPR) {
        let (_, rest) = rest.token(Kind::CloseSquare, nesting + 1)?;
        let kind = ExprKind::MapOf(List::new(alloc), List::new(alloc));
        return Ok((Expr { place, kind }, rest));
    }
    let ((keys, values), rest) = entries(alloc, rest, nesting + 1)?;
    let (_, rest) = rest.token(Kind::CloseSquare, nesting + 1)?;
    let kind = ExprKind::MapOf(keys, values);
    Ok((Expr { place, kind }, rest))
}

/// The keys and the values of one entry or more.
#[cycle(exprs)]
fn entries<'a>(
    alloc: Global,
    cursor: Cursor<'a>,
    nesting: u64,
) -> Read<'a, (List<Expr>, List<Expr>)>
    requires { nesting ≤ 257 }
    ensures { Gives (λ x. (x.0, x.1.tokens.now)) result (reads_as nesting (several kinds.Comma map_entry) keys_and_values cursor.entry.tokens.now) }
{
    let none = (List::new(alloc), List::new(alloc));
    let (first, rest) = entry(alloc, cursor, nesting, none)?;
    further_entries(alloc, rest, nesting, first)
}

/// These keys and values and those of the entries that follow, each behind a comma.
#[cycle(exprs)]
fn further_entries<'a>(
    alloc: Global,
    cursor: Cursor<'a>,
    nesting: u64,
    entries: (List<Expr>, List<Expr>),
) -> Read<'a, (List<Expr>, List<Expr>)>
    requires { nesting ≤ 257 }
    ensures { Gives (λ x. (x.0, x.1.tokens.now)) result (reads_fold nesting further_entry with_further_entry entries cursor.entry.tokens.now) }
{
    let mut entries = entries;
    let mut rest = cursor;
    while rest.begins(Kind::Comma) {
        let (_, after) = rest.token(Kind::Comma, nesting)?;
        let (longer, after) = entry(alloc, after, nesting, entries)?;
        entries = longer;
        rest = after;
    }
    Ok((entries, rest))
}

/// These keys and values and those of one more entry.
#[cycle(exprs)]
fn entry<'a>(
    alloc: Global,
    cursor: Cursor<'a>,
    nesting: u64,
    entries: (List<Expr>, List<Expr>),
) -> Read<'a, (List<Expr>, List<Expr>)>
    requires { nesting ≤ 257 }
    ensures { Gives (λ x. (x.0, x.1.tokens.now)) result (reads_as nesting map_entry (with_entry entries) cursor.entry.tokens.now) }
{
    let (mut keys, mut values) = entries;
    let (key, rest) = expr(alloc, cursor, nesting)?;
    keys.push(key)?;
    let ((_, value), rest) = expr_after(alloc, rest, nesting, Kind::MapsTo)?;
    values.push(value)?;
    Ok(((keys, values), rest))
}
