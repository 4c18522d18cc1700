ghost use Rattle.std.specs.Prelude.{◌≡◌, ◌≤◌, ◌∷◌, [], map};
ghost use Rattle.grammar_theory.specs.Texts.{Nested, One, Optional, Symbol, Then};
ghost use Rattle.spec_grammar.specs.Kinds.{code_of};
ghost use Rattle.spec_grammar.specs.Parts.{identifier, listed_in, second, symbol_after};
ghost use Rattle.spec_grammar.specs.Patterns.{after_identifier, application_of, identifier_pattern, negative_number, pattern_at, pattern_list, quoted_pattern, sorted_variable};
ghost use Rattle.spec_grammar.specs.Reading.{reads, reads_as};
ghost use Rattle.spec_grammar.proofs.Unrolled.{reads_more};
ghost use Rattle.spec_grammar.specs.Symbols.{APattern, AFirmPattern, AnUnnamedPattern, PatternArguments};
ghost use Rattle.spec_grammar.specs.declared.kind.Kind.TheVariants as kinds;
ghost use Rattle.spec_grammar.specs.Gives.{Gives};
ghost use Rattle.parse_rules.specs.inner.Parts.{bracketed, negative_of, placed, quoted, sorted_of};

use crate::kinds::{PATTERNS, firm_pattern_beginnings, unnamed_pattern_beginnings};
use flow_syntax::{Pattern, PatternKind, Token};
use flow_term::{Boxed, List};
use spec_grammar::{Cursor, Kind, LIMIT, Read, number_of, text_of};
use std::alloc::Global;

/// A pattern.
#[cycle(pattern)]
pub fn read_pattern<'a>(alloc: Global, cursor: Cursor<'a>, nesting: u64) -> Read<'a, Pattern>
    requires { nesting ≤ 257 }
    ensures { Gives (λ x. (x.0, x.1.tokens.now)) result (reads nesting APattern cursor.entry.tokens.now) }
{
    if nesting > LIMIT {
        return Err(cursor.too_deep(&PATTERNS));
    }
    if cursor.begins(Kind::Underscore) {
        let (token, rest) = cursor.token(Kind::Underscore, nesting)?;
        return Ok((pattern_at(token, PatternKind::Wild), rest));
    }
    if cursor.begins(Kind::Identifier) {
        return read_identifier_pattern(alloc, cursor, nesting);
    }
    read_unnamed_pattern(alloc, cursor, nesting)
}

/// A pattern at the place of a token.
fn pattern_at(token: &Token, kind: PatternKind) -> Pattern
    ensures { result ≡ pattern_at token.now kind }
{
    Pattern {
        place: token.place,
        kind,
    }
}

/// A variable, an application, or a variable that holds what another pattern matches.
#[cycle(pattern)]
fn read_identifier_pattern<'a>(alloc: Global, cursor: Cursor<'a>, nesting: u64) -> Read<'a, Pattern>
    requires { nesting ≤ 256 }
    ensures { Gives (λ x. (x.0, x.1.tokens.now)) result (reads_as nesting (Then identifier (Optional after_identifier)) (λ x. identifier_pattern x.0 x.1) cursor.entry.tokens.now) }
{
    let (name, rest) = cursor.token(Kind::Identifier, nesting)?;
    let text = text_of(alloc, name)?;
    if rest.begins(Kind::OpenRound) {
        let (parts, rest) = read_arguments(alloc, rest, nesting)?;
        return Ok((pattern_at(name, PatternKind::Apply(text, parts)), rest));
    }
    if rest.begins(Kind::At) {
        let (_, rest) = rest.token(Kind::At, nesting + 1)?;
        let (held, rest) = read_firm_pattern(alloc, rest, nesting + 1)?;
        let held = Boxed::new(alloc, held)?;
        return Ok((pattern_at(name, PatternKind::Held(text, held)), rest));
    }
    Ok((pattern_at(name, PatternKind::Var(text)), rest))
}

/// A pattern that a variable may hold: one that tests what it matches.
#[cycle(pattern)]
fn read_firm_pattern<'a>(alloc: Global, cursor: Cursor<'a>, nesting: u64) -> Read<'a, Pattern>
    requires { nesting ≤ 257 }
    ensures { Gives (λ x. (x.0, x.1.tokens.now)) result (reads nesting AFirmPattern cursor.entry.tokens.now) }
{
    if nesting > LIMIT {
        return Err(cursor.too_deep(firm_pattern_beginnings()));
    }
    if cursor.begins(Kind::Identifier) {
        return read_application(alloc, cursor, nesting, &[Kind::Identifier]);
    }
    read_unnamed_pattern(alloc, cursor, nesting)
}

/// A constructor's name, which is a token of one of these kinds, and patterns of its arguments.
#[cycle(pattern)]
pub fn read_application<'a>(
    alloc: Global,
    cursor: Cursor<'a>,
    nesting: u64,
    names: &[Kind],
) -> Read<'a, Pattern>
    requires { nesting ≤ 256 }
    ensures { Gives (λ x. (x.0, x.1.tokens.now)) result (reads_as nesting (Then (One (map code_of names.now)) (Symbol PatternArguments)) (λ x. application_of x.0 x.1) cursor.entry.tokens.now) }
{
    let (name, _, rest) = cursor.any_token(names, nesting)?;
    let (parts, rest) = read_arguments(alloc, rest, nesting)?;
    let text = text_of(alloc, name)?;
    Ok((pattern_at(name, PatternKind::Apply(text, parts)), rest))
}

/// A pattern that begins with no identifier.
#[cycle(pattern)]
fn read_unnamed_pattern<'a>(alloc: Global, cursor: Cursor<'a>, nesting: u64) -> Read<'a, Pattern>
    requires { nesting ≤ 257 }
    ensures { Gives (λ x. (x.0, x.1.tokens.now)) result (reads nesting AnUnnamedPattern cursor.entry.tokens.now) }
{
    if nesting > LIMIT {
        return Err(cursor.too_deep(unnamed_pattern_beginnings()));
    }
    if cursor.begins_any(&[Kind::Name, Kind::Str, Kind::Int]) {
        return read_sorted_variable(alloc, cursor, nesting);
    }
    if cursor.begins(Kind::Number) {
        let (token, rest) = cursor.token(Kind::Number, nesting)?;
        let number = PatternKind::IntLit(number_of(token));
        return Ok((pattern_at(token, number), rest));
    }
    if cursor.begins(Kind::Dash) {
        return read_negative_number(cursor, nesting);
    }
    if cursor.begins(Kind::Quoted) {
        return read_quoted_pattern(alloc, cursor, nesting);
    }
    if cursor.begins(Kind::OpenRound) {
        let ((place, parts), rest) = read_bracketed(
            alloc,
            cursor,
            nesting,
            Kind::OpenRound,
            Kind::CloseRound,
        )?;
        let kind = PatternKind::Tuple(parts);
        return Ok((Pattern { place, kind }, rest));
    }
    let ((place, items), rest) = read_bracketed(
        alloc,
        cursor,
        nesting,
        Kind::OpenSquare,
        Kind::CloseSquare,
    )?;
    let kind = PatternKind::Items(items);
    Ok((Pattern { place, kind }, rest))
}

/// A variable for a name, a string or an integer.
fn read_sorted_variable<'a>(alloc: Global, cursor: Cursor<'a>, nesting: u64) -> Read<'a, Pattern>
    ensures { Gives (λ x. (x.0, x.1.tokens.now)) result (reads_as nesting sorted_variable sorted_of cursor.entry.tokens.now) }
{
    let (sort, kind, rest) = cursor.any_token(&[Kind::Name, Kind::Str, Kind::Int], nesting)?;
    let (name, rest) = rest.token(Kind::Identifier, nesting)?;
    let text = text_of(alloc, name)?;
    let variable = match kind {
        Kind::Name => PatternKind::NameVar(text),
        Kind::Str => PatternKind::StrVar(text),
        _ => PatternKind::IntVar(text),
    };
    Ok((pattern_at(sort, variable), rest))
}

/// A number behind a sign.
fn read_negative_number<'a>(cursor: Cursor<'a>, nesting: u64) -> Read<'a, Pattern>
    requires { nesting ≤ 256 }
    ensures { Gives (λ x. (x.0, x.1.tokens.now)) result (reads_as nesting negative_number negative_of cursor.entry.tokens.now) }
{
    let (sign, rest) = cursor.token(Kind::Dash, nesting + 1)?;
    let (token, rest) = rest.token(Kind::Number, nesting + 1)?;
    Ok((
        pattern_at(sign, PatternKind::IntLit(-number_of(token))),
        rest,
    ))
}

/// A text, or an application of a constructor with a quoted name.
#[cycle(pattern)]
fn read_quoted_pattern<'a>(alloc: Global, cursor: Cursor<'a>, nesting: u64) -> Read<'a, Pattern>
    requires { nesting ≤ 256 }
    ensures { Gives (λ x. (x.0, x.1.tokens.now)) result (reads_as nesting quoted (λ x. quoted_pattern x.0 x.1) cursor.entry.tokens.now) }
{
    let (token, rest) = cursor.token(Kind::Quoted, nesting)?;
    let text = text_of(alloc, token)?;
    if rest.begins(Kind::OpenRound) {
        let (parts, rest) = read_arguments(alloc, rest, nesting)?;
        return Ok((pattern_at(token, PatternKind::Apply(text, parts)), rest));
    }
    Ok((pattern_at(token, PatternKind::StrLit(text)), rest))
}

/// The patterns of a constructor's arguments.
#[cycle(pattern)]
fn read_arguments<'a>(alloc: Global, cursor: Cursor<'a>, nesting: u64) -> Read<'a, List<Pattern>>
    requires { nesting ≤ 257 }
    ensures { Gives (λ x. (x.0, x.1.tokens.now)) result (reads nesting PatternArguments cursor.entry.tokens.now) }
{
    if nesting > LIMIT {
        return Err(cursor.too_deep(&[Kind::OpenRound]));
    }
    let ((_, parts), rest) = read_bracketed(
        alloc,
        cursor,
        nesting,
        Kind::OpenRound,
        Kind::CloseRound,
    )?;
    Ok((parts, rest))
}

/// An opening token, patterns with commas between them, and the closing token.
#[cycle(pattern)]
fn read_bracketed<'a>(
    alloc: Global,
    cursor: Cursor<'a>,
    nesting: u64,
    opening: Kind,
    closing: Kind,
) -> Read<'a, (u64, List<Pattern>)>
    requires { nesting ≤ 256 }
    ensures { Gives (λ x. (x.0, x.1.tokens.now)) result (reads_as nesting (bracketed opening closing) placed cursor.entry.tokens.now) }
{
    let (bracket, rest) = cursor.token(opening, nesting + 1)?;
    let (patterns, rest) = read_patterns(alloc, rest, nesting + 1)?;
    let (_, rest) = rest.token(closing, nesting + 1)?;
    Ok(((bracket.place, patterns), rest))
}

/// Patterns with commas between them, if there are any.
#[cycle(pattern)]
fn read_patterns<'a>(alloc: Global, cursor: Cursor<'a>, nesting: u64) -> Read<'a, List<Pattern>>
    requires { nesting ≤ 257 }
    ensures { Gives (λ x. (x.0, x.1.tokens.now)) result (reads_as nesting pattern_list listed_in cursor.entry.tokens.now) }
{
    let mut patterns = List::new(alloc);
    if !cursor.begins_any(&PATTERNS) {
        return Ok((patterns, cursor));
    }
    let (first, rest) = read_pattern(alloc, cursor, nesting)?;
    patterns.push(first)?;
    read_more_patterns(alloc, patterns, rest, nesting)
}

/// These patterns and further ones, each behind a comma.
#[cycle(pattern)]
fn read_more_patterns<'a>(
    alloc: Global,
    mut patterns: List<Pattern>,
    cursor: Cursor<'a>,
    nesting: u64,
) -> Read<'a, List<Pattern>>
    requires { nesting ≤ 257 }
    ensures { Gives (λ x. (x.0, x.1.tokens.now)) result (reads_more nesting (symbol_after kinds.Comma APattern) second patterns cursor.entry.tokens.now) }
{
    let mut rest = cursor;
    while rest.begins(Kind::Comma) {
        let (_, after) = rest.token(Kind::Comma, nesting)?;
        let (next, after) = read_pattern(alloc, after, nesting)?;
        patterns.push(next)?;
        rest = after;
    }
    Ok((patterns, rest))
}
