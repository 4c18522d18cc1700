ghost use Rattle.std.specs.Prelude.{◌≤◌};
ghost use Rattle.spec_grammar.specs.Gives.{Gives};
ghost use Rattle.spec_grammar.specs.Reading.{reads};
ghost use Rattle.spec_grammar.specs.Symbols.{AProperty, AType, AnElemSort};
ghost use Rattle.parse_decls.specs.inner.Pieces.{reads_in_round, reads_pair, reads_plain_elem_sort, reads_set_type};

use crate::names::read_name;
use flow_syntax::{ElemSort, LatticeType, PropDecl};
use flow_term::Boxed;
use spec_grammar::{Cursor, Kind, LIMIT, Read, named};
use std::alloc::Global;

/// With what the sort of an element begins.
const ELEM_SORT: [Kind; 6] = [
    Kind::Name,
    Kind::Pos,
    Kind::Str,
    Kind::Int,
    Kind::Identifier,
    Kind::OpenRound,
];

/// The sorts of one token.
const PLAIN_ELEM_SORTS: [Kind; 5] = [
    Kind::Name,
    Kind::Pos,
    Kind::Str,
    Kind::Int,
    Kind::Identifier,
];

/// With what a type begins.
const TYPE: [Kind; 6] = [
    Kind::MaySet,
    Kind::MustSet,
    Kind::Flat,
    Kind::Map,
    Kind::Pair,
    Kind::Identifier,
];

/// The words of the types that have the sort of their elements behind them.
const SET_WORDS: [Kind; 3] = [Kind::MaySet, Kind::MustSet, Kind::Flat];

/// A property: its name, and the lattice of its values.
pub fn read_property(alloc: Global, cursor: Cursor<'_>) -> Read<'_, PropDecl>
    ensures { Gives (λ x. (x.0, x.1.tokens.now)) result (reads 0 AProperty cursor.entry.tokens.now) }
{
    let (name, rest) = read_name(alloc, cursor, 0)?;
    let (_, rest) = rest.token(Kind::Colon, 0)?;
    let (lattice, rest) = read_type(alloc, rest, 0)?;
    Ok((PropDecl { name, lattice }, rest))
}

/// The type of a property, where so many brackets are open round it.
#[cycle(types)]
pub fn read_type(alloc: Global, cursor: Cursor<'_>, nesting: u64) -> Read<'_, LatticeType>
    requires { nesting ≤ 257 }
    ensures { Gives (λ x. (x.0, x.1.tokens.now)) result (reads nesting AType cursor.entry.tokens.now) }
{
    if nesting > LIMIT {
        return Err(cursor.too_deep(&TYPE));
    }
    if cursor.begins_any(&SET_WORDS) {
        return read_set_type(alloc, cursor, nesting);
    }
    if cursor.begins(Kind::Map) {
        let (_, rest) = cursor.token(Kind::Map, nesting)?;
        let ((keys, values), rest) = read_key_and_value(alloc, rest, nesting)?;
        return Ok((LatticeType::Map(keys, Boxed::new(alloc, values)?), rest));
    }
    if cursor.begins(Kind::Pair) {
        let (_, rest) = cursor.token(Kind::Pair, nesting)?;
        let ((first, second), rest) = read_type_pair(alloc, rest, nesting)?;
        let first = Boxed::new(alloc, first)?;
        return Ok((LatticeType::Pair(first, Boxed::new(alloc, second)?), rest));
    }
    let (name, rest) = read_name(alloc, cursor, nesting)?;
    Ok((LatticeType::Table(name), rest))
}

/// A set or a flat value: its word, and the sort of its elements in parentheses.
fn read_set_type(alloc: Global, cursor: Cursor<'_>, nesting: u64) -> Read<'_, LatticeType>
    requires { nesting ≤ 256 }
    ensures { Gives (λ x. (x.0, x.1.tokens.now)) result (reads_set_type nesting cursor.entry.tokens.now) }
{
    let (_, word, rest) = cursor.any_token(&SET_WORDS, nesting)?;
    let (elements, rest) = read_elem_in_round(alloc, rest, nesting)?;
    let made = match word {
        Kind::MaySet => LatticeType::May(elements),
        Kind::MustSet => LatticeType::Must(elements),
        _ => LatticeType::Flat(elements),
    };
    Ok((made, rest))
}

/// The sort of a map's keys and the type of its values, in parentheses.
#[cycle(types)]
fn read_key_and_value(
    alloc: Global,
    cursor: Cursor<'_>,
    nesting: u64,
) -> Read<'_, (ElemSort, LatticeType)>
    requires { nesting ≤ 256 }
    ensures { Gives (λ x. (x.0, x.1.tokens.now)) result (reads_pair nesting AnElemSort AType cursor.entry.tokens.now) }
{
    let (_, rest) = cursor.token(Kind::OpenRound, nesting + 1)?;
    let (keys, rest) = read_elem_sort(alloc, rest, nesting + 1)?;
    let (_, rest) = rest.token(Kind::Comma, nesting + 1)?;
    let (values, rest) = read_type(alloc, rest, nesting + 1)?;
    let (_, rest) = rest.token(Kind::CloseRound, nesting + 1)?;
    Ok(((keys, values), rest))
}

/// Two types in parentheses.
#[cycle(types)]
fn read_type_pair(
    alloc: Global,
    cursor: Cursor<'_>,
    nesting: u64,
) -> Read<'_, (LatticeType, LatticeType)>
    requires { nesting ≤ 256 }
    ensures { Gives (λ x. (x.0, x.1.tokens.now)) result (reads_pair nesting AType AType cursor.entry.tokens.now) }
{
    let (_, rest) = cursor.token(Kind::OpenRound, nesting + 1)?;
    let (first, rest) = read_type(alloc, rest, nesting + 1)?;
    let (_, rest) = rest.token(Kind::Comma, nesting + 1)?;
    let (second, rest) = read_type(alloc, rest, nesting + 1)?;
    let (_, rest) = rest.token(Kind::CloseRound, nesting + 1)?;
    Ok(((first, second), rest))
}

/// The sort of an element, where so many brackets are open round it.
#[cycle(elem_sorts)]
pub fn read_elem_sort(alloc: Global, cursor: Cursor<'_>, nesting: u64) -> Read<'_, ElemSort>
    requires { nesting ≤ 257 }
    ensures { Gives (λ x. (x.0, x.1.tokens.now)) result (reads nesting AnElemSort cursor.entry.tokens.now) }
{
    if nesting > LIMIT {
        return Err(cursor.too_deep(&ELEM_SORT));
    }
    if cursor.begins_any(&PLAIN_ELEM_SORTS) {
        return read_plain_elem_sort(alloc, cursor, nesting);
    }
    let ((first, second), rest) = read_elem_pair(alloc, cursor, nesting)?;
    let first = Boxed::new(alloc, first)?;
    Ok((ElemSort::Pair(first, Boxed::new(alloc, second)?), rest))
}

/// The sort of an element, of one token.
fn read_plain_elem_sort(alloc: Global, cursor: Cursor<'_>, nesting: u64) -> Read<'_, ElemSort>
    ensures { Gives (λ x. (x.0, x.1.tokens.now)) result (reads_plain_elem_sort nesting cursor.entry.tokens.now) }
{
    let (token, kind, rest) = cursor.any_token(&PLAIN_ELEM_SORTS, nesting)?;
    let sort = match kind {
        Kind::Name => ElemSort::Name,
        Kind::Pos => ElemSort::Pos,
        Kind::Str => ElemSort::Str,
        Kind::Int => ElemSort::Int,
        _ => ElemSort::Enum(named(alloc, token)?),
    };
    Ok((sort, rest))
}

/// Two sorts in parentheses.
#[cycle(elem_sorts)]
fn read_elem_pair(alloc: Global, cursor: Cursor<'_>, nesting: u64) -> Read<'_, (ElemSort, ElemSort)>
    requires { nesting ≤ 256 }
    ensures { Gives (λ x. (x.0, x.1.tokens.now)) result (reads_pair nesting AnElemSort AnElemSort cursor.entry.tokens.now) }
{
    let (_, rest) = cursor.token(Kind::OpenRound, nesting + 1)?;
    let (first, rest) = read_elem_sort(alloc, rest, nesting + 1)?;
    let (_, rest) = rest.token(Kind::Comma, nesting + 1)?;
    let (second, rest) = read_elem_sort(alloc, rest, nesting + 1)?;
    let (_, rest) = rest.token(Kind::CloseRound, nesting + 1)?;
    Ok(((first, second), rest))
}

/// A sort in parentheses.
fn read_elem_in_round(alloc: Global, cursor: Cursor<'_>, nesting: u64) -> Read<'_, ElemSort>
    requires { nesting ≤ 256 }
    ensures { Gives (λ x. (x.0, x.1.tokens.now)) result (reads_in_round nesting AnElemSort cursor.entry.tokens.now) }
{
    let (_, rest) = cursor.token(Kind::OpenRound, nesting + 1)?;
    let (sort, rest) = read_elem_sort(alloc, rest, nesting + 1)?;
    let (_, rest) = rest.token(Kind::CloseRound, nesting + 1)?;
    Ok((sort, rest))
}
