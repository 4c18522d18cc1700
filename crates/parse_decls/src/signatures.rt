ghost use Rattle.std.specs.Prelude.{◌≤◌, ◌<◌};
ghost use Rattle.spec_grammar.specs.Gives.{Gives};
ghost use Rattle.spec_grammar.specs.Kinds.{code_of, kind_count};
ghost use Rattle.spec_grammar.specs.Reading.{reads};
ghost use Rattle.spec_grammar.specs.Symbols.{ASignature, AConstructor, ATreeSort};
ghost use Rattle.parse_decls.specs.inner.Pieces.{reads_argument_sorts, reads_each, reads_in_round, reads_plain_tree_sort, reads_sorts};

use crate::names::{read_constructor_name, read_name};
use flow_syntax::{Constructor, Signature, TreeSort};
use flow_term::{Boxed, List};
use spec_grammar::{Cursor, Kind, LIMIT, Read, named};
use std::alloc::Global;

/// With what the sort of a tree begins.
const TREE_SORT: [Kind; 6] = [
    Kind::Identifier,
    Kind::Str,
    Kind::Int,
    Kind::Any,
    Kind::List,
    Kind::OpenRound,
];

/// The sorts of one token.
const PLAIN_TREE_SORTS: [Kind; 4] = [Kind::Identifier, Kind::Str, Kind::Int, Kind::Any];

/// The signature: the sort of a whole tree, and the constructors.
pub fn read_signature(alloc: Global, cursor: Cursor<'_>) -> Read<'_, Signature>
    ensures { Gives (λ x. (x.0, x.1.tokens.now)) result (reads 0 ASignature cursor.entry.tokens.now) }
{
    let (_, rest) = cursor.token(Kind::Signature, 0)?;
    let (_, rest) = rest.token(Kind::Start, 0)?;
    let (start, rest) = read_name(alloc, rest, 0)?;
    let (constructors, rest) = read_constructors(alloc, rest)?;
    let signature = Signature {
        start,
        constructors,
    };
    Ok((signature, rest))
}

fn read_constructors(alloc: Global, cursor: Cursor<'_>) -> Read<'_, List<Constructor>>
    ensures { Gives (λ x. (x.0, x.1.tokens.now)) result (reads_each 0 AConstructor cursor.entry.tokens.now) }
{
    let mut constructors = List::new(alloc);
    let mut rest = cursor;
    while rest.begins_any(&[Kind::Identifier, Kind::Quoted]) {
        let (constructor, after) = read_constructor(alloc, rest)?;
        constructors.push(constructor)?;
        rest = after;
    }
    Ok((constructors, rest))
}

/// A constructor: its name, the sorts of its arguments, and the sort of what it makes.
pub fn read_constructor(alloc: Global, cursor: Cursor<'_>) -> Read<'_, Constructor>
    ensures { Gives (λ x. (x.0, x.1.tokens.now)) result (reads 0 AConstructor cursor.entry.tokens.now) }
{
    let (name, rest) = read_constructor_name(alloc, cursor, 0)?;
    let (_, rest) = rest.token(Kind::Colon, 0)?;
    let (args, rest) = read_argument_sorts(alloc, rest)?;
    let (_, rest) = rest.token(Kind::Arrow, 0)?;
    let (made, rest) = read_name(alloc, rest, 0)?;
    let constructor = Constructor {
        name,
        args,
        result: made,
    };
    Ok((constructor, rest))
}

/// The sorts of a constructor's arguments, with a `*` between each two: none where no sort begins.
fn read_argument_sorts(alloc: Global, cursor: Cursor<'_>) -> Read<'_, List<TreeSort>>
    ensures { Gives (λ x. (x.0, x.1.tokens.now)) result (reads_argument_sorts 0 cursor.entry.tokens.now) }
{
    if !cursor.begins_any(&TREE_SORT) {
        return Ok((List::new(alloc), cursor));
    }
    let (sorts, rest) = read_tree_sorts(alloc, cursor, Kind::Star, 0)?;
    Ok((sorts, rest))
}

/// The sort of a tree, where so many brackets are open round it.
#[cycle(tree_sorts)]
pub fn read_tree_sort(alloc: Global, cursor: Cursor<'_>, nesting: u64) -> Read<'_, TreeSort>
    requires { nesting ≤ 257 }
    ensures { Gives (λ x. (x.0, x.1.tokens.now)) result (reads nesting ATreeSort cursor.entry.tokens.now) }
{
    if nesting > LIMIT {
        return Err(cursor.too_deep(&TREE_SORT));
    }
    if cursor.begins_any(&PLAIN_TREE_SORTS) {
        return read_plain_tree_sort(alloc, cursor, nesting);
    }
    if cursor.begins(Kind::List) {
        let (_, rest) = cursor.token(Kind::List, nesting)?;
        let (items, rest) = read_sort_in_round(alloc, rest, nesting)?;
        return Ok((TreeSort::Items(Boxed::new(alloc, items)?), rest));
    }
    let (_, rest) = cursor.token(Kind::OpenRound, nesting + 1)?;
    let (parts, rest) = read_tree_sorts(alloc, rest, Kind::Comma, nesting + 1)?;
    let (_, rest) = rest.token(Kind::CloseRound, nesting + 1)?;
    Ok((TreeSort::Tuple(parts), rest))
}

/// The sort of a tree, of one token.
fn read_plain_tree_sort(alloc: Global, cursor: Cursor<'_>, nesting: u64) -> Read<'_, TreeSort>
    ensures { Gives (λ x. (x.0, x.1.tokens.now)) result (reads_plain_tree_sort nesting cursor.entry.tokens.now) }
{
    let (token, kind, rest) = cursor.any_token(&PLAIN_TREE_SORTS, nesting)?;
    let sort = match kind {
        Kind::Identifier => TreeSort::Sort(named(alloc, token)?),
        Kind::Str => TreeSort::Str,
        Kind::Int => TreeSort::Int,
        _ => TreeSort::Any,
    };
    Ok((sort, rest))
}

/// A sort in parentheses.
#[cycle(tree_sorts)]
fn read_sort_in_round(alloc: Global, cursor: Cursor<'_>, nesting: u64) -> Read<'_, TreeSort>
    requires { nesting ≤ 256 }
    ensures { Gives (λ x. (x.0, x.1.tokens.now)) result (reads_in_round nesting ATreeSort cursor.entry.tokens.now) }
{
    let (_, rest) = cursor.token(Kind::OpenRound, nesting + 1)?;
    let (sort, rest) = read_tree_sort(alloc, rest, nesting + 1)?;
    let (_, rest) = rest.token(Kind::CloseRound, nesting + 1)?;
    Ok((sort, rest))
}

/// One sort or more, with the separator between each two.
#[cycle(tree_sorts)]
fn read_tree_sorts(
    alloc: Global,
    cursor: Cursor<'_>,
    separator: Kind,
    nesting: u64,
) -> Read<'_, List<TreeSort>>
    requires depth { nesting ≤ 257 }
    requires kind { code_of separator < kind_count }
    ensures { Gives (λ x. (x.0, x.1.tokens.now)) result (reads_sorts nesting separator cursor.entry.tokens.now) }
{
    let (first, mut rest) = read_tree_sort(alloc, cursor, nesting)?;
    let mut sorts = List::new(alloc);
    sorts.push(first)?;
    while rest.begins(separator) {
        let (_, after) = rest.token(separator, nesting)?;
        let (sort, after) = read_tree_sort(alloc, after, nesting)?;
        sorts.push(sort)?;
        rest = after;
    }
    Ok((sorts, rest))
}
