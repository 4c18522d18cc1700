ghost use Rattle.spec_grammar.specs.Gives.{Gives};
ghost use Rattle.spec_grammar.specs.Reading.{reads};
ghost use Rattle.spec_grammar.specs.Symbols.{AFunction, ATable, AnEnum};
ghost use Rattle.parse_decls.specs.inner.Pieces.{reads_arguments, reads_names_in_braces, reads_one_or_two};

use crate::names::{read_items, read_name, read_names};
use flow_syntax::{EnumDecl, FunctionDecl, Named, TableDecl};
use flow_term::List;
use spec_grammar::{Cursor, Kind, Read};
use std::alloc::Global;

/// A sort of elements that are listed: its name and its items.
pub fn read_enum(alloc: Global, cursor: Cursor<'_>) -> Read<'_, EnumDecl>
    ensures { Gives (λ x. (x.0, x.1.tokens.now)) result (reads 0 AnEnum cursor.entry.tokens.now) }
{
    let (name, rest) = read_name(alloc, cursor, 0)?;
    let (_, rest) = rest.token(Kind::Is, 0)?;
    let (items, rest) = read_items(alloc, rest, 0)?;
    Ok((EnumDecl { name, items }, rest))
}

/// A lattice of listed elements: its name, its elements, the bottom, and the joins.
pub fn read_table(alloc: Global, cursor: Cursor<'_>) -> Read<'_, TableDecl>
    ensures { Gives (λ x. (x.0, x.1.tokens.now)) result (reads 0 ATable cursor.entry.tokens.now) }
{
    let (name, rest) = read_name(alloc, cursor, 0)?;
    let (_, rest) = rest.token(Kind::OpenBrace, 1)?;
    let (_, rest) = rest.token(Kind::Elements, 1)?;
    let (elements, rest) = read_names(alloc, rest, 1)?;
    let (_, rest) = rest.token(Kind::Bottom, 1)?;
    let (bottom, rest) = read_name(alloc, rest, 1)?;
    let (_, rest) = rest.token(Kind::Join, 1)?;
    let (join, rest) = read_names(alloc, rest, 1)?;
    let (_, rest) = rest.token(Kind::CloseBrace, 1)?;
    let table = TableDecl {
        name,
        elements,
        bottom,
        join,
    };
    Ok((table, rest))
}

/// A function between such lattices: its name, those of its arguments, that of its results, and the results.
pub fn read_function(alloc: Global, cursor: Cursor<'_>) -> Read<'_, FunctionDecl>
    ensures { Gives (λ x. (x.0, x.1.tokens.now)) result (reads 0 AFunction cursor.entry.tokens.now) }
{
    let (name, rest) = read_name(alloc, cursor, 0)?;
    let (args, rest) = read_arguments(alloc, rest)?;
    let (_, rest) = rest.token(Kind::Colon, 0)?;
    let (made, rest) = read_name(alloc, rest, 0)?;
    let (table, rest) = read_names_in_braces(alloc, rest)?;
    let function = FunctionDecl {
        name,
        args,
        result: made,
        table,
    };
    Ok((function, rest))
}

fn read_arguments(alloc: Global, cursor: Cursor<'_>) -> Read<'_, List<Named>>
    ensures { Gives (λ x. (x.0, x.1.tokens.now)) result (reads_arguments 0 cursor.entry.tokens.now) }
{
    let (_, rest) = cursor.token(Kind::OpenRound, 1)?;
    let (args, rest) = read_one_or_two(alloc, rest)?;
    let (_, rest) = rest.token(Kind::CloseRound, 1)?;
    Ok((args, rest))
}

/// An identifier, or two with a comma between them.
fn read_one_or_two(alloc: Global, cursor: Cursor<'_>) -> Read<'_, List<Named>>
    ensures { Gives (λ x. (x.0, x.1.tokens.now)) result (reads_one_or_two 1 cursor.entry.tokens.now) }
{
    let (first, rest) = read_name(alloc, cursor, 1)?;
    let mut names = List::new(alloc);
    names.push(first)?;
    if !rest.begins(Kind::Comma) {
        return Ok((names, rest));
    }
    let (_, rest) = rest.token(Kind::Comma, 1)?;
    let (second, rest) = read_name(alloc, rest, 1)?;
    names.push(second)?;
    Ok((names, rest))
}

fn read_names_in_braces(alloc: Global, cursor: Cursor<'_>) -> Read<'_, List<Named>>
    ensures { Gives (λ x. (x.0, x.1.tokens.now)) result (reads_names_in_braces 0 cursor.entry.tokens.now) }
{
    let (_, rest) = cursor.token(Kind::OpenBrace, 1)?;
    let (names, rest) = read_names(alloc, rest, 1)?;
    let (_, rest) = rest.token(Kind::CloseBrace, 1)?;
    Ok((names, rest))
}
