ghost use Rattle.spec_grammar.specs.Gives.{Gives};
ghost use Rattle.parse_decls.specs.inner.Pieces.{reads_constructor_name, reads_items, reads_name, reads_names};

use flow_syntax::Named;
use flow_term::List;
use spec_grammar::{Cursor, Kind, Read, named};
use std::alloc::Global;

/// An identifier.
pub fn read_name(alloc: Global, cursor: Cursor<'_>, nesting: u64) -> Read<'_, Named>
    ensures { Gives (λ x. (x.0, x.1.tokens.now)) result (reads_name nesting cursor.entry.tokens.now) }
{
    let (token, rest) = cursor.token(Kind::Identifier, nesting)?;
    Ok((named(alloc, token)?, rest))
}

/// The name of a constructor: an identifier or a quoted text.
pub fn read_constructor_name(alloc: Global, cursor: Cursor<'_>, nesting: u64) -> Read<'_, Named>
    ensures { Gives (λ x. (x.0, x.1.tokens.now)) result (reads_constructor_name nesting cursor.entry.tokens.now) }
{
    let (token, _, rest) = cursor.any_token(&[Kind::Identifier, Kind::Quoted], nesting)?;
    Ok((named(alloc, token)?, rest))
}

/// One identifier or more, up to the first token that is none.
pub fn read_names(alloc: Global, cursor: Cursor<'_>, nesting: u64) -> Read<'_, List<Named>>
    ensures { Gives (λ x. (x.0, x.1.tokens.now)) result (reads_names nesting cursor.entry.tokens.now) }
{
    let (first, mut rest) = read_name(alloc, cursor, nesting)?;
    let mut names = List::new(alloc);
    names.push(first)?;
    while rest.begins(Kind::Identifier) {
        let (name, after) = read_name(alloc, rest, nesting)?;
        names.push(name)?;
        rest = after;
    }
    Ok((names, rest))
}

/// One identifier or more, with a `|` between each two.
pub fn read_items(alloc: Global, cursor: Cursor<'_>, nesting: u64) -> Read<'_, List<Named>>
    ensures { Gives (λ x. (x.0, x.1.tokens.now)) result (reads_items nesting cursor.entry.tokens.now) }
{
    let (first, mut rest) = read_name(alloc, cursor, nesting)?;
    let mut items = List::new(alloc);
    items.push(first)?;
    while rest.begins(Kind::Bar) {
        let (_, after) = rest.token(Kind::Bar, nesting)?;
        let (item, after) = read_name(alloc, after, nesting)?;
        items.push(item)?;
        rest = after;
    }
    Ok((items, rest))
}
