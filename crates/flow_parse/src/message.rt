//! Messages.
ghost use Rattle.std.specs.Prelude.{◌≡◌, ◌∷◌, [], IfOk, map};
ghost use Rattle.spec_grammar.proofs.Unrolled.{reads_more};
ghost use Rattle.spec_grammar.specs.Kinds.{code_of, kind_of};
ghost use Rattle.spec_grammar.specs.Reading.{reads, reads_as};
ghost use Rattle.spec_grammar.specs.Rules.{level_of, message_parts, part_of};
ghost use Rattle.spec_grammar.specs.Symbols.{AMessage};
ghost use Rattle.spec_grammar.specs.Gives.{Gives};
ghost use Rattle.flow_parse.specs.inner.Parts.{further_part, part_behind, parts_of};

use flow_syntax::{Level, Message, Part, Token};
use flow_term::List;
use parse_exprs::condition;
use parse_rules::read_pattern;
use spec_grammar::{Cursor, Kind, Read, named, text_of};
use std::alloc::{AllocError, Global};

/// What the word of a level stands for, by its kind.
fn level_of(token: &Token, kind: Kind) -> Level
    requires { kind_of token.now ≡ code_of kind }
    ensures { result ≡ level_of token.now }
{
    if kind.is(Kind::Error) {
        return Level::Error;
    }
    if kind.is(Kind::Warning) {
        return Level::Warning;
    }
    Level::Note
}

/// A part of a message's words: a text as it is, or a variable.
fn part_of(alloc: Global, token: &Token, kind: Kind) -> Result<Part, AllocError>
    requires { kind_of token.now ≡ code_of kind }
    ensures { IfOk result (λ part. part ≡ part_of token.now) }
{
    if kind.is(Kind::Quoted) {
        return Ok(Part::Words(text_of(alloc, token)?));
    }
    Ok(Part::Bound(named(alloc, token)?))
}

/// Parts of a message, with commas between them.
fn read_parts(alloc: Global, cursor: Cursor<'_>) -> Read<'_, List<Part>>
    ensures { Gives (λ x. (x.0, x.1.tokens.now)) result (reads_as 0 message_parts parts_of cursor.entry.tokens.now) }
{
    let (first, kind, rest) = cursor.any_token(&[Kind::Quoted, Kind::Identifier], 0)?;
    let mut parts = List::new(alloc);
    let part = part_of(alloc, first, kind)?;
    parts.push(part)?;
    read_more_parts(alloc, parts, rest)
}

/// These parts and further ones, each behind a comma.
fn read_more_parts(alloc: Global, mut parts: List<Part>, cursor: Cursor<'_>) -> Read<'_, List<Part>>
    ensures { Gives (λ x. (x.0, x.1.tokens.now)) result (reads_more 0 further_part part_behind parts cursor.entry.tokens.now) }
{
    let mut rest = cursor;
    while rest.begins(Kind::Comma) {
        let (_, after) = rest.token(Kind::Comma, 0)?;
        let (token, kind, after) = after.any_token(&[Kind::Quoted, Kind::Identifier], 0)?;
        let part = part_of(alloc, token, kind)?;
        parts.push(part)?;
        rest = after;
    }
    Ok((parts, rest))
}

/// A message: its level, its parts, its pattern, and perhaps a condition.
pub fn read_message(alloc: Global, cursor: Cursor<'_>) -> Read<'_, Message>
    ensures { Gives (λ x. (x.0, x.1.tokens.now)) result (reads 0 AMessage cursor.entry.tokens.now) }
{
    let (word, kind, rest) = cursor.any_token(&[Kind::Error, Kind::Warning, Kind::Note], 0)?;
    let (parts, rest) = read_parts(alloc, rest)?;
    let (_, rest) = rest.token(Kind::On, 0)?;
    let (pattern, rest) = read_pattern(alloc, rest, 0)?;
    let (condition, rest) = condition(alloc, rest, 0)?;
    let message = Message {
        place: word.place,
        level: level_of(word, kind),
        parts,
        pattern,
        condition,
    };
    Ok((message, rest))
}
