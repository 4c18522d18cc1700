//! The sections of a specification that hold declarations: a word, and none or more of them. A section that is left out is empty.
ghost use Rattle.std.specs.Prelude.{[]};
ghost use Rattle.flow_parse.specs.Declarations.{reads_further, reads_optional_section, reads_section};
ghost use Rattle.grammar_theory.specs.Texts.{Optional, Symbol};
ghost use Rattle.spec_grammar.specs.Reading.{reads_as, reads_part};
ghost use Rattle.spec_grammar.specs.Symbols.{AControlRule, AFunction, AMessage, AProperty, ARule, ASignature, ATable, AnEnum};
ghost use Rattle.spec_grammar.specs.Whole.{section, section_of};
ghost use Rattle.spec_grammar.specs.declared.kind.Kind.TheVariants as kinds;
ghost use Rattle.spec_grammar.specs.Gives.{Gives};

use crate::declaration::Declaration;
use flow_syntax::{
    EnumDecl, FlowRule, FunctionDecl, Message, PropDecl, PropRule, Signature, TableDecl,
};
use flow_term::List;
use parse_decls::read_signature;
use spec_grammar::{Cursor, Kind, Read};
use std::alloc::Global;

/// The signature, if there is one.
pub fn signature(alloc: Global, cursor: Cursor<'_>) -> Read<'_, Option<Signature>>
    ensures { Gives (λ x. (x.0, x.1.tokens.now)) result (reads_part 0 (Optional (Symbol ASignature)) cursor.entry.tokens.now) }
{
    if !cursor.begins(Kind::Signature) {
        return Ok((None, cursor));
    }
    let (signature, rest) = read_signature(alloc, cursor)?;
    Ok((Some(signature), rest))
}

/// The control rules.
pub fn control(alloc: Global, cursor: Cursor<'_>) -> Read<'_, List<FlowRule>>
    ensures { Gives (λ x. (x.0, x.1.tokens.now)) result (reads_as 0 (section kinds.Control AControlRule) (λ x. x.1) cursor.entry.tokens.now) }
{
    read_section(alloc, cursor, Kind::Control)
}

/// Enums.
pub fn sorts(alloc: Global, cursor: Cursor<'_>) -> Read<'_, List<EnumDecl>>
    ensures { Gives (λ x. (x.0, x.1.tokens.now)) result (reads_as 0 (Optional (section kinds.Sorts AnEnum)) section_of cursor.entry.tokens.now) }
{
    read_optional_section(alloc, cursor, Kind::Sorts)
}

/// Lattices.
pub fn lattices(alloc: Global, cursor: Cursor<'_>) -> Read<'_, List<TableDecl>>
    ensures { Gives (λ x. (x.0, x.1.tokens.now)) result (reads_as 0 (Optional (section kinds.Lattices ATable)) section_of cursor.entry.tokens.now) }
{
    read_optional_section(alloc, cursor, Kind::Lattices)
}

/// Functions.
pub fn functions(alloc: Global, cursor: Cursor<'_>) -> Read<'_, List<FunctionDecl>>
    ensures { Gives (λ x. (x.0, x.1.tokens.now)) result (reads_as 0 (Optional (section kinds.Functions AFunction)) section_of cursor.entry.tokens.now) }
{
    read_optional_section(alloc, cursor, Kind::Functions)
}

/// Properties.
pub fn properties(alloc: Global, cursor: Cursor<'_>) -> Read<'_, List<PropDecl>>
    ensures { Gives (λ x. (x.0, x.1.tokens.now)) result (reads_as 0 (Optional (section kinds.Properties AProperty)) section_of cursor.entry.tokens.now) }
{
    read_optional_section(alloc, cursor, Kind::Properties)
}

/// Rules of properties.
pub fn rules(alloc: Global, cursor: Cursor<'_>) -> Read<'_, List<PropRule>>
    ensures { Gives (λ x. (x.0, x.1.tokens.now)) result (reads_as 0 (Optional (section kinds.Rules ARule)) section_of cursor.entry.tokens.now) }
{
    read_optional_section(alloc, cursor, Kind::Rules)
}

/// Messages.
pub fn messages(alloc: Global, cursor: Cursor<'_>) -> Read<'_, List<Message>>
    ensures { Gives (λ x. (x.0, x.1.tokens.now)) result (reads_as 0 (Optional (section kinds.Messages AMessage)) section_of cursor.entry.tokens.now) }
{
    read_optional_section(alloc, cursor, Kind::Messages)
}

/// A section that begins with this word, if there is one.
fn read_optional_section<D: Declaration>(
    alloc: Global,
    cursor: Cursor<'_>,
    word: Kind,
) -> Read<'_, List<D>>
    ensures { Gives (λ x. (x.0, x.1.tokens.now)) result (reads_optional_section D.symbol word cursor.entry.tokens.now) }
{
    if !cursor.begins(word) {
        return Ok((List::new(alloc), cursor));
    }
    read_section(alloc, cursor, word)
}

/// A section that begins with this word.
fn read_section<D: Declaration>(alloc: Global, cursor: Cursor<'_>, word: Kind) -> Read<'_, List<D>>
    ensures { Gives (λ x. (x.0, x.1.tokens.now)) result (reads_section D.symbol word cursor.entry.tokens.now) }
{
    let (_, rest) = cursor.token(word, 0)?;
    read_declarations(alloc, rest)
}

fn read_declarations<D: Declaration>(alloc: Global, cursor: Cursor<'_>) -> Read<'_, List<D>>
    ensures { Gives (λ x. (x.0, x.1.tokens.now)) result (reads_further D.symbol [] cursor.entry.tokens.now) }
{
    let beginnings = D::beginnings();
    let mut declared = List::new(alloc);
    let mut rest = cursor;
    while rest.begins_any(beginnings) {
        let (declaration, after) = D::read(alloc, rest)?;
        declared.push(declaration)?;
        rest = after;
    }
    Ok((declared, rest))
}
