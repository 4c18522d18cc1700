//! How one declaration of a section is read.
ghost use Rattle.std.specs.Prelude.{◌≡◌, map};
ghost use Rattle.flow_parse.specs.Declarations.{SymbolOf, begins_as, reads_one, the_symbol};
ghost use Rattle.spec_grammar.specs.Kinds.{code_of};
ghost use Rattle.spec_grammar.specs.Symbols.{AControlRule, AFunction, AMessage, AProperty, ARule, ATable, AnEnum};
ghost use Rattle.spec_grammar.specs.Gives.{Gives};

use crate::message::read_message;
use crate::rule::read_rule;
use flow_syntax::{EnumDecl, FlowRule, FunctionDecl, Message, PropDecl, PropRule, TableDecl};
use parse_decls::{read_enum, read_function, read_property, read_table};
use parse_rules::read_control_rule;
use spec_grammar::{Cursor, Kind, Read};
use std::alloc::Global;

/// What a section declares.
pub trait Declaration: Drop {
    ghost symbol: { SymbolOf Self };

    /// The kinds of token with which a declaration begins.
    fn beginnings() -> &'static [Kind]
        ensures { map code_of result.now ≡ begins_as symbol };

    /// One declaration.
    fn read<'a>(alloc: Global, cursor: Cursor<'a>) -> Read<'a, Self>
        ensures { Gives (λ x. (x.0, x.1.tokens.now)) result (reads_one symbol cursor.entry.tokens.now) };
}

impl Declaration for EnumDecl {
    ghost symbol = { the_symbol AnEnum };

    fn beginnings() -> &'static [Kind] {
        &[Kind::Identifier]
    }

    fn read<'a>(alloc: Global, cursor: Cursor<'a>) -> Read<'a, EnumDecl> {
        read_enum(alloc, cursor)
    }
}

impl Declaration for TableDecl {
    ghost symbol = { the_symbol ATable };

    fn beginnings() -> &'static [Kind] {
        &[Kind::Identifier]
    }

    fn read<'a>(alloc: Global, cursor: Cursor<'a>) -> Read<'a, TableDecl> {
        read_table(alloc, cursor)
    }
}

impl Declaration for FunctionDecl {
    ghost symbol = { the_symbol AFunction };

    fn beginnings() -> &'static [Kind] {
        &[Kind::Identifier]
    }

    fn read<'a>(alloc: Global, cursor: Cursor<'a>) -> Read<'a, FunctionDecl> {
        read_function(alloc, cursor)
    }
}

impl Declaration for FlowRule {
    ghost symbol = { the_symbol AControlRule };

    fn beginnings() -> &'static [Kind] {
        &[Kind::Node, Kind::Root, Kind::Identifier, Kind::Quoted]
    }

    fn read<'a>(alloc: Global, cursor: Cursor<'a>) -> Read<'a, FlowRule> {
        read_control_rule(alloc, cursor, 0)
    }
}

impl Declaration for PropDecl {
    ghost symbol = { the_symbol AProperty };

    fn beginnings() -> &'static [Kind] {
        &[Kind::Identifier]
    }

    fn read<'a>(alloc: Global, cursor: Cursor<'a>) -> Read<'a, PropDecl> {
        read_property(alloc, cursor)
    }
}

impl Declaration for PropRule {
    ghost symbol = { the_symbol ARule };

    fn beginnings() -> &'static [Kind] {
        &[Kind::Identifier]
    }

    fn read<'a>(alloc: Global, cursor: Cursor<'a>) -> Read<'a, PropRule> {
        read_rule(alloc, cursor)
    }
}

impl Declaration for Message {
    ghost symbol = { the_symbol AMessage };

    fn beginnings() -> &'static [Kind] {
        &[Kind::Error, Kind::Warning, Kind::Note]
    }

    fn read<'a>(alloc: Global, cursor: Cursor<'a>) -> Read<'a, Message> {
        read_message(alloc, cursor)
    }
}
