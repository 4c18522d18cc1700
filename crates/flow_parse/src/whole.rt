//! Whole specifications.
ghost use Rattle.std.specs.Prelude.{◌≡◌};
ghost use Rattle.spec_grammar.specs.Parts.{named};
ghost use Rattle.spec_grammar.specs.Reading.{reads, reads_as};
ghost use Rattle.spec_grammar.specs.Symbols.{Whole};
ghost use Rattle.spec_grammar.specs.Whole.{sections_after_control, sections_after_sorts};
ghost use Rattle.spec_grammar.specs.Gives.{Gives};
ghost use Rattle.flow_parse.specs.inner.Parts.{body_of, module_name, spec_of, tail_of};

use crate::sections::{
    control, functions, lattices, messages, properties, rules, signature, sorts,
};
use flow_syntax::{
    EnumDecl, FlowRule, FunctionDecl, Message, Named, PropDecl, PropRule, Signature, Spec,
    TableDecl,
};
use flow_term::List;
use parse_decls::read_name;
use spec_grammar::{Cursor, Kind, Read};
use std::alloc::Global;

/// Properties, their rules and messages.
type Tail = (List<PropDecl>, (List<PropRule>, List<Message>));

/// Lattices, functions, control rules and what follows them.
type Body = (
    List<TableDecl>,
    (List<FunctionDecl>, (List<FlowRule>, Tail)),
);

/// The sections behind the control rules, up to the end of the text.
fn read_tail(alloc: Global, cursor: Cursor<'_>) -> Read<'_, Tail>
    ensures { Gives (λ x. (x.0, x.1.tokens.now)) result (reads_as 0 sections_after_control tail_of cursor.entry.tokens.now) }
{
    let (declared, rest) = properties(alloc, cursor)?;
    let (ruled, rest) = rules(alloc, rest)?;
    let (told, rest) = messages(alloc, rest)?;
    let (_, rest) = rest.token(Kind::EndOfText, 0)?;
    Ok(((declared, (ruled, told)), rest))
}

/// The sections behind the sorts.
fn read_body(alloc: Global, cursor: Cursor<'_>) -> Read<'_, Body>
    ensures { Gives (λ x. (x.0, x.1.tokens.now)) result (reads_as 0 sections_after_sorts body_of cursor.entry.tokens.now) }
{
    let (tables, rest) = lattices(alloc, cursor)?;
    let (mappings, rest) = functions(alloc, rest)?;
    let (flow, rest) = control(alloc, rest)?;
    let (tail, rest) = read_tail(alloc, rest)?;
    Ok(((tables, (mappings, (flow, tail))), rest))
}

/// The word `module` and a name.
fn read_module_name(alloc: Global, cursor: Cursor<'_>) -> Read<'_, Named>
    ensures { Gives (λ x. (x.0, x.1.tokens.now)) result (reads_as 0 module_name (λ x. named x.1) cursor.entry.tokens.now) }
{
    let (_, rest) = cursor.token(Kind::Module, 0)?;
    read_name(alloc, rest, 0)
}

/// A specification, up to the end of the text.
pub fn read_spec(alloc: Global, cursor: Cursor<'_>) -> Read<'_, Spec>
    ensures { Gives (λ x. (x.0, x.1.tokens.now)) result (reads 0 Whole cursor.entry.tokens.now) }
{
    let (name, rest) = read_module_name(alloc, cursor)?;
    let (signed, rest) = signature(alloc, rest)?;
    let (enums, rest) = sorts(alloc, rest)?;
    let (body, rest) = read_body(alloc, rest)?;
    Ok((spec_of(name, signed, enums, body), rest))
}

/// The specification that these parts are.
fn spec_of(name: Named, signed: Option<Signature>, enums: List<EnumDecl>, body: Body) -> Spec
    ensures { result ≡ spec_of name signed enums body }
{
    let (lattices, (functions, (control, (properties, (rules, messages))))) = body;
    Spec {
        name,
        signature: signed,
        enums,
        lattices,
        functions,
        control,
        properties,
        rules,
        messages,
    }
}
