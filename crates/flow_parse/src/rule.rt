//! Rules of properties.
ghost use Rattle.grammar_theory.specs.Texts.{Symbol};
ghost use Rattle.spec_grammar.specs.Expressions.{expr_after};
ghost use Rattle.spec_grammar.specs.Parts.{in_round, inside};
ghost use Rattle.spec_grammar.specs.Reading.{reads, reads_as};
ghost use Rattle.spec_grammar.specs.Symbols.{ARule, ATrigger};
ghost use Rattle.spec_grammar.specs.declared.kind.Kind.TheVariants as kinds;
ghost use Rattle.spec_grammar.specs.Gives.{Gives};

use flow_syntax::{Expr, PropRule, Trigger};
use parse_decls::read_name;
use parse_exprs::expr;
use parse_rules::read_trigger;
use spec_grammar::{Cursor, Kind, Read};
use std::alloc::Global;

/// A rule of a property: its name, its trigger in parentheses, an equals sign and its body.
pub fn read_rule(alloc: Global, cursor: Cursor<'_>) -> Read<'_, PropRule>
    ensures { Gives (λ x. (x.0, x.1.tokens.now)) result (reads 0 ARule cursor.entry.tokens.now) }
{
    let (property, rest) = read_name(alloc, cursor, 0)?;
    let (trigger, rest) = read_trigger_in_round(alloc, rest)?;
    let (body, rest) = read_body(alloc, rest)?;
    let rule = PropRule {
        property,
        trigger,
        body,
    };
    Ok((rule, rest))
}

/// An equals sign and an expression.
fn read_body(alloc: Global, cursor: Cursor<'_>) -> Read<'_, Expr>
    ensures { Gives (λ x. (x.0, x.1.tokens.now)) result (reads_as 0 (expr_after kinds.Is) (λ x. x.1) cursor.entry.tokens.now) }
{
    let (_, rest) = cursor.token(Kind::Is, 0)?;
    expr(alloc, rest, 0)
}

/// A trigger in parentheses.
fn read_trigger_in_round(alloc: Global, cursor: Cursor<'_>) -> Read<'_, Trigger>
    ensures { Gives (λ x. (x.0, x.1.tokens.now)) result (reads_as 0 (in_round (Symbol ATrigger)) inside cursor.entry.tokens.now) }
{
    let (_, rest) = cursor.token(Kind::OpenRound, 1)?;
    let (trigger, rest) = read_trigger(alloc, rest, 1)?;
    let (_, rest) = rest.token(Kind::CloseRound, 1)?;
    Ok((trigger, rest))
}
