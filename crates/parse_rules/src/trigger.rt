ghost use Rattle.std.specs.Prelude.{◌≡◌, ◌≤◌, ◌∷◌, []};
ghost use Rattle.spec_grammar.specs.Reading.{reads, reads_as};
ghost use Rattle.spec_grammar.specs.Rules.{after_trigger, trigger_after};
ghost use Rattle.spec_grammar.specs.Symbols.{ATrigger};
ghost use Rattle.spec_grammar.specs.Gives.{Gives};
ghost use Rattle.parse_rules.specs.inner.Rules.{forward_of, forward_trigger, other_of, other_trigger};

use crate::kinds::TRIGGERS;
use crate::pattern::read_pattern;
use flow_syntax::{Pattern, Trigger};
use spec_grammar::{Cursor, Kind, LIMIT, Read};
use std::alloc::Global;

/// The trigger of a rule of a property: the pattern, and which neighbours the rule reads or whether it's for start or end nodes.
pub fn read_trigger<'a>(alloc: Global, cursor: Cursor<'a>, nesting: u64) -> Read<'a, Trigger>
    requires { nesting ≤ 257 }
    ensures { Gives (λ x. (x.0, x.1.tokens.now)) result (reads nesting ATrigger cursor.entry.tokens.now) }
{
    if nesting > LIMIT {
        return Err(cursor.too_deep(&TRIGGERS));
    }
    if cursor.begins(Kind::Prev) {
        return read_forward_trigger(alloc, cursor, nesting);
    }
    read_other_trigger(alloc, cursor, nesting)
}

/// A trigger that begins with its pattern.
fn read_other_trigger<'a>(alloc: Global, cursor: Cursor<'a>, nesting: u64) -> Read<'a, Trigger>
    requires { nesting ≤ 256 }
    ensures { Gives (λ x. (x.0, x.1.tokens.now)) result (reads_as nesting other_trigger other_of cursor.entry.tokens.now) }
{
    let (pattern, rest) = read_pattern(alloc, cursor, nesting)?;
    read_after_pattern(pattern, rest, nesting)
}

/// The trigger of a rule that reads predecessors.
fn read_forward_trigger<'a>(alloc: Global, cursor: Cursor<'a>, nesting: u64) -> Read<'a, Trigger>
    requires { nesting ≤ 256 }
    ensures { Gives (λ x. (x.0, x.1.tokens.now)) result (reads_as nesting forward_trigger forward_of cursor.entry.tokens.now) }
{
    let (_, rest) = cursor.token(Kind::Prev, nesting)?;
    let (_, rest) = rest.token(Kind::Arrow, nesting)?;
    let (pattern, rest) = read_pattern(alloc, rest, nesting)?;
    Ok((Trigger::Forward(pattern), rest))
}

/// The trigger that this pattern makes with what follows it.
fn read_after_pattern<'a>(pattern: Pattern, cursor: Cursor<'a>, nesting: u64) -> Read<'a, Trigger>
    ensures { Gives (λ x. (x.0, x.1.tokens.now)) result (reads_as nesting after_trigger (trigger_after pattern) cursor.entry.tokens.now) }
{
    if cursor.begins(Kind::Arrow) {
        let (_, rest) = cursor.token(Kind::Arrow, nesting)?;
        let (_, rest) = rest.token(Kind::Next, nesting)?;
        return Ok((Trigger::Backward(pattern), rest));
    }
    let (_, rest) = cursor.token(Kind::Dot, nesting)?;
    let (_, kind, rest) = rest.any_token(&[Kind::Start, Kind::End], nesting)?;
    let trigger = match kind {
        Kind::Start => Trigger::AtStart(pattern),
        _ => Trigger::AtEnd(pattern),
    };
    Ok((trigger, rest))
}
