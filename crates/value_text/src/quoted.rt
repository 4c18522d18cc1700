//! Texts between quotes.
ghost use Rattle.std.specs.Prelude.{◌≡◌, ◌+◌, ◌<◌, ◌≤◌, IfOk, length};
ghost use Rattle.quoted_text.specs.Spellings.{byte_text};
ghost use Rattle.value_text.specs.inner.Reading.{Gives, all_until, behind, escape_of, long_of, octal_at, part_of, quoted_of, spelled};

use crate::bytes::{Reading, begins_with, behind, behind_first, made_text};
use crate::refusal::ValueRefusal;
use flow_term::{List, Text};
use quoted_text::{Spelling, octal_byte, short_escape};
use std::alloc::Global;

fn read_octal(bytes: &[u8]) -> Reading<'_, u8>
    ensures read { Gives (λ x. (x.0, x.1.now)) result (octal_at bytes.now) }
    ensures shorter { IfOk result (λ x. length x.1.now < length bytes.now) }
{
    match bytes {
        [high, middle, low, rest @ ..] => match octal_byte(*high, *middle, *low) {
            Some(byte) => Ok((byte, rest)),
            None => Err(ValueRefusal::Form),
        },
        _ => Err(ValueRefusal::Form),
    }
}

/// What stands behind a backslash and isn't a short escape: three octal digits, or a byte for itself.
fn read_long(bytes: &[u8]) -> Reading<'_, u8>
    ensures read { Gives (λ x. (x.0, x.1.now)) result (long_of bytes.now) }
    ensures shorter { IfOk result (λ x. length x.1.now < length bytes.now) }
{
    match bytes {
        [] => Err(ValueRefusal::Form),
        [b'0'..=b'9', ..] => read_octal(bytes),
        [byte, rest @ ..] => Ok((*byte, rest)),
    }
}

/// The byte that stands behind a backslash, or that it stands for.
fn read_escape(bytes: &[u8]) -> Reading<'_, u8>
    ensures read { Gives (λ x. (x.0, x.1.now)) result (escape_of bytes.now) }
    ensures shorter { IfOk result (λ x. length x.1.now < length bytes.now) }
{
    match bytes {
        [] => Err(ValueRefusal::Form),
        [byte, rest @ ..] => match short_escape(*byte) {
            Some(value) => Ok((value, rest)),
            None => read_long(bytes),
        },
    }
}

/// The byte that the bytes begin with, or that their escape stands for.
fn read_spelled(bytes: &[u8]) -> Reading<'_, u8>
    ensures read { Gives (λ x. (x.0, x.1.now)) result (spelled bytes.now) }
    ensures shorter { IfOk result (λ x. length x.1.now < length bytes.now) }
{
    match bytes {
        [] => Err(ValueRefusal::Form),
        [b'\\', rest @ ..] => read_escape(rest),
        [byte, rest @ ..] => Ok((*byte, rest)),
    }
}

/// What stands behind the one spelling of a byte between quotes of this kind.
fn behind_byte(quote: u8, byte: u8, bytes: &[u8]) -> Result<&[u8], ValueRefusal>
    ensures read { Gives (λ x. x.now) result (behind (byte_text quote byte) bytes.now) }
    ensures shorter { IfOk result (λ rest. length rest.now + length (byte_text quote byte) ≤ length bytes.now) }
{
    behind(bytes, Spelling::of(quote, byte).as_slice())
}

/// The byte whose one spelling between quotes of this kind stands in front.
fn read_part(quote: u8, bytes: &[u8]) -> Reading<'_, u8>
    ensures read { Gives (λ x. (x.0, x.1.now)) result (part_of quote bytes.now) }
    ensures shorter { IfOk result (λ x. length x.1.now < length bytes.now) }
{
    let (byte, _) = read_spelled(bytes)?;
    Ok((byte, behind_byte(quote, byte, bytes)?))
}

/// What stands before a quote of this kind, and what behind it.
fn read_parts(alloc: Global, quote: u8, bytes: &[u8]) -> Reading<'_, List<u8>>
    ensures read { Gives (λ x. (x.0, x.1.now)) result (all_until quote (part_of quote) bytes.now) }
    ensures shorter { IfOk result (λ x. length x.1.now < length bytes.now) }
{
    let mut parts = List::new(alloc);
    let mut rest = bytes;
    while !begins_with(rest, quote) {
        let (byte, after) = read_part(quote, rest)?;
        parts.push(byte)?;
        rest = after;
    }
    Ok((parts, behind_first(rest)))
}

/// The text before a quote of this kind, and what stands behind the quote.
#[tactic(auto, unfolding(crate::specs::inner::Reading::quoted_of))]
pub fn read_quoted(alloc: Global, quote: u8, bytes: &[u8]) -> Reading<'_, Text>
    ensures read { Gives (λ x. (x.0, x.1.now)) result (quoted_of quote bytes.now) }
    ensures shorter { IfOk result (λ x. length x.1.now < length bytes.now) }
{
    let (parts, rest) = read_parts(alloc, quote, bytes)?;
    Ok((made_text(parts)?, rest))
}
