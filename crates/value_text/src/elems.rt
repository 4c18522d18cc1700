//! Reading elements.
ghost use Rattle.std.specs.Prelude.{◌≡◌, ◌<◌, ◌≤◌, IfOk, length, codes};
ghost use Rattle.flow_term.specs.declared.elem.Elem.TheVariants.{Pair};
ghost use Rattle.value_text.specs.inner.Reading.{Gives, all_listed, decimal_of, elem_below, elem_with, integer_of, pair_with, path_of, plain_elem, token_elem};

use crate::bytes::{Reading, begins_with, behind, behind_first, next_part, read_token};
use crate::identifier::item_of;
use crate::limits::steps_are_small;
use crate::quoted::read_quoted;
use crate::refusal::ValueRefusal;
use flow_term::{Boxed, Elem, List, Path, read_path};
use itoa::Buffer;
use std::alloc::Global;

/// The integer of these bytes.
#[tactic(auto, unfolding(crate::specs::inner::Reading::integer_of))]
fn integer_of(bytes: &[u8]) -> Result<i64, ValueRefusal>
    ensures { Gives (λ n. n) result (integer_of bytes.now) }
{
    let Ok(text) = str::from_utf8(bytes) else {
        return Err(ValueRefusal::Form);
    };
    match text.parse::<i64>() {
        Ok(number) => Ok(number),
        Err(_) => Err(ValueRefusal::Form),
    }
}

/// The integer of which these bytes are the decimal.
#[tactic(auto, unfolding(crate::specs::inner::Reading::decimal_of))]
fn decimal_of(bytes: &[u8]) -> Result<i64, ValueRefusal>
    ensures { Gives (λ n. n) result (decimal_of bytes.now) }
{
    let number = integer_of(bytes)?;
    let mut buffer = Buffer::new();
    if buffer.format(number).as_bytes() != bytes {
        return Err(ValueRefusal::Form);
    }
    Ok(number)
}

fn path_of(alloc: Global, bytes: &[u8]) -> Result<Path, ValueRefusal>
    ensures { Gives (λ path. path) result (path_of bytes.now) }
{
    let path = read_path(alloc, bytes)?;
    steps_are_small(&path);
    Ok(path)
}

/// The position, integer or item of these bytes.
fn token_elem(alloc: Global, token: &[u8]) -> Result<Elem, ValueRefusal>
    ensures { Gives (λ elem. elem) result (token_elem token.now) }
{
    match token {
        [b'/', ..] => Ok(Elem::Pos(path_of(alloc, token)?)),
        [b'-' | b'0'..=b'9', ..] => Ok(Elem::Int(decimal_of(token)?)),
        _ => Ok(Elem::Item(item_of(alloc, token)?)),
    }
}

/// The position, integer or item that the bytes begin with.
#[tactic(auto, unfolding(crate::specs::inner::Reading::plain_elem))]
fn read_plain(alloc: Global, bytes: &[u8]) -> Reading<'_, Elem>
    ensures read { Gives (λ x. (x.0, x.1.now)) result (plain_elem bytes.now) }
    ensures shorter { IfOk result (λ x. length x.1.now < length bytes.now) }
{
    let (token, rest) = read_token(bytes)?;
    Ok((token_elem(alloc, token)?, rest))
}

/// The element that the bytes begin with, with at most so many pairs of brackets round its parts.
#[cycle(elem)]
#[tactic(auto, unfolding(crate::specs::inner::Reading::elem_with))]
pub fn read_elem(alloc: Global, nesting: usize, bytes: &[u8]) -> Reading<'_, Elem>
    ensures read { Gives (λ x. (x.0, x.1.now)) result (elem_with (elem_below nesting) bytes.now) }
    ensures shorter { IfOk result (λ x. length x.1.now < length bytes.now) }
{
    match bytes {
        [b'"', rest @ ..] => {
            let (text, rest) = read_quoted(alloc, b'"', rest)?;
            Ok((Elem::Name(text), rest))
        }
        [b'\'', rest @ ..] => {
            let (text, rest) = read_quoted(alloc, b'\'', rest)?;
            Ok((Elem::Str(text), rest))
        }
        [b'(', rest @ ..] => read_pair(alloc, nesting, rest),
        _ => read_plain(alloc, bytes),
    }
}

/// An element inside brackets, of which so many pairs are allowed.
#[cycle(elem)]
pub fn read_elem_below(alloc: Global, nesting: usize, bytes: &[u8]) -> Reading<'_, Elem>
    ensures read { Gives (λ x. (x.0, x.1.now)) result (elem_below nesting bytes.now) }
    ensures shorter { IfOk result (λ x. length x.1.now < length bytes.now) }
{
    if nesting == 0 {
        return Err(ValueRefusal::Form);
    }
    read_elem(alloc, nesting - 1, bytes)
}

/// A pair, behind its opening bracket.
#[cycle(elem)]
#[tactic(auto, unfolding(crate::specs::inner::Reading::pair_with))]
fn read_pair(alloc: Global, nesting: usize, bytes: &[u8]) -> Reading<'_, Elem>
    ensures read { Gives (λ x. (x.0, x.1.now)) result (pair_with Pair (elem_below nesting) bytes.now) }
    ensures shorter { IfOk result (λ x. length x.1.now < length bytes.now) }
{
    let (left, rest) = read_elem_below(alloc, nesting, bytes)?;
    let rest = behind(rest, b", ".as_slice())?;
    let (right, rest) = read_elem_below(alloc, nesting, rest)?;
    let rest = behind(rest, b")".as_slice())?;
    let pair = Elem::Pair(Boxed::new(alloc, left)?, Boxed::new(alloc, right)?);
    Ok((pair, rest))
}

/// The elements before a closing brace, and what stands behind it.
pub fn read_elems(alloc: Global, nesting: usize, bytes: &[u8]) -> Reading<'_, List<Elem>>
    ensures read { Gives (λ x. (x.0, x.1.now)) result (all_listed 125 (elem_below nesting) bytes.now) }
    ensures shorter { IfOk result (λ x. length x.1.now < length bytes.now) }
{
    let mut elems = List::new(alloc);
    let mut rest = bytes;
    while !begins_with(rest, b'}') {
        let (elem, after) = read_elem_below(alloc, nesting, rest)?;
        elems.push(elem)?;
        rest = next_part(after, b'}')?;
    }
    Ok((elems, behind_first(rest)))
}
