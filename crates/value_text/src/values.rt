//! Reading values.
ghost use Rattle.std.specs.Prelude.{◌≡◌, ◌<◌, ◌≤◌, IfOk, length, codes};
ghost use Rattle.flow_term.specs.declared.value.Value.TheVariants.{Pair};
ghost use Rattle.value_text.specs.inner.Reading.{Gives, all_listed, elem_below, entry_with, flat_with, map_with, pair_with, plain_value, set_with, value_below, value_with, word_with};

use crate::bytes::{Reading, begins_with, behind, behind_first, next_part, read_token};
use crate::elems::{read_elem_below, read_elems};
use crate::form::{elems_rise, keys_rise};
use crate::identifier::item_of;
use crate::refusal::ValueRefusal;
use flow_term::{Boxed, Entry, List, Value};
use std::alloc::Global;

/// An element in a flat lattice, behind its word.
#[tactic(auto, unfolding(crate::specs::inner::Reading::flat_with))]
fn read_flat(alloc: Global, nesting: usize, bytes: &[u8]) -> Reading<'_, Value>
    ensures read { Gives (λ x. (x.0, x.1.now)) result (flat_with (elem_below nesting) bytes.now) }
    ensures shorter { IfOk result (λ x. length x.1.now < length bytes.now) }
{
    let rest = behind(bytes, b"(".as_slice())?;
    let (elem, rest) = read_elem_below(alloc, nesting, rest)?;
    let rest = behind(rest, b")".as_slice())?;
    Ok((Value::Flat(elem), rest))
}

/// The value that begins with a word.
fn read_word<'a>(alloc: Global, nesting: usize, word: &[u8], rest: &'a [u8]) -> Reading<'a, Value>
    ensures read { Gives (λ x. (x.0, x.1.now)) result (word_with (elem_below nesting) word.now rest.now) }
    ensures shorter { IfOk result (λ x. length x.1.now ≤ length rest.now) }
{
    if word == b"unreached".as_slice() {
        return Ok((Value::Unreached, rest));
    }
    if word == b"bottom".as_slice() {
        return Ok((Value::Bottom, rest));
    }
    if word == b"top".as_slice() {
        return Ok((Value::Top, rest));
    }
    if word == b"flat".as_slice() {
        return read_flat(alloc, nesting, rest);
    }
    Ok((Value::Item(item_of(alloc, word)?), rest))
}

/// A value that begins with no bracket.
#[tactic(auto, unfolding(crate::specs::inner::Reading::plain_value))]
fn read_plain(alloc: Global, nesting: usize, bytes: &[u8]) -> Reading<'_, Value>
    ensures read { Gives (λ x. (x.0, x.1.now)) result (plain_value (elem_below nesting) bytes.now) }
    ensures shorter { IfOk result (λ x. length x.1.now < length bytes.now) }
{
    let (word, rest) = read_token(bytes)?;
    read_word(alloc, nesting, word, rest)
}

/// A set, behind its opening bracket, where brackets may nest so deep.
#[tactic(auto, unfolding(crate::specs::inner::Reading::set_with))]
fn read_set(alloc: Global, nesting: usize, bytes: &[u8]) -> Reading<'_, Value>
    ensures read { Gives (λ x. (x.0, x.1.now)) result (set_with nesting (elem_below nesting) bytes.now) }
    ensures shorter { IfOk result (λ x. length x.1.now < length bytes.now) }
{
    if nesting == 0 {
        return Err(ValueRefusal::Form);
    }
    let (elems, rest) = read_elems(alloc, nesting, bytes)?;
    if !elems_rise(elems.as_slice()) {
        return Err(ValueRefusal::Form);
    }
    Ok((Value::Set(elems), rest))
}

/// The value that the bytes begin with, in which brackets may nest so deep.
#[cycle(value)]
#[tactic(auto, unfolding(crate::specs::inner::Reading::value_with))]
pub fn read_any(alloc: Global, nesting: usize, bytes: &[u8]) -> Reading<'_, Value>
    ensures read { Gives (λ x. (x.0, x.1.now)) result (value_with nesting (elem_below nesting) (value_below nesting) bytes.now) }
    ensures shorter { IfOk result (λ x. length x.1.now < length bytes.now) }
{
    match bytes {
        [b'{', rest @ ..] => read_set(alloc, nesting, rest),
        [b'[', rest @ ..] => read_map(alloc, nesting, rest),
        [b'(', rest @ ..] => read_pair(alloc, nesting, rest),
        _ => read_plain(alloc, nesting, bytes),
    }
}

/// A value inside brackets, of which so many pairs are allowed.
#[cycle(value)]
fn read_any_below(alloc: Global, nesting: usize, bytes: &[u8]) -> Reading<'_, Value>
    ensures read { Gives (λ x. (x.0, x.1.now)) result (value_below nesting bytes.now) }
    ensures shorter { IfOk result (λ x. length x.1.now < length bytes.now) }
{
    if nesting == 0 {
        return Err(ValueRefusal::Form);
    }
    read_any(alloc, nesting - 1, bytes)
}

/// A pair, behind its opening bracket.
#[cycle(value)]
#[tactic(auto, unfolding(crate::specs::inner::Reading::pair_with))]
fn read_pair(alloc: Global, nesting: usize, bytes: &[u8]) -> Reading<'_, Value>
    ensures read { Gives (λ x. (x.0, x.1.now)) result (pair_with Pair (value_below nesting) bytes.now) }
    ensures shorter { IfOk result (λ x. length x.1.now < length bytes.now) }
{
    let (left, rest) = read_any_below(alloc, nesting, bytes)?;
    let rest = behind(rest, b", ".as_slice())?;
    let (right, rest) = read_any_below(alloc, nesting, rest)?;
    let rest = behind(rest, b")".as_slice())?;
    let pair = Value::Pair(Boxed::new(alloc, left)?, Boxed::new(alloc, right)?);
    Ok((pair, rest))
}

/// A key and its value.
#[cycle(value)]
#[tactic(auto, unfolding(crate::specs::inner::Reading::entry_with))]
fn read_entry(alloc: Global, nesting: usize, bytes: &[u8]) -> Reading<'_, Entry>
    ensures read { Gives (λ x. (x.0, x.1.now)) result (entry_with (elem_below nesting) (value_below nesting) bytes.now) }
    ensures shorter { IfOk result (λ x. length x.1.now < length bytes.now) }
{
    let (key, rest) = read_elem_below(alloc, nesting, bytes)?;
    let rest = behind(rest, b" |-> ".as_slice())?;
    let (value, rest) = read_any_below(alloc, nesting, rest)?;
    Ok((Entry { key, value }, rest))
}

/// A map, behind its opening bracket, where brackets may nest so deep.
#[cycle(value)]
#[tactic(auto, unfolding(crate::specs::inner::Reading::map_with))]
fn read_map(alloc: Global, nesting: usize, bytes: &[u8]) -> Reading<'_, Value>
    ensures read { Gives (λ x. (x.0, x.1.now)) result (map_with nesting (elem_below nesting) (value_below nesting) bytes.now) }
    ensures shorter { IfOk result (λ x. length x.1.now < length bytes.now) }
{
    if nesting == 0 {
        return Err(ValueRefusal::Form);
    }
    let (entries, rest) = read_entries(alloc, nesting, bytes)?;
    if !keys_rise(entries.as_slice()) {
        return Err(ValueRefusal::Form);
    }
    Ok((Value::Map(entries), rest))
}

/// The entries before a closing bracket, and what stands behind it.
#[cycle(value)]
fn read_entries(alloc: Global, nesting: usize, bytes: &[u8]) -> Reading<'_, List<Entry>>
    ensures read { Gives (λ x. (x.0, x.1.now)) result (all_listed 93 (entry_with (elem_below nesting) (value_below nesting)) bytes.now) }
    ensures shorter { IfOk result (λ x. length x.1.now < length bytes.now) }
{
    let mut entries = List::new(alloc);
    let mut rest = bytes;
    while !begins_with(rest, b']') {
        let (entry, after) = read_entry(alloc, nesting, rest)?;
        entries.push(entry)?;
        rest = next_part(after, b']')?;
    }
    Ok((entries, behind_first(rest)))
}
