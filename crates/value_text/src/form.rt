//! Which values have a text.
ghost use Rattle.std.specs.Prelude.{◌↔◌, All, IsTrue};
ghost use Rattle.std.specs.List.Sorted.{IsStrictlySortedBy};
ghost use Rattle.flow_term.specs.declared.value.Value.{out-Value};
ghost use Rattle.flow_term.specs.Elements.{elem_cmp};
ghost use Rattle.flow_syntax.specs.Accepted.{IsIdentifier};
ghost use Rattle.value_text.specs.Texts.{HasElemText, HasText, HasValueText, IsPlain, IsPlainOrAround, keys};

use crate::identifier::is_identifier;
use crate::limits::{integer_is_in_range, steps_are_small, text_is_utf8};
use flow_term::{Elem, Entry, Value};

/// Whether the value has a text: sets and the keys of maps rise strictly, items are identifiers and no reserved words, and brackets nest at
/// most 16 deep. Takes no memory.
pub fn has_text(value: &Value) -> bool
    ensures { IsTrue result ↔ HasText value.now }
{
    value_has_text(16, value)
}

/// Whether the elements rise strictly. Takes no memory.
pub fn elems_rise(elems: &[Elem]) -> bool
    ensures { IsTrue result ↔ IsStrictlySortedBy elem_cmp elems.now }
{
    elems.is_sorted_by(|a, b| a.cmp(b).is_lt())
}

/// Whether the keys rise strictly. Takes no memory.
pub fn keys_rise(entries: &[Entry]) -> bool
    ensures { IsTrue result ↔ IsStrictlySortedBy elem_cmp (keys entries.now) }
{
    entries.is_sorted_by(|a, b| a.key.cmp(&b.key).is_lt())
}

/// Whether the element has a text, in which brackets nest at most so deep.
fn elem_has_text(nesting: usize, elem: &Elem) -> bool
    ensures { IsTrue result ↔ HasElemText nesting elem.now }
{
    match elem {
        Elem::Name(text) | Elem::Str(text) => {
            text_is_utf8(text);
            true
        }
        Elem::Pos(path) => {
            steps_are_small(path);
            true
        }
        Elem::Item(text) => is_identifier(text),
        Elem::Int(number) => {
            integer_is_in_range(*number);
            true
        }
        Elem::Pair(left, right) => {
            if nesting == 0 {
                return false;
            }
            elem_has_text(nesting - 1, left.get()) && elem_has_text(nesting - 1, right.get())
        }
    }
}

fn elems_have_text(nesting: usize, elems: &[Elem]) -> bool
    ensures { IsTrue result ↔ All (HasElemText nesting) elems.now }
{
    elems.iter().all(|elem| elem_has_text(nesting, elem))
}

/// Whether the value has a text without brackets.
fn is_plain(value: &Value) -> bool
    ensures { IsTrue result ↔ IsPlain (out-Value value.now) }
{
    match value {
        Value::Unreached | Value::Bottom | Value::Top => true,
        Value::Item(text) => is_identifier(text),
        _ => false,
    }
}

/// Whether the value has a text, in which brackets nest at most so deep.
#[cycle(form)]
fn value_has_text(nesting: usize, value: &Value) -> bool
    ensures { IsTrue result ↔ HasValueText nesting value.now }
{
    if nesting == 0 {
        return is_plain(value);
    }
    parts_have_text(nesting - 1, value)
}

/// Whether the value has a text, in whose parts brackets nest at most so deep.
#[cycle(form)]
fn parts_have_text(nesting: usize, value: &Value) -> bool
    ensures { IsTrue result ↔ IsPlainOrAround (HasElemText nesting) (HasValueText nesting) (out-Value value.now) }
{
    match value {
        Value::Set(elems) => elems_rise(elems.as_slice())
            && elems_have_text(nesting, elems.as_slice()),
        Value::Flat(elem) => elem_has_text(nesting, elem),
        Value::Map(entries) => keys_rise(entries.as_slice())
            && entries_have_text(nesting, entries.as_slice()),
        Value::Pair(left, right) => value_has_text(nesting, left.get())
            && value_has_text(nesting, right.get()),
        _ => is_plain(value),
    }
}

#[cycle(form)]
fn entries_have_text(nesting: usize, entries: &[Entry]) -> bool
    ensures { IsTrue result ↔ All (λ entry. HasElemText nesting entry.key × HasValueText nesting entry.value) entries.now }
{
    for entry in entries {
        if !elem_has_text(nesting, &entry.key) || !value_has_text(nesting, &entry.value) {
            return false;
        }
    }
    true
}
