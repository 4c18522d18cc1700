//! Equality of values. Nothing here takes memory.
ghost use Rattle.std.specs.Prelude.{◌≡◌, ◌↔◌, IsTrue};

use crate::parts::is_same;
use flow_term::{Elem, Entry, Text, Value};

fn are_same_elems(a: &[Elem], b: &[Elem]) -> bool
    ensures { IsTrue result ↔ (a.now ≡ b.now) }
{
    a == b
}

/// Whether the two are one value. It goes once over both, up to where they differ.
#[cycle(same)]
pub(crate) fn is_same_value(a: &Value, b: &Value) -> bool
    ensures { IsTrue result ↔ (a.now ≡ b.now) }
{
    match a {
        Value::Unreached => matches!(b, Value::Unreached),
        Value::Set(x) => match b {
            Value::Set(y) => are_same_elems(x.as_slice(), y.as_slice()),
            _ => false,
        },
        Value::Bottom => matches!(b, Value::Bottom),
        Value::Top => matches!(b, Value::Top),
        Value::Flat(x) => match b {
            Value::Flat(y) => is_same(x, y),
            _ => false,
        },
        Value::Map(x) => match b {
            Value::Map(y) => are_same_entries(x.as_slice(), y.as_slice()),
            _ => false,
        },
        Value::Pair(first, second) => match b {
            Value::Pair(x, y) => is_same_value(first.get(), x.get())
                && is_same_value(second.get(), y.get()),
            _ => false,
        },
        Value::Item(x) => match b {
            Value::Item(y) => is_same_text(x, y),
            _ => false,
        },
    }
}

/// Whether the two have the same entries.
#[cycle(same)]
fn are_same_entries(a: &[Entry], b: &[Entry]) -> bool
    ensures { IsTrue result ↔ (a.now ≡ b.now) }
{
    if a.len() != b.len() {
        return false;
    }
    for (at, entry) in a.iter().enumerate() {
        if !is_same_entry(entry, &b[at]) {
            return false;
        }
    }
    true
}

/// Whether the two have the same key and the same value.
#[cycle(same)]
fn is_same_entry(a: &Entry, b: &Entry) -> bool
    ensures { IsTrue result ↔ (a.now ≡ b.now) }
{
    is_same(&a.key, &b.key) && is_same_value(&a.value, &b.value)
}

fn is_same_text(a: &Text, b: &Text) -> bool
    ensures { IsTrue result ↔ (a.now ≡ b.now) }
{
    a == b
}
