//! Functions of listed elements.
ghost use Rattle.std.specs.Prelude.{◌≡◌, ◌+◌, ◌*◌, ◌-◌, ◌^◌, [], min, length, get_or, IfOk};
ghost use Rattle.flow_term.specs.declared.value.Value.{out-Value};
ghost use Rattle.flow_term.specs.declared.value.Value.TheVariants.{Item};
ghost use Rattle.value_domains.specs.Domains.{item_in, place_in};
ghost use Rattle.eval_values.specs.Calls.{next_row as row_after};
ghost use Rattle.eval_values.specs.Held.{value_of};

use crate::held::Held;
use flow_term::{List, Text, Value};
use std::alloc::{AllocError, Global};

/// The name of an element of a declared lattice; of another value the empty one.
fn item_name(value: &Value) -> &str
    ensures { result.now ≡ item_in (out-Value value.now) }
{
    match value {
        Value::Item(name) => name.as_str(),
        _ => "",
    }
}

/// The place of a name in a list; its length where it isn't there.
fn place_of(names: &[Text], name: &str) -> usize
    ensures { result ≡ place_in names.now name.now }
{
    for (at, text) in names.iter().enumerate() {
        if text.as_str() == name {
            return at;
        }
    }
    names.len()
}

/// The number of a tuple of elements with one element more, from the number of the others, as far as there are numbers. It stays where
/// there is no lattice for the element.
pub fn next_row<'a>(row: usize, lattices: &[List<Text>], at: usize, value: Held<'a>) -> usize
    ensures { result ≡ row_after row lattices.now at (value_of value.entry) }
{
    match lattices.get(at) {
        Some(names) => row
            .saturating_mul(names.len())
            .saturating_add(place_of(names.as_slice(), item_name(value.get()))),
        None => row,
    }
}

/// The result with this number; the empty name where there is none. Fails only for want of memory.
pub fn result_held<'a>(alloc: Global, results: &[Text], row: usize) -> Result<Held<'a>, AllocError>
    ensures { IfOk result (λ value. value_of value ≡ Item (get_or results.now row [])) }
{
    match results.get(row) {
        Some(name) => Ok(Held::Made(Value::Item(name.duplicate()?))),
        None => Ok(Held::Made(Value::Item(Text::new(alloc)))),
    }
}
