//! Parts of pairs.
ghost use Rattle.std.specs.Prelude.{◌≡◌, IsTrue};
ghost use Rattle.flow_term.specs.declared.elem.Elem.{out-Elem};
ghost use Rattle.flow_term.specs.declared.value.Value.{out-Value};
ghost use Rattle.eval_code.specs.Needs.{is_elem_pair, is_pair};
ghost use Rattle.eval_code.specs.Senses.{elem_half as elem_part, half_of};

use eval_code::Half;
use flow_term::{Elem, Value};

/// A part of a pair of values.
pub fn half(which: Half, value: &Value) -> &Value
    requires { IsTrue (is_pair (out-Value value.now)) }
    ensures { result.now ≡ half_of which value.now }
{
    match value {
        Value::Pair(left, right) => match which {
            Half::First => left.get(),
            Half::Second => right.get(),
        },
        _ => unreachable!(),
    }
}

/// A part of a pair of elements.
pub fn elem_half(which: Half, elem: &Elem) -> &Elem
    requires { IsTrue (is_elem_pair (out-Elem elem.now)) }
    ensures { result.now ≡ elem_part which elem.now }
{
    match elem {
        Elem::Pair(left, right) => match which {
            Half::First => left.get(),
            Half::Second => right.get(),
        },
        _ => unreachable!(),
    }
}
