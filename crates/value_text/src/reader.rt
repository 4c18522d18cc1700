ghost use Rattle.std.specs.Prelude.{IfOk};
ghost use Rattle.flow_term.specs.declared.value.Value.{Value as TheValue};
ghost use Rattle.value_text.specs.Laws.{IsReadAs, IsTextOf};

use crate::refusal::ValueRefusal;
use crate::values::read_any;
use flow_term::Value;
use std::alloc::Global;

/// How deep brackets may nest.
const DEEPEST: usize = 16;

/// The value of which these bytes are the text. `Form` exactly where no value has this text.
///
/// It goes once through the bytes, and takes memory for the value alone.
pub fn read_value(alloc: Global, bytes: &[u8]) -> Result<Value, ValueRefusal>
    ensures found { IfOk result (IsTextOf bytes.now) }
    ensures only { (value : TheValue) → IsTextOf bytes.now value → IsReadAs result value }
{
    let (value, rest) = read_any(alloc, DEEPEST, bytes)?;
    if !rest.is_empty() {
        return Err(ValueRefusal::Form);
    }
    Ok(value)
}
