//! Writing values.
ghost use Rattle.std.specs.Prelude.{◌≡◌, ◌++◌, IfOk, OnOk, map, codes};
ghost use Rattle.std.specs.Fmt.{signed_decimal};
ghost use Rattle.std.specs.List.{flat_map};
ghost use Rattle.flow_term.specs.Paths.{path_text, step_text};
ghost use Rattle.value_text.specs.Laws.{IsTextOf};
ghost use Rattle.value_text.specs.Texts.{HasText, elem_text, entry_text, listed, separator, value_text};

use flow_term::{Elem, Entry, List, Path, Text, Value};
use itoa::Buffer;
use quoted_text::push_quoted;
use std::alloc::{AllocError, Global};

/// The text of a value that has one. Fails only for want of memory.
pub fn write_value(alloc: Global, value: &Value) -> Result<List<u8>, AllocError>
    requires { HasText value.now }
    ensures { IfOk result (λ bytes. IsTextOf bytes value.now) }
{
    let mut bytes = Vec::new(alloc);
    push_value(&mut bytes, value)?;
    Ok(List::from_vec(bytes))
}

/// Adds the text of a value. After want of memory a part of it may be there.
#[cycle(write)]
pub fn push_value(bytes: &mut Vec<u8>, value: &Value) -> Result<(), AllocError>
    ensures { OnOk result (bytes.new.items ≡ bytes.old.items ++ value_text value.now) }
{
    match value {
        Value::Unreached => bytes.extend_from_slice(b"unreached"),
        Value::Set(elems) => push_elems(bytes, elems.as_slice()),
        Value::Bottom => bytes.extend_from_slice(b"bottom"),
        Value::Top => bytes.extend_from_slice(b"top"),
        Value::Flat(elem) => push_flat(bytes, elem),
        Value::Map(entries) => push_entries(bytes, entries.as_slice()),
        Value::Pair(left, right) => {
            bytes.extend_from_slice(b"(")?;
            push_value(bytes, left.get())?;
            bytes.extend_from_slice(b", ")?;
            push_value(bytes, right.get())?;
            bytes.extend_from_slice(b")")
        }
        Value::Item(text) => push_text(bytes, text),
    }
}

#[cycle(write)]
fn push_entries(bytes: &mut Vec<u8>, entries: &[Entry]) -> Result<(), AllocError>
    ensures { OnOk result (bytes.new.items ≡ bytes.old.items ++ codes "[" ++ listed (map entry_text entries.now) ++ codes "]") }
{
    bytes.extend_from_slice(b"[")?;
    for (at, entry) in entries.iter().enumerate() {
        push_separator(bytes, at)?;
        push_entry(bytes, entry)?;
    }
    bytes.extend_from_slice(b"]")
}

#[cycle(write)]
fn push_entry(bytes: &mut Vec<u8>, entry: &Entry) -> Result<(), AllocError>
    ensures { OnOk result (bytes.new.items ≡ bytes.old.items ++ entry_text entry.now) }
{
    push_elem(bytes, &entry.key)?;
    bytes.extend_from_slice(b" |-> ")?;
    push_value(bytes, &entry.value)
}

fn push_elems(bytes: &mut Vec<u8>, elems: &[Elem]) -> Result<(), AllocError>
    ensures { OnOk result (bytes.new.items ≡ bytes.old.items ++ codes "{" ++ listed (map elem_text elems.now) ++ codes "}") }
{
    bytes.extend_from_slice(b"{")?;
    for (at, elem) in elems.iter().enumerate() {
        push_separator(bytes, at)?;
        push_elem(bytes, elem)?;
    }
    bytes.extend_from_slice(b"}")
}

fn push_flat(bytes: &mut Vec<u8>, elem: &Elem) -> Result<(), AllocError>
    ensures { OnOk result (bytes.new.items ≡ bytes.old.items ++ codes "flat(" ++ elem_text elem.now ++ codes ")") }
{
    bytes.extend_from_slice(b"flat(")?;
    push_elem(bytes, elem)?;
    bytes.extend_from_slice(b")")
}

/// Adds what stands before an item with so many before it.
fn push_separator(bytes: &mut Vec<u8>, before: usize) -> Result<(), AllocError>
    ensures { OnOk result (bytes.new.items ≡ bytes.old.items ++ separator before) }
{
    if before == 0 {
        return Ok(());
    }
    bytes.extend_from_slice(b", ")
}

fn push_elem(bytes: &mut Vec<u8>, elem: &Elem) -> Result<(), AllocError>
    ensures { OnOk result (bytes.new.items ≡ bytes.old.items ++ elem_text elem.now) }
{
    match elem {
        Elem::Name(text) => push_quoted(bytes, b'"', text.as_str().as_bytes()),
        Elem::Str(text) => push_quoted(bytes, b'\'', text.as_str().as_bytes()),
        Elem::Pos(path) => push_position(bytes, path),
        Elem::Item(text) => push_text(bytes, text),
        Elem::Int(number) => push_number(bytes, *number),
        Elem::Pair(left, right) => {
            bytes.extend_from_slice(b"(")?;
            push_elem(bytes, left.get())?;
            bytes.extend_from_slice(b", ")?;
            push_elem(bytes, right.get())?;
            bytes.extend_from_slice(b")")
        }
    }
}

fn push_text(bytes: &mut Vec<u8>, text: &Text) -> Result<(), AllocError>
    ensures { OnOk result (bytes.new.items ≡ bytes.old.items ++ text.now) }
{
    bytes.extend_from_slice(text.as_str().as_bytes())
}

/// Adds the text of a path, in place. After want of memory a part of it may be there.
pub fn push_position(bytes: &mut Vec<u8>, path: &Path) -> Result<(), AllocError>
    ensures { OnOk result (bytes.new.items ≡ bytes.old.items ++ path_text path.now) }
{
    push_steps(bytes, path.as_slice())
}

fn push_steps(bytes: &mut Vec<u8>, steps: &[u32]) -> Result<(), AllocError>
    ensures { OnOk result (bytes.new.items ≡ bytes.old.items ++ path_text steps.now) }
{
    if steps.is_empty() {
        return bytes.extend_from_slice(b"/");
    }
    push_each(bytes, steps)
}

fn push_each(bytes: &mut Vec<u8>, steps: &[u32]) -> Result<(), AllocError>
    ensures { OnOk result (bytes.new.items ≡ bytes.old.items ++ flat_map step_text steps.now) }
{
    for step in steps {
        push_step(bytes, *step)?;
    }
    Ok(())
}

fn push_step(bytes: &mut Vec<u8>, step: u32) -> Result<(), AllocError>
    ensures { OnOk result (bytes.new.items ≡ bytes.old.items ++ step_text step) }
{
    bytes.extend_from_slice(b"/")?;
    let mut buffer = Buffer::new();
    bytes.extend_from_slice(buffer.format(step).as_bytes())
}

fn push_number(bytes: &mut Vec<u8>, number: i64) -> Result<(), AllocError>
    ensures { OnOk result (bytes.new.items ≡ bytes.old.items ++ signed_decimal number) }
{
    let mut buffer = Buffer::new();
    bytes.extend_from_slice(buffer.format(number).as_bytes())
}
