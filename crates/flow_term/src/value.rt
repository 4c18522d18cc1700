//! Values of properties, and what patterns bind.
ghost use Rattle.std.specs.Prelude.{◌≡◌, IfOk};

use crate::boxed::Boxed;
use crate::elem::Elem;
use crate::graph::Unknown;
use crate::list::List;
use crate::text::Text;
use std::alloc::{AllocError, Global};

/// A value of a lattice. Which values a lattice has is said by its type.
#[cycle(value)]
#[derive(Drop)]
pub enum Value {
    /// The bottom of a lattice of sets that are joined by intersection.
    Unreached,
    /// A set, its elements rising.
    Set(List<Elem>),
    /// The bottom of a flat lattice.
    Bottom,
    /// The top of a flat lattice.
    Top,
    /// An element in a flat lattice.
    Flat(Elem),
    /// A map, its keys rising.
    Map(List<Entry>),
    /// A pair of values.
    Pair(Boxed<Value>, Boxed<Value>),
    /// An element of a declared lattice.
    Item(Text),
}

/// A key of a map and its value.
#[cycle(value)]
#[derive(Drop)]
pub struct Entry {
    /// The key.
    pub key: Elem,
    /// The value at the key.
    pub value: Value,
}

/// The value of a property at a node.
#[derive(Drop)]
pub struct Valued {
    /// The node, and the property at it.
    pub unknown: Unknown,
    /// The value that the property has there.
    pub value: Value,
}

/// What a variable of a pattern stands for.
#[derive(Debug, PartialEq, Eq, Drop)]
pub struct Bound {
    /// The name of the variable.
    pub name: Text,
    /// The element that it stands for.
    pub value: Elem,
}

/// What the variables of a pattern stand for, in the order of the text.
pub type Bindings = List<Bound>;

impl Value {
    /// An equal value. Fails only for want of memory.
    pub fn duplicate(&self, alloc: Global) -> Result<Value, AllocError>
        ensures { IfOk result (λ value. value ≡ self.now) }
    {
        copy_value(alloc, self)
    }
}

impl Entry {
    /// An equal entry. Fails only for want of memory.
    pub fn duplicate(&self, alloc: Global) -> Result<Entry, AllocError>
        ensures { IfOk result (λ entry. entry ≡ self.now) }
    {
        copy_entry(alloc, self)
    }
}

impl Valued {
    /// An equal one. Fails only for want of memory.
    pub fn duplicate(&self, alloc: Global) -> Result<Valued, AllocError>
        ensures { IfOk result (λ valued. valued ≡ self.now) }
    {
        Ok(Valued {
            unknown: self.unknown.duplicate()?,
            value: copy_value(alloc, &self.value)?,
        })
    }
}

impl Bound {
    /// An equal one. Fails only for want of memory.
    pub fn duplicate(&self, alloc: Global) -> Result<Bound, AllocError>
        ensures { IfOk result (λ bound. bound ≡ self.now) }
    {
        Ok(Bound {
            name: self.name.duplicate()?,
            value: self.value.duplicate(alloc)?,
        })
    }
}

impl List<Bound> {
    /// Equal bindings. Fails only for want of memory.
    pub fn duplicate(&self, alloc: Global) -> Result<Bindings, AllocError>
        ensures { IfOk result (λ copy. copy ≡ self.now) }
    {
        copy_bounds(alloc, self.as_slice())
    }
}

fn copy_bounds(alloc: Global, bounds: &[Bound]) -> Result<Bindings, AllocError>
    ensures { IfOk result (λ copy. copy ≡ bounds.now) }
{
    let mut copy = List::new(alloc);
    for bound in bounds {
        copy.push(bound.duplicate(alloc)?)?;
    }
    Ok(copy)
}

#[cycle(copy_value)]
fn copy_value(alloc: Global, value: &Value) -> Result<Value, AllocError>
    ensures { IfOk result (λ copy. copy ≡ value.now) }
{
    match value {
        Value::Unreached => Ok(Value::Unreached),
        Value::Set(elems) => Ok(Value::Set(elems.duplicate(alloc)?)),
        Value::Bottom => Ok(Value::Bottom),
        Value::Top => Ok(Value::Top),
        Value::Flat(elem) => Ok(Value::Flat(elem.duplicate(alloc)?)),
        Value::Map(entries) => Ok(Value::Map(copy_entries(alloc, entries.as_slice())?)),
        Value::Pair(left, right) => Ok(Value::Pair(
            Boxed::new(alloc, copy_value(alloc, left.get())?)?,
            Boxed::new(alloc, copy_value(alloc, right.get())?)?,
        )),
        Value::Item(text) => Ok(Value::Item(text.duplicate()?)),
    }
}

#[cycle(copy_value)]
fn copy_entry(alloc: Global, entry: &Entry) -> Result<Entry, AllocError>
    ensures { IfOk result (λ copy. copy ≡ entry.now) }
{
    let key = entry.key.duplicate(alloc)?;
    let value = copy_value(alloc, &entry.value)?;
    Ok(Entry { key, value })
}

#[cycle(copy_value)]
fn copy_entries(alloc: Global, entries: &[Entry]) -> Result<List<Entry>, AllocError>
    ensures { IfOk result (λ copy. copy ≡ entries.now) }
{
    let mut copy = List::new(alloc);
    for entry in entries {
        copy.push(copy_entry(alloc, entry)?)?;
    }
    Ok(copy)
}
