//! Maps inside values.
ghost use Rattle.std.specs.Prelude.{◌≡◌, IfOk, OnOk, option_copied, slice_get};
ghost use Rattle.std.specs.BTreeMap.{insert_entry};
ghost use Rattle.flow_term.specs.Elements.{elem_cmp};
ghost use Rattle.flow_term.specs.declared.value.Value.{out-Value};
ghost use Rattle.value_domains.specs.Domains.{IsValueOf, joined_of, least_of};
ghost use Rattle.value_domains.specs.Values.{entries_in, joined_to, pairs_of, value_at, value_or};
ghost use Rattle.lattice_any.specs.Types.{domain_of_any};
ghost use Rattle.expr_meaning.specs.Meaning.{is_least as is_least_of, joined_in, updated, without_key};
ghost use Rattle.eval_code.specs.Senses.{looked_up, updated_map};
ghost use Rattle.eval_values.specs.Held.{elem_of, value_of};
ghost use Rattle.eval_values.specs.inner.Maps.{has_key, lesser_count as lesser_count_of};

use crate::held::{Held, HeldElem};
use crate::numbers::{is_below_or_same, is_same};
use flow_term::{Elem, Entry, List, Value};
use lattice_any::AnyL;
use lattice_base::Lattice;
use std::alloc::{AllocError, Global};

/// The entries of a map; of another value none.
fn map_entries(value: &Value) -> &[Entry]
    ensures { result.now ≡ entries_in (out-Value value.now) }
{
    match value {
        Value::Map(entries) => entries.as_slice(),
        _ => &[],
    }
}

/// The entries of a map, as a list of its own; of another value none. They are copied where the map is lent. Fails only for want of
/// memory.
fn own_entries<'a>(alloc: Global, map: Held<'a>) -> Result<Vec<Entry>, AllocError>
    ensures { IfOk result (λ entries. entries.items ≡ entries_in (out-Value (value_of map.entry))) }
{
    match map.own(alloc)? {
        Value::Map(entries) => Ok(entries.into_vec()),
        _ => Ok(Vec::new(alloc)),
    }
}

/// The value at a key, if there is one.
fn standing<'a>(entries: &'a [Entry], key: &Elem) -> Option<&'a Value>
    ensures { option_copied result ≡ value_at (pairs_of entries.now) key.now }
{
    for entry in entries {
        if is_same(key, &entry.key) {
            return Some(&entry.value);
        }
    }
    None
}

/// The value at a key, and this one where the key is absent.
fn found<'a>(entries: &'a [Entry], key: &Elem, least: &'a Value) -> &'a Value
    ensures { result.now ≡ value_or least.now (pairs_of entries.now) key.now }
{
    match standing(entries, key) {
        Some(value) => value,
        None => least,
    }
}

/// The value of a map at a key, and this one where the key is absent; it is copied unless the map is lent. Fails only for want of
/// memory.
pub fn look_held<'a>(
    alloc: Global,
    least: &'a Value,
    map: Held<'a>,
    key: HeldElem<'a>,
) -> Result<Held<'a>, AllocError>
    ensures { IfOk result (λ value. value_of value ≡ looked_up least.now (value_of map.entry) (elem_of key.entry)) }
{
    match map {
        Held::Lent(value) => Ok(Held::Lent(found(map_entries(value), key.get(), least))),
        Held::Made(value) => Ok(Held::Made(found(map_entries(&value), key.get(), least).duplicate(
            alloc,
        )?)),
    }
}

/// How many entries at the front have lesser keys.
fn lesser_count(entries: &[Entry], key: &Elem) -> usize
    ensures { result ≡ lesser_count_of key.now entries.now }
{
    let mut count = 0;
    for entry in entries {
        if is_below_or_same(key, &entry.key) {
            return count;
        }
        count += 1;
    }
    count
}

/// Whether the entry at a place has the key.
fn has_key_at(entries: &[Entry], place: usize, key: &Elem) -> bool
    ensures { result ≡ has_key key.now (slice_get entries.now place) }
{
    match entries.get(place) {
        Some(entry) => is_same(key, &entry.key),
        None => false,
    }
}

/// Puts an entry over the one with its key, or else before the first one with a greater key. Fails only for want of memory.
fn put(entries: &mut Vec<Entry>, entry: Entry) -> Result<(), AllocError>
    ensures { OnOk result (pairs_of entries.new.items ≡ insert_entry elem_cmp (pairs_of entries.old.items) entry.key entry.value) }
{
    let place = lesser_count(entries, &entry.key);
    if has_key_at(entries, place, &entry.key) {
        entries[place] = entry;
        return Ok(());
    }
    entries.insert(place, entry)?;
    Ok(())
}

/// The entry of a key and its value; what was lent is copied.
fn entry_of<'a>(alloc: Global, key: HeldElem<'a>, value: Held<'a>) -> Result<Entry, AllocError>
    ensures key { IfOk result (λ entry. entry.key ≡ elem_of key.entry) }
    ensures value { IfOk result (λ entry. entry.value ≡ value_of value.entry) }
{
    let value = value.own(alloc)?;
    let key = key.own(alloc)?;
    Ok(Entry { key, value })
}

/// Takes the key out, with its value. Takes no memory.
fn take_out(entries: &mut Vec<Entry>, key: &Elem)
    ensures { pairs_of entries.new.items ≡ without_key (pairs_of entries.old.items) key.now }
{
    entries.retain(|entry| !is_same(&entry.key, key));
}

/// Whether a value of the lattice is its least one. Takes no memory.
fn is_least(lattice: &AnyL, value: &Value) -> bool
    requires { IsValueOf (domain_of_any lattice.now) value.now }
    ensures { result ≡ is_least_of (domain_of_any lattice.now) value.now }
{
    lattice.is_least(value)
}

/// Replaces the value at the key; the least value takes the key out. What was lent is copied.
fn replace<'a>(
    alloc: Global,
    lattice: &AnyL,
    entries: &mut Vec<Entry>,
    key: HeldElem<'a>,
    value: Held<'a>,
) -> Result<(), AllocError>
    requires { IsValueOf (domain_of_any lattice.now) (value_of value) }
    ensures { OnOk result (pairs_of entries.new.items ≡ updated (domain_of_any lattice.now) (pairs_of entries.old.items) (elem_of key.entry) (value_of value.entry)) }
{
    if is_least(lattice, value.get()) {
        take_out(entries, key.get());
        return Ok(());
    }
    put(entries, entry_of(alloc, key, value)?)
}

/// The map to the values of a lattice with the value at the key replaced; the least value takes the key out. What was lent is copied.
/// Fails only for want of memory.
pub fn update_held<'a>(
    alloc: Global,
    lattice: &AnyL,
    map: Held<'a>,
    key: HeldElem<'a>,
    value: Held<'a>,
) -> Result<Held<'a>, AllocError>
    requires { IsValueOf (domain_of_any lattice.now) (value_of value) }
    ensures { IfOk result (λ made. value_of made ≡ updated_map (domain_of_any lattice.now) (value_of map.entry) (elem_of key.entry, value_of value.entry)) }
{
    let mut entries = own_entries(alloc, map)?;
    replace(alloc, lattice, &mut entries, key, value)?;
    Ok(Held::Made(Value::Map(List::from_vec(entries))))
}

/// The value joined to the one at the key, if there is one; a value that was lent is copied where there is none. Fails only for want of
/// memory.
fn joined_at<'a>(
    alloc: Global,
    lattice: &AnyL,
    entries: &[Entry],
    key: &Elem,
    value: Held<'a>,
) -> Result<Value, AllocError>
    requires standing { IsValueOf (domain_of_any lattice.now) (value_or (least_of (domain_of_any lattice.now)) (pairs_of entries.now) key.now) }
    requires value { IsValueOf (domain_of_any lattice.now) (value_of value) }
    ensures { IfOk result (λ made. made ≡ joined_to (joined_of (domain_of_any lattice.now)) (value_at (pairs_of entries.now) key.now) (value_of value.entry)) }
{
    match standing(entries, key) {
        Some(old) => lattice.join(alloc, old, value.get()),
        None => value.own(alloc),
    }
}

/// Joins a value into a map to the values of a lattice, at a key; the least value changes nothing. What was lent is copied. Fails only
/// for want of memory.
pub fn join_entry<'a>(
    alloc: Global,
    lattice: &AnyL,
    entries: &mut Vec<Entry>,
    key: HeldElem<'a>,
    value: Held<'a>,
) -> Result<(), AllocError>
    requires standing { IsValueOf (domain_of_any lattice.now) (value_or (least_of (domain_of_any lattice.now)) (pairs_of entries.old.items) (elem_of key)) }
    requires value { IsValueOf (domain_of_any lattice.now) (value_of value) }
    ensures { OnOk result (pairs_of entries.new.items ≡ joined_in (domain_of_any lattice.now) (pairs_of entries.old.items) (elem_of key.entry) (value_of value.entry)) }
{
    if is_least(lattice, value.get()) {
        return Ok(());
    }
    let joined = joined_at(alloc, lattice, entries, key.get(), value)?;
    put(entries, entry_of(alloc, key, Held::Made(joined))?)
}
