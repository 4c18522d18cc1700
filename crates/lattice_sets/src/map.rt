//! Maps as lists of entries in the order of their keys.
ghost use Rattle.std.specs.Prelude.{◌≡◌, [], OnOk, OnErr, option_copied};
ghost use Rattle.std.specs.List.Sorted.{IsStrictlySortedBy};
ghost use Rattle.std.specs.Map.{keys_of};
ghost use Rattle.lattice_sets.specs.Maps.{IsKeyPlace, IsPut, value_at};

use flow_term::{Element, List};
use std::alloc::{AllocError, Global};
use std::marker::Model;

/// Values by their keys, which rise. Contracts see the list of entries, each a key and its value.
#[derive(Debug, Drop)]
pub struct MapV<K: Element, V> {
    entries: Vec<(K, V)>,
}

impl<K: Element, V> Model for MapV<K, V> {
    ghost use Rattle.std.specs.Prelude.{List as Sequence};
    ghost use Rattle.std.specs.List.Sorted.{IsStrictlySortedBy};
    ghost use Rattle.std.specs.Map.{keys_of};

    ghost Value = { Sequence (K × V) };

    ghost view = { λ m. m.entries.items };

    ghost invariant = { λ m. IsStrictlySortedBy K.cmp (keys_of m.entries.items) };
}

impl<K: Element, V: Drop> MapV<K, V> {
    /// No entries. Takes no memory.
    pub fn new(alloc: Global) -> MapV<K, V>
        ensures { result ≡ [] }
    {
        MapV {
            entries: Vec::new(alloc),
        }
    }

    /// Makes the value the key's, and leaves all other keys as they are.
    pub fn put(&mut self, key: K, value: V) -> Result<(), AllocError>
        ensures put { OnOk result (IsPut K.cmp key value self.old self.new) }
        ensures err { OnErr result (self.new ≡ self.old) }
    {
        put_entry(&mut self.entries, key, value)
    }

    /// The key's value, by binary search; `None` exactly where the key is absent.
    pub fn get(&self, key: &K) -> Option<&V>
        ensures { option_copied result ≡ value_at K.cmp self.now key.now }
    {
        find(&self.entries, key)
    }

    /// The entries in the order of their keys.
    pub fn entries(&self) -> &[(K, V)]
        ensures entries { result.now ≡ self.now }
        ensures rising { IsStrictlySortedBy K.cmp (keys_of self.now) }
    {
        &self.entries
    }

    /// The map of the entries of a list whose keys rise strictly.
    pub(crate) fn from_rising(entries: List<(K, V)>) -> MapV<K, V>
        requires { IsStrictlySortedBy K.cmp (keys_of entries) }
        ensures { result ≡ entries }
    {
        MapV {
            entries: entries.into_vec(),
        }
    }
}

/// Where the key is, or where its entry is to be inserted, by binary search.
fn place_of_key<K: Element, V>(entries: &[(K, V)], key: &K) -> Result<usize, usize>
    requires { IsStrictlySortedBy K.cmp (keys_of entries.now) }
    ensures { IsKeyPlace K.cmp entries.now key.now result }
{
    entries.binary_search_by(|entry| entry.0.cmp(key))
}

/// The value at a key of a list of entries whose keys rise.
fn find<'a, K: Element, V>(entries: &'a [(K, V)], key: &K) -> Option<&'a V>
    requires { IsStrictlySortedBy K.cmp (keys_of entries.now) }
    ensures { option_copied result ≡ value_at K.cmp entries.now key.now }
{
    match place_of_key(entries, key) {
        Ok(place) => Some(&entries[place].1),
        Err(_) => None,
    }
}

/// Puts a value at a key of entries whose keys rise.
fn put_entry<K: Element, V: Drop>(
    entries: &mut Vec<(K, V)>,
    key: K,
    value: V,
) -> Result<(), AllocError>
    requires { IsStrictlySortedBy K.cmp (keys_of entries.old.items) }
    ensures put { OnOk result (IsPut K.cmp key value entries.old.items entries.new.items) }
    ensures err { OnErr result (entries.new.items ≡ entries.old.items) }
    ensures rising { IsStrictlySortedBy K.cmp (keys_of entries.new.items) }
{
    match place_of_key(entries, &key) {
        Ok(place) => entries[place] = (key, value),
        Err(place) => entries.insert(place, (key, value))?,
    }
    Ok(())
}
