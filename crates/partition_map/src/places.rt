//! The places of one cache.
ghost use Rattle.std.specs.Prelude.{take, ◌++◌, ◌∷◌, ◌≡◌, ℕ, ◌+◌, ◌≤◌, ◌<◌, ◌^◌, List, [], length, None, Some, Ok, true, false, IfOk, OnOk, OnErr, IsSome, is_some, if◌then◌else◌, option_copied, option_and_then};
ghost use Rattle.std.specs.Option.{option_map_or};
ghost use Rattle.std.specs.Ordering.{nat_cmp};
ghost use Rattle.std.specs.Cmp.Lexicographic.{slice_cmp};
ghost use Rattle.std.specs.Map.{lookup, remove_entry};
ghost use Rattle.std.specs.BTreeMap.{is_at};
ghost use Rattle.std.specs.List.{list_any};
ghost use Rattle.cache_model.specs.Caches.{same};
ghost use Rattle.std.specs.List.Sorted.{IsStrictlySortedBy};
ghost use Rattle.std.specs.Map.{keys_of};
ghost use Rattle.cache_model.specs.PlainList.{puts_of};
ghost use Rattle.partition_map.specs.Place.{value_at, HasPlace, KeepsPlaces, SameValues, hides, is_hidden, HidesOnly, HidesNoMore, pairs_shown, places_after, value_count, value_bytes};

use crate::copy::copy_places;
use cache_key::{CacheName, Key, Mutation, Value};
use std::alloc::{AllocError, Global};
use std::collections::BTreeMap;
use std::collections::btree_map::Range;
use std::marker::Model;
use std::ops::Bound;

/// Keys in byte order, each with its value or hidden.
#[derive(Drop)]
pub struct Places {
    entries: BTreeMap<Key, Option<Value>>,
    count: u64,
    bytes: u64,
}

impl Model for Places {
    ghost use Rattle.partition_map.specs.Place.{PlaceList};

    ghost Value = { PlaceList };

    ghost use Rattle.std.specs.Prelude.{◌≡◌};
    ghost use Rattle.std.specs.Ordering.{nat_cmp};
    ghost use Rattle.std.specs.Cmp.Lexicographic.{slice_cmp};
    ghost use Rattle.std.specs.BTreeMap.{IsOrdered};
    ghost use Rattle.partition_map.specs.Place.{value_count, value_bytes};

    ghost view = { λ p. p.entries.entries };

    ghost invariant = { λ p. (p.count ≡ value_count p.entries.entries) × (p.bytes ≡ value_bytes p.entries.entries) × IsOrdered (slice_cmp nat_cmp) p.entries };
}

impl Places {
    /// No place.
    pub(crate) fn empty(alloc: Global) -> Self
        ensures none { result ≡ [] }
        ensures ordered { IsStrictlySortedBy (slice_cmp nat_cmp) (keys_of result) }
    {
        Places {
            entries: BTreeMap::new(alloc),
            count: 0,
            bytes: 0,
        }
    }

    /// The value at the key.
    pub(crate) fn value(&self, key: &Key) -> Option<&Value>
        ensures { option_copied result ≡ value_at self.now key.now }
    {
        value_in(self.entries.get(key))
    }

    /// How many keys have a value.
    pub(crate) fn count(&self) -> u64
        ensures count { result ≡ value_count self.now }
        ensures ordered { IsStrictlySortedBy (slice_cmp nat_cmp) (keys_of self.now) }
    {
        self.count
    }

    /// How many keys after this one have a value. Walks over them.
    pub(crate) fn count_after(&self, key: &Key) -> u64
        ensures { result ≡ length (pairs_shown (places_after (Some key.now) self.now)) }
    {
        let count = self.count();
        if count == 0 {
            return 0;
        }
        count_values(self.entries.range((Bound::Excluded(key), Bound::Unbounded)))
    }

    /// The bytes of the keys that have a value, and of the values.
    pub(crate) fn bytes(&self) -> u64
        ensures { result ≡ value_bytes self.now }
    {
        self.bytes
    }

    /// Adds the puts of the keys after this one, or of all, as long as the list has fewer than `most`.
    pub(crate) fn add_puts(
        &self,
        items: &mut Vec<Mutation>,
        name: &CacheName,
        after: Option<&Key>,
        most: usize,
    ) -> Result<(), AllocError>
        requires room { length items.old.items ≤ most }
        ensures { OnOk result (items.new.items ≡ take most (items.old.items ++ puts_of name.now (pairs_shown (places_after (option_copied after.entry) self.now)))) }
    {
        match after {
            Some(key) => add_puts(
                items,
                name,
                self.entries.range((Bound::Excluded(key), Bound::Unbounded)),
                most,
            ),
            None => add_puts(items, name, self.entries.range(..), most),
        }
    }

    /// A copy of the keys that have a value, each with it. Takes memory.
    pub(crate) fn copy_pairs(&self, alloc: Global) -> Result<BTreeMap<Key, Value>, AllocError>
        ensures { IfOk result (λ pairs. pairs.entries ≡ pairs_shown self.now) }
    {
        copy_pairs(alloc, &self.entries)
    }

    /// Equal places, hidden ones too. Takes memory.
    pub(crate) fn copy(&self, alloc: Global) -> Result<Self, AllocError>
        ensures { IfOk result (λ copied. copied ≡ self.now) }
    {
        Ok(Places {
            entries: copy_places(alloc, &self.entries)?,
            count: self.count,
            bytes: self.bytes,
        })
    }

    /// Makes a hidden place for the key, where it has none.
    pub(crate) fn ready(&mut self, key: &Key) -> Result<(), AllocError>
        ensures place { OnOk result (HasPlace self.new key.now) }
        ensures stays { KeepsPlaces self.old self.new }
        ensures values { SameValues self.old self.new }
        ensures hidden { (keys : List (List ℕ)) → list_any (same key.now) keys ≡ true → HidesOnly keys self.old → HidesOnly keys self.new }
        ensures ordered { IsStrictlySortedBy (slice_cmp nat_cmp) (keys_of self.new) }
    {
        if self.entries.contains_key(key) {
            return Ok(());
        }
        let key = key.copy()?;
        self.entries.insert(key, None)?;
        Ok(())
    }

    /// Puts the value at the key, which has its place.
    pub(crate) fn put(&mut self, key: Key, value: Value)
        requires place { HasPlace self.old key }
        requires counts { value_count self.old < 2 ^ 63 }
        requires fits { value_bytes self.old + length key + length value < 2 ^ 63 }
        ensures values { (other : List ℕ) → value_at self.new other ≡ (if same key other then Some value else value_at self.old other) }
        ensures stays { KeepsPlaces self.old self.new }
        ensures count { value_count self.new ≤ value_count self.old + 1 }
        ensures bytes { value_bytes self.new ≤ value_bytes self.old + length key + length value }
        ensures hidden { HidesNoMore self.old self.new }
        ensures ordered { IsStrictlySortedBy (slice_cmp nat_cmp) (keys_of self.new) }
    {
        let key_bytes = key.text().len() as u64;
        let bytes = key_bytes + value.text().len() as u64;
        let put: Result<_, _> = self.entries.insert(key, Some(value));
        let old = put.unwrap();
        let old_count = count_in(&old);
        let old_bytes = bytes_in(key_bytes, &old);
        self.count = self.count + 1 - old_count;
        self.bytes = self.bytes + bytes - old_bytes;
    }

    /// Takes the place of the key away, if it is hidden.
    pub(crate) fn forget(&mut self, key: &Key)
        ensures values { SameValues self.old self.new }
        ensures hidden { (keys : List (List ℕ)) → HidesOnly (key.now ∷ keys) self.old → HidesOnly keys self.new }
        ensures ordered { IsStrictlySortedBy (slice_cmp nat_cmp) (keys_of self.new) }
    {
        if is_hidden(self.entries.get(key)) {
            self.remove(key);
        }
    }

    /// Takes the place of the key away.
    pub(crate) fn remove(&mut self, key: &Key)
        ensures entries { self.new ≡ remove_entry (is_at (slice_cmp nat_cmp key.now)) self.old }
        ensures found { (other : List ℕ) → lookup (is_at (slice_cmp nat_cmp other)) self.new ≡ (if is_at (slice_cmp nat_cmp key.now) other then None else lookup (is_at (slice_cmp nat_cmp other)) self.old) }
        ensures values { (other : List ℕ) → value_at self.new other ≡ (if same key.now other then None else value_at self.old other) }
        ensures hidden { HidesNoMore self.old self.new }
        ensures ordered { IsStrictlySortedBy (slice_cmp nat_cmp) (keys_of self.new) }
    {
        let old = self.entries.remove(key);
        self.count -= count_in(&old);
        self.bytes -= bytes_in(key.text().len() as u64, &old);
    }

    /// Takes all places away.
    pub(crate) fn clear(&mut self)
        ensures none { self.new ≡ [] }
        ensures hidden { HidesNoMore self.old self.new }
        ensures ordered { IsStrictlySortedBy (slice_cmp nat_cmp) (keys_of self.new) }
    {
        self.entries.clear();
        self.count = 0;
        self.bytes = 0;
    }
}

// The value of the place that was found.
fn value_in(place: Option<&Option<Value>>) -> Option<&Value>
    ensures { option_copied result ≡ option_and_then (λ v. v) (option_copied place.entry) }
{
    match place {
        Some(Some(value)) => Some(value),
        Some(None) => None,
        None => None,
    }
}

// Whether a place was found, and has no value.
fn is_hidden(place: Option<&Option<Value>>) -> bool
    ensures { result ≡ is_hidden (option_copied place.entry) }
{
    match place {
        Some(Some(_)) => false,
        Some(None) => true,
        None => false,
    }
}

// One where the place has a value.
fn count_in(place: &Option<Option<Value>>) -> u64
    ensures { result ≡ option_map_or (λ v. option_map_or (λ w. 1) v 0) place.now 0 }
{
    match place {
        Some(Some(_)) => 1,
        Some(None) => 0,
        None => 0,
    }
}

// The bytes of the key and the value where the place has a value.
fn bytes_in(key_bytes: u64, place: &Option<Option<Value>>) -> u64
    requires { key_bytes < 2 ^ 62 }
    ensures { result ≡ option_map_or (λ v. option_map_or (λ w. key_bytes + length w) v 0) place.now 0 }
{
    match place {
        Some(Some(value)) => key_bytes + value.text().len() as u64,
        Some(None) => 0,
        None => 0,
    }
}

// How many of these places have a value.
fn count_values(places: Range<'_, Key, Option<Value>>) -> u64
    requires fits { value_count places < 2 ^ 64 }
    ensures { result ≡ value_count places.entry }
{
    let mut count = 0;
    for (_, place) in places {
        if place.is_some() {
            count += 1;
        }
    }
    count
}

// Adds the puts of the values at these places, as long as the list has fewer than `most`.
fn add_puts(
    items: &mut Vec<Mutation>,
    name: &CacheName,
    places: Range<'_, Key, Option<Value>>,
    most: usize,
) -> Result<(), AllocError>
    requires room { length items.old.items ≤ most }
    ensures { OnOk result (items.new.items ≡ take most (items.old.items ++ puts_of name.now (pairs_shown places.entry))) }
{
    for (key, place) in places {
        if items.len() >= most {
            return Ok(());
        }
        if let Some(value) = place {
            items.push(Mutation::Put(name.copy()?, key.copy()?, value.copy()?))?;
        }
    }
    Ok(())
}

// A copy of the values at these places, each with its key.
fn copy_pairs(
    alloc: Global,
    places: &BTreeMap<Key, Option<Value>>,
) -> Result<BTreeMap<Key, Value>, AllocError>
    requires ordered { IsStrictlySortedBy (slice_cmp nat_cmp) (keys_of places.now.entries) }
    ensures { IfOk result (λ pairs. pairs.entries ≡ pairs_shown places.now.entries) }
{
    let mut pairs = BTreeMap::new(alloc);
    for (key, place) in places {
        if let Some(value) = place {
            pairs.insert(key.copy()?, value.copy()?)?;
        }
    }
    Ok(pairs)
}
