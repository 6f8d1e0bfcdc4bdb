//! One cache of a partition.
ghost use Rattle.std.specs.Prelude.{OnOk, IfOk, ◌≡◌, ℕ, ◌+◌, ◌<◌, ◌≤◌, ◌^◌, List, [], length, take, ◌++◌, ◌∷◌, unwrap_or, true, false};
ghost use Rattle.std.specs.Option.{option_copied};
ghost use Rattle.cache_key.specs.declared.request.Mutation.TheVariants.{Ensure};
ghost use Rattle.cache_model.specs.Caches.{Caches, same};
ghost use Rattle.cache_model.specs.PlainList.{puts_of};
ghost use Rattle.cache_model.specs.Shown.{caches_shown};
ghost use Rattle.std.specs.List.{AllByRecursion, list_any};
ghost use Rattle.std.specs.List.Sorted.{IsStrictlySortedBy};
ghost use Rattle.std.specs.Ordering.{nat_cmp};
ghost use Rattle.std.specs.Cmp.Lexicographic.{slice_cmp};
ghost use Rattle.std.specs.Map.{keys_of};
ghost use Rattle.cache_model.specs.Change.{change_of};
ghost use Rattle.partition_map.specs.Place.{value_at, HasPlace, KeepsPlaces, SameValues, HidesOnly, HidesNoMore, value_count, value_bytes};
ghost use Rattle.partition_map.specs.Extents.{value_put, pair_bytes, more_count, more_bytes, IsExtentAfter, IsShownSame, IsWhole, extent_items, extent_bytes, extent_shown, caches_in, plain_in};
ghost use Rattle.partition_map.specs.Hidden.{keys_put};
ghost use Rattle.partition_map.specs.Items.{pairs_after};
ghost use Rattle.partition_map.specs.Order.{cache_changed, brings};
ghost use Rattle.partition_map.specs.Readiness.{IsAppliable};

use crate::places::Places;
use cache_key::{CacheName, Key, Mutation, Pairs, Value};
use std::alloc::{AllocError, Global};
use std::collections::BTreeMap;

/// Sums stay below this.
const MOST_SUM: u64 = 1 << 62;

/// The length of an ensure beside the name.
const ENSURE_OVERHEAD: u64 = 2;

/// The length of a put beside the name, the key and the value.
const PUT_OVERHEAD: u64 = 8;

/// The keys of a cache with their values, and whether the cache is there.
#[derive(Drop)]
pub struct Extent {
    present: bool,
    places: Places,
}

impl Extent {
    /// Absent, with no place. Takes no memory.
    pub(crate) fn empty(alloc: Global) -> Self
        ensures absent { result.present ≡ false }
        ensures none { result.places ≡ [] }
        ensures whole { IsWhole result }
    {
        Extent {
            present: false,
            places: Places::empty(alloc),
        }
    }

    /// Whether the cache is there.
    pub(crate) fn is_present(&self) -> bool
        ensures { result ≡ self.now.present }
    {
        self.present
    }

    /// The value at the key.
    pub(crate) fn value(&self, key: &Key) -> Option<&Value>
        ensures { option_copied result ≡ value_at self.now.places key.now }
    {
        self.places.value(key)
    }

    /// How many keys have a value.
    pub(crate) fn count(&self) -> u64
        ensures { result ≡ value_count self.now.places }
    {
        self.places.count()
    }

    /// How many items of the plain list are of this cache.
    pub(crate) fn items(&self) -> u64
        ensures { (name : List ℕ) → result ≡ extent_items name self.now }
    {
        let count = self.places.count();
        if !self.present {
            0
        } else if count == 0 {
            1
        } else {
            count
        }
    }

    /// How many items of this cache stand after the put of the key. Walks over them.
    pub(crate) fn count_after(&self, key: &Key) -> u64
        ensures { result ≡ length (pairs_after key.now (unwrap_or (extent_shown self.now) [])) }
    {
        if !self.present {
            return 0;
        }
        self.places.count_after(key)
    }

    /// How many bytes these items take, under a name of this length.
    pub(crate) fn bytes(&self, name_length: u64) -> u64
        ensures { (name : List ℕ) → length name ≡ name_length → extent_bytes name self.now < 2 ^ 62 → result ≡ extent_bytes name self.now }
    {
        let count = self.places.count();
        if !self.present {
            0
        } else if count == 0 {
            name_length.saturating_add(ENSURE_OVERHEAD)
        } else {
            let each = name_length.saturating_add(PUT_OVERHEAD);
            count
                .saturating_mul(each)
                .saturating_add(self.places.bytes())
        }
    }

    /// Adds the items of this cache, as long as the list has fewer than `most`.
    pub(crate) fn add_items(
        &self,
        items: &mut Vec<Mutation>,
        name: &CacheName,
        most: usize,
    ) -> Result<(), AllocError>
        requires room { length items.old.items ≤ most }
        ensures { OnOk result (items.new.items ≡ take most (items.old.items ++ plain_in name.now self.now)) }
    {
        if !self.present {
            return Ok(());
        }
        if self.places.count() == 0 {
            return add_ensure(items, name, most);
        }
        self.places.add_puts(items, name, None, most)
    }

    /// Adds the items of this cache after the put of the key, as long as the list has fewer than `most`.
    pub(crate) fn add_items_after(
        &self,
        items: &mut Vec<Mutation>,
        name: &CacheName,
        key: &Key,
        most: usize,
    ) -> Result<(), AllocError>
        requires room { length items.old.items ≤ most }
        ensures { OnOk result (items.new.items ≡ take most (items.old.items ++ puts_of name.now (pairs_after key.now (unwrap_or (extent_shown self.now) [])))) }
    {
        if !self.present {
            return Ok(());
        }
        self.places.add_puts(items, name, Some(key), most)
    }

    /// Adds the cache to the map, with a copy of its pairs, if it is there. Its name comes after those in the map.
    pub(crate) fn copy_into(
        &self,
        alloc: Global,
        caches: &mut BTreeMap<CacheName, BTreeMap<Key, Value>>,
        name: &CacheName,
    ) -> Result<(), AllocError>
        ensures { OnOk result ((later : Caches) → IsStrictlySortedBy (slice_cmp nat_cmp) (keys_of (caches_shown caches.old ++ caches_in ((name.now, self.now) ∷ []) ++ later)) → caches_shown caches.new ≡ caches_shown caches.old ++ caches_in ((name.now, self.now) ∷ [])) }
    {
        if !self.present {
            return Ok(());
        }
        let pairs = self.places.copy_pairs(alloc)?;
        caches.insert(name.copy()?, pairs)?;
        Ok(())
    }

    /// An equal one, hidden places too. Takes memory.
    pub(crate) fn copy(&self, alloc: Global) -> Result<Self, AllocError>
        ensures { IfOk result (λ copied. copied ≡ self.now) }
    {
        Ok(Extent {
            present: self.present,
            places: self.places.copy(alloc)?,
        })
    }

    /// Makes hidden places for the mutation, which is one of this cache. What is shown stays.
    pub(crate) fn ready(&mut self, mutation: &Mutation) -> Result<(), AllocError>
        ensures ready { OnOk result (IsAppliable (change_of mutation.now) self.new.places) }
        ensures shown { IsShownSame self.old self.new }
        ensures hidden { HidesOnly [] self.old.places → HidesOnly (keys_put (change_of mutation.now)) self.new.places }
    {
        match mutation {
            Mutation::Put(_, key, value) => {
                let bytes = (key.text().len() + value.text().len()) as u64;
                check_sums(&self.places, 1, bytes)?;
                self.places.ready(key)
            }
            Mutation::Batch(_, pairs) => {
                let pairs = pairs.as_slice();
                check_sums(&self.places, pairs.len() as u64, bytes_of_pairs(pairs)?)?;
                ready_pairs(&mut self.places, pairs)
            }
            Mutation::Remove(_, _)
            | Mutation::Ensure(_)
            | Mutation::Truncate(_)
            | Mutation::Destroy(_) => check_sums(&self.places, 0, 0),
        }
    }

    /// Takes the places of these keys away that are hidden. What is shown stays.
    pub(crate) fn forget(&mut self, keys: &[Key])
        ensures shown { IsShownSame self.old self.new }
        ensures hidden { HidesOnly keys.now self.old.places → HidesOnly [] self.new.places }
    {
        forget_keys(&mut self.places, keys);
    }

    /// Makes the change of the mutation, which is one of this cache, and gives the name back. Takes no memory.
    pub(crate) fn apply(&mut self, mutation: Mutation) -> CacheName
        requires ready { brings (change_of mutation) ≡ true → IsAppliable (change_of mutation) self.old.places }
        ensures name { result ≡ cache_changed (change_of mutation) }
        ensures after { IsExtentAfter (change_of mutation) self.old self.new }
    {
        match mutation {
            Mutation::Put(cache, key, value) => {
                self.places.put(key, value);
                self.present = true;
                cache
            }
            Mutation::Remove(cache, key) => {
                self.places.remove(&key);
                cache
            }
            Mutation::Ensure(cache) => {
                self.present = true;
                cache
            }
            Mutation::Truncate(cache) => {
                self.places.clear();
                cache
            }
            Mutation::Destroy(cache) => {
                self.places.clear();
                self.present = false;
                cache
            }
            Mutation::Batch(cache, pairs) => {
                put_pairs(&mut self.places, pairs);
                self.present = true;
                cache
            }
        }
    }
}

// Adds the ensure of the cache, where there is room.
fn add_ensure(items: &mut Vec<Mutation>, name: &CacheName, most: usize) -> Result<(), AllocError>
    requires room { length items.old.items ≤ most }
    ensures { OnOk result (items.new.items ≡ take most (items.old.items ++ Ensure name.now ∷ [])) }
{
    if items.len() < most {
        items.push(Mutation::Ensure(name.copy()?))?;
    }
    Ok(())
}

// Refuses where so many keys and bytes more would pass what can be counted.
fn check_sums(places: &Places, count: u64, bytes: u64) -> Result<(), AllocError>
    requires counts { count < 2 ^ 62 }
    requires bytes { bytes < 2 ^ 62 }
    ensures counts { OnOk result (value_count places.now + count < 2 ^ 62) }
    ensures bytes { OnOk result (value_bytes places.now + bytes < 2 ^ 62) }
{
    if places.count() < MOST_SUM - count && places.bytes() < MOST_SUM - bytes {
        Ok(())
    } else {
        Err(AllocError)
    }
}

// Makes a hidden place for the key of each pair.
fn ready_pairs(places: &mut Places, pairs: &[(Key, Value)]) -> Result<(), AllocError>
    ensures places { OnOk result (AllByRecursion (λ p. HasPlace places.new p.0) pairs.now) }
    ensures values { SameValues places.old places.new }
    ensures hidden { (keys : List (List ℕ)) → AllByRecursion (λ p. list_any (same p.0) keys ≡ true) pairs.now → HidesOnly keys places.old → HidesOnly keys places.new }
    ensures ordered { IsStrictlySortedBy (slice_cmp nat_cmp) (keys_of places.old) → IsStrictlySortedBy (slice_cmp nat_cmp) (keys_of places.new) }
{
    let mut rest = pairs;
    while let Some((first, others)) = rest.split_first() {
        places.ready(&first.0)?;
        rest = others;
    }
    Ok(())
}

// Takes the hidden place of each of these keys away.
fn forget_keys(places: &mut Places, keys: &[Key])
    ensures values { SameValues places.old places.new }
    ensures hidden { HidesOnly keys.now places.old → HidesOnly [] places.new }
    ensures ordered { IsStrictlySortedBy (slice_cmp nat_cmp) (keys_of places.old) → IsStrictlySortedBy (slice_cmp nat_cmp) (keys_of places.new) }
{
    let mut rest = keys;
    while let Some((first, others)) = rest.split_first() {
        places.forget(first);
        rest = others;
    }
}

// The bytes of the pairs, where they can be counted.
fn bytes_of_pairs(pairs: &[(Key, Value)]) -> Result<u64, AllocError>
    ensures ok { IfOk result (λ bytes. bytes ≡ pair_bytes pairs.now) }
    ensures fits { IfOk result (λ bytes. bytes < 2 ^ 62) }
{
    let mut bytes = 0;
    for (key, value) in pairs {
        let more = (key.text().len() + value.text().len()) as u64;
        if bytes >= MOST_SUM - more {
            return Err(AllocError);
        }
        bytes += more;
    }
    Ok(bytes)
}

// Puts the pairs, one after the other. Takes no memory.
fn put_pairs(places: &mut Places, pairs: Pairs)
    requires places { AllByRecursion (λ p. HasPlace places.old p.0) pairs }
    requires counts { value_count places.old + length pairs < 2 ^ 62 }
    requires bytes { value_bytes places.old + pair_bytes pairs < 2 ^ 62 }
    ensures values { (key : List ℕ) → value_at places.new key ≡ value_put pairs key (value_at places.old key) }
    ensures hidden { HidesNoMore places.old places.new }
    ensures ordered { IsStrictlySortedBy (slice_cmp nat_cmp) (keys_of places.old) → IsStrictlySortedBy (slice_cmp nat_cmp) (keys_of places.new) }
{
    for (key, value) in pairs.into_list() {
        places.put(key, value);
    }
}
