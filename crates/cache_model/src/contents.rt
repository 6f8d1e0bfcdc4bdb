//! The contents of a partition in one order.
ghost use Rattle.std.specs.Prelude.{◌≡◌, [], Some, None, OnOk};
ghost use Rattle.std.specs.Option.{option_map};
ghost use Rattle.std.specs.Map.{lookup, keys_of};
ghost use Rattle.cache_model.specs.Caches.{same};
ghost use Rattle.cache_model.specs.Change.{change_of, put, remove, ensure, truncate, destroy, batch};
ghost use Rattle.cache_model.specs.Contents.{IsRising};
ghost use Rattle.cache_model.specs.Shown.{caches_shown};
ghost use Rattle.cache_model.specs.Step.{IsReplaced, IsChangedBy};

use cache_key::{CacheName, Key, Mutation, Value};
use std::alloc::{AllocError, Global};
use std::collections::BTreeMap;
use std::marker::Model;

/// The caches of a partition by their names, each with its pairs.
type CacheMap = BTreeMap<CacheName, BTreeMap<Key, Value>>;

/// The contents of a partition: the caches that are there, each with its keys and values.
#[derive(Drop)]
pub struct Contents {
    caches: CacheMap,
}

impl Model for Contents {
    ghost use Rattle.cache_model.specs.Caches.{Caches};

    ghost Value = { Caches };

    ghost use Rattle.cache_model.specs.Shown.{caches_shown};

    ghost view = { λ contents. caches_shown contents.caches };
}

impl Contents {
    /// Contents without a cache.
    pub(crate) fn new(alloc: Global) -> Self
        ensures { result ≡ [] }
    {
        Contents {
            caches: BTreeMap::new(alloc),
        }
    }

    /// The contents that these caches are: each that is in the map is there. Takes no memory.
    pub fn of(caches: BTreeMap<CacheName, BTreeMap<Key, Value>>) -> Self
        ensures { result ≡ caches_shown caches }
    {
        Contents { caches }
    }

    /// The caches in byte order of their names, each with its keys in byte order.
    pub fn caches(&self) -> &BTreeMap<CacheName, BTreeMap<Key, Value>>
        ensures { caches_shown result.now ≡ self.now }
    {
        &self.caches
    }

    /// Makes the change of the mutation. Takes memory. After an error the contents must not be used.
    pub(crate) fn apply(&mut self, alloc: Global, mutation: &Mutation) -> Result<(), AllocError>
        ensures { OnOk result (IsChangedBy (change_of mutation.now) self.old self.new) }
    {
        match mutation {
            Mutation::Put(cache, key, value) => {
                put_pair(alloc, &mut self.caches, cache, key, value)
            }
            Mutation::Remove(cache, key) => remove_key(&mut self.caches, cache, key),
            Mutation::Ensure(cache) => ensure_cache(alloc, &mut self.caches, cache),
            Mutation::Truncate(cache) => truncate_cache(alloc, &mut self.caches, cache),
            Mutation::Destroy(cache) => destroy_cache(&mut self.caches, cache),
            Mutation::Batch(cache, pairs) => {
                put_pairs(alloc, &mut self.caches, cache, pairs.as_slice())
            }
        }
    }
}

// Puts the value at the key of the cache, which is there from then on.
fn put_pair(
    alloc: Global,
    caches: &mut CacheMap,
    cache: &CacheName,
    key: &Key,
    value: &Value,
) -> Result<(), AllocError>
    ensures { OnOk result (IsChangedBy (put cache.now key.now value.now) (caches_shown caches.old) (caches_shown caches.new)) }
{
    let mut pairs = take_pairs(caches, cache).unwrap_or(BTreeMap::new(alloc));
    pairs.insert(key.copy()?, value.copy()?)?;
    put_back(caches, cache, pairs)
}

// Puts the pairs one after the other into the cache, which is there from then on.
fn put_pairs(
    alloc: Global,
    caches: &mut CacheMap,
    cache: &CacheName,
    pairs: &[(Key, Value)],
) -> Result<(), AllocError>
    ensures { OnOk result (IsChangedBy (batch cache.now pairs.now) (caches_shown caches.old) (caches_shown caches.new)) }
{
    ensure_cache(alloc, caches, cache)?;
    for pair in pairs {
        put_pair(alloc, caches, cache, &pair.0, &pair.1)?;
    }
    Ok(())
}

// Removes the key from the cache, if both are there.
fn remove_key(caches: &mut CacheMap, cache: &CacheName, key: &Key) -> Result<(), AllocError>
    ensures { OnOk result (IsChangedBy (remove cache.now key.now) (caches_shown caches.old) (caches_shown caches.new)) }
{
    match take_pairs(caches, cache) {
        Some(mut pairs) => {
            pairs.remove(key);
            put_back(caches, cache, pairs)
        }
        None => Ok(()),
    }
}

// Lets the cache be there, with its pairs if it was there.
fn ensure_cache(alloc: Global, caches: &mut CacheMap, cache: &CacheName) -> Result<(), AllocError>
    ensures { OnOk result (IsChangedBy (ensure cache.now) (caches_shown caches.old) (caches_shown caches.new)) }
{
    if caches.contains_key(cache) {
        return Ok(());
    }
    put_back(caches, cache, BTreeMap::new(alloc))
}

// Lets the cache have no pairs, if it is there.
fn truncate_cache(alloc: Global, caches: &mut CacheMap, cache: &CacheName) -> Result<(), AllocError>
    ensures { OnOk result (IsChangedBy (truncate cache.now) (caches_shown caches.old) (caches_shown caches.new)) }
{
    if !caches.contains_key(cache) {
        return Ok(());
    }
    put_back(caches, cache, BTreeMap::new(alloc))
}

// Lets the cache not be there.
fn destroy_cache(caches: &mut CacheMap, cache: &CacheName) -> Result<(), AllocError>
    ensures { OnOk result (IsChangedBy (destroy cache.now) (caches_shown caches.old) (caches_shown caches.new)) }
{
    take_pairs(caches, cache);
    Ok(())
}

// Takes the cache out, and gives its pairs if it was there.
fn take_pairs(caches: &mut CacheMap, cache: &CacheName) -> Option<BTreeMap<Key, Value>>
    ensures pairs { option_map (λ taken. taken.entries) result ≡ lookup (same cache.now) (caches_shown caches.old) }
    ensures replaced { IsReplaced cache.now None (caches_shown caches.old) (caches_shown caches.new) }
{
    caches.remove(cache)
}

// Lets the cache be there with these pairs.
fn put_back(
    caches: &mut CacheMap,
    cache: &CacheName,
    pairs: BTreeMap<Key, Value>,
) -> Result<(), AllocError>
    requires { IsRising (keys_of pairs.entries) }
    ensures { OnOk result (IsReplaced cache.now (Some pairs.entries) (caches_shown caches.old) (caches_shown caches.new)) }
{
    caches.insert(cache.copy()?, pairs)?;
    Ok(())
}
