//! The contents as one list of mutations, and the lengths of a store file. Lengths are in bytes.
ghost use Rattle.std.specs.Prelude.{◌≡◌, ◌+◌, ◌*◌, ◌≤◌, ◌++◌, sum_by, IfOk, IfSome, OnOk};
ghost use Rattle.cache_key.specs.declared.request.Mutation.TheVariants.{Put};
ghost use Rattle.cache_model.specs.PlainList.{puts_of, plain_cache, plain_list, counted, pair_length, spelled_length, build_length, live, growth_of};

use crate::contents::Contents;
use cache_key::{CacheName, Key, Mutation, Pairs, Value};
use std::alloc::{AllocError, Global};
use std::collections::BTreeMap;

/// The length of a store without mutations: the seal, the header and a closed gate.
const LEAST_STORE_LENGTH: u64 = 42;

/// What a record takes beside its mutations: its gate, its length and their count.
const RECORD_OVERHEAD: u64 = 6;

/// The most mutations of a record.
const MUTATIONS_IN_A_RECORD: usize = 64;

/// The contents as a list of mutations: cache after cache in byte order, each key's put in byte order, and one ensure
/// for a cache without keys.
///
/// Takes memory for a copy of every name, key and value.
pub fn plain_list(alloc: Global, contents: &Contents) -> Result<Vec<Mutation>, AllocError>
    ensures { IfOk result (λ list. list.items ≡ plain_list contents.now) }
{
    let mut list = Vec::new(alloc);
    for (cache, pairs) in contents.caches() {
        add_cache(&mut list, cache, pairs)?;
    }
    Ok(list)
}

/// The length of a store that holds the contents and nothing else.
///
/// Takes memory for their plain list. Answers out of memory also where a `u64` can't hold the length.
pub fn live(alloc: Global, contents: &Contents) -> Result<u64, AllocError>
    ensures { IfOk result (λ size. size ≡ live contents.now) }
{
    let list = plain_list(alloc, contents)?;
    match length_built(&list) {
        Some(size) => Ok(size),
        None => Err(AllocError),
    }
}

/// By how much the mutation may lengthen a store that holds the contents and nothing else. Takes no memory.
pub fn growth(mutation: &Mutation) -> u64
    ensures growth { result ≡ growth_of mutation.now }
    ensures most { result ≤ 4264454 }
{
    match mutation {
        Mutation::Put(cache, key, value) => RECORD_OVERHEAD + length_of_put(cache, key, value),
        Mutation::Ensure(cache) => RECORD_OVERHEAD + length_of_name(cache),
        Mutation::Batch(cache, pairs) => RECORD_OVERHEAD + length_of_puts(cache, pairs),
        Mutation::Remove(_, _) => 0,
        Mutation::Truncate(_) => 0,
        Mutation::Destroy(_) => 0,
    }
}

// The length of a store that holds the mutations in records of 64, if a `u64` holds it.
fn length_built(mutations: &[Mutation]) -> Option<u64>
    ensures { IfSome result (λ size. size ≡ build_length mutations.now) }
{
    let mut total: u64 = 0;
    for mutation in mutations {
        total = total.checked_add(length_spelled(mutation))?;
    }
    let records = mutations.len().div_ceil(MUTATIONS_IN_A_RECORD) as u64;
    let overhead = records.checked_mul(RECORD_OVERHEAD)?;
    LEAST_STORE_LENGTH.checked_add(total)?.checked_add(overhead)
}

// The length of a mutation in a record.
fn length_spelled(mutation: &Mutation) -> u64
    ensures { result ≡ spelled_length mutation.now }
{
    match mutation {
        Mutation::Put(cache, key, value) => length_of_put(cache, key, value),
        Mutation::Remove(cache, key) => length_of_name(cache) + length_of_key(key),
        Mutation::Ensure(cache) => length_of_name(cache),
        Mutation::Truncate(cache) => length_of_name(cache),
        Mutation::Destroy(cache) => length_of_name(cache),
        Mutation::Batch(cache, pairs) => length_of_name(cache) + 1 + length_of_pairs(pairs),
    }
}

// The length of a put.
fn length_of_put(cache: &CacheName, key: &Key, value: &Value) -> u64
    ensures put { result ≡ spelled_length (Put cache.now key.now value.now) }
    ensures most { result ≤ 66632 }
{
    length_of_name(cache) + length_of_key(key) + length_of_value(value)
}

// The length of the puts of the pairs.
fn length_of_puts(cache: &CacheName, pairs: &Pairs) -> u64
    ensures puts { result ≡ sum_by spelled_length (puts_of cache.now pairs.now) }
    ensures most { result ≤ 64 * 66632 }
{
    let mut total: u64 = 0;
    for pair in pairs.as_slice() {
        total += length_of_put(cache, &pair.0, &pair.1);
    }
    total
}

// The length of the pairs, as a batch has them.
fn length_of_pairs(pairs: &Pairs) -> u64
    ensures pairs { result ≡ sum_by pair_length pairs.now }
    ensures most { result ≤ 64 * 66566 }
{
    let mut total: u64 = 0;
    for pair in pairs.as_slice() {
        total += length_of_key(&pair.0) + length_of_value(&pair.1);
    }
    total
}

// The length of a tag and the name of a cache.
fn length_of_name(cache: &CacheName) -> u64
    ensures name { result ≡ 1 + counted 1 cache.now }
    ensures most { result ≤ 66 }
{
    2 + cache.text().len() as u64
}

// The length of a key after its count.
fn length_of_key(key: &Key) -> u64
    ensures key { result ≡ counted 2 key.now }
    ensures most { result ≤ 1026 }
{
    2 + key.text().len() as u64
}

// The length of a value after its count.
fn length_of_value(value: &Value) -> u64
    ensures value { result ≡ counted 4 value.now }
    ensures most { result ≤ 65540 }
{
    4 + value.text().len() as u64
}

// Adds the plain list of one cache.
fn add_cache(
    list: &mut Vec<Mutation>,
    cache: &CacheName,
    pairs: &BTreeMap<Key, Value>,
) -> Result<(), AllocError>
    ensures { OnOk result (list.new.items ≡ list.old.items ++ plain_cache cache.now pairs.now.entries) }
{
    if pairs.is_empty() {
        list.push(Mutation::Ensure(cache.copy()?))?;
        return Ok(());
    }
    for (key, value) in pairs {
        list.push(Mutation::Put(cache.copy()?, key.copy()?, value.copy()?))?;
    }
    Ok(())
}
