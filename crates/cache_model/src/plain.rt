//! The plain program: it keeps the list of mutations, and reads the whole list for each answer.
ghost use Rattle.std.specs.Prelude.{◌≡◌, ℕ, List, [], reverse, true, false, Some, None, is_some, IfOk, if◌then◌else◌};
ghost use Rattle.std.specs.Map.{lookup};
ghost use Rattle.std.specs.Option.{option_map, option_copied};
ghost use Rattle.cache_key.specs.declared.request.Request.TheVariants.{PutAll};
ghost use Rattle.cache_model.specs.Caches.{same};
ghost use Rattle.cache_model.specs.Change.{change_of, changes_of, writes, value_left, rules, presence_left};
ghost use Rattle.cache_model.specs.Contents.{value_after, is_present_after, AreContentsAfter};
ghost use Rattle.cache_model.specs.Parts.{HasPart};
ghost use Rattle.cache_model.specs.Reply.{mutation_of, reply_after};
ghost use Rattle.cache_model.specs.Size.{size_after};

use crate::contents::Contents;
use cache_key::{CacheName, Key, Mutation, Reply, Request, Value};
use std::alloc::{AllocError, Global};

/// The value at the key of the cache after the mutations, the oldest first.
///
/// Takes no memory, and looks at each mutation at most once.
pub fn find_value<'a>(mutations: &'a [Mutation], cache: &CacheName, key: &Key) -> Option<&'a Value>
    ensures { option_copied result ≡ value_after (changes_of mutations.now) cache.now key.now }
{
    let mut rest = mutations;
    while let Some((newest, older)) = rest.split_last() {
        if let Some(left) = value_written(newest, cache, key) {
            return left;
        }
        rest = older;
    }
    None
}

/// Whether the cache is there after the mutations, the oldest first.
///
/// Takes no memory, and looks at each mutation at most once.
pub fn is_present(mutations: &[Mutation], cache: &CacheName) -> bool
    ensures { result ≡ is_present_after (changes_of mutations.now) cache.now }
{
    let mut rest = mutations;
    while let Some((newest, others)) = rest.split_last() {
        if let Some(there) = presence_ruled(newest, cache) {
            return there;
        }
        rest = others;
    }
    false
}

/// The contents after the mutations, the oldest first.
///
/// Takes memory for a copy of every name, key and value.
pub fn collect_contents(alloc: Global, mutations: &[Mutation]) -> Result<Contents, AllocError>
    ensures { IfOk result (AreContentsAfter (changes_of mutations.now)) }
{
    let mut contents = Contents::new(alloc);
    for mutation in mutations {
        contents.apply(alloc, mutation)?;
    }
    Ok(contents)
}

/// How many keys of the cache have a value after the mutations, the oldest first.
///
/// Takes memory for a copy of the contents.
pub fn size(alloc: Global, mutations: &[Mutation], cache: &CacheName) -> Result<u64, AllocError>
    ensures { IfOk result (λ count. count ≡ size_after (changes_of mutations.now) cache.now) }
{
    let contents = collect_contents(alloc, mutations)?;
    match contents.caches().get(cache) {
        Some(pairs) => Ok(pairs.len() as u64),
        None => Ok(0),
    }
}

/// What the request is replied after the mutations, the oldest first.
///
/// Takes memory for a copy of the value, and for a size what `size` takes.
pub fn reply_to(
    alloc: Global,
    mutations: &[Mutation],
    request: &Request,
) -> Result<Reply, AllocError>
    ensures { IfOk result (λ reply. reply ≡ reply_after (changes_of mutations.now) request.now) }
{
    match request {
        Request::Get(cache, key) => value_reply(find_value(mutations, cache, key)),
        Request::Put(cache, key, _) => value_reply(find_value(mutations, cache, key)),
        Request::Remove(cache, key) => value_reply(find_value(mutations, cache, key)),
        Request::Size(cache) => Ok(Reply::Count(size(alloc, mutations, cache)?)),
        Request::Ensure(_) => Ok(Reply::Done),
        Request::Truncate(_) => Ok(Reply::Done),
        Request::Destroy(_) => Ok(Reply::Done),
        Request::PutAll(_, _) => Ok(Reply::Done),
    }
}

/// Whether the request is a mutation, so that `as_mutation` of it gives one. Takes no memory.
pub fn is_mutation(request: &Request) -> bool
    ensures { result ≡ is_some (mutation_of request.now) }
{
    match request {
        Request::Get(_, _) => false,
        Request::Size(_) => false,
        Request::Put(_, _, _) => true,
        Request::Remove(_, _) => true,
        Request::Ensure(_) => true,
        Request::Truncate(_) => true,
        Request::Destroy(_) => true,
        Request::PutAll(_, _) => true,
    }
}

/// Whether the request is a putAll of no pairs, of which no partition has a part. Takes no memory.
pub fn asks_nothing(request: &Request) -> bool
    ensures nothing { result ≡ true → (cache : List ℕ) × (request.now ≡ PutAll cache []) }
    ensures something { result ≡ false → HasPart request.now }
{
    match request {
        Request::PutAll(_, pairs) => pairs.len() == 0,
        Request::Get(_, _)
        | Request::Put(_, _, _)
        | Request::Remove(_, _)
        | Request::Ensure(_)
        | Request::Truncate(_)
        | Request::Destroy(_)
        | Request::Size(_) => false,
    }
}

/// The mutation that the request is, if it is one. Takes no memory.
pub fn as_mutation(request: Request) -> Option<Mutation>
    ensures { result ≡ mutation_of request }
{
    match request {
        Request::Get(_, _) => None,
        Request::Size(_) => None,
        Request::Put(cache, key, value) => Some(Mutation::Put(cache, key, value)),
        Request::Remove(cache, key) => Some(Mutation::Remove(cache, key)),
        Request::Ensure(cache) => Some(Mutation::Ensure(cache)),
        Request::Truncate(cache) => Some(Mutation::Truncate(cache)),
        Request::Destroy(cache) => Some(Mutation::Destroy(cache)),
        Request::PutAll(cache, pairs) => Some(Mutation::Batch(cache, pairs)),
    }
}

// What the mutation leaves at the key of the cache, if it decides that.
fn value_written<'a>(
    mutation: &'a Mutation,
    cache: &CacheName,
    key: &Key,
) -> Option<Option<&'a Value>>
    ensures { option_map (λ left. option_copied left) result
        ≡ (if writes (change_of mutation.now) cache.now key.now then Some (value_left (change_of mutation.now) cache.now key.now) else None) }
{
    match mutation {
        Mutation::Put(put_cache, put_key, value) => {
            if put_cache == cache && put_key == key {
                Some(Some(value))
            } else {
                None
            }
        }
        Mutation::Remove(of_cache, removed) => {
            if of_cache == cache && removed == key {
                Some(None)
            } else {
                None
            }
        }
        Mutation::Ensure(_) => None,
        Mutation::Truncate(truncated) => { if truncated == cache { Some(None) } else { None } }
        Mutation::Destroy(destroyed) => { if destroyed == cache { Some(None) } else { None } }
        Mutation::Batch(of_cache, pairs) => {
            if of_cache == cache {
                value_put(pairs.as_slice(), key)
            } else {
                None
            }
        }
    }
}

// What the pairs, put one after the other, leave at the key, if one of them has it.
fn value_put<'a>(pairs: &'a [(Key, Value)], key: &Key) -> Option<Option<&'a Value>>
    ensures { option_map (λ left. option_copied left) result
        ≡ (if is_some (lookup (same key.now) pairs.now) then Some (lookup (same key.now) (reverse pairs.now)) else None) }
{
    match last_value(pairs, key) {
        Some(value) => Some(Some(value)),
        None => None,
    }
}

// The value of the last pair with the key.
fn last_value<'a>(pairs: &'a [(Key, Value)], key: &Key) -> Option<&'a Value>
    ensures { option_copied result ≡ lookup (same key.now) (reverse pairs.now) }
{
    let mut rest = pairs;
    while let Some((last, earlier)) = rest.split_last() {
        if key == &last.0 {
            return Some(&last.1);
        }
        rest = earlier;
    }
    None
}

// Whether the mutation leaves the cache there, if it decides that.
fn presence_ruled(mutation: &Mutation, cache: &CacheName) -> Option<bool>
    ensures { result
        ≡ (if rules (change_of mutation.now) cache.now then Some (presence_left (change_of mutation.now) cache.now) else None) }
{
    match mutation {
        Mutation::Put(put_cache, _, _) => { if put_cache == cache { Some(true) } else { None } }
        Mutation::Remove(_, _) => None,
        Mutation::Ensure(ensured) => { if ensured == cache { Some(true) } else { None } }
        Mutation::Truncate(_) => None,
        Mutation::Destroy(destroyed) => {
            if destroyed == cache {
                Some(false)
            } else {
                None
            }
        }
        Mutation::Batch(of_cache, _) => { if of_cache == cache { Some(true) } else { None } }
    }
}

// The reply that has a copy of the value.
fn value_reply(value: Option<&Value>) -> Result<Reply, AllocError>
    ensures { IfOk result (λ reply. reply ≡ Reply.Value (option_copied value.entry)) }
{
    match value {
        Some(value) => Ok(Reply::Value(Some(value.copy()?))),
        None => Ok(Reply::Value(None)),
    }
}
