//! What was made ready last.
ghost use Rattle.std.specs.Prelude.{◌≡◌, [], ◌∷◌, IfOk};
ghost use Rattle.std.specs.Map.{keys_of};
ghost use Rattle.cache_model.specs.Change.{change_of};
ghost use Rattle.partition_map.specs.Hidden.{keys_put};
ghost use Rattle.partition_map.specs.Order.{cache_changed};

use crate::change::named;
use cache_key::{CacheName, Key, Mutation, Value};
use std::alloc::{AllocError, Global};

/// The cache and the keys that may have hidden places.
#[derive(Drop)]
pub struct Readied {
    pub(crate) cache: CacheName,
    pub(crate) keys: Vec<Key>,
}

impl Readied {
    /// What the mutation needs places for. Takes memory for a copy of the name and the keys.
    pub(crate) fn of(alloc: Global, mutation: &Mutation) -> Result<Self, AllocError>
        ensures cache { IfOk result (λ readied. readied.cache ≡ cache_changed (change_of mutation.now)) }
        ensures keys { IfOk result (λ readied. readied.keys.items ≡ keys_put (change_of mutation.now)) }
    {
        Ok(Readied {
            cache: named(mutation).copy()?,
            keys: copy_keys(alloc, mutation)?,
        })
    }
}

// A copy of the keys that the mutation puts.
fn copy_keys(alloc: Global, mutation: &Mutation) -> Result<Vec<Key>, AllocError>
    ensures { IfOk result (λ keys. keys.items ≡ keys_put (change_of mutation.now)) }
{
    match mutation {
        Mutation::Put(_, key, _) => copy_one(alloc, key),
        Mutation::Batch(_, pairs) => copy_first(alloc, pairs.as_slice()),
        Mutation::Remove(_, _)
        | Mutation::Ensure(_)
        | Mutation::Truncate(_)
        | Mutation::Destroy(_) => Ok(Vec::new(alloc)),
    }
}

// A copy of the key alone.
fn copy_one(alloc: Global, key: &Key) -> Result<Vec<Key>, AllocError>
    ensures { IfOk result (λ keys. keys.items ≡ key.now ∷ []) }
{
    let mut keys = Vec::new(alloc);
    keys.push(key.copy()?)?;
    Ok(keys)
}

// A copy of the key of each pair.
fn copy_first(alloc: Global, pairs: &[(Key, Value)]) -> Result<Vec<Key>, AllocError>
    ensures { IfOk result (λ keys. keys.items ≡ keys_of pairs.now) }
{
    let mut keys = Vec::with_capacity(alloc, pairs.len())?;
    let mut rest = pairs;
    while let Some((first, others)) = rest.split_first() {
        keys.push(first.0.copy()?)?;
        rest = others;
    }
    Ok(keys)
}
