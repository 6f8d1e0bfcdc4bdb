//! How many bytes mutations are spelled with.
ghost use Rattle.std.specs.Prelude.{◌≡◌, ◌+◌, ◌≤◌, ◌*◌, length};
ghost use Rattle.std.specs.List.{flat_map};
ghost use Rattle.cache_key.specs.Names.{IsName, IsKey, IsValue, most_pairs};
ghost use Rattle.cache_model.specs.PlainList.{HasPairs};
ghost use Rattle.record_form.specs.GroupText.{IsMutation, pair_form, mutation_text};

use cache_key::{CacheName, Key, Mutation, Value};

/// How many bytes the spelling of a mutation has.
#[tactic(auto, using(crate::proofs::GroupLengthLemmas::length_put, crate::proofs::GroupLengthLemmas::length_remove, crate::proofs::GroupLengthLemmas::length_name, crate::proofs::GroupLengthLemmas::length_batch, crate::proofs::GroupLengthLemmas::by_recursion))]
pub(crate) fn length_of(mutation: &Mutation) -> u64
    requires { HasPairs mutation.now }
    ensures length { result ≡ length (mutation_text mutation.now) }
    ensures most { result ≤ 4260291 }
    ensures limits { IsMutation mutation.now }
{
    match mutation {
        Mutation::Put(cache, key, value) => head_length(cache) + pair_length(key, value),
        Mutation::Remove(cache, key) => head_length(cache) + 2 + key.text().len() as u64,
        Mutation::Ensure(cache) | Mutation::Truncate(cache) | Mutation::Destroy(cache) => {
            head_length(cache)
        }
        Mutation::Batch(cache, pairs) => head_length(cache) + 1 + pairs_length(pairs.as_slice()),
    }
}

/// The tag and the name of a cache.
fn head_length(cache: &CacheName) -> u64
    ensures length { result ≡ 2 + length cache.now }
    ensures most { result ≤ 66 }
    ensures limits { IsName cache.now }
{
    2 + cache.text().len() as u64
}

/// A key and a value after their lengths.
fn pair_length(key: &Key, value: &Value) -> u64
    ensures length { result ≡ 6 + length key.now + length value.now }
    ensures most { result ≤ 66566 }
    ensures limits { IsKey key.now × IsValue value.now }
{
    6 + key.text().len() as u64 + value.text().len() as u64
}

/// Pairs, one after the other.
#[tactic(auto, using(crate::proofs::GroupLengthLemmas::pairs_more))]
fn pairs_length(pairs: &[(Key, Value)]) -> u64
    requires { length pairs.now ≤ most_pairs }
    ensures length { result ≡ length (flat_map pair_form.text pairs.now) }
    ensures most { result ≤ 66566 * length pairs.now }
{
    let mut sum = 0;
    for (key, value) in pairs {
        sum += pair_length(key, value);
    }
    sum
}
