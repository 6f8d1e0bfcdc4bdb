//! One change of the extents.
ghost use Rattle.std.specs.Prelude.{◌≡◌, ℕ, ◌+◌, ◌<◌, ◌≤◌, ◌^◌, List, [], length, true, false, Some, None, OnOk, IfSome, IfNone, if◌then◌else◌};
ghost use Rattle.std.specs.Map.{lookup};
ghost use Rattle.cache_model.specs.Caches.{same};
ghost use Rattle.cache_model.specs.Change.{Change, change_of};
ghost use Rattle.cache_model.specs.PlainList.{growth_of};
ghost use Rattle.partition_map.specs.Extents.{Extents, presence_held};
ghost use Rattle.partition_map.specs.Hidden.{keys_put, HideNothing, HideOnlyOf, AreHiddenBy, IsLeftThere};
ghost use Rattle.partition_map.specs.Order.{cache_changed, brings};
ghost use Rattle.partition_map.specs.Readiness.{IsAppliable, HasExtentFor, HasFewPairs, room_for};
ghost use Rattle.partition_map.specs.Written.{IsShiftOf, IsShift, ShowsAgain};

use crate::extent::Extent;
use crate::readied::Readied;
use cache_key::{CacheName, Mutation};
use cache_model::growth;
use std::alloc::{AllocError, Global};
use std::collections::BTreeMap;

/// The length of an ensure with its record, beside the name.
const ENSURE_GROWTH: u64 = 8;

/// Whether a cache was there before a change and is after it, and what it had and has, in items of the plain list and in
/// their bytes.
#[derive(Drop)]
pub(crate) struct Shift {
    pub(crate) cache: CacheName,
    pub(crate) was_present: bool,
    pub(crate) is_present: bool,
    pub(crate) gone_items: u64,
    pub(crate) come_items: u64,
    pub(crate) gone_bytes: u64,
    pub(crate) come_bytes: u64,
}

/// Makes the change in the extent of its cache, if there is one. Takes no memory.
pub(crate) fn change_extent(
    extents: &mut BTreeMap<CacheName, Extent>,
    mutation: Mutation,
) -> Option<Shift>
    requires ready { brings (change_of mutation) ≡ true → HasExtentFor (change_of mutation) extents.old.entries }
    ensures changed { IfSome result (λ shift. IsShift (change_of mutation) extents.old.entries extents.new.entries shift) }
    ensures absent { IfNone result ((lookup (same (cache_changed (change_of mutation))) extents.old.entries ≡ None) × (extents.new.entries ≡ extents.old.entries)) }
{
    let name = named(&mutation);
    let name_length = name.text().len() as u64;
    match extents.get_mut(name) {
        Some(extent) => Some(shift_extent(extent, name_length, mutation)),
        None => None,
    }
}

// Makes the change in this extent, which is its cache's.
fn shift_extent(extent: &mut Extent, name_length: u64, mutation: Mutation) -> Shift
    requires name { length (cache_changed (change_of mutation)) ≡ name_length }
    requires ready { brings (change_of mutation) ≡ true → IsAppliable (change_of mutation) extent.old.places }
    ensures { IsShiftOf (change_of mutation) extent.old extent.new result }
{
    let was_present = extent.is_present();
    let gone_items = extent.items();
    let gone_bytes = extent.bytes(name_length);
    let cache = extent.apply(mutation);
    Shift {
        cache,
        was_present,
        is_present: extent.is_present(),
        gone_items,
        come_items: extent.items(),
        gone_bytes,
        come_bytes: extent.bytes(name_length),
    }
}

/// Makes hidden places for a mutation that makes its cache present. What is shown stays.
pub(crate) fn ready_extent(
    alloc: Global,
    extents: &mut BTreeMap<CacheName, Extent>,
    mutation: &Mutation,
) -> Result<(), AllocError>
    ensures ready { OnOk result (HasExtentFor (change_of mutation.now) extents.new.entries) }
    ensures shown { ShowsAgain extents.old.entries extents.new.entries }
    ensures hidden { HideNothing extents.old.entries → HideOnlyOf (cache_changed (change_of mutation.now)) (keys_put (change_of mutation.now)) extents.new.entries }
{
    add_hidden(alloc, extents, named(mutation))?;
    match extents.get_mut(named(mutation)) {
        Some(extent) => extent.ready(mutation),
        None => Err(AllocError),
    }
}

// Makes an extent for the cache that shows nothing, where it has none.
fn add_hidden(
    alloc: Global,
    extents: &mut BTreeMap<CacheName, Extent>,
    cache: &CacheName,
) -> Result<(), AllocError>
    ensures shown { ShowsAgain extents.old.entries extents.new.entries }
    ensures hidden { HideNothing extents.old.entries → HideOnlyOf cache.now [] extents.new.entries }
{
    if !extents.contains_key(cache) {
        extents.insert(cache.copy()?, Extent::empty(alloc))?;
    }
    Ok(())
}

/// Takes away what was made ready and has no value: the places, and the extent where the cache isn't there.
pub(crate) fn forget(extents: &mut BTreeMap<CacheName, Extent>, readied: &Option<Readied>)
    ensures shown { ShowsAgain extents.old.entries extents.new.entries }
    ensures hidden { AreHiddenBy readied.now extents.old.entries → HideNothing extents.new.entries }
{
    match readied {
        Some(readied) => {
            let is_present = forget_places(extents, readied);
            remove_absent(extents, &readied.cache, is_present);
        }
        None => (),
    }
}

// Takes the places away that were made ready and have no value. Answers whether their cache is there.
fn forget_places(extents: &mut BTreeMap<CacheName, Extent>, readied: &Readied) -> bool
    ensures shown { ShowsAgain extents.old.entries extents.new.entries }
    ensures hidden { HideOnlyOf readied.now.cache readied.now.keys.items extents.old.entries → HideOnlyOf readied.now.cache [] extents.new.entries }
    ensures presence { result ≡ presence_held (lookup (same readied.now.cache) extents.new.entries) }
{
    match extents.get_mut(&readied.cache) {
        Some(extent) => {
            extent.forget(readied.keys.as_slice());
            extent.is_present()
        }
        None => false,
    }
}

/// Takes the extent of the cache away, where it has one that is absent. The caller knows whether the cache is there.
pub(crate) fn remove_absent(
    extents: &mut BTreeMap<CacheName, Extent>,
    cache: &CacheName,
    is_present: bool,
)
    requires presence { is_present ≡ presence_held (lookup (same cache.now) extents.old.entries) }
    ensures shown { ShowsAgain extents.old.entries extents.new.entries }
    ensures left { IsLeftThere cache.now extents.old.entries extents.new.entries }
{
    if !is_present {
        extents.remove(cache);
    }
}

/// By how much the mutation may lengthen a store of the contents: a batch without pairs is an ensure.
pub(crate) fn room_for(mutation: &Mutation) -> u64
    ensures room { result ≡ room_for (change_of mutation.now) }
    ensures growth { growth_of mutation.now ≤ result }
    ensures few { HasFewPairs (change_of mutation.now) }
{
    match mutation {
        Mutation::Batch(cache, pairs) => {
            if pairs.len() == 0 {
                ENSURE_GROWTH + cache.text().len() as u64
            } else {
                growth(mutation)
            }
        }
        _ => growth(mutation),
    }
}

/// The cache of the mutation.
pub(crate) fn named(mutation: &Mutation) -> &CacheName
    ensures { result.now ≡ cache_changed (change_of mutation.now) }
{
    match mutation {
        Mutation::Put(cache, _, _) => cache,
        Mutation::Remove(cache, _) => cache,
        Mutation::Ensure(cache) => cache,
        Mutation::Truncate(cache) => cache,
        Mutation::Destroy(cache) => cache,
        Mutation::Batch(cache, _) => cache,
    }
}

/// Whether the mutation makes its cache present.
pub(crate) fn makes_present(mutation: &Mutation) -> bool
    ensures { result ≡ brings (change_of mutation.now) }
{
    match mutation {
        Mutation::Put(_, _, _) => true,
        Mutation::Remove(_, _) => false,
        Mutation::Ensure(_) => true,
        Mutation::Truncate(_) => false,
        Mutation::Destroy(_) => false,
        Mutation::Batch(_, _) => true,
    }
}
