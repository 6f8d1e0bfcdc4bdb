//! Copies of maps.
ghost use Rattle.std.specs.Prelude.{◌≡◌, IfOk};
ghost use Rattle.std.specs.Map.{keys_of};
ghost use Rattle.cache_model.specs.Contents.{IsRising};

use crate::extent::Extent;
use cache_key::{CacheName, Key, Value};
use std::alloc::{AllocError, Global};
use std::collections::BTreeMap;

/// The same extents under the same names. Takes memory.
pub(crate) fn copy_extents(
    alloc: Global,
    extents: &BTreeMap<CacheName, Extent>,
) -> Result<BTreeMap<CacheName, Extent>, AllocError>
    requires rises { IsRising (keys_of extents.now.entries) }
    ensures { IfOk result (λ copied. copied.entries ≡ extents.now.entries) }
{
    let mut copied = BTreeMap::new(alloc);
    for (name, extent) in extents {
        copied.insert(name.copy()?, extent.copy(alloc)?)?;
    }
    Ok(copied)
}

/// The same places at the same keys. Takes memory.
pub(crate) fn copy_places(
    alloc: Global,
    places: &BTreeMap<Key, Option<Value>>,
) -> Result<BTreeMap<Key, Option<Value>>, AllocError>
    requires rises { IsRising (keys_of places.now.entries) }
    ensures { IfOk result (λ copied. copied.entries ≡ places.now.entries) }
{
    let mut copied = BTreeMap::new(alloc);
    for (key, place) in places {
        copied.insert(key.copy()?, copy_place(place)?)?;
    }
    Ok(copied)
}

// The same place.
fn copy_place(place: &Option<Value>) -> Result<Option<Value>, AllocError>
    ensures { IfOk result (λ copied. copied ≡ place.now) }
{
    match place {
        Some(value) => Ok(Some(value.copy()?)),
        None => Ok(None),
    }
}
