//! Reading what an event asks, from the items after its name.
ghost use Rattle.serde_json.specs.View.{items_view};
ghost use Rattle.script_lines.specs.Reading.{Reads, IsAsked, IsOneCache, AreCacheAndKey};

use crate::command::Event;
use crate::explain::item_count;
use crate::fault::LineFault;
use crate::numbers::partition_of;
use crate::pairs::pairs_of;
use crate::reason::{EventName, Part};
use crate::texts::{cache_of, key_of, value_of};
use cache_key::{CacheName, Key, Request};
use serde_json::Value as Json;
use std::alloc::Global;

pub(crate) fn get_of(alloc: Global, others: &[Json], event: usize) -> Result<Event, LineFault>
    ensures { Reads (IsAsked EventName.Get (items_view others.now)) result }
{
    let (cache, key) = cache_and_key(alloc, EventName::Get, others, event)?;
    Ok(Event::Call {
        request: Request::Get(cache, key),
    })
}

pub(crate) fn put_of(alloc: Global, others: &mut [Json], event: usize) -> Result<Event, LineFault>
    ensures { Reads (IsAsked EventName.Put (items_view others.old)) result }
{
    let [cache, key, _] = &*others else {
        return Err(item_count(event, EventName::Put, others));
    };
    let cache = cache_of(alloc, cache, Part::Cache { event })?;
    let key = key_of(alloc, key, Part::Key { event })?;
    let value = value_of(others[2].take(), Part::Value { event })?;
    Ok(Event::Call {
        request: Request::Put(cache, key, value),
    })
}

pub(crate) fn remove_of(alloc: Global, others: &[Json], event: usize) -> Result<Event, LineFault>
    ensures { Reads (IsAsked EventName.Remove (items_view others.now)) result }
{
    let (cache, key) = cache_and_key(alloc, EventName::Remove, others, event)?;
    Ok(Event::Call {
        request: Request::Remove(cache, key),
    })
}

pub(crate) fn size_of(alloc: Global, others: &[Json], event: usize) -> Result<Event, LineFault>
    ensures { Reads (IsAsked EventName.Size (items_view others.now)) result }
{
    Ok(Event::Call {
        request: Request::Size(one_cache(alloc, EventName::Size, others, event)?),
    })
}

pub(crate) fn ensure_of(alloc: Global, others: &[Json], event: usize) -> Result<Event, LineFault>
    ensures { Reads (IsAsked EventName.Ensure (items_view others.now)) result }
{
    Ok(Event::Call {
        request: Request::Ensure(one_cache(alloc, EventName::Ensure, others, event)?),
    })
}

pub(crate) fn truncate_of(alloc: Global, others: &[Json], event: usize) -> Result<Event, LineFault>
    ensures { Reads (IsAsked EventName.Truncate (items_view others.now)) result }
{
    Ok(Event::Call {
        request: Request::Truncate(one_cache(alloc, EventName::Truncate, others, event)?),
    })
}

pub(crate) fn destroy_of(alloc: Global, others: &[Json], event: usize) -> Result<Event, LineFault>
    ensures { Reads (IsAsked EventName.Destroy (items_view others.now)) result }
{
    Ok(Event::Call {
        request: Request::Destroy(one_cache(alloc, EventName::Destroy, others, event)?),
    })
}

pub(crate) fn put_all_of(
    alloc: Global,
    others: &mut [Json],
    event: usize,
) -> Result<Event, LineFault>
    ensures { Reads (IsAsked EventName.PutAll (items_view others.old)) result }
{
    let [cache, _] = &*others else {
        return Err(item_count(event, EventName::PutAll, others));
    };
    let cache = cache_of(alloc, cache, Part::Cache { event })?;
    let pairs = pairs_of(alloc, others[1].take(), event)?;
    Ok(Event::Call {
        request: Request::PutAll(cache, pairs),
    })
}

pub(crate) fn renew_of(others: &[Json], event: usize) -> Result<Event, LineFault>
    ensures { Reads (IsAsked EventName.Renew (items_view others.now)) result }
{
    let [partition] = others else {
        return Err(item_count(event, EventName::Renew, others));
    };
    Ok(Event::Renew {
        partition: partition_of(partition, Part::Partition { event })?,
    })
}

/// The cache, if it is the one item after the name.
fn one_cache(
    alloc: Global,
    name: EventName,
    others: &[Json],
    event: usize,
) -> Result<CacheName, LineFault>
    ensures { Reads (IsOneCache (items_view others.now)) result }
{
    let [cache] = others else {
        return Err(item_count(event, name, others));
    };
    cache_of(alloc, cache, Part::Cache { event })
}

/// The cache and the key, if they are the items after the name.
fn cache_and_key(
    alloc: Global,
    name: EventName,
    others: &[Json],
    event: usize,
) -> Result<(CacheName, Key), LineFault>
    ensures { Reads (AreCacheAndKey (items_view others.now)) result }
{
    let [cache, key] = others else {
        return Err(item_count(event, name, others));
    };
    let cache = cache_of(alloc, cache, Part::Cache { event })?;
    let key = key_of(alloc, key, Part::Key { event })?;
    Ok((cache, key))
}
