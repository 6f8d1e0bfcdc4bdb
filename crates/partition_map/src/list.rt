//! Reads of the extents in byte order of their names.
ghost use Rattle.std.specs.Prelude.{◌≡◌, ◌≤◌, ◌++◌, take, length, unwrap_or, option_and_then, [], Some, IfOk, OnOk};
ghost use Rattle.std.specs.Option.{option_copied};
ghost use Rattle.std.specs.Map.{keys_of};
ghost use Rattle.cache_model.specs.Contents.{IsRising};
ghost use Rattle.cache_model.specs.PlainList.{puts_of, plain_list};
ghost use Rattle.cache_model.specs.Shown.{caches_shown};
ghost use Rattle.partition_map.specs.Extents.{caches_in, extent_shown};
ghost use Rattle.partition_map.specs.Items.{caches_after, pairs_after, items_after};

use crate::extent::Extent;
use crate::item::LastItem;
use cache_key::{CacheName, EntryKey, Key, Mutation, Value};
use std::alloc::{AllocError, Global};
use std::collections::BTreeMap;
use std::collections::btree_map::Range;
use std::ops::Bound;

/// Adds the items after this one, or all, as long as the list has fewer than `most`.
pub(crate) fn add_after(
    items: &mut Vec<Mutation>,
    extents: &BTreeMap<CacheName, Extent>,
    after: Option<&LastItem>,
    most: usize,
) -> Result<(), AllocError>
    requires room { length items.old.items ≤ most }
    requires rises { IsRising (keys_of extents.now.entries) }
    ensures { OnOk result (items.new.items ≡ take most (items.old.items ++ items_after (option_copied after.entry) (caches_in extents.now.entries))) }
{
    match after {
        Some(item) => add_after_item(items, extents, item, most),
        None => add_extents(items, extents.range(..), most),
    }
}

// Adds the items after this one.
fn add_after_item(
    items: &mut Vec<Mutation>,
    extents: &BTreeMap<CacheName, Extent>,
    item: &LastItem,
    most: usize,
) -> Result<(), AllocError>
    requires room { length items.old.items ≤ most }
    requires rises { IsRising (keys_of extents.now.entries) }
    ensures { OnOk result (items.new.items ≡ take most (items.old.items ++ items_after (Some item.now) (caches_in extents.now.entries))) }
{
    match item {
        LastItem::Entry(entry) => {
            add_rest(items, extents.get(&entry.cache), entry, most)?;
            add_caches_after(items, extents, &entry.cache, most)
        }
        LastItem::Cache(cache) => add_caches_after(items, extents, cache, most),
    }
}

// Adds the items of the caches whose names come after this one.
fn add_caches_after(
    items: &mut Vec<Mutation>,
    extents: &BTreeMap<CacheName, Extent>,
    cache: &CacheName,
    most: usize,
) -> Result<(), AllocError>
    requires room { length items.old.items ≤ most }
    ensures { OnOk result (items.new.items ≡ take most (items.old.items ++ plain_list (caches_after cache.now (caches_in extents.now.entries)))) }
{
    add_extents(
        items,
        extents.range((Bound::Excluded(cache), Bound::Unbounded)),
        most,
    )
}

// Adds the items of the entry's cache after the entry, if it has an extent.
fn add_rest(
    items: &mut Vec<Mutation>,
    extent: Option<&Extent>,
    entry: &EntryKey,
    most: usize,
) -> Result<(), AllocError>
    requires room { length items.old.items ≤ most }
    ensures items { OnOk result (items.new.items ≡ take most (items.old.items ++ puts_of entry.now.cache (pairs_after entry.now.key (unwrap_or (option_and_then extent_shown (option_copied extent.entry)) [])))) }
    ensures room { OnOk result (length items.new.items ≤ most) }
{
    match extent {
        Some(extent) => extent.add_items_after(items, &entry.cache, &entry.key, most),
        None => Ok(()),
    }
}

// Adds the items of the extents.
fn add_extents(
    items: &mut Vec<Mutation>,
    extents: Range<'_, CacheName, Extent>,
    most: usize,
) -> Result<(), AllocError>
    requires room { length items.old.items ≤ most }
    ensures { OnOk result (items.new.items ≡ take most (items.old.items ++ plain_list (caches_in extents.entry))) }
{
    for (name, extent) in extents {
        if items.len() >= most {
            return Ok(());
        }
        extent.add_items(items, name, most)?;
    }
    Ok(())
}

/// A copy of the caches that are there, each with its pairs. Takes memory.
pub(crate) fn copy_caches(
    alloc: Global,
    extents: &BTreeMap<CacheName, Extent>,
) -> Result<BTreeMap<CacheName, BTreeMap<Key, Value>>, AllocError>
    requires rises { IsRising (keys_of extents.now.entries) }
    ensures { IfOk result (λ caches. caches_shown caches ≡ caches_in extents.now.entries) }
{
    let mut caches = BTreeMap::new(alloc);
    for (name, extent) in extents {
        extent.copy_into(alloc, &mut caches, name)?;
    }
    Ok(caches)
}
