//! How many items stand after one.
ghost use Rattle.std.specs.Prelude.{◌≡◌, ◌<◌, ◌^◌, length, unwrap_or, option_and_then, [], Some};
ghost use Rattle.std.specs.Option.{option_copied};
ghost use Rattle.std.specs.Map.{keys_of};
ghost use Rattle.cache_model.specs.Contents.{IsRising};
ghost use Rattle.cache_model.specs.PlainList.{plain_list};
ghost use Rattle.partition_map.specs.Extents.{caches_in, extent_shown};
ghost use Rattle.partition_map.specs.Items.{caches_after, pairs_after, items_after};

use crate::extent::Extent;
use crate::item::LastItem;
use cache_key::{CacheName, Key};
use std::collections::BTreeMap;
use std::collections::btree_map::Range;
use std::ops::Bound;

/// How many items stand after this one.
pub(crate) fn count_after_item(extents: &BTreeMap<CacheName, Extent>, item: &LastItem) -> u64
    requires rises { IsRising (keys_of extents.now.entries) }
    requires fits { length (plain_list (caches_in extents.now.entries)) < 2 ^ 62 }
    ensures { result ≡ length (items_after (Some item.now) (caches_in extents.now.entries)) }
{
    match item {
        LastItem::Entry(entry) => {
            let rest = count_rest(extents.get(&entry.cache), &entry.key);
            rest + count_caches_after(extents, &entry.cache)
        }
        LastItem::Cache(cache) => count_caches_after(extents, cache),
    }
}

// How many items are of caches whose names come after this one.
fn count_caches_after(extents: &BTreeMap<CacheName, Extent>, cache: &CacheName) -> u64
    requires fits { length (plain_list (caches_in extents.now.entries)) < 2 ^ 62 }
    ensures { result ≡ length (plain_list (caches_after cache.now (caches_in extents.now.entries))) }
{
    count_extents(extents.range((Bound::Excluded(cache), Bound::Unbounded)))
}

// How many items of the extent, if there is one, stand after the key.
fn count_rest(extent: Option<&Extent>, key: &Key) -> u64
    ensures { result ≡ length (pairs_after key.now (unwrap_or (option_and_then extent_shown (option_copied extent.entry)) [])) }
{
    match extent {
        Some(extent) => extent.count_after(key),
        None => 0,
    }
}

// How many items are of these extents.
fn count_extents(extents: Range<'_, CacheName, Extent>) -> u64
    requires fits { length (plain_list (caches_in extents)) < 2 ^ 62 }
    ensures { result ≡ length (plain_list (caches_in extents.entry)) }
{
    let mut count = 0;
    for (_, extent) in extents {
        count += extent.items();
    }
    count
}
