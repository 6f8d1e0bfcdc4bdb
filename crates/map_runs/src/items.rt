//! The items of the map against those of the plain list, which has puts and ensures alone.
use cache_key::Mutation;
use partition_map::{LastItem, PartitionMap};
use std::alloc::Global;
use std::process::Abort;

/// The items that come after this one, or all, are those of the list, whether it is one of them or not.
pub(crate) fn expect_items_after(
    rt: &impl Abort,
    alloc: Global,
    map: &PartitionMap,
    items: &[Mutation],
    after: Option<&LastItem>,
) {
    let want = items_after(rt, alloc, items, after);
    for most in [1, 64] {
        let found = map.entries_from(alloc, after, most).expect(rt, "items");
        let count = want.len().min(most as usize);
        assert_eq!(rt; Some(found.as_slice()), want.get(..count));
    }
}

fn items_after(
    rt: &impl Abort,
    alloc: Global,
    items: &[Mutation],
    after: Option<&LastItem>,
) -> Vec<Mutation> {
    let mut later = Vec::new(alloc);
    for item in items {
        if comes_after(item, after) {
            later
                .push(item.copy().expect(rt, "a copy"))
                .expect(rt, "memory");
        }
    }
    later
}

// Whether the item comes after this one: its cache does, or it is a later key of the same cache.
fn comes_after(item: &Mutation, after: Option<&LastItem>) -> bool {
    match (item, after) {
        (_, None) => true,
        (Mutation::Ensure(cache), Some(LastItem::Cache(name))) => name < cache,
        (Mutation::Ensure(cache), Some(LastItem::Entry(entry))) => &entry.cache < cache,
        (Mutation::Put(cache, _, _), Some(LastItem::Cache(name))) => name < cache,
        (Mutation::Put(cache, key, _), Some(LastItem::Entry(entry))) => {
            (&entry.cache, &entry.key) < (cache, key)
        }
        _ => false,
    }
}
