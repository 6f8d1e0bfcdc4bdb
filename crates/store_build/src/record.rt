//! The next batch of the plain list as a record.
ghost use Rattle.std.specs.Prelude.{◌≡◌, ◌≢◌, ℕ, ◌+◌, ◌*◌, ◌<◌, ◌≤◌, List, [], ◌∷◌, ◌++◌, length, take, drop, unwrap_or, Some, IfOk, MatchOption};
ghost use Rattle.std.specs.Option.{option_copied};
ghost use Rattle.std.specs.List.{AllByRecursion};
ghost use Rattle.cache_model.specs.Caches.{Caches};
ghost use Rattle.cache_model.specs.Change.{Change};
ghost use Rattle.cache_model.specs.Contents.{AreContentsAfter};
ghost use Rattle.cache_model.specs.PlainList.{plain_list};
ghost use Rattle.cache_key.specs.declared.request.Mutation.{Mutation};
ghost use Rattle.partition_map.specs.After.{AgreesWith};
ghost use Rattle.partition_map.specs.Items.{items_after};
ghost use Rattle.record_form.specs.GroupText.{IsGroup, mutation_text, group_text};
ghost use Rattle.store_build.specs.Batches.{IsPlainItem, item_for};
ghost use Rattle.store_build.specs.Built.{record_text};
ghost use Rattle.store_build.specs.Next.{IsNextRecord};

use cache_key::{EntryKey, Mutation};
use partition_map::{LastItem, PartitionMap};
use record_form::{Group, GroupRefusal, encode_tail};
use std::alloc::{AllocError, Global};

/// The most items of a record.
const BATCH: u8 = 64;

/// What opens a gate.
const OPEN: u8 = 1;

/// A record, and the last item in it.
#[derive(Drop)]
pub(crate) struct NextRecord {
    pub(crate) bytes: Vec<u8>,
    pub(crate) last: LastItem,
}

/// The record of the next batch after an item of the plain list, or none where nothing is left.
///
/// Takes memory for the items of the batch and for the record.
pub(crate) fn next_record(
    alloc: Global,
    map: &PartitionMap,
    after: Option<&LastItem>,
) -> Result<Option<NextRecord>, AllocError>
    requires contents { (changes : List Change) × (caches : Caches) × AgreesWith changes map.now × AreContentsAfter changes caches
        × (before : List Mutation) × (before ++ items_after (option_copied after) caches ≡ plain_list caches) }
    ensures { IfOk result (λ next. (changes : List Change) (caches : Caches) (before : List Mutation) → AgreesWith changes map.now → AreContentsAfter changes caches
        → before ++ items_after (option_copied after.entry) caches ≡ plain_list caches
        → MatchOption next (items_after (option_copied after.entry) caches ≡ []) (λ made. IsNextRecord caches (items_after (option_copied after.entry) caches) made.bytes.items made.last)) }
{
    let items = map.entries_from(alloc, after, BATCH)?;
    let Some(item) = items.last() else {
        return Ok(None);
    };
    let last = last_item(item)?;
    let bytes = record_of(alloc, items)?;
    Ok(Some(NextRecord { bytes, last }))
}

/// How a reader of the plain list names an item of it. Takes memory for a name and a key.
fn last_item(item: &Mutation) -> Result<LastItem, AllocError>
    ensures { IfOk result (λ last. last ≡ item_for item.now) }
{
    match item {
        Mutation::Put(cache, key, _) | Mutation::Remove(cache, key) => {
            Ok(LastItem::Entry(EntryKey {
                cache: cache.copy()?,
                key: key.copy()?,
            }))
        }
        Mutation::Ensure(cache)
        | Mutation::Truncate(cache)
        | Mutation::Destroy(cache)
        | Mutation::Batch(cache, _) => Ok(LastItem::Cache(cache.copy()?)),
    }
}

/// An open gate, and the group of these items after its length.
fn record_of(alloc: Global, items: Vec<Mutation>) -> Result<Vec<u8>, AllocError>
    requires least { 1 ≤ length items.items }
    requires most { length items.items ≤ 64 }
    requires plain { AllByRecursion IsPlainItem items.items }
    ensures text { IfOk result (λ bytes. bytes.items ≡ record_text items.items) }
    ensures limits { IfOk result (λ bytes. IsGroup items.items) }
{
    let group = group_of(alloc, items)?;
    let mut bytes = encode_tail(alloc, &group)?;
    // A tail ends with a closed gate; a record begins with an open one, and has none at its end.
    bytes.rotate_right(1);
    bytes[0] = OPEN;
    Ok(bytes)
}

/// The group of these items. Takes memory.
fn group_of(alloc: Global, mut items: Vec<Mutation>) -> Result<Group, AllocError>
    requires least { 1 ≤ length items.items }
    requires most { length items.items ≤ 64 }
    requires plain { AllByRecursion IsPlainItem items.items }
    ensures { IfOk result (λ group. group ≡ items.items) }
{
    items.reverse();
    let mut group = None;
    while let Some(item) = items.pop() {
        group = Some(with_item(alloc, group, item)?);
    }
    Ok(group.unwrap())
}

/// The group with one item more: 64 of them fit in a record. Takes memory.
fn with_item(alloc: Global, group: Option<Group>, item: Mutation) -> Result<Group, AllocError>
    requires plain { IsPlainItem item }
    requires few { length (unwrap_or group []) < 64 }
    requires short { length (group_text (unwrap_or group [])) ≤ 1 + 66632 * length (unwrap_or group []) }
    ensures more { IfOk result (λ longer. longer ≡ unwrap_or group [] ++ item ∷ []) }
    ensures short { IfOk result (λ longer. length (group_text longer) ≤ 1 + 66632 * length longer) }
{
    read_texts(&item);
    let Some(mut group) = group else {
        return Group::one(alloc, item);
    };
    match group.push(item) {
        Ok(()) => Ok(group),
        Err((GroupRefusal::NoMemory, _)) => Err(AllocError),
        Err((GroupRefusal::Full, _)) => unreachable!(),
    }
}

/// Reads how long the item's texts are: what its type says of them bounds its spelling.
fn read_texts(item: &Mutation)
    requires { IsPlainItem item.now }
    ensures short { length (mutation_text item.now) ≤ 66632 }
{
    match item {
        Mutation::Put(cache, key, value) => {
            let _ = cache.text();
            let _ = key.text();
            let _ = value.text();
        }
        Mutation::Ensure(cache) => {
            let _ = cache.text();
        }
        _ => {}
    }
}
