//! Contents of so many items, and a store that is built of them.
ghost use Rattle.std.specs.Prelude.{◌≡◌, ◌≢◌, ℕ, List, true, OnOk, IfOk};
ghost use Rattle.cache_model.specs.Change.{Change};
ghost use Rattle.cache_model.specs.Caches.{Caches};
ghost use Rattle.cache_model.specs.Contents.{AreContentsAfter};
ghost use Rattle.disk_trait.specs.View.{View};
ghost use Rattle.file_kinds.specs.Freeing.{IsFreeable};
ghost use Rattle.partition_map.specs.After.{AgreesWith};
ghost use Rattle.record_form.specs.declared.header.Header.{Header};
ghost use Rattle.seal_gate.specs.Seal.{Each};
ghost use Rattle.slot_board.specs.declared.board.SlotKind.{SlotKind};
ghost use Rattle.store_build.specs.Built.{IsBuilding};

use crate::fixtures::{HEADER, OneDisk, expect_same};
use cache_key::{CacheName, Key, Mutation, Value};
use disk_trait::{Disk, DiskRefusal};
use file_kinds::free;
use partition_map::PartitionMap;
use seal_gate::{seal, settle};
use slot_board::SlotKind;
use std::alloc::Global;
use std::process::Abort;
use store_build::Build;
use store_journal::Store;

// The put of a value at the key of this number, of three digits, in cache c.
fn put(rt: &impl Abort, alloc: Global, number: u8) -> Mutation {
    let key = format!(in alloc; "{number:03}").expect(rt, "a key");
    let value = format!(in alloc; "v{number}").expect(rt, "a value");
    Mutation::Put(
        CacheName::of(alloc, "c").expect(rt, "a name"),
        Key::of(alloc, key.as_str()).expect(rt, "a key"),
        Value::of(alloc, value.as_str()).expect(rt, "a value"),
    )
}

/// The contents of so many puts, made from the last to the first.
pub(crate) fn map_of(rt: &impl Abort, alloc: Global, count: u8) -> PartitionMap
    ensures { (changes : List Change) × AgreesWith changes result }
{
    let mut map = PartitionMap::empty(alloc);
    for number in 0..count {
        let mutation = put(rt, alloc, count - 1 - number);
        map.change(mutation).expect(rt, "a put");
    }
    map
}

/// The contents are those of so many puts.
pub(crate) fn expect_puts(
    rt: &impl Abort,
    alloc: Global,
    case: &str,
    contents: &PartitionMap,
    count: u8,
) {
    let found = contents.entries_from(alloc, None, 255).expect(rt, case);
    expect_same(rt, case, found.len(), count as usize);
    for number in 0..count {
        let want = put(rt, alloc, number);
        expect_same(rt, case, found.get(number as usize), Some(&want));
    }
}

// How many items a record has, unless fewer are left.
const BATCH: u64 = 64;

// Writes all records and the closed gate, and then asks for one more, which makes no device call.
fn write_all<D: Disk>(
    rt: &impl Abort,
    alloc: Global,
    disk: &mut D,
    build: &mut Build,
    map: &PartitionMap,
) -> Result<(), DiskRefusal>
    requires building { (header : Header) × (changes : List Change) × (caches : Caches) × AgreesWith changes map.now × AreContentsAfter changes caches
        × IsBuilding (D.view disk.old) build.old header caches }
    ensures built { OnOk result ((header : Header) × (caches : Caches) × IsBuilding (D.view disk.new) build.new header caches) }
    ensures whole { OnOk result (build.new.whole ≡ true) }
{
    let calls = build.left(map).div_ceil(BATCH) + 2;
    for _ in 0..calls {
        build.next_batch(alloc, disk, map)?;
    }
    assert!(rt; build.whole, "a whole build");
    Ok(())
}

// Makes a whole build durable, and then its seal.
fn settle_and_seal<D: Disk>(disk: &mut D, build: &Build) -> Result<(), DiskRefusal>
    requires building { (header : Header) × (caches : Caches) × IsBuilding (D.view disk.old) build.now header caches }
    requires whole { build.now.whole ≡ true }
{
    settle(disk, build.file)?;
    seal(disk, build.file)
}

/// File 0 of a disk that tells nothing is made free by its kind.
pub(crate) fn free_known(
    rt: &impl Abort,
    disk: &mut OneDisk,
    kind: SlotKind,
) -> Result<(), DiskRefusal> {
    if kind == SlotKind::Unknown {
        panic!(rt; "a file of which nothing is known isn't freed");
    }
    free(disk, 0, kind)
}

/// A file of this kind gets the store of these contents.
pub(crate) fn build_in<D: Disk>(
    rt: &impl Abort,
    alloc: Global,
    disk: &mut D,
    kind: SlotKind,
    map: &PartitionMap,
) -> Result<Store, DiskRefusal>
    requires freeable { Each (D.view disk.old) 0 (IsFreeable kind) }
    requires known { kind ≢ SlotKind.Unknown }
    requires contents { (changes : List Change) × AgreesWith changes map.now }
{
    free(disk, 0, kind)?;
    let mut build = Build::begin(disk, 0, HEADER)?;
    write_all(rt, alloc, disk, &mut build, map)?;
    settle_and_seal(disk, &build)?;
    Ok(build.finish())
}
