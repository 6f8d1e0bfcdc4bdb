//! Cells on one disk in memory, the mutations that are asked of them, and what a restart leaves.
ghost use Rattle.std.specs.Prelude.{◌≡◌, ℕ, ◌≤◌, length, slice_get, Some};
ghost use Rattle.cache_model.specs.PlainList.{HasPairs};
ghost use Rattle.disk_memory.specs.History.{view_of};
ghost use Rattle.seal_gate.specs.Seal.{IsSettled};

use cache_key::{CacheName, Key, Mutation, Value};
use call_trail::CallRefusal;
use disk_memory::{DiskPlan, MemoryDisk};
use disk_trait::Disk;
use newest_store::{Choice, newest};
use partition_cell::{Cell, CellRefusal};
use std::alloc::Global;
use std::fmt::Debug;
use std::process::Abort;
use store_journal::{Loaded, Store};

/// What was found is what is wanted.
pub(crate) fn expect_same<T: PartialEq + Debug + Drop>(
    rt: &impl Abort,
    case: &str,
    found: T,
    want: T,
) {
    assert_eq!(rt; found, want, "{case}");
}

/// Which changing calls of a disk fail.
#[derive(Clone, Copy, Debug, PartialEq, Eq, Drop)]
pub(crate) enum Failing {
    None,
    /// The call of this number alone.
    One(u64),
    /// The call of this number, and all later ones.
    From(u64),
}

/// The plan of these failing calls, where a restart takes this pick.
pub(crate) fn plan_of(rt: &impl Abort, alloc: Global, failing: Failing, pick: u8) -> DiskPlan {
    let mut fail = Vec::new(alloc);
    if let Failing::One(call) = failing {
        fail.push(call).expect(rt, "a number");
    }
    let fuse = match failing {
        Failing::From(call) => Some(call),
        _ => None,
    };
    DiskPlan {
        fail,
        fail_reads: Vec::new(alloc),
        fuse,
        pick,
    }
}

// A lane of this disk, restarted: nothing is pending on it.
fn lane_with(rt: &impl Abort, alloc: Global, mut disk: MemoryDisk) -> Vec<MemoryDisk>
    ensures one { length result.items ≡ 1 }
    ensures settled { (disk : MemoryDisk) → slice_get result.items 0 ≡ Some disk → (f : ℕ) → f ≤ 1 → IsSettled (view_of disk) f }
{
    disk.restart();
    let mut disks = Vec::new(alloc);
    disks.push(disk).expect(rt, "a lane");
    disks
}

// A lane of one disk of empty files.
fn lane_of(rt: &impl Abort, alloc: Global, plan: DiskPlan) -> Vec<MemoryDisk>
    ensures one { length result.items ≡ 1 }
    ensures settled { (disk : MemoryDisk) → slice_get result.items 0 ≡ Some disk → (f : ℕ) → f ≤ 1 → IsSettled (view_of disk) f }
{
    let disk = MemoryDisk::new(alloc, plan).expect(rt, "a disk");
    lane_with(rt, alloc, disk)
}

/// The first cell of partition 0 of 1, on host 0.
pub(crate) fn create(
    rt: &impl Abort,
    alloc: Global,
    plan: DiskPlan,
) -> Result<Cell<MemoryDisk>, (CellRefusal, Vec<MemoryDisk>)> {
    let disks = lane_of(rt, alloc, plan);
    Cell::create(alloc, disks, 0, 1, 0)
}

/// The same on a disk of which no call fails.
pub(crate) fn cell_of(rt: &impl Abort, alloc: Global) -> Cell<MemoryDisk> {
    let plan = plan_of(rt, alloc, Failing::None, 0);
    match create(rt, alloc, plan) {
        Ok(cell) => cell,
        Err((refusal, _)) => panic!(rt; "no cell: {refusal:?}"),
    }
}

/// The put of this value at a key of cache c.
pub(crate) fn put(rt: &impl Abort, alloc: Global, key: &str, value: &str) -> Mutation
    ensures { HasPairs result }
{
    Mutation::Put(
        CacheName::of(alloc, "c").expect(rt, "a name"),
        Key::of(alloc, key).expect(rt, "a key"),
        Value::of(alloc, value).expect(rt, "a value"),
    )
}

/// A text of so many letters.
pub(crate) fn letters(rt: &impl Abort, alloc: Global, count: usize) -> String {
    let mut text = String::new(alloc);
    for _ in 0..count {
        text.push('x').expect(rt, "memory");
    }
    text
}

/// The mutation is made durable, in epoch 1.
pub(crate) fn mutate<D: Disk>(
    alloc: Global,
    cell: &mut Cell<D>,
    mutation: Mutation,
) -> Result<(), CallRefusal>
    requires { HasPairs mutation }
{
    let prepared = cell.prepare(alloc, mutation)?;
    cell.enter(alloc, 1, prepared)
}

/// The newest store of partition 0 after a restart of its one disk, if any is left.
pub(crate) fn restarted(
    rt: &impl Abort,
    alloc: Global,
    case: &str,
    mut disks: Vec<MemoryDisk>,
) -> Option<Loaded> {
    match disks.get_mut(0) {
        Some(disk) => disk.restart(),
        None => panic!(rt; "{case}: no disk"),
    }
    match newest(&mut disks, &[0]).expect(rt, case) {
        Choice::One { file, .. } => {
            Some(Store::load(alloc, &mut disks[0], file, 0, 1).expect(rt, case))
        }
        Choice::NoStore => None,
    }
}

// The one disk of a lane, restarted.
fn restarted_lane(
    rt: &impl Abort,
    alloc: Global,
    case: &str,
    mut disks: Vec<MemoryDisk>,
) -> Vec<MemoryDisk>
    ensures one { length result.items ≡ 1 }
    ensures settled { (disk : MemoryDisk) → slice_get result.items 0 ≡ Some disk → (f : ℕ) → f ≤ 1 → IsSettled (view_of disk) f }
{
    let Some(disk) = disks.pop() else {
        panic!(rt; "{case}: no disk");
    };
    lane_with(rt, alloc, disk)
}

/// The cell of partition 0 that is opened again after a restart of its one disk, if a store is left.
pub(crate) fn reopened(
    rt: &impl Abort,
    alloc: Global,
    case: &str,
    disks: Vec<MemoryDisk>,
) -> Option<Cell<MemoryDisk>> {
    let disks = restarted_lane(rt, alloc, case, disks);
    match Cell::load_newest(alloc, disks, 0, 1, &[0]) {
        Ok(cell) => Some(cell),
        Err((CellRefusal::NoStore, _)) => None,
        Err((refusal, _)) => panic!(rt; "{case}: {refusal:?}"),
    }
}
