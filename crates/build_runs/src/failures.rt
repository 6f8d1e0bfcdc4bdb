//! A build of 200 items on a disk in memory that fails at one changing call.
ghost use Rattle.std.specs.Prelude.{◌≡◌, ℕ, []};
ghost use Rattle.disk_memory.specs.History.{view_of};
ghost use Rattle.disk_trait.specs.View.{Image, View};

use crate::contents::{build_in, expect_puts, map_of};
use crate::fixtures::{HEADER, expect_same};
use disk_memory::{DiskPlan, MemoryDisk};
use disk_trait::{Disk, DiskRefusal};
use slot_board::SlotKind;
use std::alloc::Global;
use std::process::Abort;
use store_journal::{LoadFault, Store};

const ITEMS: u8 = 200;

// A disk whose changing call of this number fails, and of which a restart takes this.
fn disk_failing(rt: &impl Abort, alloc: Global, call: u64, pick: u8) -> MemoryDisk
    ensures { (m : Image) → (view_of result).images m → (f : ℕ) → m f ≡ [] }
{
    let mut fail = Vec::new(alloc);
    fail.push(call).expect(rt, "a number");
    let plan = DiskPlan {
        fail,
        fail_reads: Vec::new(alloc),
        fuse: None,
        pick,
    };
    MemoryDisk::new(alloc, plan).expect(rt, "a disk")
}

// After a restart the file has the whole store, or isn't sealed.
fn expect_left<D: Disk>(rt: &impl Abort, alloc: Global, case: &str, disk: &mut D, sealed: bool) {
    disk.restart();
    match Store::load(alloc, disk, 0, 2, 4) {
        Ok(loaded) => {
            expect_same(rt, case, sealed, true);
            expect_same(rt, case, loaded.store.id, HEADER.id);
            expect_puts(rt, alloc, case, &loaded.contents, ITEMS);
        }
        Err(fault) => expect_same(rt, case, (fault, sealed), (LoadFault::NotSealed, false)),
    }
}

// A build fails at this call, if it makes so many, and leaves this.
fn expect_failing(rt: &impl Abort, alloc: Global, case: &str, plan: (u64, u8), sealed: bool) {
    let map = map_of(rt, alloc, ITEMS);
    let mut disk = disk_failing(rt, alloc, plan.0, plan.1);
    let built = build_in(rt, alloc, &mut disk, SlotKind::Empty, &map);
    let want = if plan.0 <= CALLS {
        Some(DiskRefusal::Failed)
    } else {
        None
    };
    expect_same(rt, case, built.err(), want);
    expect_left(rt, alloc, case, &mut disk, sealed);
}

// How many changing calls a build of them makes in an empty file.
const CALLS: u64 = 12;

// What a stop takes of what is pending: nothing, all, FF for each byte, or the first half of each write.
const PICKS: &[u8] = &[0, 1, 2, 3];

// Which call fails, and whether the file is sealed after it, for each pick.
const FAILING: &[(&str, u64, [bool; 4])] = &[
    ("the first byte", 1, [false, false, false, false]),
    ("its sync", 2, [false, false, false, false]),
    ("the cut", 3, [false, false, false, false]),
    ("the header", 4, [false, false, false, false]),
    ("the first record", 5, [false, false, false, false]),
    ("the second record", 6, [false, false, false, false]),
    ("the third record", 7, [false, false, false, false]),
    ("the last record", 8, [false, false, false, false]),
    ("the closed gate", 9, [false, false, false, false]),
    ("the settling", 10, [false, false, false, false]),
    ("the seal", 11, [false, true, true, false]),
    ("the seal's sync", 12, [false, true, true, false]),
    ("no call", 13, [true, true, true, true]),
];

#[test]
fn a_build_that_fails_leaves_no_seal_or_a_whole_store(rt: HostRuntime) {
    for (case, call, sealed) in FAILING {
        for (pick, is_sealed) in PICKS.iter().zip(sealed) {
            expect_failing(&rt, rt.alloc(), case, (*call, *pick), *is_sealed);
        }
    }
}
