//! A roster written to a service disk in memory, where each call fails in turn.
ghost use Rattle.std.specs.Prelude.{◌-◌, ◌≤◌};
ghost use Rattle.disk_trait.specs.View.{Tells};
ghost use Rattle.disk_memory.specs.History.{view_of};
ghost use Rattle.roster_book.specs.Writing.{IsSomeRoster, IsReadyToWrite};

use crate::fixtures::{Plan, disk_of, expect_same};
use crate::rosters::{ERASED, FIRST, NOTHING, SECOND, SHORT, WORKED};
use disk_memory::MemoryDisk;
use disk_trait::Disk;
use roster_book::{file_to_write, shown_roster, write_roster};
use roster_form::decode_roster;
use std::alloc::Global;
use std::process::Abort;

// What a file holds at first, and the epoch that it shows by itself, 0 for none.
type Kept = (&'static [u8], u64);

const KINDS: &[Kept] = &[
    (NOTHING, 0),
    (SHORT, 0),
    (ERASED, 0),
    (FIRST, 1),
    (SECOND, 2),
];

// The epoch of the worked roster.
const NEW_EPOCH: u64 = 3;

// After a restart, the file to which this text may be written.
fn free_file<D: Disk>(rt: &impl Abort, disk: &mut D, text: &[u8]) -> u8
    requires { Tells (D.view disk.old) }
    ensures one_of_two { result ≤ 1 }
    ensures ready { IsReadyToWrite text.now result (1 - result) None (D.view disk.new) }
{
    disk.restart();
    file_to_write(disk).expect(rt, "a file")
}

// The text is that of a roster.
fn expect_roster(rt: &impl Abort, alloc: Global, text: &[u8])
    ensures { IsSomeRoster text.now }
{
    decode_roster(alloc, text, 2).expect(rt, "a roster");
}

// The epoch of the roster that is shown after a restart, 0 for none.
fn shown_epoch<D: Disk>(rt: &impl Abort, alloc: Global, disk: &mut D) -> u64 {
    disk.restart();
    match shown_roster(alloc, disk, 2).expect(rt, "what is shown") {
        Some(roster) => roster.epoch,
        None => 0,
    }
}

// One write of the text, and whether it was refused.
fn write_once(rt: &impl Abort, alloc: Global, disk: &mut MemoryDisk, text: &[u8]) -> bool
    requires { Tells (view_of disk.old) }
{
    expect_roster(rt, alloc, text);
    let file = free_file(rt, disk, text);
    write_roster(disk, file, None, text).is_err()
}

// A write of the text, and again if it is refused.
fn write_twice(rt: &impl Abort, alloc: Global, disk: &mut MemoryDisk, text: &[u8])
    requires { Tells (view_of disk.old) }
{
    expect_roster(rt, alloc, text);
    let file = free_file(rt, disk, text);
    if let Err(unwritten) = write_roster(disk, file, None, text) {
        write_roster(disk, file, unwritten.doubt, text).expect(rt, "a second try");
    }
}

// A refused write leaves what was shown or the new roster, and after an answered one, also a second try, the new one is shown.
fn expect_one_of_two(rt: &impl Abort, alloc: Global, files: (Kept, Kept), plan: Plan) {
    let ((first, first_epoch), (second, second_epoch)) = files;
    let before = first_epoch.max(second_epoch);
    let mut disk = disk_of(rt, alloc, (first, second), plan);
    let refused = write_once(rt, alloc, &mut disk, WORKED);
    let shown = shown_epoch(rt, alloc, &mut disk);
    let is_old = refused && shown == before;
    assert!(rt; is_old || shown == NEW_EPOCH, "{before} {plan:?} {shown}");
    let mut again = disk_of(rt, alloc, (first, second), plan);
    write_twice(rt, alloc, &mut again, WORKED);
    let shown = shown_epoch(rt, alloc, &mut again);
    expect_same(rt, "a second try", (plan, shown), (plan, NEW_EPOCH));
}

// A write has at most seven changing calls, and a restart four picks.
fn expect_each(rt: &impl Abort, alloc: Global, files: (Kept, Kept)) {
    for failing in 1..9 {
        for pick in 0..4 {
            expect_one_of_two(rt, alloc, files, (failing, 0, pick));
        }
    }
}

#[test]
fn a_refused_write_leaves_what_was_shown_or_the_new_roster(rt: HostRuntime) {
    for first in KINDS {
        for second in KINDS {
            expect_each(&rt, rt.alloc(), (*first, *second));
        }
    }
}
