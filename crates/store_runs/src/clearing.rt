//! Both files of a partition made free of a store, on a disk in memory that fails at one changing call.
use crate::fixtures::{
    ERASED, FIRST, File, MAGIC, NONE, ONE, Plan, SECOND, TWO, VALUE, VERSION, disk_of,
    expect_entries, expect_same, newest_of,
};
use disk_trait::{Disk, DiskRefusal};
use newest_store::{NewestFault, clear_stores};
use record_form::Header;
use std::alloc::Global;
use std::process::Abort;
use store_ident::StoreId;
use store_journal::Store;

// What clearing answers after a restart, which leaves nothing pending.
fn clear_of<D: Disk>(disk: &mut D) -> Result<(), DiskRefusal> {
    disk.restart();
    clear_stores(disk)
}

// A store of version 3, made in file 0 after both files were cleared.
fn create_of<D: Disk>(disk: &mut D) -> Result<Store, DiskRefusal> {
    disk.restart();
    clear_stores(disk)?;
    let id = StoreId {
        partition: 0,
        version: 3,
        epoch: 1,
        host: 0,
    };
    Store::create(disk, 0, Header { id, partitions: 2 })
}

// The file whose store a recovery finds, if there is one.
fn found_after<D: Disk>(alloc: Global, disk: &mut D) -> Result<Option<u8>, NewestFault> {
    match newest_of(alloc, disk) {
        Ok(loaded) => Ok(Some(loaded.store.file)),
        Err(NewestFault::NoStore) => Ok(None),
        Err(fault) => Err(fault),
    }
}

// Clearing these files answers so, and a recovery finds the store of this file. A failure shows the plan too.
fn expect_cleared(
    rt: &impl Abort,
    alloc: Global,
    case: &str,
    files: (File, File),
    plan: Plan,
    cleared: Result<(), DiskRefusal>,
    found: Option<u8>,
) {
    let mut disk = disk_of(rt, alloc, files, plan);
    expect_same(rt, case, (plan, clear_of(&mut disk)), (plan, cleared));
    let after = found_after(alloc, &mut disk);
    expect_same(rt, case, (plan, after), (plan, Ok(found)));
}

const FAILED: Result<(), DiskRefusal> = Err(DiskRefusal::Failed);

// The erasures are the disk's changing calls 5 to 8: a write and a sync of one file, and then of the other. What a failing
// write left pending is lost with pick 0, and written with pick 1.
const ERASURES: &[(Plan, Result<(), DiskRefusal>, bool)] = &[
    ((6, 0, 1), FAILED, true),
    ((7, 0, 0), FAILED, true),
    ((7, 0, 1), FAILED, false),
    ((8, 0, 0), FAILED, true),
    ((8, 0, 1), FAILED, false),
    ((9, 0, 0), Ok(()), false),
];

// Only the last erasure takes the store of file `newest`.
fn expect_erased_last(rt: &impl Abort, alloc: Global, case: &str, files: (File, File), newest: u8) {
    for (plan, cleared, is_left) in ERASURES {
        let found = if *is_left { Some(newest) } else { None };
        expect_cleared(rt, alloc, case, files, *plan, *cleared, found);
    }
}

const AGAIN: File = (FIRST, VALUE, b'3');

const OTHER: File = (SECOND, MAGIC, b'2');

const UNVERSIONED: File = (SECOND, VERSION, 0);

// Two files, and which has the newest store.
const NEWEST: &[(&str, (File, File), u8)] = &[
    ("the older in file 0", (ONE, TWO), 1),
    ("the older in file 1", (TWO, ONE), 0),
    ("the same version", (ONE, AGAIN), 0),
    ("the same version, swapped", (AGAIN, ONE), 0),
    ("another magic in file 1", (ONE, OTHER), 0),
    ("another magic in file 0", (OTHER, ONE), 1),
    ("no version in file 1", (ONE, UNVERSIONED), 0),
    ("no version in file 0", (UNVERSIONED, ONE), 1),
];

#[test]
fn the_newest_store_is_erased_last(rt: HostRuntime) {
    for (case, files, newest) in NEWEST {
        expect_erased_last(&rt, rt.alloc(), case, *files, *newest);
    }
}

// Before the older store is erased a stop leaves both.
const EARLY: &[(&str, Plan)] = &[
    ("the first header", (0, 1, 0)),
    ("the second header", (0, 2, 0)),
    ("the older one's length", (0, 3, 0)),
    ("the older one's erasure", (5, 0, 0)),
    ("the older one's sync", (6, 0, 0)),
];

#[test]
fn both_stores_are_left_at_first(rt: HostRuntime) {
    for (case, plan) in EARLY {
        expect_cleared(&rt, rt.alloc(), case, (ONE, TWO), *plan, FAILED, Some(1));
    }
}

// Files of which one is sealed, or none, and what clearing them answers.
const ALONE: &[(&str, (File, File), Plan, Result<(), DiskRefusal>)] = &[
    ("none", (NONE, ERASED), (5, 0, 1), Ok(())),
    ("file 0", (ONE, NONE), (6, 0, 1), FAILED),
    ("file 0, no third call", (ONE, NONE), (7, 0, 1), Ok(())),
    ("file 1", (ERASED, ONE), (6, 0, 1), FAILED),
    ("file 1, no third call", (ERASED, ONE), (7, 0, 1), Ok(())),
];

#[test]
fn a_sealed_file_alone_is_erased(rt: HostRuntime) {
    for (case, files, plan, cleared) in ALONE {
        expect_cleared(&rt, rt.alloc(), case, *files, *plan, *cleared, None);
    }
}

// After both files are cleared a store is made, and it is the one that a recovery opens.
fn expect_created(rt: &impl Abort, alloc: Global, case: &str, files: (File, File)) {
    let mut disk = disk_of(rt, alloc, files, (0, 0, 0));
    let store = create_of(&mut disk).expect(rt, case);
    expect_same(rt, case, store.end, 41);
    let loaded = newest_of(alloc, &mut disk).expect(rt, case);
    expect_same(rt, case, loaded.store.id, store.id);
    expect_entries(rt, alloc, case, &loaded.contents, &[]);
}

#[test]
fn a_store_is_made_in_a_cleared_file(rt: HostRuntime) {
    expect_created(&rt, rt.alloc(), "no store", (NONE, NONE));
    expect_created(&rt, rt.alloc(), "one store", (ONE, NONE));
    expect_created(&rt, rt.alloc(), "two stores", (ONE, TWO));
}
