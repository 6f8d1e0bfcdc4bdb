//! Files that a recovery finds: damaged ones, and the newer of two stores.
use crate::fixtures::{
    CLOSED, CREATE, CREATED, DUMP, EMPTY, FAULT, HAS_A1, NEW_KEY, OPEN, OPENED, PUT_B2, RECOVER,
    STOP, STOPPED, STORE, expect_over,
};
use disk_memory::{DiskPlan, MemoryDisk};
use disk_trait::write_synced;
use std::alloc::Global;
use std::process::Abort;

// A file of these bytes, but for the byte at this offset, if it has one there.
type File = (&'static [u8], usize, u8);

const NONE: File = (b"", 0, 0);

const FIRST: File = (STORE, 0, 1);

// The store with version 255 and another value.
const LATER: File = (
    b"\x01PST1\x00\x01\x00\x00\x00\x00\x00\x00\x00\x00\x00\xff\x00\x00\x00\x00\x00\x00\x00\x01\
\x00\x00\x00\x01\x00\x00\x00\x00\x00\x00\x00\x00\x00\x00\x00\x00\x01\x00\x00\x00\x0c\x01\x01\x01c\x00\x01a\
\x00\x00\x00\x012\x00",
    0,
    1,
);

fn bytes_of(rt: &impl Abort, alloc: Global, file: File) -> Vec<u8> {
    let (bytes, offset, byte) = file;
    let mut bytes = bytes.to_vec(alloc).expect(rt, "bytes");
    if let Some(there) = bytes.get_mut(offset) {
        *there = byte;
    }
    bytes
}

// A disk with these files 0 and 1, written by its changing calls 1 to 4.
fn disk_holding(
    rt: &impl Abort,
    alloc: Global,
    files: (File, File),
    fuse: Option<u64>,
    pick: u8,
) -> MemoryDisk {
    let plan = DiskPlan {
        fail: Vec::new(alloc),
        fail_reads: Vec::new(alloc),
        fuse,
        pick,
    };
    let mut disk = MemoryDisk::new(alloc, plan).expect(rt, "a disk");
    let first = bytes_of(rt, alloc, files.0);
    write_synced(&mut disk, 0, 0, first.as_slice()).expect(rt, "file 0");
    let second = bytes_of(rt, alloc, files.1);
    write_synced(&mut disk, 1, 0, second.as_slice()).expect(rt, "file 1");
    disk
}

// A recovery is refused with this line, and a create then starts from empty.
fn expect_damaged(rt: &impl Abort, alloc: Global, files: (File, File), damage: &str) {
    let disk = disk_holding(rt, alloc, files, None, 0);
    let script = [RECOVER, DUMP, CREATE, DUMP];
    let want = [damage, CLOSED, CREATED, EMPTY];
    expect_over(rt, alloc, damage, disk, &script, &want);
}

// Two files, and the damage that a recovery answers.
const DAMAGED: &[((File, File), &str)] = &[
    (
        ((STORE, 46, 0), NONE),
        "{\"at\":46,\"file\":0,\"host\":\"a\",\"partition\":0,\"refused\":\"damaged\"}\n",
    ),
    (
        (FIRST, (STORE, 4, b'2')),
        "{\"at\":1,\"file\":1,\"host\":\"a\",\"partition\":0,\"refused\":\"damaged\"}\n",
    ),
];

#[test]
fn a_damaged_store_isnt_opened(rt: HostRuntime) {
    for (files, damage) in DAMAGED {
        expect_damaged(&rt, rt.alloc(), *files, damage);
    }
}

#[test]
fn a_store_that_is_cut_isnt_opened(rt: HostRuntime) {
    let prefix = STORE.get(..58).expect(&rt, "a prefix");
    let damage = "{\"at\":58,\"file\":0,\"host\":\"a\",\"partition\":0,\"refused\":\"damaged\"}\n";
    expect_damaged(&rt, rt.alloc(), ((prefix, 0, 1), NONE), damage);
}

// Calls 5 and 6 erase the older one.
const NEWEST: &[(&str, (File, File), Option<u64>, u8, [&str; 2])] = &[
    (
        "the newest in file 1",
        (FIRST, LATER),
        None,
        0,
        [OPENED, OPEN],
    ),
    (
        "the newest in file 0",
        (LATER, FIRST),
        None,
        0,
        [OPENED, OPEN],
    ),
    ("no erasure", (FIRST, LATER), Some(5), 0, [FAULT, OPENED]),
    ("an erasure", (FIRST, LATER), Some(5), 1, [FAULT, OPENED]),
    (
        "a torn erasure",
        (FIRST, LATER),
        Some(5),
        2,
        [FAULT, OPENED],
    ),
    ("no sync", (FIRST, LATER), Some(6), 0, [FAULT, OPENED]),
];

#[test]
fn the_newest_store_is_opened(rt: HostRuntime) {
    let script = [RECOVER, RECOVER, PUT_B2, STOP, RECOVER, DUMP];
    let found =
        "{\"dump\":[{\"caches\":{\"c\":{\"a\":\"2\",\"b\":\"2\"}},\"host\":\"a\",\"id\":\"0-ff-1-0\",\"partition\":0}]}\n";
    for (case, files, fuse, pick, [opened, again]) in NEWEST {
        let disk = disk_holding(&rt, rt.alloc(), *files, *fuse, *pick);
        let want = [*opened, *again, NEW_KEY, STOPPED, OPENED, found];
        expect_over(&rt, rt.alloc(), case, disk, &script, &want);
    }
}

const KEPT_LATER: &str =
    "{\"dump\":[{\"caches\":{\"c\":{\"a\":\"2\"}},\"host\":\"a\",\"id\":\"0-ff-1-0\",\"partition\":0}]}\n";

// Calls 5 and 6 erase file 1, and 7 and 8 file 0.
const ERASED: &[(&str, (File, File), u64, &str)] = &[
    ("the newer in file 1", (FIRST, LATER), 5, KEPT_LATER),
    ("the newer in file 1, erased", (FIRST, LATER), 7, HAS_A1),
    ("the older in file 1", (LATER, FIRST), 5, KEPT_LATER),
    ("the older in file 1, erased", (LATER, FIRST), 7, KEPT_LATER),
];

#[test]
fn a_create_erases_file_1_first(rt: HostRuntime) {
    let script = [CREATE, RECOVER, DUMP];
    for (case, files, fuse, found) in ERASED {
        let disk = disk_holding(&rt, rt.alloc(), *files, Some(*fuse), 0);
        let want = [FAULT, OPENED, *found];
        expect_over(&rt, rt.alloc(), case, disk, &script, &want);
    }
}
