//! The newest of two stores on a disk in memory, after a restart.
use crate::fixtures::{
    ERASED, FIRST, File, GATE, HALF, MAGIC, NONE, ONE, PARTITION, Plan, SEAL, SECOND, TWO, VALUE,
    VERSION, disk_of, expect_entries, expect_same, newest_of,
};
use disk_memory::MemoryDisk;
use newest_store::NewestFault;
use seal_gate::is_sealed;
use std::alloc::Global;
use std::process::Abort;

// The two files are sealed or not.
fn expect_seals(rt: &impl Abort, case: &str, disk: &mut MemoryDisk, first: bool, second: bool) {
    expect_same(rt, case, is_sealed(disk, 0), Ok(first));
    expect_same(rt, case, is_sealed(disk, 1), Ok(second));
}

// A store's file, its version and the value of its one put.
type Opened = (u8, u64, &'static str);

// A recovery opens this store, and leaves its seal alone.
fn expect_opened(
    rt: &impl Abort,
    alloc: Global,
    case: &str,
    disk: &mut MemoryDisk,
    opened: Opened,
) {
    let (file, version, value) = opened;
    let loaded = newest_of(alloc, disk).expect(rt, case);
    expect_same(rt, case, loaded.store.file, file);
    expect_same(rt, case, loaded.store.id.version, version);
    expect_same(rt, case, loaded.store.end, 58);
    expect_entries(rt, alloc, case, &loaded.contents, &[("a", value)]);
    expect_seals(rt, case, disk, file == 0, file == 1);
}

const AGAIN: File = (FIRST, VALUE, b'3');

const ELSEWHERE: File = (FIRST, PARTITION, 1);

// Two files, and the store that is opened.
const NEWEST: &[(&str, (File, File), Opened)] = &[
    ("one in file 0", (ONE, NONE), (0, 1, "1")),
    ("one in file 1", (NONE, ONE), (1, 1, "1")),
    ("the older in file 0", (ONE, TWO), (1, 2, "2")),
    ("the older in file 1", (TWO, ONE), (0, 2, "2")),
    ("the same version", (ONE, AGAIN), (0, 1, "1")),
    ("the same version, swapped", (AGAIN, ONE), (0, 1, "3")),
    ("a greater one, no seal", (ONE, ERASED), (0, 1, "1")),
    (
        "a greater one, no seal, swapped",
        (ERASED, ONE),
        (1, 1, "1"),
    ),
    ("an older one elsewhere", (ELSEWHERE, TWO), (1, 2, "2")),
];

#[test]
fn the_newest_store_alone_is_left(rt: HostRuntime) {
    for (case, files, opened) in NEWEST {
        let mut disk = disk_of(&rt, rt.alloc(), *files, (0, 0, 0));
        expect_opened(&rt, rt.alloc(), case, &mut disk, *opened);
    }
}

// A recovery of these files answers this fault.
fn expect_fault(
    rt: &impl Abort,
    alloc: Global,
    case: &str,
    files: (File, File),
    want: NewestFault,
) -> MemoryDisk {
    let mut disk = disk_of(rt, alloc, files, (0, 0, 0));
    let fault = newest_of(alloc, &mut disk).err();
    expect_same(rt, case, fault, Some(want));
    disk
}

// Files with no store.
const SEALLESS: &[(&str, File, File)] = &[
    ("no file", NONE, NONE),
    ("a seal and half a header", HALF, (b"\x01", SEAL, 1)),
    ("stores without a seal", ERASED, ERASED),
];

#[test]
fn files_without_a_seal_have_no_store(rt: HostRuntime) {
    for (case, first, second) in SEALLESS {
        let files = (*first, *second);
        expect_fault(&rt, rt.alloc(), case, files, NewestFault::NoStore);
    }
}

const MAGICAL: File = (FIRST, MAGIC, b'2');

const UNVERSIONED: File = (FIRST, VERSION, 0);

const FEWER: File = (FIRST, PARTITION, 2);

const OTHER: File = (SECOND, PARTITION, 1);

const OPEN: File = (SECOND, GATE, 1);

// Two files, which of them is damaged, and at which offset.
const DAMAGED: &[(&str, (File, File), u8, u64)] = &[
    ("another magic in the older", (MAGICAL, TWO), 0, 1),
    ("another magic in the older, swapped", (TWO, MAGICAL), 1, 1),
    ("no version", (UNVERSIONED, TWO), 0, 9),
    ("fewer partitions", (FEWER, TWO), 0, 27),
    ("no header in either", (UNVERSIONED, MAGICAL), 0, 9),
    ("the newest elsewhere", (ONE, OTHER), 1, 7),
    ("the newest elsewhere, swapped", (OTHER, ONE), 0, 7),
    ("no closed gate in the newest", (ONE, OPEN), 1, 59),
];

#[test]
fn a_damaged_file_is_named_with_its_offset(rt: HostRuntime) {
    for (case, files, file, at) in DAMAGED {
        let want = NewestFault::Damaged {
            file: *file,
            at: *at,
        };
        let mut disk = expect_fault(&rt, rt.alloc(), case, *files, want);
        expect_seals(&rt, case, &mut disk, true, true);
    }
}

// A recovery fails, and one after it opens the newest store.
fn expect_failed(rt: &impl Abort, alloc: Global, case: &str, plan: Plan) {
    let mut disk = disk_of(rt, alloc, (ONE, TWO), plan);
    let fault = newest_of(alloc, &mut disk).err();
    expect_same(rt, case, fault, Some(NewestFault::Failed));
    expect_opened(rt, alloc, case, &mut disk, (1, 2, "2"));
}

// Which call of a recovery fails.
const FAILING: &[(&str, Plan)] = &[
    ("the first header", (0, 1, 0)),
    ("the second header", (0, 2, 0)),
    ("the newest one's length", (0, 3, 0)),
    ("the newest one's bytes", (0, 4, 0)),
    ("the older one's length", (0, 5, 0)),
    ("the older one's first byte", (0, 6, 0)),
    ("the older one's erasure", (5, 0, 0)),
    ("the older one's sync", (6, 0, 0)),
];

#[test]
fn a_failing_device_is_answered(rt: HostRuntime) {
    for (case, plan) in FAILING {
        expect_failed(&rt, rt.alloc(), case, *plan);
    }
}
