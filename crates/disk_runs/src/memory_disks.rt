// A disk in memory: which image a restart takes, and which calls fail.
use crate::fixtures::expect_same;
use disk_memory::{DiskPlan, MemoryDisk};
use disk_trait::{Disk, DiskRefusal};
use std::alloc::Global;
use std::process::Abort;

#[derive(Clone, Copy)]
enum Step {
    Write(u8, u64, &'static [u8]),
    Cut(u8, u64),
    Sync(u8),
    Restart,
}

use Step::{Cut, Restart, Sync, Write};

fn disk_of(
    rt: &impl Abort,
    alloc: Global,
    fail: &[u64],
    fail_reads: &[u64],
    fuse: Option<u64>,
    pick: u8,
) -> MemoryDisk {
    let plan = DiskPlan {
        fail: fail.to_vec(alloc).expect(rt, "memory"),
        fail_reads: fail_reads.to_vec(alloc).expect(rt, "memory"),
        fuse,
        pick,
    };
    MemoryDisk::new(alloc, plan).expect(rt, "a disk")
}

// Does a step, and says whether it was answered Ok.
fn went(rt: &impl Abort, disk: &mut MemoryDisk, step: Step) -> bool {
    match step {
        Write(file, at, bytes) => {
            assert!(rt; file <= 10, "no such file");
            let length = disk.length(file).expect(rt, "a length");
            assert!(rt; at <= length, "no such offset");
            disk.write_at(file, at, bytes).is_ok()
        }
        Cut(file, to) => {
            assert!(rt; file <= 10, "no such file");
            disk.cut(file, to).is_ok()
        }
        Sync(file) => {
            assert!(rt; file <= 10, "no such file");
            disk.sync(file).is_ok()
        }
        Restart => {
            disk.restart();
            true
        }
    }
}

// All that a read of the file gives.
fn expect_contents(rt: &impl Abort, case: &str, disk: &mut MemoryDisk, file: u8, want: &[u8]) {
    assert!(rt; file <= 10, "no such file");
    let mut into = [0; 32];
    expect_same(rt, case, disk.length(file), Ok(want.len() as u64));
    let count = disk.read(file, 0, &mut into).expect(rt, case);
    expect_same(rt, case, into.get(..count), Some(want));
}

// A file with `abcdef`, synced, on which these steps are done.
fn after(rt: &impl Abort, alloc: Global, pick: u8, steps: &[Step]) -> MemoryDisk {
    let mut disk = disk_of(rt, alloc, &[], &[], None, pick);
    disk.write_at(0, 0, b"abcdef").expect(rt, "a write");
    disk.sync(0).expect(rt, "a sync");
    for step in steps {
        assert!(rt; went(rt, &mut disk, *step), "a step failed");
    }
    disk
}

// The steps, what a read of file 0 gives after them, and what each pick leaves of it.
const PICKS: &[(&str, &[Step], &[u8], [&[u8]; 4])] = &[
    (
        "a write within",
        &[Write(0, 2, b"WXYZ")],
        b"abWXYZ",
        [b"abcdef", b"abWXYZ", b"ab\xff\xff\xff\xff", b"abWXef"],
    ),
    (
        "a write, synced",
        &[Write(0, 2, b"WXYZ"), Sync(0)],
        b"abWXYZ",
        [b"abWXYZ", b"abWXYZ", b"abWXYZ", b"abWXYZ"],
    ),
    (
        "a write, and a sync of another file",
        &[Write(0, 2, b"WXYZ"), Sync(1)],
        b"abWXYZ",
        [b"abcdef", b"abWXYZ", b"ab\xff\xff\xff\xff", b"abWXef"],
    ),
    (
        "a write over a write",
        &[Write(0, 0, b"123"), Write(0, 1, b"45678")],
        b"145678",
        [b"abcdef", b"145678", b"\xff\xff\xff\xff\xff\xff", b"145def"],
    ),
    (
        "a write at the end",
        &[Write(0, 6, b"GHI")],
        b"abcdefGHI",
        [b"abcdef", b"abcdefGHI", b"abcdef\xff\xff\xff", b"abcdefG"],
    ),
    (
        "a write past the end",
        &[Write(0, 4, b"WXYZ")],
        b"abcdWXYZ",
        [b"abcdef", b"abcdWXYZ", b"abcd\xff\xff\xff\xff", b"abcdWX"],
    ),
    (
        "two writes at the end",
        &[Write(0, 6, b"GHIJ"), Write(0, 10, b"KL")],
        b"abcdefGHIJKL",
        [
            b"abcdef",
            b"abcdefGHIJKL",
            b"abcdef\xff\xff\xff\xff\xff\xff",
            b"abcdefGH\0\0K",
        ],
    ),
    (
        "one byte at the end",
        &[Write(0, 6, b"GHIJ"), Write(0, 10, b"K")],
        b"abcdefGHIJK",
        [
            b"abcdef",
            b"abcdefGHIJK",
            b"abcdef\xff\xff\xff\xff\xff",
            b"abcdefGH",
        ],
    ),
    (
        "a cut",
        &[Cut(0, 2)],
        b"ab",
        [b"abcdef", b"ab", b"ab", b"ab"],
    ),
    (
        "a cut, synced",
        &[Cut(0, 2), Sync(0)],
        b"ab",
        [b"ab", b"ab", b"ab", b"ab"],
    ),
    (
        "a cut after the end",
        &[Cut(0, 9), Write(0, 0, b"AB")],
        b"ABcdef",
        [b"abcdef", b"ABcdef", b"\xff\xffcdef", b"Abcdef"],
    ),
    (
        "a write, then a cut",
        &[Write(0, 6, b"GHIJ"), Cut(0, 7)],
        b"abcdefG",
        [b"abcdef", b"abcdefG", b"abcdef\xff", b"abcdefG"],
    ),
    (
        "a cut, then a write",
        &[Cut(0, 2), Write(0, 2, b"XY")],
        b"abXY",
        [b"abcdef", b"abXY", b"ab\xff\xff", b"abX"],
    ),
    (
        "a sync between two writes",
        &[Write(0, 6, b"GH"), Sync(0), Write(0, 1, b"BC")],
        b"aBCdefGH",
        [b"abcdefGH", b"aBCdefGH", b"a\xff\xffdefGH", b"aBcdefGH"],
    ),
];

// A restart by the pick leaves this, and a second one changes nothing.
fn restarts_to(rt: &impl Abort, case: &str, disk: &mut MemoryDisk, seen: &[u8], left: &[u8]) {
    expect_contents(rt, case, disk, 0, seen);
    disk.restart();
    expect_contents(rt, case, disk, 0, left);
    disk.restart();
    expect_contents(rt, case, disk, 0, left);
}

#[test]
fn each_pick_takes_its_image(rt: HostRuntime) {
    for (case, steps, seen, left) in PICKS {
        for pick in 0..4u8 {
            let mut disk = after(&rt, rt.alloc(), pick, steps);
            restarts_to(&rt, case, &mut disk, seen, left[pick as usize]);
        }
    }
}

const TWO_RESTARTS: &[Step] = &[
    Write(0, 2, b"WXYZ"),
    Write(7, 0, b"uvw"),
    Sync(7),
    Write(10, 0, b"pq"),
    Restart,
    Write(0, 0, b"12"),
    Restart,
];

// What each pick leaves of files 0 and 10.
const TWICE: &[(&str, u8, &[u8], &[u8])] = &[
    ("pick 0", 0, b"abcdef", b""),
    ("pick 1", 1, b"12WXYZ", b"pq"),
    ("pick 2", 2, b"\xff\xff\xff\xff\xff\xff", b"\xff\xff"),
    ("pick 3", 3, b"1bWXef", b"p"),
];

#[test]
fn a_disk_goes_on_after_a_restart(rt: HostRuntime) {
    for (case, pick, first, last) in TWICE {
        let mut disk = after(&rt, rt.alloc(), *pick, TWO_RESTARTS);
        expect_contents(&rt, case, &mut disk, 0, first);
        expect_contents(&rt, case, &mut disk, 7, b"uvw");
        expect_contents(&rt, case, &mut disk, 10, last);
        expect_contents(&rt, case, &mut disk, 5, b"");
    }
}

const WRITE: (Step, bool) = (Write(0, 0, b"abcdef"), true);

const SYNC: (Step, bool) = (Sync(0), true);

// Which calls fail, the steps with their answers, and what a read of file 0 gives after them.
const FAILING: &[(&str, &[u64], &[(Step, bool)], &[u8])] = &[
    (
        "a failing write is pending",
        &[3],
        &[WRITE, SYNC, (Write(0, 2, b"WXYZ"), false)],
        b"abWXYZ",
    ),
    (
        "and a stop leaves half of it",
        &[3],
        &[WRITE, SYNC, (Write(0, 2, b"WXYZ"), false), (Restart, true)],
        b"abWXef",
    ),
    (
        "a failing cut is pending",
        &[2, 3],
        &[WRITE, (Cut(0, 4), false), (Cut(0, 2), false), SYNC],
        b"ab",
    ),
    (
        "a failing sync changes nothing",
        &[2],
        &[WRITE, (Sync(0), false), (Restart, true)],
        b"abc",
    ),
    (
        "the first call has the number 1, over all files",
        &[1, 3],
        &[
            (Write(0, 0, b"ab"), false),
            (Sync(4), true),
            (Write(9, 0, b"cd"), false),
            SYNC,
        ],
        b"ab",
    ),
];

// The same by a fuse at call 3.
const FUSED: &[(&str, &[(Step, bool)], &[u8])] = &[
    (
        "a fuse fails its call and all later ones",
        &[
            WRITE,
            SYNC,
            (Write(0, 6, b"GH"), false),
            (Sync(0), false),
            (Cut(1, 0), false),
        ],
        b"abcdefGH",
    ),
    (
        "a restart removes a fuse that was met",
        &[
            WRITE,
            SYNC,
            (Write(0, 6, b"GH"), false),
            (Restart, true),
            (Write(0, 7, b"IJ"), true),
            SYNC,
        ],
        b"abcdefGIJ",
    ),
    (
        "and no other fuse",
        &[
            WRITE,
            SYNC,
            (Restart, true),
            (Sync(0), false),
            (Sync(0), false),
        ],
        b"abcdef",
    ),
];

// Each step is answered so, and a read of file 0 then gives this.
fn expect_steps(
    rt: &impl Abort,
    case: &str,
    disk: &mut MemoryDisk,
    steps: &[(Step, bool)],
    seen: &[u8],
) {
    for (step, want) in steps {
        expect_same(rt, case, went(rt, disk, *step), *want);
    }
    expect_contents(rt, case, disk, 0, seen);
}

#[test]
fn the_plan_says_which_changes_fail(rt: HostRuntime) {
    for (case, fail, steps, seen) in FAILING {
        let mut disk = disk_of(&rt, rt.alloc(), fail, &[], None, 3);
        expect_steps(&rt, case, &mut disk, steps, seen);
    }
}

#[test]
fn a_fuse_fails_all_changes_from_its_own(rt: HostRuntime) {
    for (case, steps, seen) in FUSED {
        let mut disk = disk_of(&rt, rt.alloc(), &[], &[], Some(3), 3);
        expect_steps(&rt, case, &mut disk, steps, seen);
    }
}

const FAILED: DiskRefusal = DiskRefusal::Failed;

#[test]
fn reads_are_numbered_apart(rt: HostRuntime) {
    let mut disk = disk_of(&rt, rt.alloc(), &[2], &[1, 3], None, 0);
    let mut into = [0; 4];
    expect_same(&rt, "read 1", disk.length(0), Err(FAILED));
    expect_same(&rt, "change 1", disk.write_at(0, 0, b"abcdef"), Ok(()));
    expect_same(&rt, "read 2", disk.length(0), Ok(6));
    expect_same(&rt, "read 3", disk.read(0, 0, &mut into), Err(FAILED));
    expect_same(&rt, "change 2", disk.sync(0), Err(FAILED));
    disk.restart();
    expect_same(&rt, "nothing is left", disk.length(0), Ok(0));
}

#[test]
fn a_read_gives_what_is_there(rt: HostRuntime) {
    let mut disk = after(&rt, rt.alloc(), 0, &[]);
    let mut into = [0; 4];
    expect_same(&rt, "room for 4", disk.read(0, 1, &mut into), Ok(4));
    expect_same(&rt, "the bytes", into, *b"bcde");
    expect_same(&rt, "2 are left", disk.read(0, 4, &mut into), Ok(2));
    expect_same(&rt, "none is left", disk.read(0, 6, &mut into), Ok(0));
}
