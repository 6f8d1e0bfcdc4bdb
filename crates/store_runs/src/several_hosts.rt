//! Which store counts among those of three hosts, on disks in memory.
ghost use Rattle.std.specs.Prelude.{◌≤◌, length};

use crate::fixtures::{ERASED, FIRST, File, MAGIC, NONE, ONE, TWO, VERSION, disk_of, expect_same};
use disk_memory::MemoryDisk;
use newest_store::{Choice, ChoiceFault, newest};
use std::alloc::Global;
use std::process::Abort;

// The two files of each host.
type Files = ((File, File), (File, File), (File, File));

// The host, the file and the version of a store.
type Found = (u16, u8, u64);

const EMPTY: (File, File) = (NONE, NONE);

const THREE: File = (FIRST, VERSION, 3);

// The files of three hosts, and the store that counts among them.
const COUNTS: &[(&str, Files, Found)] = &[
    ("one store alone", (EMPTY, EMPTY, (NONE, ONE)), (2, 1, 1)),
    (
        "the newest on the first host",
        ((ONE, TWO), (ONE, NONE), (NONE, ONE)),
        (0, 1, 2),
    ),
    (
        "the newest on the last host",
        ((ONE, TWO), (TWO, NONE), (THREE, TWO)),
        (2, 0, 3),
    ),
    (
        "a tie goes to the lower host",
        ((ONE, NONE), (ONE, TWO), (TWO, NONE)),
        (1, 1, 2),
    ),
    (
        "a tie on one host goes to the lower file",
        ((ONE, NONE), (TWO, TWO), (ONE, TWO)),
        (1, 0, 2),
    ),
    (
        "what isn't sealed doesn't count",
        ((ONE, ERASED), (ERASED, NONE), EMPTY),
        (0, 0, 1),
    ),
];

fn disks_of(rt: &impl Abort, alloc: Global, files: Files) -> [MemoryDisk; 3] {
    let (first, second, third) = files;
    [
        disk_of(rt, alloc, first, (0, 0, 0)),
        disk_of(rt, alloc, second, (0, 0, 0)),
        disk_of(rt, alloc, third, (0, 0, 0)),
    ]
}

// What counts among all three hosts, in the order of their numbers or in another.
fn chosen(disks: &mut [MemoryDisk], in_order: bool) -> Result<Choice, ChoiceFault>
    requires { 3 ≤ length disks.old }
{
    if in_order {
        newest(disks, &[0, 1, 2])
    } else {
        newest(disks, &[2, 0, 1])
    }
}

fn found(rt: &impl Abort, case: &str, choice: Result<Choice, ChoiceFault>) -> Found {
    match choice.expect(rt, case) {
        Choice::One { host, file, id } => (host, file, id.version),
        Choice::NoStore => (u16::MAX, u8::MAX, 0),
    }
}

#[test]
fn one_store_counts_in_whatever_order_the_hosts_stand(rt: HostRuntime) {
    for (case, files, want) in COUNTS {
        let mut disks = disks_of(&rt, rt.alloc(), *files);
        expect_same(&rt, case, found(&rt, case, chosen(&mut disks, true)), *want);
        expect_same(
            &rt,
            case,
            found(&rt, case, chosen(&mut disks, false)),
            *want,
        );
    }
}

#[test]
fn hosts_without_a_sealed_file_have_no_store(rt: HostRuntime) {
    let mut disks = disks_of(&rt, rt.alloc(), (EMPTY, (ERASED, NONE), EMPTY));
    expect_same(
        &rt,
        "no seal",
        chosen(&mut disks, true),
        Ok(Choice::NoStore),
    );
}

const MAGICAL: File = (FIRST, MAGIC, b'2');

// The first damaged header in the order of the list is told, also beside a newer store.
#[test]
fn the_first_damaged_header_is_told(rt: HostRuntime) {
    let files = ((ONE, MAGICAL), (TWO, NONE), (MAGICAL, THREE));
    let mut disks = disks_of(&rt, rt.alloc(), files);
    let first = ChoiceFault::Damaged {
        host: 0,
        file: 1,
        at: 1,
    };
    expect_same(&rt, "in order", chosen(&mut disks, true), Err(first));
    let last = ChoiceFault::Damaged {
        host: 2,
        file: 0,
        at: 1,
    };
    expect_same(
        &rt,
        "in another order",
        chosen(&mut disks, false),
        Err(last),
    );
}
