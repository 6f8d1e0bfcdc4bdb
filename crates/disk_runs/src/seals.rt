// The five calls on a seal, over a host that keeps one file in memory.
use crate::fixtures::expect_same;
use crate::one_file::OneFile;
use disk_trait::{Disk, DiskRefusal};
use seal_gate::{blank, erase, is_sealed, seal, settle};
use std::alloc::Global;
use std::process::Abort;
use untold_disk::UntoldDisk;

// A file of so many bytes, all of them zero but the first.
fn disk_of(
    rt: &impl Abort,
    alloc: Global,
    first: u8,
    length: usize,
    failing: u64,
) -> UntoldDisk<OneFile> {
    let mut bytes = vec![in alloc; 0; length].expect(rt, "memory");
    if let Some(there) = bytes.get_mut(0) {
        *there = first;
    }
    UntoldDisk::over(OneFile::holding(bytes, failing))
}

fn first_byte<D: Disk>(disk: &mut D) -> Result<u8, DiskRefusal> {
    let mut first = [7];
    disk.read(0, 0, &mut first)?;
    Ok(first[0])
}

// The first byte, the length, and whether the file is sealed.
const SEALED: &[(&str, u8, usize, bool)] = &[
    ("empty", 0, 0, false),
    ("a seal and 39 bytes", 1, 40, false),
    ("a seal and a header", 1, 41, true),
    ("any byte but zero", 255, 42, true),
    ("no seal", 0, 42, false),
];

#[test]
fn a_seal_is_a_byte_before_a_header(rt: HostRuntime) {
    for (case, first, length, want) in SEALED {
        let mut disk = disk_of(&rt, rt.alloc(), *first, *length, 0);
        expect_same(&rt, case, is_sealed(&mut disk, 0), Ok(*want));
    }
}

#[test]
fn a_blank_file_begins_with_zero(rt: HostRuntime) {
    let mut disk = disk_of(&rt, rt.alloc(), 0, 0, 0);
    expect_same(&rt, "blank", blank(&mut disk, 0), Ok(()));
    expect_same(&rt, "a zero", first_byte(&mut disk), Ok(0));
}

#[test]
fn each_call_leaves_its_first_byte(rt: HostRuntime) {
    let mut disk = disk_of(&rt, rt.alloc(), 0, 41, 0);
    expect_same(&rt, "settle", settle(&mut disk, 0), Ok(()));
    expect_same(&rt, "seal", seal(&mut disk, 0), Ok(()));
    expect_same(&rt, "sealed", first_byte(&mut disk), Ok(1));
    expect_same(&rt, "erase", erase(&mut disk, 0), Ok(()));
    expect_same(&rt, "erased", first_byte(&mut disk), Ok(0));
}

// Which call fails, and what sealing answers.
const FAILING: &[(&str, u64, Result<(), DiskRefusal>)] = &[
    ("the write fails", 1, Err(DiskRefusal::Failed)),
    ("the sync fails", 2, Err(DiskRefusal::Failed)),
    ("a third call isn't made", 3, Ok(())),
];

#[test]
fn a_failing_device_is_answered(rt: HostRuntime) {
    for (case, failing, want) in FAILING {
        let mut disk = disk_of(&rt, rt.alloc(), 0, 41, *failing);
        expect_same(&rt, case, seal(&mut disk, 0), *want);
    }
}
