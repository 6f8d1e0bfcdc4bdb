//! Files that are made free by their kind: the device calls, and what a file is before and after them.
use crate::contents::free_known;
use crate::fixtures::{BEGUN, SEALED, disk_of, expect_same, expect_shown};
use file_kinds::{FileForm, file_form};
use slot_board::SlotKind;
use std::alloc::Global;
use std::process::Abort;

// A file's bytes before, the form that these have, and its bytes after.
type Bytes = (&'static [u8], FileForm, &'static [u8]);

// Where a file is made free, by these calls, its form is blank from then on.
fn expect_freed(
    rt: &impl Abort,
    alloc: Global,
    case: &str,
    kind: SlotKind,
    file: Bytes,
    calls: &[u8],
) {
    let (before, form, after) = file;
    let mut disk = disk_of(rt, alloc, before);
    expect_same(rt, case, file_form(&mut disk, 0), Ok(form));
    expect_same(rt, case, free_known(rt, &mut disk, kind), Ok(()));
    expect_same(rt, case, file_form(&mut disk, 0), Ok(FileForm::Blank));
    expect_shown(rt, case, &mut disk, 0, after);
    expect_shown(rt, case, &mut disk, 1, calls);
}

// The first bytes of a header that was cut short, after a seal, after another byte, and after a zero.
const TORN: &[u8] = b"\x01PS";

const TORN_FIRST: &[u8] = b"\x07PS";

const FREE: &[u8] = b"\x00PS";

// A kind, a file of that kind before and after it is made free, and the calls that do it.
const FREED: &[(&str, SlotKind, Bytes, &[u8])] = &[
    (
        "no file",
        SlotKind::Empty,
        (b"", FileForm::Short, b"\x00"),
        b"ws",
    ),
    (
        "torn after a seal",
        SlotKind::Empty,
        (TORN, FileForm::Short, FREE),
        b"ws",
    ),
    (
        "torn in its first byte",
        SlotKind::Empty,
        (TORN_FIRST, FileForm::Short, FREE),
        b"ws",
    ),
    (
        "short, with a zero first",
        SlotKind::Empty,
        (FREE, FileForm::Blank, FREE),
        b"ws",
    ),
    ("blank", SlotKind::Blank, (FREE, FileForm::Blank, FREE), b""),
    (
        "a build given up",
        SlotKind::Blank,
        (BEGUN, FileForm::Blank, BEGUN),
        b"",
    ),
    (
        "stale",
        SlotKind::Stale,
        (SEALED, FileForm::Sealed, BEGUN),
        b"ws",
    ),
    (
        "in doubt",
        SlotKind::Doubt,
        (SEALED, FileForm::Sealed, BEGUN),
        b"ws",
    ),
    (
        "in doubt, not sealed",
        SlotKind::Doubt,
        (BEGUN, FileForm::Blank, BEGUN),
        b"ws",
    ),
    (
        "current",
        SlotKind::Current,
        (SEALED, FileForm::Sealed, BEGUN),
        b"ws",
    ),
];

#[test]
fn a_file_of_each_kind_is_made_free(rt: HostRuntime) {
    for (case, kind, file, calls) in FREED {
        expect_freed(&rt, rt.alloc(), case, *kind, *file, calls);
    }
}

#[test]
fn a_file_has_the_form_of_its_length_and_first_byte(rt: HostRuntime) {
    for length in 0..41 {
        let mut sealed = disk_of(&rt, rt.alloc(), &SEALED[..length]);
        expect_same(&rt, "short", file_form(&mut sealed, 0), Ok(FileForm::Short));
        let mut blank = disk_of(&rt, rt.alloc(), &BEGUN[..length + 1]);
        expect_same(&rt, "blank", file_form(&mut blank, 0), Ok(FileForm::Blank));
    }
    let mut whole = disk_of(&rt, rt.alloc(), SEALED);
    expect_same(&rt, "whole", file_form(&mut whole, 0), Ok(FileForm::Sealed));
}
