//! The device calls of a whole build, and the store that it leaves.
use crate::contents::{build_in, expect_puts, map_of};
use crate::fixtures::{BEGUN, HEADER, SEALED, disk_of, expect_same, expect_shown};
use slot_board::SlotKind;
use std::alloc::Global;
use std::process::Abort;
use store_journal::Store;

// A store of so many puts is built in a file of this kind by these calls, and is then loaded.
fn expect_built(
    rt: &impl Abort,
    alloc: Global,
    case: &str,
    file: (SlotKind, &[u8]),
    count: u8,
    calls: &[u8],
) {
    if file.0 == SlotKind::Unknown {
        panic!(rt; "{case}: nothing is built in a file of which nothing is known");
    }
    let map = map_of(rt, alloc, count);
    let mut disk = disk_of(rt, alloc, file.1);
    let store = build_in(rt, alloc, &mut disk, file.0, &map).expect(rt, case);
    expect_same(rt, case, store.end + 1, map.live());
    expect_shown(rt, case, &mut disk, 1, calls);
    let loaded = Store::load(alloc, &mut disk, 0, 2, 4).expect(rt, case);
    expect_same(
        rt,
        case,
        (loaded.store.id, loaded.store.end),
        (HEADER.id, store.end),
    );
    expect_puts(rt, alloc, case, &loaded.contents, count);
}

// A kind, a file of that kind, and the calls that build a store of 65 puts in it.
const KINDS: &[(&str, SlotKind, &[u8], &[u8])] = &[
    ("no file", SlotKind::Empty, b"", b"wscwwwwsws"),
    ("torn", SlotKind::Empty, b"\x07PS", b"wscwwwwsws"),
    ("blank", SlotKind::Blank, b"\x00PS", b"cwwwwsws"),
    ("given up", SlotKind::Blank, BEGUN, b"cwwwwsws"),
    ("stale", SlotKind::Stale, SEALED, b"wscwwwwsws"),
    ("in doubt", SlotKind::Doubt, SEALED, b"wscwwwwsws"),
    ("current", SlotKind::Current, SEALED, b"wscwwwwsws"),
];

#[test]
fn a_store_is_built_in_a_file_of_each_kind(rt: HostRuntime) {
    for (case, kind, before, calls) in KINDS {
        expect_built(&rt, rt.alloc(), case, (*kind, before), 65, calls);
    }
}

// How many puts, and the calls that build a store of them in an empty file: one for each record of 64 of them.
const COUNTS: &[(&str, u8, &[u8])] = &[
    ("none", 0, b"wscwwsws"),
    ("one", 1, b"wscwwwsws"),
    ("a full record", 64, b"wscwwwsws"),
    ("one more", 65, b"wscwwwwsws"),
    ("two full records", 128, b"wscwwwwsws"),
    ("one more than two", 129, b"wscwwwwwsws"),
    ("two hundred", 200, b"wscwwwwwwsws"),
];

#[test]
fn a_build_makes_a_call_for_each_record(rt: HostRuntime) {
    for (case, count, calls) in COUNTS {
        expect_built(&rt, rt.alloc(), case, (SlotKind::Empty, b""), *count, calls);
    }
}

// A seal, the header, the record of one put, and a closed gate.
const ONE_PUT: &[u8] =
    b"\x01PST1\x00\x01\x00\x02\x00\x00\x00\x00\x00\x00\x00\x03\x00\x00\x00\x00\x00\x00\x00\x05\
\x00\x01\x00\x04\x00\x00\x00\x00\x00\x00\x00\x00\x00\x00\x00\x00\x01\x00\x00\x00\x0f\x01\x01\x01c\x00\x03000\
\x00\x00\x00\x02v0\x00";

#[test]
fn a_built_store_is_its_bytes(rt: HostRuntime) {
    let map = map_of(&rt, rt.alloc(), 1);
    let mut disk = disk_of(&rt, rt.alloc(), b"");
    let store = build_in(&rt, rt.alloc(), &mut disk, SlotKind::Empty, &map).expect(&rt, "a store");
    expect_same(&rt, "its end", store.end, 61);
    expect_shown(&rt, "its bytes", &mut disk, 0, ONE_PUT);
}
