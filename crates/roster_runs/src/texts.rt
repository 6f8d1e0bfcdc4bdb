//! The bytes of a roster.
use crate::fixtures::{expect_same, hosts};
use crate::rosters::WORKED;
use roster_form::{RosterFault, decode_roster, encode_roster};
use std::alloc::Global;
use std::process::Abort;

fn fault_of(alloc: Global, text: &[u8], partitions: u16) -> Option<RosterFault> {
    match decode_roster(alloc, text, partitions) {
        Ok(_) => None,
        Err(fault) => Some(fault),
    }
}

#[test]
fn a_roster_is_its_forty_five_bytes(rt: HostRuntime) {
    let alloc = rt.alloc();
    expect_same(&rt, "its length", WORKED.len(), 45);
    let roster = decode_roster(alloc, WORKED, 2).expect(&rt, "a roster");
    expect_same(&rt, "its epoch", roster.epoch, 3);
    expect_same(&rt, "its joining host", roster.joining, None);
    let again = encode_roster(alloc, &roster).expect(&rt, "its bytes");
    expect_same(&rt, "its bytes", again.as_slice(), WORKED);
    expect_same(
        &rt,
        "its hosts",
        roster.hosts,
        hosts(&rt, alloc, &["a", "b"]),
    );
    let fault = fault_of(alloc, WORKED, 3);
    expect_same(
        &rt,
        "read for three partitions",
        fault,
        Some(RosterFault::Form { at: 7 }),
    );
}

// An offset of it, another byte there, and the offset of the fault.
const FAULTS: &[(&str, usize, u8, Option<u64>)] = &[
    ("no seal", 0, 0, Some(0)),
    ("another seal", 0, 7, None),
    ("another magic", 4, b'2', Some(1)),
    ("another format", 6, 2, Some(5)),
    ("other partitions", 8, 3, Some(7)),
    ("no epoch", 16, 0, Some(9)),
    ("an epoch past the last", 9, 4, Some(9)),
    ("the joining host of no list", 17, 16, Some(17)),
    ("a joining host past the list", 17, 2, Some(18)),
    ("the second host is joining", 17, 1, None),
    ("no host", 18, 0, Some(18)),
    ("too many hosts", 18, 17, Some(18)),
    ("one host, and more bytes", 18, 1, Some(43)),
    ("three hosts, of which one is missing", 18, 3, Some(45)),
    ("a byte after the count", 19, 1, Some(19)),
    ("the last zero of that field", 24, 1, Some(19)),
    ("a byte of the next field", 26, 1, Some(25)),
    ("a byte of the field after that", 28, 1, Some(27)),
    ("the last zero", 40, 1, Some(29)),
    ("an empty name", 41, 0, Some(41)),
    ("a name that is too long", 41, 65, Some(41)),
    ("a byte that no name has", 42, b' ', Some(42)),
    ("a name with too few bytes", 43, 2, Some(45)),
    ("the same name twice", 44, b'a', Some(43)),
    ("names that fall", 42, b'c', Some(43)),
];

#[test]
fn a_roster_is_refused_at_its_first_wrong_field(rt: HostRuntime) {
    let alloc = rt.alloc();
    for (case, offset, byte, want) in FAULTS {
        let mut text = WORKED.to_vec(alloc).expect(&rt, "bytes");
        *text.get_mut(*offset).expect(&rt, case) = *byte;
        let want = want.map(|at| RosterFault::Form { at });
        expect_same(&rt, case, fault_of(alloc, text.as_slice(), 2), want);
    }
}

#[test]
fn a_missing_byte_is_a_fault_at_the_length(rt: HostRuntime) {
    let alloc = rt.alloc();
    for length in 0..WORKED.len() {
        let text = WORKED.get(..length).expect(&rt, "a prefix");
        let want = Some(RosterFault::Form { at: length as u64 });
        expect_same(&rt, "a cut", fault_of(alloc, text, 2), want);
    }
}
