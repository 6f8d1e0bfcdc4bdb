//! Groups of mutations of every kind, encoded and decoded.
use crate::fixtures::{TAGS, expect_same, expect_tags, mutation};
use record_form::{Group, GroupRefusal, RecordFault, decode_group, encode_tail, growth};
use std::alloc::Global;
use std::process::Abort;

// The growth of each tag's mutation. What only takes away adds nothing; a batch may add a put for each pair.
const GROWTHS: &[(&str, u8, u64)] = &[
    ("a put", 1, 17),
    ("a remove", 2, 0),
    ("an ensure", 3, 9),
    ("a truncate", 4, 0),
    ("a destroy", 5, 0),
    ("a batch", 6, 28),
];

#[test]
fn a_mutation_has_its_growth(rt: HostRuntime) {
    for (case, tag, want) in GROWTHS {
        let mutation = mutation(&rt, rt.alloc(), *tag);
        expect_same(&rt, case, growth(&mutation), *want);
    }
}

// The group of a mutation of each of these tags.
fn group_of(rt: &impl Abort, alloc: Global, first: u8, others: &[u8]) -> Group {
    let mut group = Group::one(alloc, mutation(rt, alloc, first)).expect(rt, "a group");
    for tag in others {
        let more = mutation(rt, alloc, *tag);
        group.push(more).expect(rt, "room for it");
    }
    group
}

// Tags of mutations, where the payload ends in the tail, and the tail: the length of the payload, the payload, and a closed
// gate.
const TAILS: &[(&str, u8, &[u8], usize, &[u8])] = &[
    (
        "a put",
        1,
        &[],
        16,
        b"\x00\x00\x00\x0c\x01\x01\x01c\x00\x01a\x00\x00\x00\x011\x00",
    ),
    (
        "a remove",
        2,
        &[],
        11,
        b"\x00\x00\x00\x07\x01\x02\x01c\x00\x01a\x00",
    ),
    ("an ensure", 3, &[], 8, b"\x00\x00\x00\x04\x01\x03\x01c\x00"),
    (
        "a truncate",
        4,
        &[],
        8,
        b"\x00\x00\x00\x04\x01\x04\x01c\x00",
    ),
    ("a destroy", 5, &[], 8, b"\x00\x00\x00\x04\x01\x05\x01c\x00"),
    (
        "a batch",
        6,
        &[],
        25,
        b"\x00\x00\x00\x15\x01\x06\x01c\x02\x00\x01a\x00\x00\x00\x011\x00\x01b\x00\x00\x00\x012\x00",
    ),
    (
        "each of them",
        1,
        &[2, 3, 4, 5, 6],
        51,
        b"\x00\x00\x00\x2f\x06\x01\x01c\x00\x01a\x00\x00\x00\x011\x02\x01c\x00\x01a\x03\x01c\x04\x01c\x05\x01c\
\x06\x01c\x02\x00\x01a\x00\x00\x00\x011\x00\x01b\x00\x00\x00\x012\x00",
    ),
    (
        "one of them twice",
        5,
        &[3, 5],
        14,
        b"\x00\x00\x00\x0a\x03\x05\x01c\x03\x01c\x05\x01c\x00",
    ),
];

#[test]
fn a_group_has_its_tail(rt: HostRuntime) {
    for (case, first, others, _, want) in TAILS {
        let group = group_of(&rt, rt.alloc(), *first, others);
        let tail = encode_tail(rt.alloc(), &group).expect(&rt, case);
        expect_same(&rt, case, tail.as_slice(), *want);
    }
}

#[test]
fn a_group_is_decoded_of_its_payload(rt: HostRuntime) {
    for (case, first, others, end, tail) in TAILS {
        let payload = tail.get(4..*end).expect(&rt, case);
        let want = group_of(&rt, rt.alloc(), *first, others);
        let group = decode_group(rt.alloc(), payload).expect(&rt, case);
        expect_same(&rt, case, group.size(), want.size());
        expect_same(&rt, case, group.mutations(), want.mutations());
        expect_same(&rt, case, group.into_mutations(), want.into_mutations());
    }
}

#[test]
fn a_group_gives_its_mutations_in_their_order(rt: HostRuntime) {
    let group = group_of(&rt, rt.alloc(), 1, &[2, 3, 4, 5, 6]);
    expect_same(&rt, "size", group.size(), 47);
    expect_tags(&rt, rt.alloc(), "lent", group.mutations(), TAGS);
    let mutations = group.into_mutations();
    expect_tags(&rt, rt.alloc(), "given", mutations.as_slice(), TAGS);
}

// The group is full, and the mutation of this tag is given back.
fn expect_full(rt: &impl Abort, alloc: Global, group: &mut Group, tag: u8) {
    let refused = group.push(mutation(rt, alloc, tag)).err();
    let want = (GroupRefusal::Full, mutation(rt, alloc, tag));
    expect_same(rt, "one too many", refused, Some(want));
}

#[test]
fn a_group_has_at_most_64_mutations(rt: HostRuntime) {
    let mut group = group_of(&rt, rt.alloc(), 3, &[3; 63]);
    expect_same(&rt, "its size", group.size(), 193);
    for tag in TAGS {
        expect_full(&rt, rt.alloc(), &mut group, *tag);
    }
    expect_same(&rt, "its mutations", group.mutations().len(), 64);
}

// Payloads that are no group, and the fault of each.
const NO_GROUPS: &[(&str, &[u8], RecordFault)] = &[
    ("no byte", b"", RecordFault::Short(0)),
    ("no mutation", b"\x00", RecordFault::Range(0)),
    ("65 mutations", b"\x41", RecordFault::Range(0)),
    ("no tag", b"\x01", RecordFault::Short(1)),
    ("a tag of zero", b"\x01\x00", RecordFault::Tag(1)),
    ("another tag", b"\x01\x07", RecordFault::Tag(1)),
    ("no second tag", b"\x02\x03\x01c", RecordFault::Short(4)),
    (
        "another second tag",
        b"\x02\x03\x01c\x08",
        RecordFault::Tag(4),
    ),
    ("no name", b"\x01\x01\x00", RecordFault::Range(2)),
    ("a name too long", b"\x01\x01\x41", RecordFault::Range(2)),
    ("half a name", b"\x01\x01\x02c", RecordFault::Short(4)),
    (
        "half a name, and a blank",
        b"\x01\x03\x02 ",
        RecordFault::Name(3),
    ),
    ("a blank for a name", b"\x01\x03\x01 ", RecordFault::Name(3)),
    ("a blank in a name", b"\x01\x01\x02c ", RecordFault::Name(4)),
    ("half a count", b"\x01\x01\x01c\x00", RecordFault::Short(5)),
    ("no key", b"\x01\x01\x01c\x00\x00", RecordFault::Range(4)),
    (
        "a remove of no key",
        b"\x01\x02\x01c\x00\x00",
        RecordFault::Range(4),
    ),
    (
        "a key too long, and no byte of it",
        b"\x01\x02\x01c\x04\x01",
        RecordFault::Range(4),
    ),
    (
        "half a length that no key has",
        b"\x01\x02\x01c\x05",
        RecordFault::Short(5),
    ),
    (
        "a key of other bytes",
        b"\x01\x01\x01c\x00\x02a\xff",
        RecordFault::Name(7),
    ),
    (
        "half a key",
        b"\x01\x02\x01c\x00\x03\xe2\x82",
        RecordFault::Short(8),
    ),
    (
        "half a key, with no room for its character",
        b"\x01\x02\x01c\x00\x03a\xe2",
        RecordFault::Name(7),
    ),
    (
        "half a key, of other bytes",
        b"\x01\x02\x01c\x00\x05a\xff",
        RecordFault::Name(7),
    ),
    (
        "a key that ends in a character",
        b"\x01\x02\x01c\x00\x02\xe2\x82",
        RecordFault::Name(6),
    ),
    (
        "a value too long",
        b"\x01\x01\x01c\x00\x01a\x00\x01\x00\x01",
        RecordFault::Range(7),
    ),
    (
        "no value",
        b"\x01\x01\x01c\x00\x01a\x00\x00\x00\x01",
        RecordFault::Short(11),
    ),
    (
        "a byte too many",
        b"\x01\x01\x01c\x00\x01a\x00\x00\x00\x00\x00",
        RecordFault::Range(11),
    ),
    (
        "a byte after an ensure",
        b"\x01\x03\x01c\x00",
        RecordFault::Range(4),
    ),
    (
        "a key after a truncate",
        b"\x01\x04\x01c\x00\x01a",
        RecordFault::Range(4),
    ),
    ("no pairs", b"\x01\x06\x01c\x00", RecordFault::Range(4)),
    ("65 pairs", b"\x01\x06\x01c\x41", RecordFault::Range(4)),
    (
        "half a second pair",
        b"\x01\x06\x01c\x02\x00\x01a\x00\x00\x00\x00\x00\x01",
        RecordFault::Short(14),
    ),
    (
        "a pair too many",
        b"\x01\x06\x01c\x01\x00\x01a\x00\x00\x00\x00\x00\x01b\x00\x00\x00\x00",
        RecordFault::Range(12),
    ),
];

#[test]
fn a_payload_is_refused_at_its_first_fault(rt: HostRuntime) {
    for (case, payload, want) in NO_GROUPS {
        let fault = decode_group(rt.alloc(), payload).err();
        expect_same(&rt, case, fault, Some(*want));
    }
}

// So many batches of 64 pairs each, with values of 65,536 bytes: two of them are too long for a group.
fn batches(rt: &impl Abort, alloc: Global, count: u8) -> Vec<u8> {
    let value = vec![in alloc; b'v'; 65_536].expect(rt, "a value");
    let mut payload = Vec::new(alloc);
    payload.push(count).expect(rt, "its count");
    for _ in 0..count {
        payload
            .extend_from_slice(b"\x06\x01c\x40")
            .expect(rt, "a batch");
        for _ in 0..64 {
            payload
                .extend_from_slice(b"\x00\x01a\x00\x01\x00\x00")
                .expect(rt, "a pair");
            payload
                .extend_from_slice(value.as_slice())
                .expect(rt, "its value");
        }
    }
    payload
}

// Payloads of more than 8,388,608 bytes: what stands at an offset, unless it stays, and the fault.
const LONG_PAYLOADS: &[(&str, usize, Option<u8>, RecordFault)] = &[
    ("mutations", 0, None, RecordFault::Range(8_388_608)),
    (
        "a third one promised",
        0,
        Some(3),
        RecordFault::Range(8_388_608),
    ),
    (
        "another tag in it",
        4_194_757,
        Some(7),
        RecordFault::Tag(4_194_757),
    ),
    (
        "a bad byte before the limit",
        8_388_607,
        Some(b'\xff'),
        RecordFault::Name(8_388_607),
    ),
    (
        "a bad byte at the limit",
        8_388_608,
        Some(b'\xff'),
        RecordFault::Range(8_388_608),
    ),
];

#[test]
fn a_payload_past_the_limit_is_refused_there(rt: HostRuntime) {
    for (case, offset, byte, want) in LONG_PAYLOADS {
        let mut payload = batches(&rt, rt.alloc(), 2);
        if let Some(byte) = byte {
            match payload.get_mut(*offset) {
                Some(there) => *there = *byte,
                None => assert!(rt; false, "{case}"),
            }
        }
        let fault = decode_group(rt.alloc(), payload.as_slice()).err();
        expect_same(&rt, case, fault, Some(*want));
    }
}
