//! Headers of stores, encoded and decoded.
use crate::fixtures::{HEADER, WHOLE, expect_same};
use record_form::{RecordFault, decode_header, encode_header};
use std::process::Abort;

// The bytes of a header.
fn header_text(rt: &impl Abort) -> [u8; 40] {
    let mut text = [0; 40];
    let bytes = WHOLE.get(1..41).expect(rt, "a header");
    text.copy_from_slice(bytes);
    text
}

#[test]
fn a_header_is_its_forty_bytes(rt: HostRuntime) {
    let text = header_text(&rt);
    expect_same(&rt, "encoded", encode_header(&HEADER), text);
    expect_same(&rt, "decoded", decode_header(&text), Ok(HEADER));
}

// An offset of a header, another byte there, and the fault.
const FAULTS: &[(&str, usize, u8, RecordFault)] = &[
    ("another magic", 3, b'2', RecordFault::Tag(0)),
    ("another format", 4, 1, RecordFault::Tag(4)),
    ("a partition that no site has", 6, 2, RecordFault::Range(6)),
    ("no version", 15, 0, RecordFault::Range(8)),
    ("a version past the last", 8, 4, RecordFault::Range(8)),
    ("no epoch", 23, 0, RecordFault::Range(16)),
    ("no partition", 27, 0, RecordFault::Range(26)),
    ("too many partitions", 26, 2, RecordFault::Range(26)),
    ("a byte following the fields", 39, 1, RecordFault::Range(28)),
];

#[test]
fn a_header_is_refused_at_its_first_wrong_field(rt: HostRuntime) {
    for (case, offset, byte, want) in FAULTS {
        let mut text = header_text(&rt);
        *text.get_mut(*offset).expect(&rt, case) = *byte;
        expect_same(&rt, case, decode_header(&text), Err(*want));
    }
}
