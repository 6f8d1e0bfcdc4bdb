//! Identifiers of stores and their texts.
use crate::fixtures::expect_same;
use store_ident::{IdFault, StoreId};

const LAST: u64 = (1 << 58) - 1;

// Partition, version, epoch and host, and the text: version and epoch are in hexadecimal.
const TEXTS: &[(u16, u64, u64, u16, &str)] = &[
    (0, 1, 1, 0, "0-1-1-0"),
    (0, 2, 1, 0, "0-2-1-0"),
    (5, 255, 3, 1, "5-ff-3-1"),
    (10, 10, 4096, 100, "10-a-1000-100"),
    (
        65_535,
        LAST,
        LAST,
        65_535,
        "65535-3ffffffffffffff-3ffffffffffffff-65535",
    ),
];

#[test]
fn an_identifier_prints_its_numbers(rt: HostRuntime) {
    for (partition, version, epoch, host, want) in TEXTS {
        let id = StoreId {
            partition: *partition,
            version: *version,
            epoch: *epoch,
            host: *host,
        };
        let bytes = id.print(rt.alloc()).expect(&rt, want);
        expect_same(&rt, want, bytes.as_slice(), want.as_bytes());
        let text = id.text(rt.alloc()).expect(&rt, want);
        expect_same(&rt, want, text.as_str(), *want);
    }
}

#[test]
fn a_text_is_read_as_its_numbers(rt: HostRuntime) {
    for (partition, version, epoch, host, text) in TEXTS {
        let id = StoreId::parse(text.as_bytes()).expect(&rt, text);
        let numbers = (id.partition, id.version, id.epoch, id.host);
        expect_same(&rt, text, numbers, (*partition, *version, *epoch, *host));
    }
}

// Texts that aren't of the form, and where they leave it.
const NO_FORM: &[(&str, &str, u64)] = &[
    ("empty", "", 0),
    ("an upper-case digit", "0-1A-1-0", 3),
    ("a leading zero", "00-1-1-0", 1),
    ("a leading zero of the version", "0-01-1-0", 3),
    ("three numbers", "0-1-1", 5),
    ("no host", "0-1-1-", 6),
    ("a dash too many", "0-1-1-0-", 7),
    ("a sign", "-1-1-1-0", 0),
    ("another sign", "0-+1-1-0", 2),
    ("a letter in a decimal number", "a-1-1-0", 0),
    ("no hexadecimal digit", "0-1g-1-0", 3),
    ("a blank after it", "0-1-1-0 ", 7),
    ("a blank before it", " 0-1-1-0", 0),
    ("both faults", "65536-0-1", 9),
    ("both faults, the form last", "65536-1-1-0x", 11),
];

// Texts of the form, and where the first number out of its range begins.
const OUT_OF_RANGE: &[(&str, &str, u64)] = &[
    ("a version of zero", "0-0-1-0", 2),
    ("an epoch of zero", "0-1-0-0", 4),
    ("a great partition", "65536-1-1-0", 0),
    ("a great version", "0-400000000000000-1-0", 2),
    ("a great epoch", "0-1-400000000000000-0", 4),
    ("a great host", "0-1-1-65536", 6),
    (
        "a number of forty digits",
        "0-1-1-1234567890123456789012345678901234567890",
        6,
    ),
    (
        "forty hexadecimal digits",
        "0-1234567890abcdef1234567890abcdef12345678-1-0",
        2,
    ),
    ("two out of their ranges", "0-0-0-65536", 2),
];

#[test]
fn another_text_is_refused_at_its_first_fault(rt: HostRuntime) {
    for (case, text, at) in NO_FORM {
        let fault = StoreId::parse(text.as_bytes()).err();
        expect_same(&rt, case, fault, Some(IdFault::Form { at: *at }));
    }
    for (case, text, at) in OUT_OF_RANGE {
        let fault = StoreId::parse(text.as_bytes()).err();
        expect_same(&rt, case, fault, Some(IdFault::Range { at: *at }));
    }
}
