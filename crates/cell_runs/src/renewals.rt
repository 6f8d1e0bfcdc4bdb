//! Before which put a store is built anew: where it is longer than twice what its contents need and 65,536 bytes more.
use crate::fixtures::{cell_of, expect_same, letters, mutate, put, restarted};
use disk_memory::MemoryDisk;
use partition_cell::Cell;
use std::alloc::Global;
use std::process::Abort;
use store_journal::Loaded;

// Puts values of these lengths at key k, one after the other.
fn put_values(
    rt: &impl Abort,
    alloc: Global,
    case: &str,
    cell: &mut Cell<MemoryDisk>,
    lengths: &[usize],
) {
    for length in lengths {
        let value = letters(rt, alloc, *length);
        let mutation = put(rt, alloc, "k", value.as_str());
        expect_same(rt, case, mutate(alloc, cell, mutation), Ok(()));
    }
}

// The store has this identifier and the put of one value of this length at key k.
fn expect_one_value(
    rt: &impl Abort,
    alloc: Global,
    case: &str,
    loaded: &Loaded,
    id: &str,
    length: usize,
) {
    let text = loaded.store.id.text(alloc).expect(rt, case);
    expect_same(rt, case, text.as_str(), id);
    let value = letters(rt, alloc, length);
    let want = put(rt, alloc, "k", value.as_str());
    let found = loaded
        .contents
        .entries_from(alloc, None, 2)
        .expect(rt, case);
    expect_same(rt, case, found.len(), 1);
    expect_same(rt, case, found.get(0), Some(&want));
}

// The lengths of values that are put at one key, the identifier of the store after them, where that ends, and how long a store
// of its contents is.
const VALUES: &[(&str, &[usize], &str, u64, u64)] = &[
    ("one long value", &[65_536], "0-1-1-0", 65_593, 65_594),
    ("as long as may be", &[65_536, 27, 0], "0-1-1-0", 65_652, 58),
    ("a put more", &[65_536, 27, 0, 0], "0-1-1-0", 65_668, 58),
    ("a byte longer", &[65_536, 28, 0], "0-1-1-0", 65_653, 58),
    (
        "a put more, built anew",
        &[65_536, 28, 0, 0],
        "0-2-1-0",
        73,
        58,
    ),
];

#[test]
fn a_store_is_built_anew_where_it_is_too_long(rt: HostRuntime) {
    for (case, lengths, id, end, live) in VALUES {
        let mut cell = cell_of(&rt, rt.alloc());
        put_values(&rt, rt.alloc(), case, &mut cell, lengths);
        let length = lengths.last().copied().unwrap_or(0);
        let left = restarted(&rt, rt.alloc(), case, cell.into_lane());
        let loaded = left.expect(&rt, case);
        expect_same(
            &rt,
            case,
            (loaded.store.end, loaded.contents.live()),
            (*end, *live),
        );
        expect_one_value(&rt, rt.alloc(), case, &loaded, id, length);
    }
}
