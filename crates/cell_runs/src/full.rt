//! The put that finds no room: a store of the contents after it could be longer than 67,108,864 bytes.
use crate::fixtures::{cell_of, expect_same, letters, mutate, put};
use cache_key::{CacheName, Key, Mutation};
use call_trail::CallRefusal;
use disk_memory::MemoryDisk;
use partition_cell::Cell;
use std::alloc::Global;
use std::process::Abort;

// How many puts there is room for, and how long a store of them is.
const MOST_PUTS: u16 = 1_023;

const LIVE: u64 = 67_056_765;

// What the put of a value at the key of this number answers.
fn put_long(
    rt: &impl Abort,
    alloc: Global,
    cell: &mut Cell<MemoryDisk>,
    number: u16,
    value: &str,
) -> Result<(), CallRefusal> {
    let key = format!(in alloc; "{number:04}").expect(rt, "a key");
    let mutation = put(rt, alloc, key.as_str(), value);
    mutate(alloc, cell, mutation)
}

// What the removal of the first key answers.
fn remove_first(
    rt: &impl Abort,
    alloc: Global,
    cell: &mut Cell<MemoryDisk>,
) -> Result<(), CallRefusal> {
    let cache = CacheName::of(alloc, "c").expect(rt, "a name");
    let key = Key::of(alloc, "0000").expect(rt, "a key");
    mutate(alloc, cell, Mutation::Remove(cache, key))
}

#[test]
fn the_longest_values_fill_a_store(rt: HostRuntime) {
    let mut cell = cell_of(&rt, rt.alloc());
    let value = letters(&rt, rt.alloc(), 65_536);
    for number in 0..MOST_PUTS {
        let answer = put_long(&rt, rt.alloc(), &mut cell, number, value.as_str());
        expect_same(&rt, "room", (number, answer), (number, Ok(())));
    }
    let full = CallRefusal::StoreFull { live: LIVE };
    let answer = put_long(&rt, rt.alloc(), &mut cell, MOST_PUTS, value.as_str());
    expect_same(&rt, "no room", answer, Err(full));
    let answer = remove_first(&rt, rt.alloc(), &mut cell);
    expect_same(&rt, "a removal", answer, Ok(()));
    let answer = put_long(&rt, rt.alloc(), &mut cell, MOST_PUTS, value.as_str());
    expect_same(&rt, "room again", answer, Ok(()));
}
