//! Builds of as many items as the environment asks for, on a host that keeps nothing: scripts/costs measures them.
ghost use Rattle.std.specs.Prelude.{List};
ghost use Rattle.cache_model.specs.Change.{Change};
ghost use Rattle.partition_map.specs.After.{AgreesWith};

use crate::contents::build_in;
use cache_key::{CacheName, Key, Mutation, Value};
use disk_trait::DiskRefusal;
use partition_map::PartitionMap;
use slot_board::SlotKind;
use std::alloc::Global;
use std::env;
use std::process::Abort;
use std::time::Instant;
use untold_disk::{Host, UntoldDisk};

/// A host that takes each write, and keeps none.
#[derive(Drop)]
struct Nowhere {}

impl Host for Nowhere {
    fn length(&mut self, _file: u8) -> Result<u64, DiskRefusal> {
        Ok(0)
    }

    fn read(&mut self, _file: u8, _at: u64, _into: &mut [u8]) -> Result<usize, DiskRefusal> {
        Ok(0)
    }

    fn write_at(&mut self, _file: u8, _at: u64, _bytes: &[u8]) -> Result<(), DiskRefusal> {
        Ok(())
    }

    fn cut(&mut self, _file: u8, _to: u64) -> Result<(), DiskRefusal> {
        Ok(())
    }

    fn sync(&mut self, _file: u8) -> Result<(), DiskRefusal> {
        Ok(())
    }
}

// The put of a value of 100 bytes at a key of 16, of this number.
fn long_put(rt: &impl Abort, alloc: Global, number: u32) -> Mutation {
    let key = format!(in alloc; "key-{number:012}").expect(rt, "a key");
    let value = format!(in alloc; "value-{number:094}").expect(rt, "a value");
    Mutation::Put(
        CacheName::of(alloc, "c").expect(rt, "a name"),
        Key::of(alloc, key.as_str()).expect(rt, "a key"),
        Value::of(alloc, value.as_str()).expect(rt, "a value"),
    )
}

// The contents of so many puts.
fn filled(rt: &impl Abort, alloc: Global, count: u32) -> PartitionMap
    ensures { (changes : List Change) × AgreesWith changes result }
{
    let mut map = PartitionMap::empty(alloc);
    for number in 0..count {
        let mutation = long_put(rt, alloc, number);
        map.change(mutation).expect(rt, "a put");
    }
    map
}

// The number that the environment has under this name, or else 0.
fn number_of(rt: &HostRuntime, name: &str) -> u32 {
    match env::var(rt, name) {
        Ok(text) => text.as_str().parse().unwrap_or(0),
        Err(_) => 0,
    }
}

// Without a number in the environment, as in the merge gate, nothing is built.
#[test]
fn a_build_takes_this_long(rt: HostRuntime) {
    let map = filled(&rt, rt.alloc(), number_of(&rt, "BUILD_ITEMS"));
    for _ in 0..number_of(&rt, "BUILDS") {
        let mut disk = UntoldDisk::over(Nowhere {});
        let begun = Instant::now(&rt).expect(&rt, "a clock");
        let store = build_in(&rt, rt.alloc(), &mut disk, SlotKind::Empty, &map);
        let taken = begun.elapsed(&rt).expect(&rt, "a clock");
        let end = store.expect(&rt, "a store").end;
        println!(&rt; "{} bytes in {} us", end + 1, taken.as_micros()).expect(&rt, "a line");
    }
}
