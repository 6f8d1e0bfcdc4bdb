//! Mutations, stores and disks that several tests start from.
ghost use Rattle.cache_model.specs.PlainList.{HasPairs};

use cache_key::{CacheName, Key, Mutation, Pairs, Reply, Request, Value};
use disk_memory::{DiskPlan, MemoryDisk};
use disk_trait::{Disk, write_synced};
use newest_store::{NewestFault, load_newest};
use partition_map::PartitionMap;
use record_form::Header;
use std::alloc::Global;
use std::fmt::Debug;
use std::process::Abort;
use store_ident::StoreId;
use store_journal::Loaded;

// The first store of partition 0 on host 0.
pub(crate) const ID: StoreId = StoreId {
    partition: 0,
    version: 1,
    epoch: 1,
    host: 0,
};

// Its header where there is one partition.
pub(crate) const HEADER: Header = Header {
    id: ID,
    partitions: 1,
};

// A seal, that header, the record of the put of 1 at key a of cache c, and a closed gate.
pub(crate) const WHOLE: &[u8] =
    b"\x01PST1\x00\x01\x00\x00\x00\x00\x00\x00\x00\x00\x00\x01\x00\x00\x00\x00\x00\x00\x00\x01\
\x00\x00\x00\x01\x00\x00\x00\x00\x00\x00\x00\x00\x00\x00\x00\x00\x01\x00\x00\x00\x0c\x01\x01\x01c\x00\x01a\
\x00\x00\x00\x011\x00";

// The same where there are two partitions.
pub(crate) const FIRST: &[u8] =
    b"\x01PST1\x00\x01\x00\x00\x00\x00\x00\x00\x00\x00\x00\x01\x00\x00\x00\x00\x00\x00\x00\x01\
\x00\x00\x00\x02\x00\x00\x00\x00\x00\x00\x00\x00\x00\x00\x00\x00\x01\x00\x00\x00\x0c\x01\x01\x01c\x00\x01a\
\x00\x00\x00\x011\x00";

// One of version 2, which puts 2.
pub(crate) const SECOND: &[u8] =
    b"\x01PST1\x00\x01\x00\x00\x00\x00\x00\x00\x00\x00\x00\x02\x00\x00\x00\x00\x00\x00\x00\x01\
\x00\x00\x00\x02\x00\x00\x00\x00\x00\x00\x00\x00\x00\x00\x00\x00\x01\x00\x00\x00\x0c\x01\x01\x01c\x00\x01a\
\x00\x00\x00\x012\x00";

// Where a store's bytes have its seal, its magic, its partition, its version, its value and its closed gate, each the last
// byte.
pub(crate) const SEAL: usize = 0;

pub(crate) const MAGIC: usize = 4;

pub(crate) const PARTITION: usize = 8;

pub(crate) const VERSION: usize = 16;

pub(crate) const VALUE: usize = 57;

pub(crate) const GATE: usize = 58;

// A file of these bytes, but for the byte at this offset, if it has one there.
pub(crate) type File = (&'static [u8], usize, u8);

pub(crate) const NONE: File = (b"", SEAL, 0);

pub(crate) const ONE: File = (FIRST, SEAL, 1);

pub(crate) const TWO: File = (SECOND, SEAL, 1);

// Another store without its seal.
pub(crate) const ERASED: File = (SECOND, SEAL, 0);

// A seal and all of a header but its last byte.
pub(crate) const HALF: File = (
    b"\x01PST1\x00\x01\x00\x00\x00\x00\x00\x00\x00\x00\x00\x01\x00\x00\x00\x00\x00\x00\x00\x01\
\x00\x00\x00\x02\x00\x00\x00\x00\x00\x00\x00\x00\x00\x00\x00",
    SEAL,
    1,
);

// Which changing call of a disk fails, and which reading call, 0 for none; and which pick a restart takes.
pub(crate) type Plan = (u64, u64, u8);

// What was found is what is wanted.
pub(crate) fn expect_same<T: PartialEq + Debug + Drop>(
    rt: &impl Abort,
    case: &str,
    found: T,
    want: T,
) {
    assert_eq!(rt; found, want, "{case}");
}

fn cache(rt: &impl Abort, alloc: Global) -> CacheName {
    CacheName::of(alloc, "c").expect(rt, "a name")
}

fn key(rt: &impl Abort, alloc: Global, text: &str) -> Key {
    Key::of(alloc, text).expect(rt, "a key")
}

fn value(rt: &impl Abort, alloc: Global, text: &str) -> Value {
    Value::of(alloc, text).expect(rt, "a value")
}

// The put of this value at key a of cache c.
pub(crate) fn put(rt: &impl Abort, alloc: Global, value: &str) -> Mutation
    ensures { HasPairs result }
{
    Mutation::Put(
        cache(rt, alloc),
        key(rt, alloc, "a"),
        Value::of(alloc, value).expect(rt, "a value"),
    )
}

// Puts 1 at key a, and 2 at key b.
fn batch(rt: &impl Abort, alloc: Global) -> Mutation
    ensures { HasPairs result }
{
    let mut pairs = Pairs::new(alloc);
    let first = value(rt, alloc, "1");
    pairs.push(key(rt, alloc, "a"), first).expect(rt, "a pair");
    let second = value(rt, alloc, "2");
    pairs
        .push(key(rt, alloc, "b"), second)
        .expect(rt, "two pairs");
    Mutation::Batch(cache(rt, alloc), pairs)
}

// The tags of all mutations.
pub(crate) const TAGS: &[u8] = &[1, 2, 3, 4, 5, 6];

// The mutation of each tag, of key a of cache c.
pub(crate) fn mutation(rt: &impl Abort, alloc: Global, tag: u8) -> Mutation
    ensures { HasPairs result }
{
    match tag {
        1 => put(rt, alloc, "1"),
        2 => Mutation::Remove(cache(rt, alloc), key(rt, alloc, "a")),
        3 => Mutation::Ensure(cache(rt, alloc)),
        4 => Mutation::Truncate(cache(rt, alloc)),
        5 => Mutation::Destroy(cache(rt, alloc)),
        _ => batch(rt, alloc),
    }
}

// There is one mutation of each tag, in this order.
pub(crate) fn expect_tags(
    rt: &impl Abort,
    alloc: Global,
    case: &str,
    mutations: &[Mutation],
    tags: &[u8],
) {
    expect_same(rt, case, mutations.len(), tags.len());
    for (found, tag) in mutations.iter().zip(tags) {
        let want = mutation(rt, alloc, *tag);
        expect_same(rt, case, found, &want);
    }
}

// A key with its value.
pub(crate) type Entry = (&'static str, &'static str);

// Cache c has these entries, and no other.
pub(crate) fn expect_entries(
    rt: &impl Abort,
    alloc: Global,
    case: &str,
    contents: &PartitionMap,
    entries: &[Entry],
) {
    let size = Request::Size(cache(rt, alloc));
    let count = contents.answer(alloc, &size).expect(rt, case);
    expect_same(rt, case, count, Reply::Count(entries.len() as u64));
    for (name, text) in entries {
        let get = Request::Get(cache(rt, alloc), key(rt, alloc, name));
        let found = contents.answer(alloc, &get).expect(rt, case);
        let want = value(rt, alloc, text);
        expect_same(rt, case, found, Reply::Value(Some(want)));
    }
}

pub(crate) fn bytes_of(rt: &impl Abort, alloc: Global, file: File) -> Vec<u8> {
    let (bytes, offset, byte) = file;
    let mut bytes = bytes.to_vec(alloc).expect(rt, "bytes");
    if let Some(there) = bytes.get_mut(offset) {
        *there = byte;
    }
    bytes
}

// The number, unless it is 0.
fn numbers(rt: &impl Abort, alloc: Global, number: u64) -> Vec<u64> {
    let mut numbers = Vec::new(alloc);
    if number != 0 {
        numbers.push(number).expect(rt, "a number");
    }
    numbers
}

// A disk with these files 0 and 1, written by its changing calls 1 to 4.
pub(crate) fn disk_of(
    rt: &impl Abort,
    alloc: Global,
    files: (File, File),
    plan: Plan,
) -> MemoryDisk {
    let plan = DiskPlan {
        fail: numbers(rt, alloc, plan.0),
        fail_reads: numbers(rt, alloc, plan.1),
        fuse: None,
        pick: plan.2,
    };
    let mut disk = MemoryDisk::new(alloc, plan).expect(rt, "a disk");
    let first = bytes_of(rt, alloc, files.0);
    write_synced(&mut disk, 0, 0, first.as_slice()).expect(rt, "file 0");
    let second = bytes_of(rt, alloc, files.1);
    write_synced(&mut disk, 1, 0, second.as_slice()).expect(rt, "file 1");
    disk
}

// What a recovery opens after a restart.
pub(crate) fn newest_of<D: Disk>(alloc: Global, disk: &mut D) -> Result<Loaded, NewestFault> {
    disk.restart();
    load_newest(alloc, disk, 0, 2)
}
