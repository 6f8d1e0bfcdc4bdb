//! One store over a host that keeps one file in memory.
use crate::fixtures::{
    Entry, File, HALF, HEADER, ID, SEAL, WHOLE, bytes_of, expect_entries, expect_same, put,
};
use disk_trait::{Disk, DiskRefusal};
use record_form::{Group, encode_tail};
use std::alloc::Global;
use std::process::Abort;
use store_ident::StoreId;
use store_journal::{LoadFault, Loaded, Store, clear, identify};
use untold_disk::{Host, UntoldDisk};

/// One file, which stands for each number but 1. Of file 1 a read gives the changing calls so far, a letter each.
#[derive(Drop)]
struct OneFile {
    bytes: Vec<u8>,
    calls: Vec<u8>,
}

impl OneFile {
    fn holding(alloc: Global, bytes: Vec<u8>) -> Self {
        OneFile {
            bytes,
            calls: Vec::new(alloc),
        }
    }

    fn shown(&self, file: u8) -> &[u8] {
        if file == 1 {
            self.calls.as_slice()
        } else {
            self.bytes.as_slice()
        }
    }
}

impl Host for OneFile {
    fn length(&mut self, file: u8) -> Result<u64, DiskRefusal> {
        Ok(self.shown(file).len() as u64)
    }

    fn read(&mut self, file: u8, at: u64, into: &mut [u8]) -> Result<usize, DiskRefusal> {
        let shown = self.shown(file);
        let offset = (at as usize).min(shown.len());
        let count = into.len().min(shown.len() - offset);
        for (byte, there) in into.iter_mut().zip(&shown[offset..]) {
            *byte = *there;
        }
        Ok(count)
    }

    fn write_at(&mut self, _file: u8, at: u64, bytes: &[u8]) -> Result<(), DiskRefusal> {
        self.calls.push(b'w')?;
        for (offset, byte) in bytes.iter().enumerate() {
            match self.bytes.get_mut((at as usize).saturating_add(offset)) {
                Some(there) => *there = *byte,
                None => self.bytes.push(*byte)?,
            }
        }
        Ok(())
    }

    fn cut(&mut self, _file: u8, to: u64) -> Result<(), DiskRefusal> {
        self.calls.push(b'c')?;
        self.bytes.truncate(to as usize);
        Ok(())
    }

    fn sync(&mut self, _file: u8) -> Result<(), DiskRefusal> {
        self.calls.push(b's')?;
        Ok(())
    }
}

type OneDisk = UntoldDisk<OneFile>;

fn disk_of(rt: &impl Abort, alloc: Global, file: File) -> OneDisk {
    UntoldDisk::over(OneFile::holding(alloc, bytes_of(rt, alloc, file)))
}

// All that a read of this file gives: the bytes, or of file 1 the calls.
fn expect_shown(rt: &impl Abort, case: &str, disk: &mut OneDisk, file: u8, want: &[u8]) {
    let mut found = [0; 64];
    expect_same(rt, case, disk.length(file), Ok(want.len() as u64));
    let count = disk.read(file, 0, &mut found).expect(rt, case);
    expect_same(rt, case, found.get(..count), Some(want));
}

// What stands in the file before a store is made, and the calls that make it with one put.
const STARTS: &[(&str, File, &[u8])] = &[
    ("no file", (b"", SEAL, 0), b"wscwwswswsws"),
    ("a first byte of zero", (b"\x00PST", SEAL, 0), b"cwwswswsws"),
    ("a torn first byte", (b"\x07", SEAL, 7), b"wscwwswswsws"),
    ("a store", (WHOLE, SEAL, 1), b"wscwwswswsws"),
];

// A store is made, and the put of 1 is appended.
fn make(rt: &impl Abort, alloc: Global, case: &str, disk: &mut OneDisk) {
    let group = Group::one(alloc, put(rt, alloc, "1")).expect(rt, case);
    let tail = encode_tail(alloc, &group).expect(rt, case);
    let mut store = Store::create(disk, 0, HEADER).expect(rt, case);
    expect_same(rt, case, store.end, 41);
    expect_same(rt, case, store.append(disk, tail.as_slice()), Ok(()));
    expect_same(rt, case, store.end, 58);
}

#[test]
fn a_store_is_its_bytes(rt: HostRuntime) {
    for (case, file, calls) in STARTS {
        let mut disk = disk_of(&rt, rt.alloc(), *file);
        make(&rt, rt.alloc(), case, &mut disk);
        expect_shown(&rt, case, &mut disk, 0, WHOLE);
        expect_shown(&rt, case, &mut disk, 1, calls);
    }
}

// A file's first byte after it was cleared, and the calls.
const CLEARED: &[(&str, File, u8, &[u8])] = &[
    ("a store", (WHOLE, SEAL, 1), 0, b"ws"),
    ("a store cut short", HALF, 1, b""),
    ("a first byte of zero", (b"\x00PST", SEAL, 0), 0, b""),
];

#[test]
fn a_sealed_file_alone_is_cleared(rt: HostRuntime) {
    for (case, file, first, calls) in CLEARED {
        let mut disk = disk_of(&rt, rt.alloc(), *file);
        expect_same(&rt, case, clear(&mut disk, 0), Ok(()));
        let want = bytes_of(&rt, rt.alloc(), (file.0, SEAL, *first));
        expect_shown(&rt, case, &mut disk, 0, want.as_slice());
        expect_shown(&rt, case, &mut disk, 1, calls);
    }
}

// What loading the file as the store of a partition answers.
fn load_of(
    rt: &impl Abort,
    alloc: Global,
    file: File,
    partition: u16,
    partitions: u16,
) -> Result<Loaded, LoadFault> {
    let mut disk = disk_of(rt, alloc, file);
    Store::load(alloc, &mut disk, 0, partition, partitions)
}

// The bytes of that store with a record more, which puts 2 at the same key.
const TWICE: &[u8] =
    b"\x01PST1\x00\x01\x00\x00\x00\x00\x00\x00\x00\x00\x00\x01\x00\x00\x00\x00\x00\x00\x00\x01\
\x00\x00\x00\x01\x00\x00\x00\x00\x00\x00\x00\x00\x00\x00\x00\x00\x01\x00\x00\x00\x0c\x01\x01\x01c\x00\x01a\
\x00\x00\x00\x011\x01\x00\x00\x00\x0c\x01\x01\x01c\x00\x01a\x00\x00\x00\x012\x00";

// What a store has, and where it ends.
const LOADED: &[(&str, File, &[Entry], u64)] = &[
    ("one record", (WHOLE, SEAL, 1), &[("a", "1")], 58),
    ("two records", (TWICE, SEAL, 1), &[("a", "2")], 75),
    ("a record following a closed gate", (WHOLE, 41, 0), &[], 41),
];

#[test]
fn a_store_is_loaded(rt: HostRuntime) {
    for (case, file, entries, end) in LOADED {
        let loaded = load_of(&rt, rt.alloc(), *file, 0, 1).expect(&rt, case);
        expect_same(&rt, case, loaded.store.file, 0);
        expect_same(&rt, case, loaded.store.id, ID);
        expect_same(&rt, case, loaded.store.end, *end);
        expect_entries(&rt, rt.alloc(), case, &loaded.contents, entries);
    }
}

// An offset of the store, another byte there, and the offset of the damage.
const FAULTS: &[(&str, usize, u8, u64)] = &[
    ("another magic", 4, b'2', 1),
    ("another partition", 8, 1, 7),
    ("no version", 16, 0, 9),
    ("another number of partitions", 28, 2, 27),
    ("a payload of no byte", 45, 0, 42),
    ("no mutation", 46, 0, 46),
    ("another tag", 47, 7, 47),
    ("a payload of a byte less", 45, 11, 57),
    ("a payload of a byte more", 45, 13, 58),
    ("no closed gate", 58, 1, 59),
];

#[test]
fn a_file_is_refused_at_its_first_fault(rt: HostRuntime) {
    for (case, offset, byte, at) in FAULTS {
        let fault = load_of(&rt, rt.alloc(), (WHOLE, *offset, *byte), 0, 1).err();
        expect_same(&rt, case, fault, Some(LoadFault::Damaged { at: *at }));
    }
}

#[test]
fn a_file_that_is_cut_is_refused_at_its_end(rt: HostRuntime) {
    for length in [41, 44, 50, 58] {
        let file = (&WHOLE[..length], SEAL, 1);
        let fault = load_of(&rt, rt.alloc(), file, 0, 1).err();
        let want = LoadFault::Damaged { at: length as u64 };
        expect_same(&rt, "a cut file", fault, Some(want));
    }
}

// A store of one record with a mutation of each tag: its payload begins at 46, its batch at 73, the pairs of that at 77 and
// 85, and its closed gate at 93.
const EACH: &[u8] =
    b"\x01PST1\x00\x01\x00\x00\x00\x00\x00\x00\x00\x00\x00\x01\x00\x00\x00\x00\x00\x00\x00\x01\
\x00\x00\x00\x01\x00\x00\x00\x00\x00\x00\x00\x00\x00\x00\x00\x00\x01\x00\x00\x00\x2f\x06\
\x01\x01c\x00\x01a\x00\x00\x00\x011\x02\x01c\x00\x01a\x03\x01c\x04\x01c\x05\x01c\
\x06\x01c\x02\x00\x01a\x00\x00\x00\x011\x00\x01b\x00\x00\x00\x012\x00";

#[test]
fn a_group_is_loaded_in_its_order(rt: HostRuntime) {
    let loaded = load_of(&rt, rt.alloc(), (EACH, SEAL, 1), 0, 1).expect(&rt, "a store");
    expect_same(&rt, "its end", loaded.store.end, 93);
    let entries = &[("a", "1"), ("b", "2")];
    expect_entries(&rt, rt.alloc(), "each tag", &loaded.contents, entries);
}

// An offset of that store, another byte there, and the offset of the damage.
const GROUP_FAULTS: &[(&str, usize, u8, u64)] = &[
    ("a mutation less", 46, 5, 73),
    ("a mutation more", 46, 7, 93),
    ("65 mutations", 46, 65, 46),
    ("another tag", 67, 9, 67),
    ("no pair", 76, 0, 76),
    ("a pair less", 76, 1, 85),
    ("a pair more", 76, 3, 93),
    ("65 pairs", 76, 65, 76),
    ("no key in a pair", 86, 0, 85),
    ("a key of another byte", 87, 0xff, 87),
    ("a value of a byte more", 91, 2, 93),
    ("a payload of a byte less", 45, 46, 92),
    ("no closed gate", 93, 1, 94),
];

#[test]
fn a_group_is_refused_at_its_first_fault(rt: HostRuntime) {
    for (case, offset, byte, at) in GROUP_FAULTS {
        let fault = load_of(&rt, rt.alloc(), (EACH, *offset, *byte), 0, 1).err();
        expect_same(&rt, case, fault, Some(LoadFault::Damaged { at: *at }));
    }
}

#[test]
fn a_group_that_is_cut_is_refused_at_its_end(rt: HostRuntime) {
    for length in 41..94 {
        let file = (&EACH[..length], SEAL, 1);
        let fault = load_of(&rt, rt.alloc(), file, 0, 1).err();
        let want = LoadFault::Damaged { at: length as u64 };
        expect_same(&rt, "a cut group", fault, Some(want));
    }
}

// Files with no store.
const SEALLESS: &[(&str, File)] = &[
    ("no seal", (WHOLE, SEAL, 0)),
    ("no byte", (b"", SEAL, 0)),
    ("half a header", HALF),
];

#[test]
fn a_file_without_a_seal_is_not_loaded(rt: HostRuntime) {
    for (case, file) in SEALLESS {
        let fault = load_of(&rt, rt.alloc(), *file, 0, 1).err();
        expect_same(&rt, case, fault, Some(LoadFault::NotSealed));
    }
}

#[test]
fn a_store_is_of_one_partition(rt: HostRuntime) {
    let fault = load_of(&rt, rt.alloc(), (WHOLE, SEAL, 1), 1, 2).err();
    let want = LoadFault::Damaged { at: 7 };
    expect_same(&rt, "another partition", fault, Some(want));
}

// Files, and what identifying their store answers.
const NAMED: &[(&str, File, Result<Option<StoreId>, LoadFault>)] = &[
    ("no seal", (WHOLE, SEAL, 0), Ok(None)),
    (
        "another magic",
        (WHOLE, 4, b'2'),
        Err(LoadFault::Damaged { at: 1 }),
    ),
    ("no closed gate", (WHOLE, 58, 1), Ok(Some(ID))),
];

#[test]
fn a_file_names_its_store(rt: HostRuntime) {
    for (case, file, want) in NAMED {
        let mut disk = disk_of(&rt, rt.alloc(), *file);
        expect_same(&rt, case, identify(&mut disk, 0), *want);
    }
}
