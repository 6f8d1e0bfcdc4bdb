//! Names, keys, values and the partitions of keys.
use crate::fixtures::{cache, expect_same, key, letters, put, value};
use cache_key::{
    CacheName, EntryKey, HostName, Key, NameFault, Reply, Request, SnapshotName, Value, fnv1a,
    partition_of,
};

// Texts and their published hashes.
const HASHES: &[(&str, u32)] = &[
    ("", 0x811c9dc5),
    ("a", 0xe40c292c),
    ("b", 0xe70c2de5),
    ("c", 0xe60c2c52),
    ("foobar", 0xbf9cf968),
];

#[test]
fn the_hash_has_its_published_values(rt: HostRuntime) {
    for (text, want) in HASHES {
        expect_same(&rt, text, fnv1a(text.as_bytes()), *want);
    }
}

// A key, how many partitions there are, and the partition of the key.
const PARTITIONS: &[(&str, u16, u16)] = &[
    ("a", 257, 44),
    ("b", 257, 222),
    ("c", 257, 77),
    ("a", 2, 0),
    ("b", 2, 1),
    ("c", 2, 0),
];

#[test]
fn keys_go_to_their_partitions(rt: HostRuntime) {
    for (text, count, want) in PARTITIONS {
        let key = key(&rt, rt.alloc(), text);
        expect_same(&rt, text, partition_of(&key, *count), *want);
    }
}

// Texts that are no name, and the fault.
const NO_NAMES: &[(&str, NameFault)] = &[
    ("", NameFault::Empty),
    ("a b", NameFault::BadByte(1)),
    ("a,b c", NameFault::BadByte(1)),
    ("é", NameFault::BadByte(0)),
    ("/", NameFault::BadByte(0)),
    (":", NameFault::BadByte(0)),
    ("@", NameFault::BadByte(0)),
    ("[", NameFault::BadByte(0)),
    ("`", NameFault::BadByte(0)),
    ("{", NameFault::BadByte(0)),
];

#[test]
fn a_name_is_refused_by_its_first_fault(rt: HostRuntime) {
    for (text, want) in NO_NAMES {
        let fault = CacheName::of(rt.alloc(), text).err();
        expect_same(&rt, text, fault, Some(*want));
    }
}

#[test]
fn a_name_has_64_bytes_at_most(rt: HostRuntime) {
    for (count, want) in [(64, None), (65, Some(NameFault::Long))] {
        let text = letters(&rt, rt.alloc(), count);
        let fault = CacheName::of(rt.alloc(), text.as_str()).err();
        expect_same(&rt, "a name", fault, want);
    }
}

#[test]
fn a_key_has_1024_bytes_at_most(rt: HostRuntime) {
    for (count, want) in [(1_024, None), (1_025, Some(NameFault::Long))] {
        let text = letters(&rt, rt.alloc(), count);
        let fault = Key::of(rt.alloc(), text.as_str()).err();
        expect_same(&rt, "a key", fault, want);
    }
}

#[test]
fn a_value_has_65536_bytes_at_most(rt: HostRuntime) {
    for (count, want) in [(65_536, None), (65_537, Some(NameFault::Long))] {
        let text = letters(&rt, rt.alloc(), count);
        let fault = Value::of(rt.alloc(), text.as_str()).err();
        expect_same(&rt, "a value", fault, want);
    }
}

const NAMES: &[&str] = &["AZ", "az", "09", "_", ".", "-", "a.b_c-d"];

#[test]
fn names_have_letters_digits_and_three_signs(rt: HostRuntime) {
    for text in NAMES {
        let name = cache(&rt, rt.alloc(), text);
        let copy = name.copy().expect(&rt, text);
        expect_same(&rt, text, copy.text(), *text);
    }
}

#[test]
fn ample_memory_is_enough_for_a_host_s_name(rt: HostRuntime) {
    let name = HostName::of(rt.alloc(), "h").expect(&rt, "a name");
    let copy = name.copy().expect(&rt, "a copy");
    expect_same(&rt, "a host", copy.text(), "h");
}

#[test]
fn ample_memory_is_enough_for_a_snapshot_s_name(rt: HostRuntime) {
    let name = SnapshotName::of(rt.alloc(), "s").expect(&rt, "a name");
    let copy = name.copy().expect(&rt, "a copy");
    expect_same(&rt, "a snapshot", copy.text(), "s");
}

#[test]
fn a_value_may_be_empty_and_a_key_may_not(rt: HostRuntime) {
    let fault = Key::of(rt.alloc(), "").err();
    expect_same(&rt, "no key", fault, Some(NameFault::Empty));
    let text = "a b é";
    expect_same(&rt, text, key(&rt, rt.alloc(), text).text(), text);
    expect_same(&rt, "empty", value(&rt, rt.alloc(), "").text(), "");
}

#[test]
fn ample_memory_is_enough_for_an_entry_s_key(rt: HostRuntime) {
    let entry = EntryKey {
        cache: cache(&rt, rt.alloc(), "c"),
        key: key(&rt, rt.alloc(), "a"),
    };
    let copy = entry.copy().expect(&rt, "a copy");
    expect_same(&rt, "an entry", copy, entry);
}

#[test]
fn ample_memory_is_enough_for_a_request(rt: HostRuntime) {
    let alloc = rt.alloc();
    let get = Request::Get(cache(&rt, alloc, "c"), key(&rt, alloc, "a"));
    let copy = get.copy().expect(&rt, "a copy");
    expect_same(&rt, "a get", copy, get);
    let put = Request::Put(
        cache(&rt, alloc, "c"),
        key(&rt, alloc, "a"),
        value(&rt, alloc, "1"),
    );
    let copy = put.copy().expect(&rt, "a copy");
    expect_same(&rt, "a put", copy, put);
}

#[test]
fn ample_memory_is_enough_for_a_mutation(rt: HostRuntime) {
    let written = put(&rt, rt.alloc(), ("c", "a", "1"));
    let copy = written.copy().expect(&rt, "a copy");
    expect_same(&rt, "a put", copy, written);
}

#[test]
fn ample_memory_is_enough_for_a_reply(rt: HostRuntime) {
    let some = Reply::Value(Some(value(&rt, rt.alloc(), "1")));
    let copy = some.copy().expect(&rt, "a copy");
    expect_same(&rt, "a value", copy, some);
    for reply in [Reply::Value(None), Reply::Count(3), Reply::Done] {
        let copy = reply.copy().expect(&rt, "a copy");
        expect_same(&rt, "no value", copy, reply);
    }
}

const SORTED: &[&str] = &["B", "a", "ab", "b", "é"];

#[test]
fn keys_are_sorted_by_their_bytes(rt: HostRuntime) {
    let mut keys = Vec::new(rt.alloc());
    for text in ["b", "ab", "B", "a", "é"] {
        keys.push(key(&rt, rt.alloc(), text)).expect(&rt, "memory");
    }
    keys.sort().expect(&rt, "memory");
    for (found, want) in keys.iter().zip(SORTED) {
        expect_same(&rt, want, found.text(), *want);
    }
}
