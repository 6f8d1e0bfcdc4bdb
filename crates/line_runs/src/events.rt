//! Events by hand: what each asks, and the reason of each list that is none.
use crate::commands::words;
use crate::fixtures::{Sizes, add, expect_same, repeat};
use crate::line_reasons::expect_reason;
use cache_key::{Pairs, Request};
use script_lines::Event;
use std::alloc::Global;
use std::process::Abort;

/// Adds what an event was read as, after a blank.
pub(crate) fn add_event(rt: &impl Abort, text: &mut String, event: &Event) {
    match event {
        Event::Call { request } => add_request(rt, text, request),
        Event::Renew { partition } => {
            write!(text, " renew({partition})").expect(rt, "memory");
        }
    }
}

// Adds what a request was read as, after a blank.
fn add_request(rt: &impl Abort, text: &mut String, request: &Request) {
    match request {
        Request::Get(cache, key) => {
            add(rt, text, &[" get(", cache.text(), ",", key.text(), ")"]);
        }
        Request::Put(cache, key, value) => {
            add(rt, text, &[" put(", cache.text(), ",", key.text()]);
            add(rt, text, &[",", value.text(), ")"]);
        }
        Request::Remove(cache, key) => {
            add(rt, text, &[" remove(", cache.text(), ",", key.text(), ")"]);
        }
        Request::Size(cache) => add(rt, text, &[" size(", cache.text(), ")"]),
        Request::Ensure(cache) => add(rt, text, &[" ensure(", cache.text(), ")"]),
        Request::Truncate(cache) => add(rt, text, &[" truncate(", cache.text(), ")"]),
        Request::Destroy(cache) => add(rt, text, &[" destroy(", cache.text(), ")"]),
        Request::PutAll(cache, pairs) => {
            add(rt, text, &[" putAll(", cache.text()]);
            add_pairs(rt, text, pairs);
            add(rt, text, &[")"]);
        }
    }
}

// Adds the pairs in their order, each after a comma.
fn add_pairs(rt: &impl Abort, text: &mut String, pairs: &Pairs) {
    for (key, value) in pairs.as_slice() {
        add(rt, text, &[",", key.text(), "=", value.text()]);
    }
}

/// The line with these events.
pub(crate) fn line_of(rt: &impl Abort, alloc: Global, events: &str) -> String {
    let mut line = String::new(alloc);
    let before = r#"{"do":"steps","events":["#;
    add(rt, &mut line, &[before, events, "]}"]);
    line
}

/// Events, and what they are read as.
const EVENTS: &[(&str, &str)] = &[
    (r#"["remove","c","k"]"#, "steps remove(c,k)"),
    (r#"["size","c"]"#, "steps size(c)"),
    (r#"["ensure","c"]"#, "steps ensure(c)"),
    (r#"["truncate","c"]"#, "steps truncate(c)"),
    (r#"["destroy","c"]"#, "steps destroy(c)"),
    (r#"["putAll","c",[["k","v"]]]"#, "steps putAll(c,k=v)"),
    (
        r#"["putAll","c",[["k","v"],["a",""],["k","w"]]]"#,
        "steps putAll(c,k=v,a=,k=w)",
    ),
    (r#"["size","A-z_0.9"]"#, "steps size(A-z_0.9)"),
    (
        r#"["ensure","c"],["put","c","k","v"],["size","c"]"#,
        "steps ensure(c) put(c,k,v) size(c)",
    ),
    (r#"["s\u0069ze","\u0063"]"#, "steps size(c)"),
    (
        r#"["putAll","c",[["\u006b","\u00e9"]]]"#,
        "steps putAll(c,k=\u{e9})",
    ),
    (r#"["renew",0]"#, "steps renew(0)"),
    (r#"["renew",256]"#, "steps renew(256)"),
    // a partition that no cluster has
    (r#"["renew",257]"#, "steps renew(257)"),
    (r#"["renew",65535]"#, "steps renew(65535)"),
    (
        r#"["r\u0065new", 3 ],["get","c","k"],["renew",3]"#,
        "steps renew(3) get(c,k) renew(3)",
    ),
];

#[test]
fn an_event_is_what_it_asks(rt: HostRuntime) {
    for (event, want) in EVENTS {
        let line = line_of(&rt, rt.alloc(), event);
        let got = words(&rt, rt.alloc(), line.as_bytes());
        expect_same(&rt, event, got.as_str(), *want);
    }
}

// What is said of the item in the place of a partition.
const NO_NUMBER: &str = "the partition of event 1 is not a whole number from 0 to 65535";

/// Lists that are no event, and the reason.
const NO_EVENTS: &[(&str, &str)] = &[
    // names
    (
        r#"["Size","c"]"#,
        "event 1 has the unknown name \"Size\"; the events are get, put, remove, size, ensure, truncate, destroy, putAll, renew",
    ),
    (
        r#"["putall","c",[["k","v"]]]"#,
        "event 1 has the unknown name \"putall\"; the events are get, put, remove, size, ensure, truncate, destroy, putAll, renew",
    ),
    (
        r#"["","c"]"#,
        "event 1 has the unknown name \"\"; the events are get, put, remove, size, ensure, truncate, destroy, putAll, renew",
    ),
    // numbers of items
    (
        r#"["remove","c"]"#,
        "event 1 needs 2 items after \"remove\", the cache and the key, and has 1",
    ),
    (
        r#"["remove","c","k","v"]"#,
        "event 1 needs 2 items after \"remove\", the cache and the key, and has 3",
    ),
    (
        r#"["size"]"#,
        "event 1 needs 1 item after \"size\", the cache, and has 0",
    ),
    (
        r#"["size","c","k"]"#,
        "event 1 needs 1 item after \"size\", the cache, and has 2",
    ),
    (
        r#"["ensure"]"#,
        "event 1 needs 1 item after \"ensure\", the cache, and has 0",
    ),
    (
        r#"["ensure","c","k"]"#,
        "event 1 needs 1 item after \"ensure\", the cache, and has 2",
    ),
    (
        r#"["truncate","c","k"]"#,
        "event 1 needs 1 item after \"truncate\", the cache, and has 2",
    ),
    (
        r#"["destroy","c","k"]"#,
        "event 1 needs 1 item after \"destroy\", the cache, and has 2",
    ),
    (
        r#"["putAll","c"]"#,
        "event 1 needs 2 items after \"putAll\", the cache and the list of pairs, and has 1",
    ),
    (
        r#"["putAll","c","k","v"]"#,
        "event 1 needs 2 items after \"putAll\", the cache and the list of pairs, and has 3",
    ),
    (
        r#"["putAll","c",[["k","v"]],"x"]"#,
        "event 1 needs 2 items after \"putAll\", the cache and the list of pairs, and has 3",
    ),
    // caches and keys
    (r#"["size",""]"#, "the cache of event 1 is empty"),
    (r#"["size",1]"#, "the cache of event 1 is not a text"),
    (
        r#"["destroy","c d"]"#,
        "the cache of event 1 has the byte 0x20 at offset 1 (a name has A-Z a-z 0-9 _ . - alone)",
    ),
    (r#"["ensure",["c"]]"#, "the cache of event 1 is not a text"),
    (r#"["remove","c",""]"#, "the key of event 1 is empty"),
    (r#"["remove","c",null]"#, "the key of event 1 is not a text"),
    (
        r#"["putAll","",[["k","v"]]]"#,
        "the cache of event 1 is empty",
    ),
    // pairs
    (
        r#"["putAll","c",{"k":"v"}]"#,
        "the third item of event 1 is not a list",
    ),
    (
        r#"["putAll","c","k"]"#,
        "the third item of event 1 is not a list",
    ),
    (
        r#"["putAll","c",[]]"#,
        "event 1 needs 1 to 64 pairs, and has 0",
    ),
    (
        r#"["putAll","c",["k","v"]]"#,
        "pair 1 of event 1 is not a list",
    ),
    (
        r#"["putAll","c",[["k","v"],{}]]"#,
        "pair 2 of event 1 is not a list",
    ),
    (
        r#"["putAll","c",[["k","v"],[]]]"#,
        "pair 2 of event 1 needs 2 items, the key and the value, and has 0",
    ),
    (
        r#"["putAll","c",[["k"]]]"#,
        "pair 1 of event 1 needs 2 items, the key and the value, and has 1",
    ),
    (
        r#"["putAll","c",[["k","v","w"]]]"#,
        "pair 1 of event 1 needs 2 items, the key and the value, and has 3",
    ),
    (
        r#"["putAll","c",[["k","v"],["","v"]]]"#,
        "the key of pair 2 of event 1 is empty",
    ),
    (
        r#"["putAll","c",[[1,"v"]]]"#,
        "the key of pair 1 of event 1 is not a text",
    ),
    (
        r#"["putAll","c",[["k",1]]]"#,
        "the value of pair 1 of event 1 is not a text",
    ),
    (
        r#"["putAll","c",[["k",null],[]]]"#,
        "the value of pair 1 of event 1 is not a text",
    ),
    // partitions
    (
        r#"["Renew",0]"#,
        "event 1 has the unknown name \"Renew\"; the events are get, put, remove, size, ensure, truncate, destroy, putAll, renew",
    ),
    (
        r#"["renew"]"#,
        "event 1 needs 1 item after \"renew\", the partition, and has 0",
    ),
    (
        r#"["renew",0,1]"#,
        "event 1 needs 1 item after \"renew\", the partition, and has 2",
    ),
    (r#"["renew",65536]"#, NO_NUMBER),
    (r#"["renew",18446744073709551615]"#, NO_NUMBER),
    (r#"["renew",18446744073709551616]"#, NO_NUMBER),
    (r#"["renew",-1]"#, NO_NUMBER),
    (r#"["renew",-0]"#, NO_NUMBER),
    (r#"["renew",1.0]"#, NO_NUMBER),
    (r#"["renew",1e0]"#, NO_NUMBER),
    (r#"["renew",0.5]"#, NO_NUMBER),
    (r#"["renew","0"]"#, NO_NUMBER),
    (r#"["renew",null]"#, NO_NUMBER),
    (r#"["renew",true]"#, NO_NUMBER),
    (r#"["renew",[0]]"#, NO_NUMBER),
    (r#"["renew",{}]"#, NO_NUMBER),
];

#[test]
fn a_list_that_is_no_event_has_its_reason(rt: HostRuntime) {
    for (event, want) in NO_EVENTS {
        let line = line_of(&rt, rt.alloc(), event);
        expect_reason(&rt, rt.alloc(), line.as_bytes(), want);
    }
}

// The line of a putAll of one pair, and of so many after it.
fn put_all_line(rt: &impl Abort, alloc: Global, more: usize) -> String {
    let mut events = String::new(alloc);
    add(rt, &mut events, &[r#"["putAll","c",[["k","v"]"#]);
    for _ in 0..more {
        add(rt, &mut events, &[r#",["k","v"]"#]);
    }
    add(rt, &mut events, &["]]"]);
    line_of(rt, alloc, events.as_str())
}

#[test]
fn a_list_has_one_to_sixty_four_pairs(rt: HostRuntime) {
    let most = put_all_line(&rt, rt.alloc(), 63);
    expect_reason(&rt, rt.alloc(), most.as_bytes(), "a command");
    let line = put_all_line(&rt, rt.alloc(), 64);
    let want = "event 1 needs 1 to 64 pairs, and has 65";
    expect_reason(&rt, rt.alloc(), line.as_bytes(), want);
}

/// How many letters the cache, the key and the value of a pair have, and what its line is.
const SIZES: &[(usize, usize, usize, &str)] = &[
    (64, 1_024, 65_536, "a command"),
    (65, 1, 0, "the cache of event 1 is longer than 64 bytes"),
    (
        1,
        1_025,
        0,
        "the key of pair 1 of event 1 is longer than 1024 bytes",
    ),
    (
        1,
        1,
        65_537,
        "the value of pair 1 of event 1 is longer than 65536 bytes",
    ),
];

// The line of a putAll of one pair of texts of so many letters.
fn pair_line(rt: &impl Abort, alloc: Global, sizes: Sizes) -> String {
    let mut event = String::new(alloc);
    let (cache, key, value) = sizes;
    add(rt, &mut event, &[r#"["putAll",""#]);
    repeat(rt, &mut event, 'x', cache);
    add(rt, &mut event, &[r#"",[[""#]);
    repeat(rt, &mut event, 'x', key);
    add(rt, &mut event, &[r#"",""#]);
    repeat(rt, &mut event, 'x', value);
    add(rt, &mut event, &[r#""]]]"#]);
    line_of(rt, alloc, event.as_str())
}

#[test]
fn a_pair_keeps_the_limits_of_its_texts(rt: HostRuntime) {
    for (cache, key, value, want) in SIZES {
        let line = pair_line(&rt, rt.alloc(), (*cache, *key, *value));
        expect_reason(&rt, rt.alloc(), line.as_bytes(), want);
    }
}
