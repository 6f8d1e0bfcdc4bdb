//! What a cache holds after events of every kind, what they reply, and how long a store is.
use crate::events::line_of;
use crate::fixtures::{cache, expect_same};
use cache_key::{Mutation, Pairs, Reply, Request};
use cache_model::{
    as_mutation, asks_nothing, collect_contents, growth, is_mutation, live, plain_list, reply_to,
    size,
};
use script_lines::{Command, Event, read_line};
use std::alloc::Global;
use std::process::Abort;

// The events of a line of these.
fn events_of(rt: &impl Abort, alloc: Global, events: &str) -> Vec<Event> {
    let line = line_of(rt, alloc, events);
    match read_line(alloc, line.as_bytes()) {
        Ok(Command::Steps { events }) => events.into_vec(),
        _ => {
            assert!(rt; false, "{events}");
            Vec::new(alloc)
        }
    }
}

// The request of an event, if it has one.
fn asked(event: Event) -> Option<Request> {
    match event {
        Event::Call { request } => Some(request),
        Event::Renew { .. } => None,
    }
}

// The request of the one event.
fn request_of(rt: &impl Abort, alloc: Global, event: &str) -> Request {
    let last = events_of(rt, alloc, event).pop();
    last.and_then(asked).expect(rt, event)
}

// The mutations that these events are.
fn mutations_of(rt: &impl Abort, alloc: Global, events: &str) -> Vec<Mutation> {
    let mut mutations = Vec::new(alloc);
    for event in events_of(rt, alloc, events) {
        let request = asked(event).expect(rt, events);
        let mutation = as_mutation(request).expect(rt, events);
        mutations.push(mutation).expect(rt, events);
    }
    mutations
}

// Events; the puts and ensures of the contents after them; how many keys of c have a value; the length of a store of the
// contents: 42 without any, a record of 6 bytes around at most 64 of those, a put of 10 and its value, an ensure of 3.
const LEFT: &[(&str, &str, u64, u64)] = &[
    ("", "", 0, 42),
    (r#"["put","c","a","1"]"#, r#"["put","c","a","1"]"#, 1, 59),
    (
        r#"["put","c","a","1"],["put","c","a","2"]"#,
        r#"["put","c","a","2"]"#,
        1,
        59,
    ),
    (
        r#"["put","c","a","1"],["remove","c","a"]"#,
        r#"["ensure","c"]"#,
        0,
        51,
    ),
    (
        r#"["put","c","a","1"],["remove","c","b"],["remove","d","a"]"#,
        r#"["put","c","a","1"]"#,
        1,
        59,
    ),
    (
        r#"["put","c","b","1"],["put","c","a","2"],["remove","c","b"]"#,
        r#"["put","c","a","2"]"#,
        1,
        59,
    ),
    (r#"["remove","c","a"]"#, "", 0, 42),
    (r#"["ensure","c"]"#, r#"["ensure","c"]"#, 0, 51),
    (
        r#"["ensure","c"],["ensure","c"]"#,
        r#"["ensure","c"]"#,
        0,
        51,
    ),
    (
        r#"["put","c","a","1"],["ensure","c"]"#,
        r#"["put","c","a","1"]"#,
        1,
        59,
    ),
    (
        r#"["put","c","a","1"],["put","c","b","2"],["truncate","c"]"#,
        r#"["ensure","c"]"#,
        0,
        51,
    ),
    (
        r#"["put","c","a","1"],["truncate","c"],["put","c","b","2"]"#,
        r#"["put","c","b","2"]"#,
        1,
        59,
    ),
    (r#"["truncate","c"]"#, "", 0, 42),
    (r#"["put","c","a","1"],["destroy","c"]"#, "", 0, 42),
    (
        r#"["put","c","a","1"],["destroy","c"],["put","c","b","2"]"#,
        r#"["put","c","b","2"]"#,
        1,
        59,
    ),
    (
        r#"["put","c","a","1"],["destroy","c"],["remove","c","a"],["truncate","c"]"#,
        "",
        0,
        42,
    ),
    (
        r#"["putAll","c",[["b","2"],["a","1"]]]"#,
        r#"["put","c","a","1"],["put","c","b","2"]"#,
        2,
        70,
    ),
    (
        r#"["putAll","c",[["a","1"],["b","2"],["a","3"]]]"#,
        r#"["put","c","a","3"],["put","c","b","2"]"#,
        2,
        70,
    ),
    (
        r#"["put","c","a","1"],["putAll","c",[["b","2"],["a",""]]],["remove","c","b"]"#,
        r#"["put","c","a",""]"#,
        1,
        58,
    ),
    (
        r#"["put","d","a","1"],["put","c","a","2"],["truncate","c"]"#,
        r#"["ensure","c"],["put","d","a","1"]"#,
        0,
        62,
    ),
    (
        r#"["put","d","a","1"],["put","c","a","2"],["destroy","d"],["ensure","b"]"#,
        r#"["ensure","b"],["put","c","a","2"]"#,
        1,
        62,
    ),
];

// The contents after the events have this plain list, and c has this size.
#[test]
fn events_leave_their_contents(rt: HostRuntime) {
    let cache = cache(&rt, rt.alloc(), "c");
    for (events, left, count, _) in LEFT {
        let mutations = mutations_of(&rt, rt.alloc(), events);
        let contents = collect_contents(rt.alloc(), &mutations).expect(&rt, events);
        let plain = plain_list(rt.alloc(), &contents).expect(&rt, events);
        expect_same(&rt, events, plain, mutations_of(&rt, rt.alloc(), left));
        let found = size(rt.alloc(), &mutations, &cache);
        expect_same(&rt, events, found.ok(), Some(*count));
    }
}

#[test]
fn contents_have_the_length_of_a_store(rt: HostRuntime) {
    for (events, _, _, length) in LEFT {
        let mutations = mutations_of(&rt, rt.alloc(), events);
        let contents = collect_contents(rt.alloc(), &mutations).expect(&rt, events);
        let found = live(rt.alloc(), &contents);
        expect_same(&rt, events, found.ok(), Some(*length));
    }
}

// The end of the keys' numbers, which begin with 100, and the length of a store of their puts: 42, 14 bytes for each put,
// and 6 for each record of at most 64.
const MANY: &[(u32, u64)] = &[(163, 930), (164, 944), (165, 964)];

#[test]
fn a_store_has_a_record_for_64_puts(rt: HostRuntime) {
    for (end, want) in MANY {
        let mut mutations = Vec::new(rt.alloc());
        for number in 100..*end {
            let event = format!(in rt.alloc(); r#"["put","c","k{number}","1"]"#);
            let event = event.expect(&rt, "an event");
            let request = request_of(&rt, rt.alloc(), event.as_str());
            let mutation = as_mutation(request).expect(&rt, "a put");
            mutations.push(mutation).expect(&rt, "memory");
        }
        let contents = collect_contents(rt.alloc(), &mutations).expect(&rt, "contents");
        let found = live(rt.alloc(), &contents);
        expect_same(&rt, "its length", found.ok(), Some(*want));
    }
}

// Events, and their growths. What only takes away adds nothing; a batch may add a put for each pair.
const GROWTHS: &[(&str, u64)] = &[
    (r#"["put","c","a","1"]"#, 17),
    (r#"["put","c","a",""]"#, 16),
    (r#"["remove","c","a"]"#, 0),
    (r#"["ensure","c"]"#, 9),
    (r#"["truncate","c"]"#, 0),
    (r#"["destroy","c"]"#, 0),
    (r#"["putAll","c",[["a","1"],["b","2"]]]"#, 28),
    (r#"["putAll","c",[["a","1"],["a","2"]]]"#, 28),
];

#[test]
fn a_mutation_has_its_growth(rt: HostRuntime) {
    for (event, want) in GROWTHS {
        let request = request_of(&rt, rt.alloc(), event);
        let mutation = as_mutation(request).expect(&rt, event);
        expect_same(&rt, event, growth(&mutation), *want);
    }
}

// What a reply says.
fn reply_text(reply: &Reply) -> &str {
    match reply {
        Reply::Value(Some(value)) => value.text(),
        Reply::Value(None) => "none",
        Reply::Count(0) => "count 0",
        Reply::Count(1) => "count 1",
        Reply::Count(_) => "count 2 or more",
        Reply::Done => "done",
    }
}

const A_AND_B: &str = r#"["putAll","c",[["a","1"],["b","2"],["a","3"]]]"#;

// Events, one after them, and its reply.
const REPLIES: &[(&str, &str, &str)] = &[
    (A_AND_B, r#"["get","c","a"]"#, "3"),
    (A_AND_B, r#"["get","c","b"]"#, "2"),
    (A_AND_B, r#"["get","c","d"]"#, "none"),
    (A_AND_B, r#"["get","d","a"]"#, "none"),
    (A_AND_B, r#"["put","c","a","4"]"#, "3"),
    (A_AND_B, r#"["put","d","a","4"]"#, "none"),
    (A_AND_B, r#"["remove","c","a"]"#, "3"),
    (A_AND_B, r#"["remove","c","d"]"#, "none"),
    (A_AND_B, r#"["remove","d","a"]"#, "none"),
    (A_AND_B, r#"["size","c"]"#, "count 2 or more"),
    (A_AND_B, r#"["size","d"]"#, "count 0"),
    (A_AND_B, r#"["ensure","c"]"#, "done"),
    (A_AND_B, r#"["truncate","c"]"#, "done"),
    (A_AND_B, r#"["destroy","c"]"#, "done"),
    (A_AND_B, r#"["putAll","c",[["a","4"]]]"#, "done"),
    (
        r#"["put","c","a","1"],["remove","c","a"]"#,
        r#"["get","c","a"]"#,
        "none",
    ),
    (
        r#"["put","c","a","1"],["put","c","b","2"],["remove","c","a"]"#,
        r#"["size","c"]"#,
        "count 1",
    ),
    (
        r#"["put","c","a","1"],["truncate","c"]"#,
        r#"["get","c","a"]"#,
        "none",
    ),
    (
        r#"["put","c","a","1"],["truncate","c"]"#,
        r#"["size","c"]"#,
        "count 0",
    ),
    (
        r#"["put","c","a","1"],["destroy","c"]"#,
        r#"["remove","c","a"]"#,
        "none",
    ),
    (
        r#"["put","c","a","1"],["destroy","d"],["ensure","c"]"#,
        r#"["get","c","a"]"#,
        "1",
    ),
];

#[test]
fn a_request_has_its_reply(rt: HostRuntime) {
    for (events, event, want) in REPLIES {
        let mutations = mutations_of(&rt, rt.alloc(), events);
        let request = request_of(&rt, rt.alloc(), event);
        let reply = reply_to(rt.alloc(), &mutations, &request).expect(&rt, event);
        expect_same(&rt, event, reply_text(&reply), *want);
        let copied = reply.copy().expect(&rt, event);
        expect_same(&rt, event, copied, reply);
    }
}

// Events, and whether they are mutations.
const REQUESTS: &[(&str, bool)] = &[
    (r#"["get","c","a"]"#, false),
    (r#"["put","c","a","1"]"#, true),
    (r#"["remove","c","a"]"#, true),
    (r#"["size","c"]"#, false),
    (r#"["ensure","c"]"#, true),
    (r#"["truncate","c"]"#, true),
    (r#"["destroy","c"]"#, true),
    (r#"["putAll","c",[["a","1"],["b","2"]]]"#, true),
];

#[test]
fn a_request_is_a_mutation_or_none(rt: HostRuntime) {
    for (event, want) in REQUESTS {
        let request = request_of(&rt, rt.alloc(), event);
        expect_same(&rt, event, is_mutation(&request), *want);
        expect_same(&rt, event, asks_nothing(&request), false);
        let mutation = as_mutation(request);
        expect_same(&rt, event, mutation.is_some(), *want);
    }
}

#[test]
fn a_put_of_no_pairs_asks_nothing(rt: HostRuntime) {
    let cache = cache(&rt, rt.alloc(), "c");
    let request = Request::PutAll(cache, Pairs::new(rt.alloc()));
    expect_same(&rt, "no pairs", asks_nothing(&request), true);
}

#[test]
fn a_copy_is_equal(rt: HostRuntime) {
    for (event, _) in REQUESTS {
        let request = request_of(&rt, rt.alloc(), event);
        let copied = request.copy().expect(&rt, event);
        expect_same(&rt, event, &copied, &request);
        if let Some(mutation) = as_mutation(request) {
            let copied = mutation.copy().expect(&rt, event);
            expect_same(&rt, event, copied, mutation);
        }
    }
}
