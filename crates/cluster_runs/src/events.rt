//! Events of every kind: what each is answered, and what is found of them after each stop.
use crate::fixtures::{
    CREATE, CREATED, DUMP, EMPTY, OPENED, RECOVER, STOP, STOPPED, WHOLE, WORDS, expect_report,
    expect_run, expect_same, joined, run_on, words_in,
};
use plan_site::memory_site;
use std::alloc::Global;
use std::process::Abort;

// Events, and what they are answered.
const ANSWERED: &[(&str, &str, &str)] = &[
    (
        "each reply",
        r#"{"do":"steps","events":[["remove","c","a"],["put","c","a","x"],["put","c","a","x"],["remove","c","a"],["remove","c","a"],["putAll","c",[["a","1"],["a","2"]]],["get","c","a"],["size","c"]]}
"#,
        r#"{"steps":[{"value":null},{"value":null},{"value":"x"},{"value":"x"},{"value":null},"done",{"value":"2"},{"count":1}]}
"#,
    ),
    (
        "a value with quotes",
        r#"{"do":"steps","events":[["put","orders","order-1001","{\"sku\":\"A-7\",\"qty\":3}"],["get","orders","order-1001"]]}
"#,
        r#"{"steps":[{"value":null},{"value":"{\"sku\":\"A-7\",\"qty\":3}"}]}
"#,
    ),
    (
        "a cache that isn't there",
        r#"{"do":"steps","events":[["truncate","c"],["destroy","c"],["remove","c","a"],["get","c","a"],["size","c"]]}
"#,
        r#"{"steps":["done","done",{"value":null},{"value":null},{"count":0}]}
"#,
    ),
    (
        "an ensure keeps the keys",
        r#"{"do":"steps","events":[["put","c","a","1"],["ensure","c"],["get","c","a"],["size","c"]]}
"#,
        r#"{"steps":[{"value":null},"done",{"value":"1"},{"count":1}]}
"#,
    ),
    (
        "other caches and keys stay",
        r#"{"do":"steps","events":[["putAll","c",[["a","1"],["b","2"]]],["put","d","a","3"],["remove","c","b"],["truncate","d"],["get","c","a"],["size","c"],["destroy","c"],["put","d","b","4"],["size","c"],["size","d"]]}
"#,
        r#"{"steps":["done",{"value":null},{"value":"2"},"done",{"value":"1"},{"count":1},"done",{"value":null},{"count":0},{"count":1}]}
"#,
    ),
];

#[test]
fn events_have_their_replies(rt: HostRuntime) {
    for (case, events, want) in ANSWERED {
        let script = [CREATE, events];
        expect_run(&rt, rt.alloc(), case, WORDS, &script, &[CREATED, want]);
    }
}

// The answers to a get of c a and a size of c, and the caches of the partition in a dump.
type Contents = (&'static str, &'static str);

const BEFORE: Contents = (r#",{"value":null},{"count":0}"#, "");

// Its four device calls; an event; its answer; the contents after it.
type Row = ([u64; 4], &'static str, &'static str, Contents);

// Calls 1 to 8 are those of the create.
const EVENTS: &[Row] = &[
    (
        [9, 10, 11, 12],
        r#"["put","c","a","1"]"#,
        r#"{"value":null}"#,
        (r#",{"value":"1"},{"count":1}"#, r#""c":{"a":"1"}"#),
    ),
    (
        [13, 14, 15, 16],
        r#"["putAll","c",[["a","2"],["b","3"],["d","4"]]]"#,
        r#""done""#,
        (
            r#",{"value":"2"},{"count":3}"#,
            r#""c":{"a":"2","b":"3","d":"4"}"#,
        ),
    ),
    (
        [17, 18, 19, 20],
        r#"["remove","c","b"]"#,
        r#"{"value":"3"}"#,
        (r#",{"value":"2"},{"count":2}"#, r#""c":{"a":"2","d":"4"}"#),
    ),
    (
        [21, 22, 23, 24],
        r#"["ensure","e"]"#,
        r#""done""#,
        (
            r#",{"value":"2"},{"count":2}"#,
            r#""c":{"a":"2","d":"4"},"e":{}"#,
        ),
    ),
    (
        [25, 26, 27, 28],
        r#"["put","e","x","5"]"#,
        r#"{"value":null}"#,
        (
            r#",{"value":"2"},{"count":2}"#,
            r#""c":{"a":"2","d":"4"},"e":{"x":"5"}"#,
        ),
    ),
    (
        [29, 30, 31, 32],
        r#"["truncate","c"]"#,
        r#""done""#,
        (r#",{"value":null},{"count":0}"#, r#""c":{},"e":{"x":"5"}"#),
    ),
    (
        [33, 34, 35, 36],
        r#"["putAll","c",[["a","6"],["b","7"],["a","8"]]]"#,
        r#""done""#,
        (
            r#",{"value":"8"},{"count":2}"#,
            r#""c":{"a":"8","b":"7"},"e":{"x":"5"}"#,
        ),
    ),
    (
        [37, 38, 39, 40],
        r#"["destroy","e"]"#,
        r#""done""#,
        (r#",{"value":"8"},{"count":2}"#, r#""c":{"a":"8","b":"7"}"#),
    ),
    (
        [41, 42, 43, 44],
        r#"["remove","e","x"]"#,
        r#"{"value":null}"#,
        (r#",{"value":"8"},{"count":2}"#, r#""c":{"a":"8","b":"7"}"#),
    ),
    (
        [45, 46, 47, 48],
        r#"["destroy","c"]"#,
        r#""done""#,
        (r#",{"value":null},{"count":0}"#, ""),
    ),
];

// A call that isn't made.
const NEVER: u64 = 49;

fn push(rt: &impl Abort, text: &mut String, more: &str) {
    text.push_str(more).expect(rt, "a text");
}

// One command with a get and a size, and both once more after each event.
fn events(rt: &impl Abort, alloc: Global) -> String {
    let reads = r#"["get","c","a"],["size","c"]"#;
    let start = r#"{"do":"steps","events":["#;
    let mut text = format!(in alloc; "{start}{reads}").expect(rt, "a text");
    for (_, event, _, _) in EVENTS {
        let more = format!(in alloc; ",{event},{reads}").expect(rt, "events");
        push(rt, &mut text, more.as_str());
    }
    push(rt, &mut text, "]}\n");
    text
}

// What these are answered where so many events are done and the disk then fails at each call: every event after them is a
// mutation, which needs the store built anew first.
fn answers(rt: &impl Abort, alloc: Global, done: usize) -> String {
    let start = r#"{"steps":[{"value":null},{"count":0}"#;
    let mut text = String::from_str(alloc, start).expect(rt, "a text");
    let mut contents = BEFORE;
    for (index, (_, _, answer, after)) in EVENTS.iter().enumerate() {
        push(rt, &mut text, ",");
        if index < done {
            contents = *after;
            push(rt, &mut text, answer);
        } else {
            push(rt, &mut text, r#"{"host":"a","refused":"fault"}"#);
        }
        push(rt, &mut text, contents.0);
    }
    push(rt, &mut text, "]}\n");
    text
}

// What a dump of these caches is answered.
fn dump_of(rt: &impl Abort, alloc: Global, caches: &str) -> String {
    if caches.is_empty() {
        return String::from_str(alloc, EMPTY).expect(rt, "a dump");
    }
    let start = r#"{"dump":[{"caches":{"#;
    let end = r#"},"host":"a","id":"0-1-1-0","partition":0}]}"#;
    format!(in alloc; "{start}{caches}{end}\n").expect(rt, "a dump")
}

// Where this call fails with all later ones: so many events are done, and these caches are found after a stop.
fn expect_found(rt: &impl Abort, alloc: Global, line: &str, done: usize, caches: &str) {
    let events = events(rt, alloc);
    let answers = answers(rt, alloc, done);
    let dump = dump_of(rt, alloc, caches);
    let script = [CREATE, events.as_str(), STOP, RECOVER, DUMP];
    let want = [CREATED, answers.as_str(), STOPPED, OPENED, dump.as_str()];
    expect_run(rt, alloc, line, line, &script, &want);
}

// The same where the end of a run stands for the stop, and the site that it gives back has a second one.
fn expect_found_again(rt: &impl Abort, alloc: Global, line: &str, done: usize, caches: &str) {
    let words = words_in(rt, alloc, line);
    let words = words.as_slice();
    let site = memory_site(alloc, words).expect(rt, "a site");
    let events = events(rt, alloc);
    let script = joined(rt, alloc, &[CREATE, events.as_str()]);
    let (first, report) = run_on(rt, alloc, words, script.as_slice(), WHOLE, site);
    let answers = answers(rt, alloc, done);
    expect_report(
        rt,
        alloc,
        line,
        report.as_slice(),
        &[CREATED, answers.as_str()],
    );
    expect_same(rt, line, first.status, 0);
    let script = joined(rt, alloc, &[RECOVER, DUMP]);
    let (second, report) = run_on(rt, alloc, words, script.as_slice(), WHOLE, first.site);
    let dump = dump_of(rt, alloc, caches);
    expect_report(rt, alloc, line, report.as_slice(), &[OPENED, dump.as_str()]);
    expect_same(rt, line, second.status, 0);
}

// One of both, at this call and pick.
fn expect_stop(
    rt: &impl Abort,
    alloc: Global,
    at_end: bool,
    stop: (u64, u8),
    done: usize,
    caches: &str,
) {
    let (call, pick) = stop;
    let line = format!(in alloc; "{WORDS} --cut a/0/{call} --pick {pick}").expect(rt, "words");
    if at_end {
        expect_found_again(rt, alloc, line.as_str(), done, caches);
    } else {
        expect_found(rt, alloc, line.as_str(), done, caches);
    }
}

// What was answered is found, and of the event that failed nothing, or the whole where its gate is pending: picks 1 and 2
// take a byte for the gate that isn't zero, 0 and 3 take none.
fn expect_stops(
    rt: &impl Abort,
    alloc: Global,
    at_end: bool,
    calls: [u64; 4],
    done: usize,
    found: (&str, &str),
) {
    let (before, after) = found;
    let [write, sync, open, sync_open] = calls;
    for (call, pending) in [
        (write, before),
        (sync, before),
        (open, after),
        (sync_open, after),
    ] {
        for (pick, caches) in [(0, before), (1, pending), (2, pending), (3, before)] {
            expect_stop(rt, alloc, at_end, (call, pick), done, caches);
        }
    }
}

// Each event, at each of its calls.
fn expect_events(rt: &impl Abort, alloc: Global, at_end: bool) {
    let mut before = BEFORE;
    for (done, (calls, _, _, after)) in EVENTS.iter().enumerate() {
        expect_stops(rt, alloc, at_end, *calls, done, (before.1, after.1));
        before = *after;
    }
}

#[test]
fn every_stop_keeps_the_events_that_were_answered(rt: HostRuntime) {
    expect_events(&rt, rt.alloc(), false);
}

#[test]
fn every_end_keeps_the_events_that_were_answered(rt: HostRuntime) {
    expect_events(&rt, rt.alloc(), true);
}

#[test]
fn every_event_is_found_after_a_stop(rt: HostRuntime) {
    let done = EVENTS.len();
    for pick in [0, 1, 2, 3] {
        for at_end in [false, true] {
            expect_stop(&rt, rt.alloc(), at_end, (NEVER, pick), done, "");
        }
    }
}
