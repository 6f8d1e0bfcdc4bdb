//! Lines by hand, and the command of each.
use crate::events::add_event;
use crate::fixtures::{add, expect_same, lettered, letters, put_line, repeat};
use script_lines::{Command, Event, LineFault, read_line};
use std::alloc::Global;
use std::process::Abort;

/// What a line was read as: the command in words, each event after a blank.
pub(crate) fn words(rt: &impl Abort, alloc: Global, line: &[u8]) -> String {
    let mut text = String::new(alloc);
    match read_line(alloc, line) {
        Ok(command) => add_command(rt, &mut text, command),
        Err(LineFault::Form { .. }) => add(rt, &mut text, &["none"]),
        Err(LineFault::NoMemory) => add(rt, &mut text, &["no memory"]),
    }
    text
}

fn add_command(rt: &impl Abort, text: &mut String, command: Command) {
    match command {
        Command::Create { host } => add(rt, text, &["create ", host.text()]),
        Command::Dump => add(rt, text, &["dump"]),
        Command::Steps { events } => {
            add(rt, text, &["steps"]);
            add_events(rt, text, events.into_vec().as_slice());
        }
        Command::Stop => add(rt, text, &["stop"]),
        Command::Recover { host } => add(rt, text, &["recover ", host.text()]),
    }
}

fn add_events(rt: &impl Abort, text: &mut String, events: &[Event]) {
    for event in events {
        add_event(rt, text, event);
    }
}

/// Lines, and what they are read as.
const COMMANDS: &[(&[u8], &str)] = &[
    // each form
    (br#"{"do":"create","host":"a"}"#, "create a"),
    (br#"{"do":"dump"}"#, "dump"),
    (br#"{"do":"steps","events":[]}"#, "steps"),
    (
        br#"{"do":"steps","events":[["get","c","k"]]}"#,
        "steps get(c,k)",
    ),
    (
        br#"{"do":"steps","events":[["put","c","k","v"],["get","d","l"]]}"#,
        "steps put(c,k,v) get(d,l)",
    ),
    (
        br#"{"do":"steps","events":[["put","c","k",""]]}"#,
        "steps put(c,k,)",
    ),
    (br#"{"do":"stop"}"#, "stop"),
    (br#"{"do":"recover","hosts":["a"]}"#, "recover a"),
    // other orders, blanks, and the last of several members of one name
    (br#"{"host":"a","do":"create"}"#, "create a"),
    (br#"{"events":[],"do":"steps"}"#, "steps"),
    (br#"{"hosts":["b"],"do":"recover"}"#, "recover b"),
    (b" \t{ \"do\" :\r \"dump\" } \r", "dump"),
    (br#"{"do":"create","host":"a","host":"b"}"#, "create b"),
    (br#"{"do":"dump","do":"create","host":"a"}"#, "create a"),
    (br#"{"do":"recover","hosts":[],"hosts":["b"]}"#, "recover b"),
    (br#"{"do":"dump","do":"stop"}"#, "stop"),
    // names
    (br#"{"do":"create","host":"A-z_0.9"}"#, "create A-z_0.9"),
    (
        br#"{"do":"recover","hosts":["A-z_0.9"]}"#,
        "recover A-z_0.9",
    ),
    // escapes
    (br#"{"d\u006f":"\u0064ump"}"#, "dump"),
    (
        br#"{"do":"steps","events":[["put","\u0061","\"\\","\u00e9"]]}"#,
        "steps put(a,\"\\,\u{e9})",
    ),
    (
        br#"{"do":"steps","events":[["get","c","\ud83d\ude00"]]}"#,
        "steps get(c,\u{1f600})",
    ),
];

/// Lines that are refused.
const NO_COMMANDS: &[&[u8]] = &[
    // the last of two members of one name
    br#"{"do":"create","host":"a","host":1}"#,
    // a member more, a member less, another member
    br#"{"do":"create","host":"a","epoch":1}"#,
    br#"{"do":"create"}"#,
    br#"{"do":"create","hosts":"a"}"#,
    br#"{"do":"create","Host":"a"}"#,
    br#"{"do":"dump","host":"a"}"#,
    br#"{"do":"steps"}"#,
    br#"{"do":"steps","events":[],"client":0}"#,
    br#"{"do":"steps","host":"a"}"#,
    br#"{"host":"a"}"#,
    br#"{"do":"stop","host":"a"}"#,
    br#"{"do":"stop","hosts":["a"]}"#,
    br#"{"do":"recover"}"#,
    br#"{"do":"recover","host":"a"}"#,
    br#"{"do":"recover","hosts":["a"],"epoch":1}"#,
    br#"{"hosts":["a"]}"#,
    br#"{}"#,
    // another name of the command
    br#"{"do":"Dump"}"#,
    br#"{"do":"dumps"}"#,
    br#"{"do":"Stop"}"#,
    br#"{"do":""}"#,
    br#"{"do":null}"#,
    br#"{"do":["dump"]}"#,
    br#"{"Do":"dump"}"#,
    br#"{"do":"create","events":[]}"#,
    // names and keys
    br#"{"do":"create","host":""}"#,
    br#"{"do":"create","host":"a b"}"#,
    br#"{"do":"create","host":"a/b"}"#,
    br#"{"do":"create","host":1}"#,
    br#"{"do":"create","host":null}"#,
    br#"{"do":"create","host":["a"]}"#,
    br#"{"do":"steps","events":[["get","","k"]]}"#,
    br#"{"do":"steps","events":[["get","c",""]]}"#,
    // hosts that are no list of one name
    br#"{"do":"recover","hosts":[]}"#,
    br#"{"do":"recover","hosts":["a","b"]}"#,
    br#"{"do":"recover","hosts":["a","a"]}"#,
    br#"{"do":"recover","hosts":["a b"]}"#,
    br#"{"do":"recover","hosts":[""]}"#,
    br#"{"do":"recover","hosts":[1]}"#,
    br#"{"do":"recover","hosts":[["a"]]}"#,
    br#"{"do":"recover","hosts":"a"}"#,
    br#"{"do":"recover","hosts":{"a":"a"}}"#,
    br#"{"do":"recover","hosts":null}"#,
    // events of another shape
    br#"{"do":"steps","events":[["put","c","k"]]}"#,
    br#"{"do":"steps","events":[["get","c","k","v"]]}"#,
    br#"{"do":"steps","events":[["get","c"]]}"#,
    br#"{"do":"steps","events":[["put","c","k","v","w"]]}"#,
    br#"{"do":"steps","events":[["put","c","k",1]]}"#,
    br#"{"do":"steps","events":[["GET","c","k"]]}"#,
    br#"{"do":"steps","events":[["get","c","k"],[]]}"#,
    br#"{"do":"steps","events":["get","c","k"]}"#,
    br#"{"do":"steps","events":{}}"#,
    // escapes
    br#"{"do":"steps","events":[["get","c","\ud800"]]}"#,
    br#"{"do":"steps","events":[["get","c","\x"]]}"#,
    // what is no text or no JSON
    b"{\"do\":\"steps\",\"events\":[[\"get\",\"c\",\"\xff\"]]}",
    b"\xef\xbb\xbf{\"do\":\"dump\"}",
    b"",
    b"null",
    b"[]",
    br#""dump""#,
    br#"{"do":"dump"} x"#,
    br#"{"do":"dump"}{"do":"dump"}"#,
    br#"{"do":"dump",}"#,
    br#"{"do":"dump""#,
];

#[test]
fn a_line_is_its_command(rt: HostRuntime) {
    for (line, want) in COMMANDS {
        let got = words(&rt, rt.alloc(), line);
        expect_same(&rt, want, got.as_str(), *want);
    }
}

#[test]
fn another_line_is_no_command(rt: HostRuntime) {
    for line in NO_COMMANDS {
        let got = words(&rt, rt.alloc(), line);
        assert_eq!(rt; got.as_str(), "none", "{line:?}");
    }
}

// What is longer is refused, with its reason (line_reasons).
#[test]
fn names_keys_and_values_end_at_their_limits(rt: HostRuntime) {
    let sizes = (64, 1_024, 65_536);
    let line = put_line(&rt, rt.alloc(), sizes);
    let got = words(&rt, rt.alloc(), line.as_bytes());
    let want = lettered(&rt, rt.alloc(), ("steps put(", ",", ")"), sizes);
    expect_same(&rt, "the longest texts", got.as_str(), want.as_str());
}

#[test]
fn a_host_s_name_ends_at_its_limit(rt: HostRuntime) {
    for (length, is_read) in [(64, true), (65, false)] {
        let host = letters(&rt, rt.alloc(), length);
        let mut line = String::new(rt.alloc());
        let pieces = ["{\"do\":\"create\",\"host\":\"", host.as_str(), "\"}"];
        add(&rt, &mut line, &pieces);
        let got = read_line(rt.alloc(), line.as_bytes());
        expect_same(&rt, host.as_str(), got.is_ok(), is_read);
    }
}

// Lists and objects nest 127 deep: the object is one of them, and a member that a later one hides counts too.
#[test]
fn a_line_nests_127_deep(rt: HostRuntime) {
    for (lists, want) in [(126, "dump"), (127, "none")] {
        let mut line = String::new(rt.alloc());
        add(&rt, &mut line, &["{\"do\":"]);
        repeat(&rt, &mut line, '[', lists);
        repeat(&rt, &mut line, ']', lists);
        add(&rt, &mut line, &[",\"do\":\"dump\"}"]);
        let got = words(&rt, rt.alloc(), line.as_bytes());
        expect_same(&rt, want, got.as_str(), want);
    }
}
