//! Lines that are no command, and the reason of each.
use crate::fixtures::{Sizes, add, put_line, repeat};
use script_lines::read_line;
use std::alloc::Global;
use std::process::Abort;

/// What a person reads of the line is this reason.
pub(crate) fn expect_reason(rt: &impl Abort, alloc: Global, line: &[u8], want: &str) {
    let text = match read_line(alloc, line) {
        Ok(_) => String::from_str(alloc, "a command"),
        Err(fault) => format!(in alloc; "{fault}"),
    };
    let text = text.expect(rt, want);
    assert_eq!(rt; text.as_str(), want, "{line:?}");
}

/// Lines that are no object, and the reason.
const NO_OBJECTS: &[(&[u8], &str)] = &[
    (
        b"\xef\xbb\xbf{\"do\":\"dump\"}",
        "it begins with a byte-order mark",
    ),
    (b"# a note", "it is a comment, and a script has none"),
    (b" \t// a note", "it is a comment, and a script has none"),
    (b"", "it is blank"),
    (b" \t\r", "it is blank"),
    (b"{\"do\":\"\xff\"}", "it is not UTF-8 at column 8"),
    (br#"{"do":"dump""#, "it ends before its JSON does"),
    (
        br#"{"do":"dump",}"#,
        "it is not JSON: reading stopped at column 14",
    ),
    (
        br#"{"do":"dump"} x"#,
        "something follows the command at column 15, and a line is one command",
    ),
    (
        br"{'do':'dump'}",
        "it is not JSON: reading stopped at column 2",
    ),
    (b"dump", "it is not JSON: reading stopped at column 1"),
    (
        br#"{"do":"steps","events":[["get","c","\ud800"]]}"#,
        "it is not JSON: reading stopped at column 36",
    ),
    (
        br#"{"do":1e999}"#,
        "it is not JSON: reading stopped at column 12",
    ),
    (b"null", "it is not an object"),
    (b"[]", "it is not an object"),
    (br#""dump""#, "it is not an object"),
];

/// Objects that are no command, and the reason.
const OBJECTS: &[(&str, &str)] = &[
    ("{}", "the member \"do\" is missing"),
    (r#"{"Do":"dump"}"#, "the member \"do\" is missing"),
    (r#"{"do":null}"#, "the member \"do\" is not a text"),
    (
        r#"{"do":"dumps"}"#,
        "unknown command \"dumps\"; the commands are create, dump, recover, steps, stop",
    ),
    (
        r#"{"do":"\n"}"#,
        "unknown command \"\\n\"; the commands are create, dump, recover, steps, stop",
    ),
    (
        r#"{"do":"abcdefghijklmnopqrstuvwxyz0123456789"}"#,
        "unknown command \"abcdefghijklmnopqrstuvwxyz012...\"; the commands are create, dump, recover, steps, stop",
    ),
    (r#"{"do":"create"}"#, "the member \"host\" is missing"),
    (
        r#"{"do":"create","hosts":"a"}"#,
        "the member \"host\" is missing",
    ),
    (
        r#"{"do":"create","host":"a","epoch":1}"#,
        "create has no member \"epoch\"",
    ),
    (r#"{"do":"dump","host":"a"}"#, "dump has no member \"host\""),
    (r#"{"do":"stop","x":1,"b":1}"#, "stop has no member \"b\""),
    (r#"{"do":"steps"}"#, "the member \"events\" is missing"),
    (
        r#"{"do":"steps","events":[],"client":0}"#,
        "steps has no member \"client\"",
    ),
    (
        r#"{"do":"recover","host":"a"}"#,
        "the member \"hosts\" is missing",
    ),
    (
        r#"{"do":"create","host":1}"#,
        "the member \"host\" is not a text",
    ),
    (
        r#"{"do":"create","host":""}"#,
        "the member \"host\" is empty",
    ),
    (
        r#"{"do":"create","host":"a b"}"#,
        "the member \"host\" has the byte 0x20 at offset 1 (a name has A-Z a-z 0-9 _ . - alone)",
    ),
    (
        r#"{"do":"recover","hosts":"a"}"#,
        "the member \"hosts\" is not a list",
    ),
    (
        r#"{"do":"recover","hosts":[]}"#,
        "the member \"hosts\" needs 1 item, and has 0",
    ),
    (
        r#"{"do":"recover","hosts":["a","b"]}"#,
        "the member \"hosts\" needs 1 item, and has 2",
    ),
    (
        r#"{"do":"recover","hosts":[1]}"#,
        "the name in \"hosts\" is not a text",
    ),
    (
        r#"{"do":"recover","hosts":["aé"]}"#,
        "the name in \"hosts\" has the byte 0xc3 at offset 1 (a name has A-Z a-z 0-9 _ . - alone)",
    ),
    (
        r#"{"do":"steps","events":{}}"#,
        "the member \"events\" is not a list",
    ),
];

/// Second events that are none, and the reason.
const EVENTS: &[(&str, &str)] = &[
    (r#""get""#, "event 2 is not a list"),
    ("[]", "event 2 is empty"),
    (r#"[1,"c"]"#, "the name of event 2 is not a text"),
    (
        r#"["GET","c","k"]"#,
        "event 2 has the unknown name \"GET\"; the events are get, put, remove, size, ensure, truncate, destroy, putAll, renew",
    ),
    (
        r#"["get","c"]"#,
        "event 2 needs 2 items after \"get\", the cache and the key, and has 1",
    ),
    (
        r#"["get","c","k","v"]"#,
        "event 2 needs 2 items after \"get\", the cache and the key, and has 3",
    ),
    (
        r#"["put","c","k"]"#,
        "event 2 needs 3 items after \"put\", the cache, the key and the value, and has 2",
    ),
    (r#"["get",1,"k"]"#, "the cache of event 2 is not a text"),
    (r#"["get","","k"]"#, "the cache of event 2 is empty"),
    (r#"["get","c",""]"#, "the key of event 2 is empty"),
    (r#"["put","c","k",1]"#, "the value of event 2 is not a text"),
    (
        r#"["put","c/d","k","v"]"#,
        "the cache of event 2 has the byte 0x2f at offset 1 (a name has A-Z a-z 0-9 _ . - alone)",
    ),
    (
        r#"["renew","c"]"#,
        "the partition of event 2 is not a whole number from 0 to 65535",
    ),
];

#[test]
fn a_line_that_is_no_object_has_its_reason(rt: HostRuntime) {
    for (line, want) in NO_OBJECTS {
        expect_reason(&rt, rt.alloc(), line, want);
    }
}

#[test]
fn an_object_that_is_no_command_has_its_reason(rt: HostRuntime) {
    for (line, want) in OBJECTS {
        expect_reason(&rt, rt.alloc(), line.as_bytes(), want);
    }
}

#[test]
fn a_second_event_that_is_none_has_its_reason(rt: HostRuntime) {
    for (event, want) in EVENTS {
        let mut line = String::new(rt.alloc());
        let before = r#"{"do":"steps","events":[["get","c","k"],"#;
        add(&rt, &mut line, &[before, event, "]}"]);
        expect_reason(&rt, rt.alloc(), line.as_bytes(), want);
    }
}

/// Texts of which one is too long, and the reason.
const TOO_LONG: &[(Sizes, &str)] = &[
    (
        (65, 1_024, 65_536),
        "the cache of event 1 is longer than 64 bytes",
    ),
    (
        (64, 1_025, 65_536),
        "the key of event 1 is longer than 1024 bytes",
    ),
    (
        (64, 1_024, 65_537),
        "the value of event 1 is longer than 65536 bytes",
    ),
];

#[test]
fn a_text_past_its_limit_has_its_reason(rt: HostRuntime) {
    for (sizes, want) in TOO_LONG {
        let line = put_line(&rt, rt.alloc(), *sizes);
        expect_reason(&rt, rt.alloc(), line.as_bytes(), want);
    }
}

// The object and 126 lists are read, and the 127th list is one too deep: it begins at column 133.
#[test]
fn a_nest_has_its_reason(rt: HostRuntime) {
    let want = "lists and objects nest deeper than 127 at column 133";
    for lists in [127, 200] {
        let mut line = String::new(rt.alloc());
        add(&rt, &mut line, &["{\"do\":"]);
        repeat(&rt, &mut line, '[', lists);
        expect_reason(&rt, rt.alloc(), line.as_bytes(), want);
    }
}
