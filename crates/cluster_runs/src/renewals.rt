//! Stores that are built anew: when they have grown, and at a request.
use crate::fixtures::{
    CREATE, CREATED, DUMP, HAS_A1, NEW_KEY, OPENED, PUT_A1, RECOVER, STOP, STOPPED, WHOLE, WORDS,
    expect_report, expect_run, expect_same, joined, run,
};
use std::alloc::Global;
use std::process::Abort;

// A put of a value of so many bytes at c k.
fn put_of(rt: &impl Abort, alloc: Global, length: usize) -> String {
    let mut line = String::new(alloc);
    let head = r#"{"do":"steps","events":[["put","c","k",""#;
    line.push_str(head).expect(rt, "a put");
    for _ in 0..length {
        line.push('x').expect(rt, "a value");
    }
    line.push_str("\"]]}\n").expect(rt, "its end");
    line
}

// The length of the second value, and the identifier after four puts: the store is built anew once it is longer than
// twice what its contents need, and 65,536 bytes.
const GROWN: &[(usize, &str)] = &[(27, "0-1-1-0"), (28, "0-2-1-0")];

#[test]
fn a_store_that_has_grown_is_built_anew(rt: HostRuntime) {
    let alloc = rt.alloc();
    for (length, id) in GROWN {
        let mut script = joined(&rt, alloc, &[CREATE]);
        for length in [65_536, *length, 0, 0] {
            let put = put_of(&rt, alloc, length);
            script.extend_from_slice(put.as_bytes()).expect(&rt, id);
        }
        script.extend_from_slice(DUMP.as_bytes()).expect(&rt, id);
        let (status, report) = run(&rt, alloc, WORDS, script.as_slice(), WHOLE);
        let dump = format!(in alloc;
            "{{\"dump\":[{{\"caches\":{{\"c\":{{\"k\":\"\"}}}},\"host\":\"a\",\"id\":\"{id}\",\"partition\":0}}]}}\n"
        ).expect(&rt, id);
        expect_same(&rt, id, status, 0);
        expect_same(&rt, id, report.ends_with(dump.as_bytes()), true);
    }
}

#[test]
fn a_value_has_at_most_65536_bytes(rt: HostRuntime) {
    let alloc = rt.alloc();
    let mut script = joined(&rt, alloc, &[CREATE]);
    for length in [65_536, 65_537] {
        let put = put_of(&rt, alloc, length);
        script
            .extend_from_slice(put.as_bytes())
            .expect(&rt, "a put");
    }
    let (status, report) = run(&rt, alloc, WORDS, script.as_slice(), WHOLE);
    let want = [CREATED, NEW_KEY, "{\"fault\":\"script\",\"line\":3}\n"];
    expect_report(&rt, alloc, "too long", report.as_slice(), &want);
    expect_same(&rt, "too long", status, 2);
}

const RENEWS: &str =
    "{\"do\":\"steps\",\"events\":[[\"renew\",0],[\"put\",\"c\",\"a\",\"1\"],[\"renew\",0],[\"renew\",1],[\"get\",\"c\",\"a\"]]}\n";

const RENEWED: &str =
    "{\"steps\":[{\"id\":\"0-2-1-0\",\"renewed\":0},{\"value\":null},{\"id\":\"0-3-1-0\",\"renewed\":0},{\"partition\":1,\"refused\":\"noPartition\"},{\"value\":\"1\"}]}\n";

const HAS_THIRD: &str =
    "{\"dump\":[{\"caches\":{\"c\":{\"a\":\"1\"}},\"host\":\"a\",\"id\":\"0-3-1-0\",\"partition\":0}]}\n";

#[test]
fn a_renewal_keeps_the_contents(rt: HostRuntime) {
    let script = [CREATE, RENEWS, STOP, RECOVER, DUMP];
    let want = [CREATED, RENEWED, STOPPED, OPENED, HAS_THIRD];
    expect_run(&rt, rt.alloc(), "renew", WORDS, &script, &want);
}

const RENEW: &str = "{\"do\":\"steps\",\"events\":[[\"renew\",0]]}\n";

const RENEW_FAULT: &str = "{\"steps\":[{\"host\":\"a\",\"refused\":\"fault\"}]}\n";

const HAS_SECOND: &str =
    "{\"dump\":[{\"caches\":{\"c\":{\"a\":\"1\"}},\"host\":\"a\",\"id\":\"0-2-1-0\",\"partition\":0}]}\n";

// The first call of a renewal that fails with all later ones, the pick, and what is found. A create and a put make 12
// calls; 20 and 21 seal the new store.
const CUT_RENEWALS: &[(&str, &str)] = &[
    (" --cut a/0/13", HAS_A1),
    (" --cut a/0/14 --pick 1", HAS_A1),
    (" --cut a/0/16 --pick 2", HAS_A1),
    (" --cut a/0/18 --pick 3", HAS_A1),
    (" --cut a/0/20", HAS_A1),
    (" --cut a/0/20 --pick 1", HAS_SECOND),
    (" --cut a/0/21 --pick 1", HAS_SECOND),
];

#[test]
fn a_renewal_that_fails_keeps_the_contents(rt: HostRuntime) {
    let alloc = rt.alloc();
    let script = [CREATE, PUT_A1, RENEW, STOP, RECOVER, DUMP];
    for (options, found) in CUT_RENEWALS {
        let want = [CREATED, NEW_KEY, RENEW_FAULT, STOPPED, OPENED, *found];
        let line = format!(in alloc; "{WORDS}{options}").expect(&rt, options);
        expect_run(&rt, alloc, options, line.as_str(), &script, &want);
    }
}
