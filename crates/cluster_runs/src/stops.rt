//! Stops and failing disks: what was answered is found again.
use crate::fixtures::{
    ABSENT, CLOSED, CREATE, CREATED, DUMP, EMPTY, FAULT, HAS_A1, HAS_B2, NEW_KEY, OPEN, OPENED,
    PUT_A1, PUT_A3, PUT_B2, PUT_FAULT, RECOVER, STOP, STOPPED, WHOLE, WORDS, disk_of, expect_over,
    expect_report, expect_run, expect_same, expect_store, joined, run_on, words_in,
};
use disk_trait::Disk;
use plan_site::memory_site;
use std::alloc::Global;
use std::process::Abort;

// What a stop takes of what is pending.
const PICKS: &[(&str, u8)] = &[
    ("a stop takes nothing that is pending", 0),
    ("it takes all", 1),
    ("it takes other bytes", 2),
    ("it takes a half", 3),
];

#[test]
fn a_put_is_a_record_of_the_store(rt: HostRuntime) {
    for (case, pick) in PICKS {
        let disk = disk_of(&rt, rt.alloc(), 0, 0, *pick);
        let script = [CREATE, PUT_A1];
        let mut disk = expect_over(&rt, rt.alloc(), case, disk, &script, &[CREATED, NEW_KEY]);
        expect_store(&rt, case, &mut disk);
        disk.restart();
        expect_store(&rt, case, &mut disk);
        expect_same(&rt, case, disk.length(1), Ok(0));
    }
}

// The first run's words with these options after them.
fn expect_options(rt: &impl Abort, alloc: Global, options: &str, script: &[&str], want: &[&str]) {
    let line = format!(in alloc; "{WORDS}{options}").expect(rt, options);
    expect_run(rt, alloc, options, line.as_str(), script, want);
}

// Options, and the answers to a put, a stop, a recovery and a dump.
const STOPS: &[(&str, [&str; 5])] = &[
    ("", [CREATED, NEW_KEY, STOPPED, OPENED, HAS_A1]),
    (
        " --cut a/0/11",
        [CREATED, PUT_FAULT, STOPPED, OPENED, EMPTY],
    ),
    (
        " --cut a/0/11 --pick 2",
        [CREATED, PUT_FAULT, STOPPED, OPENED, HAS_A1],
    ),
    (
        " --cut a/0/9 --pick 2",
        [CREATED, PUT_FAULT, STOPPED, OPENED, EMPTY],
    ),
];

#[test]
fn a_stopped_cluster_is_recovered(rt: HostRuntime) {
    let script = [CREATE, PUT_A1, STOP, RECOVER, DUMP];
    for (options, want) in STOPS {
        expect_options(&rt, rt.alloc(), options, &script, want);
    }
}

// What a create and three puts are answered, a stop after them, and a recovery with a dump after that.
type Answers = ([&'static str; 4], &'static str, [&'static str; 2]);

const THREE_PUTS: [&str; 7] = [CREATE, PUT_A1, PUT_B2, PUT_A3, STOP, RECOVER, DUMP];

fn wanted(want: Answers) -> [&'static str; 7] {
    let ([create, put, second_put, third_put], stopped, [recover, dump]) = want;
    [create, put, second_put, third_put, stopped, recover, dump]
}

// So it is where this call fails with all later ones.
fn expect_found(rt: &impl Abort, alloc: Global, call: u64, pick: u8, want: Answers) {
    let line = format!(in alloc; "{WORDS} --cut a/0/{call} --pick {pick}").expect(rt, "words");
    let line = line.as_str();
    expect_run(rt, alloc, line, line, &THREE_PUTS, &wanted(want));
}

// And so where it fails alone.
fn expect_repaired(rt: &impl Abort, alloc: Global, call: u64, pick: u8, want: Answers) {
    let case = format!(in alloc; "call {call} alone, pick {pick}").expect(rt, "a case");
    let disk = disk_of(rt, alloc, call, 0, pick);
    expect_over(rt, alloc, case.as_str(), disk, &THREE_PUTS, &wanted(want));
}

// The same where the end of a run stands for the stop, and the site that it gives back has a second one.
fn expect_found_again(rt: &impl Abort, alloc: Global, call: u64, pick: u8, want: Answers) {
    let line = format!(in alloc; "{WORDS} --cut a/0/{call} --pick {pick}").expect(rt, "words");
    let line = line.as_str();
    let words = words_in(rt, alloc, line);
    let words = words.as_slice();
    let site = memory_site(alloc, words).expect(rt, "a site");
    let script = joined(rt, alloc, &[CREATE, PUT_A1, PUT_B2, PUT_A3]);
    let (first, report) = run_on(rt, alloc, words, script.as_slice(), WHOLE, site);
    expect_report(rt, alloc, line, report.as_slice(), &want.0);
    expect_same(rt, line, first.status, 0);
    let script = joined(rt, alloc, &[RECOVER, DUMP]);
    let (second, report) = run_on(rt, alloc, words, script.as_slice(), WHOLE, first.site);
    expect_report(rt, alloc, line, report.as_slice(), &want.2);
    expect_same(rt, line, second.status, 0);
}

const NOT_CREATED: [&str; 4] = [FAULT, CLOSED, CLOSED, CLOSED];

const NO_PUT: [&str; 4] = [CREATED, PUT_FAULT, PUT_FAULT, PUT_FAULT];

const ONE_PUT: [&str; 4] = [CREATED, NEW_KEY, PUT_FAULT, PUT_FAULT];

const TWO_PUTS: [&str; 4] = [CREATED, NEW_KEY, NEW_KEY, PUT_FAULT];

const OVER_1: &str = "{\"steps\":[{\"value\":\"1\"}]}\n";

const ALL_PUTS: [&str; 4] = [CREATED, NEW_KEY, NEW_KEY, OVER_1];

const NOTHING: [&str; 2] = [ABSENT, CLOSED];

const NONE: [&str; 2] = [OPENED, EMPTY];

const ONE: [&str; 2] = [OPENED, HAS_A1];

const TWO: [&str; 2] = [
    OPENED,
    "{\"dump\":[{\"caches\":{\"c\":{\"a\":\"1\",\"b\":\"2\"}},\"host\":\"a\",\"id\":\"0-1-1-0\",\"partition\":0}]}\n",
];

const THREE: [&str; 2] = [
    OPENED,
    "{\"dump\":[{\"caches\":{\"c\":{\"a\":\"3\",\"b\":\"2\"}},\"host\":\"a\",\"id\":\"0-1-1-0\",\"partition\":0}]}\n",
];

// A row is for the calls from its first to before its end. What was answered is found, and of what was refused
// nothing, or the whole where its seal or gate is pending: picks 1 and 2 take a byte for it that isn't zero, 0 and 3
// take none. There is no call 21.
const EVERY_STOP: &[(u64, u64, [&str; 4], &str, [&str; 2], [&str; 2])] = &[
    (1, 7, NOT_CREATED, CLOSED, NOTHING, NOTHING),
    (7, 9, NOT_CREATED, CLOSED, NOTHING, NONE),
    (9, 11, NO_PUT, STOPPED, NONE, NONE),
    (11, 13, NO_PUT, STOPPED, NONE, ONE),
    (13, 15, ONE_PUT, STOPPED, ONE, ONE),
    (15, 17, ONE_PUT, STOPPED, ONE, TWO),
    (17, 19, TWO_PUTS, STOPPED, TWO, TWO),
    (19, 21, TWO_PUTS, STOPPED, TWO, THREE),
    (21, 22, ALL_PUTS, STOPPED, THREE, THREE),
];

#[test]
fn every_stop_keeps_what_was_answered(rt: HostRuntime) {
    for (first, end, answers, stopped, found, pending) in EVERY_STOP {
        for call in *first..*end {
            for (pick, found) in [(0, found), (1, pending), (2, pending), (3, found)] {
                let want = (*answers, *stopped, *found);
                expect_found(&rt, rt.alloc(), call, pick, want);
                expect_found_again(&rt, rt.alloc(), call, pick, want);
            }
        }
    }
}

const NO_FIRST: [&str; 4] = [CREATED, PUT_FAULT, NEW_KEY, NEW_KEY];

const NO_SECOND: [&str; 4] = [CREATED, NEW_KEY, PUT_FAULT, OVER_1];

const LAST_TWO: [&str; 2] = [
    OPENED,
    "{\"dump\":[{\"caches\":{\"c\":{\"a\":\"3\",\"b\":\"2\"}},\"host\":\"a\",\"id\":\"0-2-1-0\",\"partition\":0}]}\n",
];

const LAST: [&str; 2] = [
    OPENED,
    "{\"dump\":[{\"caches\":{\"c\":{\"a\":\"3\"}},\"host\":\"a\",\"id\":\"0-2-1-0\",\"partition\":0}]}\n",
];

// The same where the call fails alone: the next put builds the store anew first, without what was refused.
const EVERY_FAILURE: &[(u64, u64, [&str; 4], &str, [&str; 2], [&str; 2])] = &[
    (1, 7, NOT_CREATED, CLOSED, NOTHING, NOTHING),
    (7, 9, NOT_CREATED, CLOSED, NOTHING, NONE),
    (9, 13, NO_FIRST, STOPPED, LAST_TWO, LAST_TWO),
    (13, 17, NO_SECOND, STOPPED, LAST, LAST),
    (17, 19, TWO_PUTS, STOPPED, TWO, TWO),
    (19, 21, TWO_PUTS, STOPPED, TWO, THREE),
    (21, 22, ALL_PUTS, STOPPED, THREE, THREE),
];

#[test]
fn the_next_put_builds_the_store_anew(rt: HostRuntime) {
    for (first, end, answers, stopped, found, pending) in EVERY_FAILURE {
        for call in *first..*end {
            for (pick, found) in [(0, found), (1, pending), (2, pending), (3, found)] {
                let want = (*answers, *stopped, *found);
                expect_repaired(&rt, rt.alloc(), call, pick, want);
            }
        }
    }
}

const PUTS: &str =
    "{\"do\":\"steps\",\"events\":[[\"put\",\"c\",\"a\",\"1\"],[\"put\",\"c\",\"a\",\"2\"],[\"get\",\"c\",\"a\"],[\"put\",\"c\",\"b\",\"3\"]]}\n";

const FIRST_FAULT: &str =
    "{\"steps\":[{\"host\":\"a\",\"refused\":\"fault\"},{\"host\":\"a\",\"refused\":\"fault\"},{\"value\":null},{\"host\":\"a\",\"refused\":\"fault\"}]}\n";

const SECOND_FAULT: &str =
    "{\"steps\":[{\"value\":null},{\"host\":\"a\",\"refused\":\"fault\"},{\"value\":\"1\"},{\"host\":\"a\",\"refused\":\"fault\"}]}\n";

const HAS_A2: &str =
    "{\"dump\":[{\"caches\":{\"c\":{\"a\":\"2\"}},\"host\":\"a\",\"id\":\"0-1-1-0\",\"partition\":0}]}\n";

const HAS_BOTH: &str =
    "{\"dump\":[{\"caches\":{\"c\":{\"a\":\"2\",\"b\":\"2\"}},\"host\":\"a\",\"id\":\"0-1-1-0\",\"partition\":0}]}\n";

// The puts' answers, and the dumps before the stop, after it, and after one more put.
// Of the first put the record is there or torn, and its gate closed; of the second the gate is open.
const FAILING_PUTS: &[(&str, [&str; 4])] = &[
    (" --cut a/0/11", [FIRST_FAULT, EMPTY, EMPTY, HAS_B2]),
    (" --cut a/0/9 --pick 2", [FIRST_FAULT, EMPTY, EMPTY, HAS_B2]),
    (
        " --cut a/0/15 --pick 1",
        [SECOND_FAULT, HAS_A1, HAS_A2, HAS_BOTH],
    ),
];

#[test]
fn a_failing_cluster_goes_on_after_a_stop(rt: HostRuntime) {
    let script = [
        CREATE, PUTS, DUMP, CREATE, STOP, RECOVER, DUMP, PUT_B2, STOP, RECOVER, DUMP,
    ];
    for (options, [put, before, after, last]) in FAILING_PUTS {
        let want = [
            CREATED, *put, *before, OPEN, STOPPED, OPENED, *after, NEW_KEY, STOPPED, OPENED, *last,
        ];
        expect_options(&rt, rt.alloc(), options, &script, &want);
    }
}

const NEVER: [&str; 6] = [FAULT, CLOSED, CLOSED, ABSENT, ABSENT, CLOSED];

const AGAIN: [&str; 6] = [CREATED, NEW_KEY, STOPPED, FAULT, OPENED, HAS_A1];

const ONCE: [&str; 6] = [CREATED, NEW_KEY, STOPPED, OPENED, OPEN, HAS_A1];

// Which read fails, and the answers to a put, a stop, two recoveries and a dump.
const FAILING_READS: &[(&str, u64, [&str; 6])] = &[
    ("the first byte of file 1, at the create", 1, NEVER),
    ("the length of file 1", 2, NEVER),
    ("the length of file 0", 3, NEVER),
    ("its first byte", 4, NEVER),
    ("the prefix of file 0", 5, AGAIN),
    ("the prefix of file 1", 6, AGAIN),
    ("the length of the newest file", 7, AGAIN),
    ("its bytes", 8, AGAIN),
    ("the first byte of the other file", 9, AGAIN),
    ("its length", 10, AGAIN),
    ("a call that isn't made", 11, ONCE),
];

#[test]
fn each_failing_read_refuses_its_command(rt: HostRuntime) {
    let script = [CREATE, PUT_A1, STOP, RECOVER, RECOVER, DUMP];
    for (case, read, want) in FAILING_READS {
        let disk = disk_of(&rt, rt.alloc(), 0, *read, 0);
        expect_over(&rt, rt.alloc(), case, disk, &script, want);
    }
}

// Which change of the first create fails, and the pick.
const FAILING_CREATES: &[(&str, u64, u8)] = &[
    ("the cut failed", 3, 0),
    ("the first byte is torn", 1, 2),
    ("the header is torn", 4, 2),
    ("the seal is there", 8, 1),
    ("the seal is torn", 8, 2),
    ("the seal isn't there", 8, 0),
];

#[test]
fn a_create_is_made_again_after_a_fault(rt: HostRuntime) {
    let script = [CREATE, CREATE, PUT_A1];
    let want = [FAULT, CREATED, NEW_KEY];
    for (case, change, pick) in FAILING_CREATES {
        let disk = disk_of(&rt, rt.alloc(), *change, 0, *pick);
        let mut disk = expect_over(&rt, rt.alloc(), case, disk, &script, &want);
        expect_store(&rt, case, &mut disk);
    }
}

const MADE: [&str; 4] = [CREATED, EMPTY, NEW_KEY, STOPPED];

// The first create and the put make 12 calls; the second create erases by calls 13 and 14, and seals by 19 and 20.
const SECOND_CREATES: &[(&str, [&str; 4], [&str; 2])] = &[
    (" --pick 0", MADE, [OPENED, HAS_B2]),
    (" --cut a/0/13", NOT_CREATED, ONE),
    (" --cut a/0/13 --pick 2", NOT_CREATED, ONE),
    (" --cut a/0/14 --pick 1", NOT_CREATED, NOTHING),
    (" --cut a/0/19", NOT_CREATED, NOTHING),
    (" --cut a/0/20 --pick 1", NOT_CREATED, NONE),
];

#[test]
fn a_create_over_a_cluster_starts_from_empty(rt: HostRuntime) {
    let script = [
        CREATE, PUT_A1, STOP, CREATE, DUMP, PUT_B2, STOP, RECOVER, DUMP,
    ];
    for (options, [create, dump, put, stop], [recover, last]) in SECOND_CREATES {
        let want = [
            CREATED, NEW_KEY, STOPPED, *create, *dump, *put, *stop, *recover, *last,
        ];
        expect_options(&rt, rt.alloc(), options, &script, &want);
    }
}
