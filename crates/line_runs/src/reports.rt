//! Answers by hand, and the line of each.
use crate::fixtures::{Put, expect_same, puts, value};
use cache_key::{HostName, Reply};
use cache_model::{Contents, collect_contents};
use report_lines::{Fault, print, print_fault};
use script_lines::{Answer, Outcome, Outcomes, PartitionDump, PartitionDumps, Refusal};
use std::alloc::Global;
use std::process::Abort;
use store_ident::StoreId;

fn host(rt: &impl Abort, alloc: Global, name: &str) -> HostName {
    HostName::of(alloc, name).expect(rt, name)
}

/// The answer has this line.
fn expect_line(rt: &impl Abort, alloc: Global, answer: Answer, want: &str) {
    let line = print(alloc, &answer).expect(rt, want);
    expect_same(rt, want, line.as_slice(), want.as_bytes());
}

fn expect_refusal(rt: &impl Abort, alloc: Global, refusal: Refusal, want: &str) {
    expect_line(rt, alloc, Answer::Refused { refusal }, want);
}

#[test]
fn answers_with_no_list_have_their_lines(rt: HostRuntime) {
    let alloc = rt.alloc();
    let host = host(&rt, alloc, "a");
    let want = "{\"created\":\"a\",\"epoch\":1}\n";
    expect_line(&rt, alloc, Answer::Created { host }, want);
    expect_line(&rt, alloc, Answer::Stopped, "{\"stopped\":true}\n");
    let partitions = PartitionDumps::of(Vec::new(alloc));
    expect_line(&rt, alloc, Answer::Dumped { partitions }, "{\"dump\":[]}\n");
}

#[test]
fn refusals_have_their_lines(rt: HostRuntime) {
    let alloc = rt.alloc();
    expect_refusal(&rt, alloc, Refusal::Closed, "{\"refused\":\"closed\"}\n");
    expect_refusal(&rt, alloc, Refusal::Open, "{\"refused\":\"open\"}\n");
    let want = "{\"refused\":\"notCreated\"}\n";
    expect_refusal(&rt, alloc, Refusal::NotCreated, want);
    let want = "{\"refused\":\"trailFull\"}\n";
    expect_refusal(&rt, alloc, Refusal::TrailFull, want);
    let want = "{\"refused\":\"versionEnd\"}\n";
    expect_refusal(&rt, alloc, Refusal::VersionEnd, want);
}

/// Numbers, and the lines of the refusals of a partition that isn't there.
const NO_PARTITIONS: &[(u16, &str)] = &[
    (1, "{\"partition\":1,\"refused\":\"noPartition\"}\n"),
    (
        u16::MAX,
        "{\"partition\":65535,\"refused\":\"noPartition\"}\n",
    ),
];

#[test]
fn partitions_that_are_not_there_have_their_lines(rt: HostRuntime) {
    for (partition, want) in NO_PARTITIONS {
        let partition = *partition;
        expect_refusal(&rt, rt.alloc(), Refusal::NoPartition { partition }, want);
    }
}

/// Lengths, and the lines of the refusals of a change for which a store has no room.
const FULL_STORES: &[(u64, &str)] = &[
    (
        67_056_765,
        "{\"live\":67056765,\"refused\":\"storeFull\"}\n",
    ),
    (
        u64::MAX,
        "{\"live\":18446744073709551615,\"refused\":\"storeFull\"}\n",
    ),
];

#[test]
fn full_stores_have_their_lines(rt: HostRuntime) {
    for (live, want) in FULL_STORES {
        let live = *live;
        expect_refusal(&rt, rt.alloc(), Refusal::StoreFull { live }, want);
    }
}

#[test]
fn refusals_with_a_host_have_their_lines(rt: HostRuntime) {
    let alloc = rt.alloc();
    let other = host(&rt, alloc, "x");
    let want = "{\"host\":\"x\",\"refused\":\"notMember\"}\n";
    expect_refusal(&rt, alloc, Refusal::NotMember { host: other }, want);
    let faulty = host(&rt, alloc, "a");
    let want = "{\"host\":\"a\",\"refused\":\"fault\"}\n";
    expect_refusal(&rt, alloc, Refusal::Fault { host: faulty }, want);
}

/// Epoch, host, how many partitions were opened, and the line.
const RECOVERIES: &[(u64, &str, u16, &str)] = &[
    (1, "a", 1, "{\"epoch\":1,\"hosts\":[\"a\"],\"opened\":1}\n"),
    (
        u64::MAX,
        "B-1",
        0,
        "{\"epoch\":18446744073709551615,\"hosts\":[\"B-1\"],\"opened\":0}\n",
    ),
];

#[test]
fn recoveries_have_their_lines(rt: HostRuntime) {
    for (epoch, name, opened, want) in RECOVERIES {
        let recovered = Answer::Recovered {
            epoch: *epoch,
            host: host(&rt, rt.alloc(), name),
            opened: *opened,
        };
        expect_line(&rt, rt.alloc(), recovered, want);
    }
}

/// Host, partition, file and offset, and the line.
const DAMAGES: &[(&str, u16, u8, u64, &str)] = &[
    (
        "a",
        0,
        0,
        58,
        "{\"at\":58,\"file\":0,\"host\":\"a\",\"partition\":0,\"refused\":\"damaged\"}\n",
    ),
    (
        "B-1",
        u16::MAX,
        1,
        u64::MAX,
        "{\"at\":18446744073709551615,\"file\":1,\"host\":\"B-1\",\"partition\":65535,\"refused\":\"damaged\"}\n",
    ),
];

#[test]
fn damaged_stores_have_their_lines(rt: HostRuntime) {
    for (name, partition, file, at, want) in DAMAGES {
        let damaged = Refusal::Damaged {
            host: host(&rt, rt.alloc(), name),
            partition: *partition,
            file: *file,
            at: *at,
        };
        expect_refusal(&rt, rt.alloc(), damaged, want);
    }
}

/// What an event of a table came to.
enum Item {
    Value(&'static str),
    NoValue,
    Count(u64),
    Done,
    Fault(&'static str),
    Closed,
    NoPartition(u16),
    Renewed(u16, u64, u64, u16),
}

/// The outcome that an item of a table stands for.
fn outcome(rt: &impl Abort, alloc: Global, item: &Item) -> Outcome {
    let reply = match item {
        Item::Value(text) => Reply::Value(Some(value(rt, alloc, text))),
        Item::NoValue => Reply::Value(None),
        Item::Count(count) => Reply::Count(*count),
        Item::Done => Reply::Done,
        Item::Fault(name) => {
            let host = host(rt, alloc, name);
            let refusal = Refusal::Fault { host };
            return Outcome::Refused { refusal };
        }
        Item::Closed => {
            let refusal = Refusal::Closed;
            return Outcome::Refused { refusal };
        }
        Item::NoPartition(partition) => {
            let partition = *partition;
            let refusal = Refusal::NoPartition { partition };
            return Outcome::Refused { refusal };
        }
        Item::Renewed(partition, version, epoch, host) => {
            let partition = *partition;
            let id = StoreId {
                partition,
                version: *version,
                epoch: *epoch,
                host: *host,
            };
            return Outcome::Renewed { partition, id };
        }
    };
    Outcome::Replied { reply }
}

/// The answer of events that came to these items.
fn steps(rt: &impl Abort, alloc: Global, items: &[Item]) -> Answer {
    let mut outcomes = Vec::new(alloc);
    for item in items {
        outcomes.push(outcome(rt, alloc, item)).expect(rt, "memory");
    }
    Answer::Stepped {
        outcomes: Outcomes::of(outcomes),
    }
}

/// What events came to, and the line.
const STEPS: &[(&[Item], &str)] = &[
    (&[], "{\"steps\":[]}\n"),
    (
        &[Item::NoValue, Item::Value("1")],
        "{\"steps\":[{\"value\":null},{\"value\":\"1\"}]}\n",
    ),
    (
        &[Item::Count(0), Item::Done, Item::Count(u64::MAX)],
        "{\"steps\":[{\"count\":0},\"done\",{\"count\":18446744073709551615}]}\n",
    ),
    (
        &[Item::Value("a \"b\" c\\d\n\u{1}\u{7f}é€😀/")],
        "{\"steps\":[{\"value\":\"a \\\"b\\\" c\\\\d\\n\\u0001\u{7f}é€😀/\"}]}\n",
    ),
    (
        &[Item::NoValue, Item::Fault("a"), Item::Closed],
        "{\"steps\":[{\"value\":null},{\"host\":\"a\",\"refused\":\"fault\"},{\"refused\":\"closed\"}]}\n",
    ),
    (
        &[
            Item::Renewed(0, 2, 1, 0),
            Item::NoPartition(1),
            Item::Renewed(5, 255, 3, 1),
        ],
        "{\"steps\":[{\"id\":\"0-2-1-0\",\"renewed\":0},{\"partition\":1,\"refused\":\"noPartition\"},{\"id\":\"5-ff-3-1\",\"renewed\":5}]}\n",
    ),
];

#[test]
fn steps_have_their_lines(rt: HostRuntime) {
    for (items, want) in STEPS {
        let answer = steps(&rt, rt.alloc(), items);
        expect_line(&rt, rt.alloc(), answer, want);
    }
}

/// The dump of one partition.
fn dump(rt: &impl Abort, alloc: Global, caches: Contents) -> Answer {
    let id = StoreId {
        partition: 0,
        version: 1,
        epoch: 1,
        host: 0,
    };
    let host = host(rt, alloc, "a");
    let mut partitions = Vec::new(alloc);
    let partition = PartitionDump { caches, host, id };
    partitions.push(partition).expect(rt, "memory");
    Answer::Dumped {
        partitions: PartitionDumps::of(partitions),
    }
}

/// Puts, and the line of a dump after them.
const DUMPS: &[(&[Put<'static>], &str)] = &[
    (
        &[("c", "a", "1")],
        "{\"dump\":[{\"caches\":{\"c\":{\"a\":\"1\"}},\"host\":\"a\",\"id\":\"0-1-1-0\",\"partition\":0}]}\n",
    ),
    (
        &[("d", "b", "2"), ("c", "é", "3"), ("d", "B", "1")],
        "{\"dump\":[{\"caches\":{\"c\":{\"é\":\"3\"},\"d\":{\"B\":\"1\",\"b\":\"2\"}},\"host\":\"a\",\"id\":\"0-1-1-0\",\"partition\":0}]}\n",
    ),
];

#[test]
fn dumps_have_their_lines(rt: HostRuntime) {
    for (list, want) in DUMPS {
        let mutations = puts(&rt, rt.alloc(), list);
        let caches = collect_contents(rt.alloc(), mutations.as_slice()).expect(&rt, want);
        expect_line(&rt, rt.alloc(), dump(&rt, rt.alloc(), caches), want);
    }
}

const FAULTS: &[(Fault, &str)] = &[
    (Fault::Words, "{\"fault\":\"words\"}\n"),
    (
        Fault::Script { line: 3 },
        "{\"fault\":\"script\",\"line\":3}\n",
    ),
    (Fault::Read, "{\"fault\":\"read\"}\n"),
];

#[test]
fn faults_have_their_lines(rt: HostRuntime) {
    for (fault, want) in FAULTS {
        let line = print_fault(rt.alloc(), *fault).expect(&rt, want);
        expect_same(&rt, want, line.as_slice(), want.as_bytes());
    }
}
