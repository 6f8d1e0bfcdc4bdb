//! Scripts and reports by hand, and how a run is made of them and judged.
ghost use Rattle.std.specs.Prelude.{◌≡◌, vec_len};
ghost use Rattle.plan_words.specs.Words.{IsSiteOf, words_of};
ghost use Rattle.cluster_cli.specs.Sites.{HasLanes};

use cluster_cli::{Ended, Lane, MemorySink, MemorySource, Site, run_steps};
use disk_memory::{DiskPlan, MemoryDisk};
use disk_trait::Disk;
use plan_site::memory_site;
use plan_words::site_plan;
use std::alloc::Global;
use std::fmt::Debug;
use std::process::Abort;

// How the streams of a run are cut into pieces, and which of their calls fails; 0 for none.
#[derive(Clone, Copy)]
pub(crate) struct Pieces {
    pub(crate) read: usize,
    pub(crate) write: usize,
    pub(crate) failing_read: u64,
    pub(crate) failing_write: u64,
}

pub(crate) const WHOLE: Pieces = Pieces {
    read: 65_536,
    write: 65_536,
    failing_read: 0,
    failing_write: 0,
};

pub(crate) const WORDS: &str = "steps --hosts a --partitions 1";

// Lines of scripts.
pub(crate) const CREATE: &str = "{\"do\":\"create\",\"host\":\"a\"}\n";

pub(crate) const PUT_A1: &str = "{\"do\":\"steps\",\"events\":[[\"put\",\"c\",\"a\",\"1\"]]}\n";

pub(crate) const PUT_B2: &str = "{\"do\":\"steps\",\"events\":[[\"put\",\"c\",\"b\",\"2\"]]}\n";

pub(crate) const PUT_A3: &str = "{\"do\":\"steps\",\"events\":[[\"put\",\"c\",\"a\",\"3\"]]}\n";

pub(crate) const STOP: &str = "{\"do\":\"stop\"}\n";

pub(crate) const RECOVER: &str = "{\"do\":\"recover\",\"hosts\":[\"a\"]}\n";

pub(crate) const DUMP: &str = "{\"do\":\"dump\"}\n";

// Lines of reports.
pub(crate) const CREATED: &str = "{\"created\":\"a\",\"epoch\":1}\n";

pub(crate) const NEW_KEY: &str = "{\"steps\":[{\"value\":null}]}\n";

pub(crate) const STOPPED: &str = "{\"stopped\":true}\n";

pub(crate) const OPENED: &str = "{\"epoch\":1,\"hosts\":[\"a\"],\"opened\":1}\n";

pub(crate) const CLOSED: &str = "{\"refused\":\"closed\"}\n";

pub(crate) const OPEN: &str = "{\"refused\":\"open\"}\n";

pub(crate) const ABSENT: &str = "{\"refused\":\"notCreated\"}\n";

pub(crate) const FAULT: &str = "{\"host\":\"a\",\"refused\":\"fault\"}\n";

pub(crate) const PUT_FAULT: &str = "{\"steps\":[{\"host\":\"a\",\"refused\":\"fault\"}]}\n";

pub(crate) const EMPTY: &str = "{\"dump\":[]}\n";

pub(crate) const HAS_A1: &str =
    "{\"dump\":[{\"caches\":{\"c\":{\"a\":\"1\"}},\"host\":\"a\",\"id\":\"0-1-1-0\",\"partition\":0}]}\n";

pub(crate) const HAS_B2: &str =
    "{\"dump\":[{\"caches\":{\"c\":{\"b\":\"2\"}},\"host\":\"a\",\"id\":\"0-1-1-0\",\"partition\":0}]}\n";

pub(crate) const FIRST_PUT: &str = "{\"do\":\"create\",\"host\":\"a\"}
{\"do\":\"steps\",\"events\":[[\"put\",\"c\",\"a\",\"1\"],[\"get\",\"c\",\"a\"]]}
{\"do\":\"dump\"}
";

pub(crate) const FIRST_PUT_REPORT: &str = "{\"created\":\"a\",\"epoch\":1}
{\"steps\":[{\"value\":null},{\"value\":\"1\"}]}
{\"dump\":[{\"caches\":{\"c\":{\"a\":\"1\"}},\"host\":\"a\",\"id\":\"0-1-1-0\",\"partition\":0}]}
";

// The words of a line, which blanks part.
pub(crate) fn words_in(rt: &impl Abort, alloc: Global, line: &str) -> Vec<String> {
    let mut words = Vec::new(alloc);
    for word in line.split(' ') {
        let word = String::from_str(alloc, word).expect(rt, "a word");
        words.push(word).expect(rt, "words");
    }
    words
}

// The texts, one after the other.
pub(crate) fn joined(rt: &impl Abort, alloc: Global, texts: &[&str]) -> Vec<u8> {
    let mut all = Vec::new(alloc);
    for text in texts {
        all.extend_from_slice(text.as_bytes()).expect(rt, "a text");
    }
    all
}

// The number, unless it is 0.
pub(crate) fn numbers(rt: &impl Abort, alloc: Global, number: u64) -> Vec<u64> {
    let mut numbers = Vec::new(alloc);
    if number != 0 {
        numbers.push(number).expect(rt, "a number");
    }
    numbers
}

// A disk of which this changing and this reading call fails, 0 for none, with what a restart takes of what is pending.
pub(crate) fn disk_of(
    rt: &impl Abort,
    alloc: Global,
    change: u64,
    read: u64,
    pick: u8,
) -> MemoryDisk {
    let plan = DiskPlan {
        fail: numbers(rt, alloc, change),
        fail_reads: numbers(rt, alloc, read),
        fuse: None,
        pick,
    };
    MemoryDisk::new(alloc, plan).expect(rt, "a disk")
}

pub(crate) fn lanes_of(rt: &impl Abort, alloc: Global, disk: MemoryDisk) -> Vec<Lane<MemoryDisk>>
    ensures { HasLanes result.items 1 1 }
{
    let mut disks = Vec::new(alloc);
    disks.push(disk).expect(rt, "a disk");
    let mut lanes = Vec::new(alloc);
    lanes.push(Lane { disks }).expect(rt, "a lane");
    lanes
}

// The site of the words' plan, with this disk.
pub(crate) fn site_with(
    rt: &impl Abort,
    alloc: Global,
    words: &[String],
    disk: MemoryDisk,
) -> Site<MemoryDisk, ()>
    ensures site { IsSiteOf (words_of words.now) result.hosts.items result.partitions }
    ensures lanes { HasLanes result.lanes.items result.partitions (vec_len result.hosts) }
{
    let plan = site_plan(alloc, words).expect(rt, "a plan");
    Site {
        partitions: plan.partitions,
        hosts: plan.hosts,
        lanes: lanes_of(rt, alloc, disk),
        services: Vec::new(alloc),
        vault: (),
    }
}

// How a run on the site ended, and its report.
pub(crate) fn run_on(
    rt: &impl Abort,
    alloc: Global,
    words: &[String],
    script: &[u8],
    pieces: Pieces,
    site: Site<MemoryDisk, ()>,
) -> (Ended<MemoryDisk, ()>, Vec<u8>)
    requires site { IsSiteOf (words_of words.now) site.hosts.items site.partitions }
    requires lanes { HasLanes site.lanes.items site.partitions (vec_len site.hosts) }
    ensures site { IsSiteOf (words_of words.now) result.0.site.hosts.items result.0.site.partitions }
    ensures lanes { HasLanes result.0.site.lanes.items result.0.site.partitions (vec_len result.0.site.hosts) }
{
    let bytes = script.to_vec(alloc).expect(rt, "a script");
    let failing = numbers(rt, alloc, pieces.failing_read);
    let mut source = MemorySource::in_pieces(bytes, pieces.read.max(1), failing);
    let failing = numbers(rt, alloc, pieces.failing_write);
    let mut sink = MemorySink::in_pieces(alloc, pieces.write.max(1), failing);
    let ended = run_steps(rt, alloc, words, &mut source, &mut sink, site);
    let report = sink.written().to_vec(alloc).expect(rt, "a report");
    (ended, report)
}

// The status and the report of a run by the words of the line, on their own site.
pub(crate) fn run(
    rt: &impl Abort,
    alloc: Global,
    line: &str,
    script: &[u8],
    pieces: Pieces,
) -> (u8, Vec<u8>) {
    let words = words_in(rt, alloc, line);
    let words = words.as_slice();
    let site = memory_site(alloc, words).expect(rt, "a site");
    let (ended, report) = run_on(rt, alloc, words, script, pieces, site);
    (ended.status, report)
}

// What was found is what is wanted.
pub(crate) fn expect_same<T: PartialEq + Debug + Drop>(
    rt: &impl Abort,
    case: &str,
    found: T,
    want: T,
) {
    assert_eq!(rt; found, want, "{case}");
}

pub(crate) fn expect_report(
    rt: &impl Abort,
    alloc: Global,
    case: &str,
    report: &[u8],
    want: &[&str],
) {
    let want = joined(rt, alloc, want);
    expect_same(rt, case, report, want.as_slice());
}

// By the words of the line the whole script is answered so.
pub(crate) fn expect_run(
    rt: &impl Abort,
    alloc: Global,
    case: &str,
    line: &str,
    script: &[&str],
    want: &[&str],
) {
    let script = joined(rt, alloc, script);
    let (status, report) = run(rt, alloc, line, script.as_slice(), WHOLE);
    expect_report(rt, alloc, case, report.as_slice(), want);
    expect_same(rt, case, status, 0);
}

// The run of the script on the disk is answered to its end; the disk that it leaves.
pub(crate) fn expect_over(
    rt: &impl Abort,
    alloc: Global,
    case: &str,
    disk: MemoryDisk,
    script: &[&str],
    want: &[&str],
) -> MemoryDisk {
    let words = words_in(rt, alloc, WORDS);
    let words = words.as_slice();
    let script = joined(rt, alloc, script);
    let site = site_with(rt, alloc, words, disk);
    let (ended, report) = run_on(rt, alloc, words, script.as_slice(), WHOLE, site);
    expect_report(rt, alloc, case, report.as_slice(), want);
    let Ended {
        status,
        reason: _,
        site,
    } = ended;
    expect_same(rt, case, status, 0);
    let mut lanes = site.lanes;
    let mut lane = lanes.pop().expect(rt, "a lane");
    lane.disks.pop().expect(rt, "a disk")
}

// The seal; the magic, the format, partition 0; version 1; epoch 1; host 0, one partition, and zeros.
// An open gate and the payload's length; the payload: one mutation, a put, `c`, `a` and `1`; the closed gate.
pub(crate) const STORE: &[u8] = b"\x01\
PST1\x00\x01\x00\x00\
\x00\x00\x00\x00\x00\x00\x00\x01\
\x00\x00\x00\x00\x00\x00\x00\x01\
\x00\x00\x00\x01\x00\x00\x00\x00\x00\x00\x00\x00\x00\x00\x00\x00\
\x01\x00\x00\x00\x0c\
\x01\x01\x01c\x00\x01a\x00\x00\x00\x011\
\x00";

// A read of file 0 gives the store of that one put.
pub(crate) fn expect_store(rt: &impl Abort, case: &str, disk: &mut MemoryDisk) {
    let mut found = [0; 59];
    expect_same(rt, case, disk.length(0), Ok(59));
    expect_same(rt, case, disk.read(0, 0, &mut found), Ok(59));
    expect_same(rt, case, found.as_slice(), STORE);
}
