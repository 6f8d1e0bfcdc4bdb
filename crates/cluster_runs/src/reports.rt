//! Scripts with their reports and statuses: pieces of any size, failing streams, limits.
use crate::fixtures::{
    ABSENT, CLOSED, CREATE, CREATED, DUMP, EMPTY, FIRST_PUT, FIRST_PUT_REPORT, HAS_A1, NEW_KEY,
    OPEN, OPENED, PUT_A1, Pieces, RECOVER, STOP, STOPPED, WHOLE, WORDS, expect_report, expect_run,
    expect_same, run,
};
use std::alloc::Global;
use std::process::Abort;

const CREATE_X: &str = "{\"do\":\"create\",\"host\":\"x\"}\n";

const RECOVER_B: &str = "{\"do\":\"recover\",\"hosts\":[\"b\"]}\n";

const NO_MEMBER_X: &str = "{\"host\":\"x\",\"refused\":\"notMember\"}\n";

const NO_MEMBER_B: &str = "{\"host\":\"b\",\"refused\":\"notMember\"}\n";

// Scripts and their reports.
const SCRIPTS: &[(&str, &[&str], &[&str])] = &[
    ("nothing", &[], &[]),
    ("first put", &[FIRST_PUT], &[FIRST_PUT_REPORT]),
    ("empty lines", &["\n\n\n"], &[]),
    ("no last line feed", &["{\"do\":\"dump\"}"], &[CLOSED]),
    (
        "closed",
        &[PUT_A1, STOP, RECOVER, DUMP],
        &[CLOSED, CLOSED, ABSENT, CLOSED],
    ),
    (
        "no member",
        &[CREATE_X, RECOVER_B, DUMP],
        &[NO_MEMBER_X, NO_MEMBER_B, CLOSED],
    ),
    (
        "open",
        &[CREATE, CREATE_X, RECOVER, RECOVER_B, DUMP],
        &[CREATED, OPEN, OPEN, OPEN, EMPTY],
    ),
    (
        "a second stop",
        &[CREATE, STOP, STOP, DUMP, RECOVER, DUMP],
        &[CREATED, STOPPED, CLOSED, CLOSED, OPENED, EMPTY],
    ),
    (
        "no event",
        &[CREATE, "{\"do\":\"steps\",\"events\":[]}\n"],
        &[CREATED, "{\"steps\":[]}\n"],
    ),
    (
        "contents in byte order",
        &[
            "{\"host\":\"a\",\"do\":\"create\"}
{\"do\":\"steps\",\"events\":[[\"put\",\"d\",\"k\",\"1\"],[\"put\",\"c\",\"b\",\"2\"],[\"put\",\"c\",\"a\",\"3\"],[\"put\",\"c\",\"b\",\"\"],[\"get\",\"d\",\"b\"]]}
{\"do\":\"dump\"}
",
        ],
        &[
            "{\"created\":\"a\",\"epoch\":1}
{\"steps\":[{\"value\":null},{\"value\":null},{\"value\":null},{\"value\":\"2\"},{\"value\":null}]}
{\"dump\":[{\"caches\":{\"c\":{\"a\":\"3\",\"b\":\"\"},\"d\":{\"k\":\"1\"}},\"host\":\"a\",\"id\":\"0-1-1-0\",\"partition\":0}]}
",
        ],
    ),
];

#[test]
fn a_script_has_its_report(rt: HostRuntime) {
    for (case, script, want) in SCRIPTS {
        expect_run(&rt, rt.alloc(), case, WORDS, script, want);
    }
}

// The run of the script ends with this status and this report.
fn expect_end(
    rt: &impl Abort,
    alloc: Global,
    case: &str,
    script: &[u8],
    pieces: Pieces,
    want: (u8, &[&str]),
) {
    let (status, report) = run(rt, alloc, WORDS, script, pieces);
    expect_report(rt, alloc, case, report.as_slice(), want.1);
    expect_same(rt, case, status, want.0);
}

const LINE_1: &str = "{\"fault\":\"script\",\"line\":1}\n";

const LINE_2: &str = "{\"fault\":\"script\",\"line\":2}\n";

const LINE_3: &str = "{\"created\":\"a\",\"epoch\":1}\n{\"fault\":\"script\",\"line\":3}\n";

// Scripts with a faulty line, and how the report begins and ends.
const FAULTY: &[(&str, &[u8], &str)] = &[
    (
        "no form in line 3",
        b"{\"do\":\"create\",\"host\":\"a\"}\n\n{\"do\":\"halt\"}\n{\"do\":\"dump\"}\n",
        LINE_3,
    ),
    ("a last line with no form", b"\n{\"do\"", LINE_2),
    ("a carriage return alone", b"\r\n", LINE_1),
    ("a number", b"{\"do\":\"create\",\"host\":1}\n", LINE_1),
    ("no UTF-8", b"\xff\n", LINE_1),
];

#[test]
fn a_faulty_line_ends_the_run_by_its_number(rt: HostRuntime) {
    for (case, script, want) in FAULTY {
        expect_end(&rt, rt.alloc(), case, script, WHOLE, (2, &[*want]));
    }
}

// The bytes of a read and of a write.
const SIZES: &[(&str, usize, usize)] = &[
    ("1 and 1", 1, 1),
    ("2 and 7", 2, 7),
    ("7 and 2", 7, 2),
    ("65536 and 65536", 65_536, 65_536),
];

#[test]
fn pieces_of_any_size_give_one_report(rt: HostRuntime) {
    let script = FIRST_PUT.as_bytes();
    for (case, read, write) in SIZES {
        let pieces = Pieces {
            read: *read,
            write: *write,
            ..WHOLE
        };
        expect_end(
            &rt,
            rt.alloc(),
            case,
            script,
            pieces,
            (0, &[FIRST_PUT_REPORT]),
        );
    }
}

const STEPPED: &str = "{\"steps\":[{\"value\":null},{\"value\":\"1\"}]}\n";

const READ_FAULT: &str = "{\"fault\":\"read\"}\n";

// The lines have 27, 62 and 14 bytes with their line feeds: reads of 27 end line 1 in the first, lines 2 and 3
// in the fourth, and the fifth finds the end.
const FAILING_READS: &[(&str, u64, &[&str])] = &[
    ("read 1", 1, &[READ_FAULT]),
    ("read 2", 2, &[CREATED, READ_FAULT]),
    ("read 3", 3, &[CREATED, READ_FAULT]),
    ("read 4", 4, &[CREATED, READ_FAULT]),
    ("read 5", 5, &[CREATED, STEPPED, HAS_A1, READ_FAULT]),
];

#[test]
fn each_failing_read_ends_the_run(rt: HostRuntime) {
    let script = FIRST_PUT.as_bytes();
    for (case, failing_read, want) in FAILING_READS {
        let pieces = Pieces {
            read: 27,
            failing_read: *failing_read,
            ..WHOLE
        };
        expect_end(&rt, rt.alloc(), case, script, pieces, (3, want));
    }
}

// Which write fails, and the report before it.
const FAILING_WRITES: &[(&str, u64, &[&str])] = &[
    ("write 1", 1, &[]),
    ("write 2", 2, &[CREATED]),
    ("write 3", 3, &[CREATED, STEPPED]),
];

#[test]
fn each_failing_write_ends_the_run(rt: HostRuntime) {
    let script = FIRST_PUT.as_bytes();
    for (case, failing_write, want) in FAILING_WRITES {
        let pieces = Pieces {
            failing_write: *failing_write,
            ..WHOLE
        };
        expect_end(&rt, rt.alloc(), case, script, pieces, (4, want));
    }
}

// The text, and after it the byte so many times.
fn followed(rt: &impl Abort, alloc: Global, text: &str, byte: u8, count: usize) -> Vec<u8> {
    let mut bytes = text.as_bytes().to_vec(alloc).expect(rt, "a text");
    let tail = vec![in alloc; byte; count].expect(rt, "a tail");
    bytes.extend_from_slice(&tail).expect(rt, "a script");
    bytes
}

const COMMAND: &str = "{\"do\":\"dump\"}";

const MANY: &str = "{\"fault\":\"script\",\"line\":100001}\n";

// The command has 13 bytes, and a line may have 1,048,576.
const LIMITS: &[(&str, &str, u8, usize, (u8, &[&str]))] = &[
    ("the longest line", COMMAND, b' ', 1_048_563, (0, &[CLOSED])),
    ("a line too long", COMMAND, b' ', 1_048_564, (2, &[LINE_1])),
    ("the most lines", "", b'\n', 100_000, (0, &[])),
    ("a line too many", "", b'\n', 100_001, (2, &[MANY])),
];

#[test]
fn a_script_keeps_its_limits(rt: HostRuntime) {
    for (case, text, byte, count, want) in LIMITS {
        let script = followed(&rt, rt.alloc(), text, *byte, *count);
        expect_end(&rt, rt.alloc(), case, script.as_slice(), WHOLE, *want);
    }
}

const PUT_B: &str = "{\"do\":\"create\",\"host\":\"a\"}
{\"do\":\"steps\",\"events\":[[\"put\",\"c\",\"a\",\"1\"]]}
{\"do\":\"steps\",\"events\":[[\"put\",\"c\",\"b\",\"";

const FAULT_3: &str = "{\"fault\":\"script\",\"line\":3}\n";

// The letters of a value, and how the run ends.
const VALUES: &[(&str, usize, (u8, &[&str]))] = &[
    (
        "the longest value",
        65_536,
        (0, &[CREATED, NEW_KEY, NEW_KEY]),
    ),
    (
        "a value too long",
        65_537,
        (2, &[CREATED, NEW_KEY, FAULT_3]),
    ),
];

#[test]
fn a_value_keeps_its_limit(rt: HostRuntime) {
    for (case, count, want) in VALUES {
        let mut script = followed(&rt, rt.alloc(), PUT_B, b'x', *count);
        script.extend_from_slice(b"\"]]}\n").expect(&rt, "a script");
        expect_end(&rt, rt.alloc(), case, script.as_slice(), WHOLE, *want);
    }
}
