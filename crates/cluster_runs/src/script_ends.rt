//! Each way in which a script ends, over a machine that counts: no disk, no cluster.
ghost use Rattle.std.specs.Prelude.{◌≡◌, ◌+◌, ◌≤◌};
ghost use Rattle.script_lines.specs.declared.answer.Answer.TheVariants.{Stopped};

use crate::fixtures::{expect_same, numbers};
use byte_streams::{MemorySink, MemorySource};
use script_lines::{Answer, Command};
use script_loop::{FaultyLine, Machine, ScriptReason, Status, report_script};
use std::alloc::{AllocError, Global};
use std::process::Abort;

// Answers so many commands, each as a stop, and then is out of memory.
#[derive(Drop)]
struct Tally {
    answered: u32,
    most: u32,
}

impl Machine for Tally {
    ghost answers = { λ old command answer new. (answer ≡ Stopped) × (new.answered ≡ old.answered + 1) × (new.most ≡ old.most) };

    ghost breaks = { λ old command new. new ≡ old };

    ghost is_ready = { λ tally. tally.answered ≤ tally.most };

    fn command(&mut self, _alloc: Global, _command: Command) -> Result<Answer, AllocError> {
        if self.answered == self.most {
            return Err(AllocError);
        }
        self.answered += 1;
        Ok(Answer::Stopped)
    }
}

// How many bytes a call of the streams moves, which of their calls fails, 0 for none, and how many commands are answered.
#[derive(Clone, Copy)]
struct Case {
    read: usize,
    write: usize,
    failing_read: u64,
    failing_write: u64,
    most: u32,
}

const WHOLE: Case = Case {
    read: 65_536,
    write: 65_536,
    failing_read: 0,
    failing_write: 0,
    most: 9,
};

// How a run ends, what it has written, and how many commands it has carried out.
type Want = (Status, &'static str, u32);

const STOP: &str = "{\"do\":\"stop\"}\n";

const TWO: &str = "{\"do\":\"stop\"}\n\n{\"do\":\"stop\"}";

const FAULTY: &str = "{\"do\":\"stop\"}\nstop\n";

const STOPPED: &str = "{\"stopped\":true}\n";

const TWICE: &str = "{\"stopped\":true}\n{\"stopped\":true}\n";

const FAULT_AT_2: &str = "{\"stopped\":true}\n{\"fault\":\"script\",\"line\":2}\n";

const READ_FAULT: &str = "{\"stopped\":true}\n{\"fault\":\"read\"}\n";

const NO_JSON: &str = "line 2: it is not JSON: reading stopped at column 1";

// What a person reads of the faulty line, if there is one.
fn hint(rt: &impl Abort, alloc: Global, faulty: Option<FaultyLine>) -> String {
    match faulty {
        Some(line) => format!(in alloc; "{line}").expect(rt, "a hint"),
        None => String::new(alloc),
    }
}

// Carries out the script, and compares how it ends; what a person reads of the faulty line.
fn expect_run(
    rt: &impl Abort,
    alloc: Global,
    case: &str,
    script: &[u8],
    of: Case,
    want: Want,
) -> String {
    let bytes = script.to_vec(alloc).expect(rt, "a script");
    let reads = numbers(rt, alloc, of.failing_read);
    let mut source = MemorySource::in_pieces(bytes, of.read.max(1), reads);
    let writes = numbers(rt, alloc, of.failing_write);
    let mut sink = MemorySink::in_pieces(alloc, of.write.max(1), writes);
    let mut machine = Tally {
        answered: 0,
        most: of.most,
    };
    let finish = report_script(alloc, &mut source, &mut sink, &mut machine);
    expect_same(rt, case, finish.status, want.0);
    expect_same(rt, case, sink.written(), want.1.as_bytes());
    expect_same(rt, case, machine.answered, want.2);
    hint(rt, alloc, finish.faulty)
}

// The same of a script without a faulty line.
fn expect_no_fault(rt: &impl Abort, alloc: Global, case: &str, script: &str, of: Case, want: Want) {
    let faulty = expect_run(rt, alloc, case, script.as_bytes(), of, want);
    expect_same(rt, case, faulty.as_str(), "");
}

// The bytes of a read and of a write.
const PIECES: &[(&str, &str, usize, usize, Want)] = &[
    ("no line", "", 65_536, 65_536, (Status::Done, "", 0)),
    (
        "one line in one piece",
        STOP,
        65_536,
        65_536,
        (Status::Done, STOPPED, 1),
    ),
    (
        "one line over two pieces",
        STOP,
        9,
        65_536,
        (Status::Done, STOPPED, 1),
    ),
    (
        "a line feed at the beginning of a piece",
        STOP,
        13,
        65_536,
        (Status::Done, STOPPED, 1),
    ),
    (
        "an empty line and an open end",
        TWO,
        65_536,
        65_536,
        (Status::Done, TWICE, 2),
    ),
    (
        "a whole line, and one over two pieces",
        TWO,
        20,
        7,
        (Status::Done, TWICE, 2),
    ),
    ("a byte a call", TWO, 1, 1, (Status::Done, TWICE, 2)),
];

#[test]
fn a_script_is_answered_whole(rt: HostRuntime) {
    for (case, script, read, write, want) in PIECES {
        let of = Case {
            read: *read,
            write: *write,
            ..WHOLE
        };
        expect_no_fault(&rt, rt.alloc(), case, script, of, *want);
    }
}

#[test]
fn a_read_that_fails_ends_the_run(rt: HostRuntime) {
    let of = Case {
        read: 14,
        failing_read: 2,
        ..WHOLE
    };
    let want = (Status::ReadFault, READ_FAULT, 1);
    expect_no_fault(&rt, rt.alloc(), "read 2", TWO, of, want);
}

// The bytes of a write, and which one fails.
const FAILING_WRITES: &[(&str, usize, u64, Want)] = &[
    ("the first write", 65_536, 1, (Status::WriteFault, "", 1)),
    (
        "the second write",
        65_536,
        2,
        (Status::WriteFault, STOPPED, 2),
    ),
    (
        "a write within a line",
        7,
        2,
        (Status::WriteFault, "{\"stopp", 1),
    ),
];

#[test]
fn a_write_that_fails_ends_the_run(rt: HostRuntime) {
    for (case, write, failing_write, want) in FAILING_WRITES {
        let of = Case {
            write: *write,
            failing_write: *failing_write,
            ..WHOLE
        };
        expect_no_fault(&rt, rt.alloc(), case, TWO, of, *want);
    }
}

// Which write fails, and how the run ends.
const FAULTS: &[(&str, u64, Want)] = &[
    ("it is reported", 0, (Status::ScriptFault, FAULT_AT_2, 1)),
    ("its report fails", 2, (Status::WriteFault, STOPPED, 1)),
];

#[test]
fn a_faulty_line_ends_the_run(rt: HostRuntime) {
    for (case, failing_write, want) in FAULTS {
        let of = Case {
            failing_write: *failing_write,
            ..WHOLE
        };
        let faulty = expect_run(&rt, rt.alloc(), case, FAULTY.as_bytes(), of, *want);
        expect_same(&rt, case, faulty.as_str(), NO_JSON);
    }
}

// A byte so many times, the report, and what a person reads.
const LIMITS: &[(u8, usize, &str, &str)] = &[
    (
        b' ',
        1_048_577,
        "{\"fault\":\"script\",\"line\":1}\n",
        "line 1: it has more than 1048576 bytes",
    ),
    (
        b'\n',
        100_001,
        "{\"fault\":\"script\",\"line\":100001}\n",
        "line 100001: a script has at most 100000 lines",
    ),
];

#[test]
fn lines_past_a_limit_are_faulty(rt: HostRuntime) {
    for (byte, count, report, reason) in LIMITS {
        let script = vec![in rt.alloc(); *byte; *count].expect(&rt, "a script");
        let want = (Status::ScriptFault, *report, 0);
        let faulty = expect_run(&rt, rt.alloc(), reason, script.as_slice(), WHOLE, want);
        expect_same(&rt, reason, faulty.as_str(), *reason);
    }
}

#[test]
fn a_script_past_its_limit_has_its_reason(rt: HostRuntime) {
    let far = FaultyLine {
        line: 7,
        reason: ScriptReason::LongScript,
    };
    let text = hint(&rt, rt.alloc(), Some(far));
    let want = "line 7: a script has at most 67108864 bytes";
    expect_same(&rt, want, text.as_str(), want);
}

// How many commands the machine answers.
const OUT_OF_MEMORY: &[(&str, &str, u32, Want)] = &[
    ("at once", TWO, 0, (Status::NoMemory, "", 0)),
    ("after a command", TWO, 1, (Status::NoMemory, STOPPED, 1)),
    (
        "after the last command",
        STOP,
        1,
        (Status::Done, STOPPED, 1),
    ),
];

#[test]
fn a_machine_out_of_memory_ends_the_run(rt: HostRuntime) {
    for (case, script, most, want) in OUT_OF_MEMORY {
        let of = Case {
            most: *most,
            ..WHOLE
        };
        expect_no_fault(&rt, rt.alloc(), case, script, of, *want);
    }
}
