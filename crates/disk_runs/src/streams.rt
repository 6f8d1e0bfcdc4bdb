// The streams by tables: pieces, and each call failing in turn.
use crate::fixtures::expect_same;
use byte_streams::{
    MemorySink, MemorySource, Sink, SinkRefusal, Source, SourceRefusal, StandardSink,
    StandardSource, write_all,
};
use std::alloc::Global;
use std::io::{self, Write};
use std::process::Abort;

const TEXT: &[u8] = b"put c a 1\nget c a\n";

// What a source gives in reads of `room` bytes, to its end or its first refusal.
fn read_out<S: Source>(
    rt: &impl Abort,
    alloc: Global,
    source: &mut S,
    room: usize,
) -> (Vec<u8>, Option<SourceRefusal>) {
    let mut into = vec![in alloc; 0u8; room].expect(rt, "memory");
    let mut got = Vec::new(alloc);
    for _ in 0..100 {
        match source.read(&mut into) {
            Ok(0) => return (got, None),
            Ok(count) => got.extend_from_slice(&into[..count]).expect(rt, "memory"),
            Err(refusal) => return (got, Some(refusal)),
        }
    }
    (got, None)
}

// The source gives these bytes, and then is at its end or refuses.
fn expect_read<S: Source>(
    rt: &impl Abort,
    alloc: Global,
    case: &str,
    source: &mut S,
    want: (&[u8], Option<SourceRefusal>),
) {
    let (got, refusal) = read_out(rt, alloc, source, 9);
    expect_same(rt, case, got.as_slice(), want.0);
    expect_same(rt, case, refusal, want.1);
}

// How many bytes the source gives at most, and how many a read takes.
const PIECES: &[(usize, usize)] = &[
    (1, 1),
    (1, 7),
    (2, 5),
    (7, 2),
    (7, 7),
    (65_536, 3),
    (3, 65_536),
    (65_536, 65_536),
];

#[test]
fn a_source_gives_its_bytes_once_in_pieces_of_any_size(rt: HostRuntime) {
    for (most, room) in PIECES {
        let bytes = TEXT.to_vec(rt.alloc()).expect(&rt, "memory");
        let planned = Vec::new(rt.alloc());
        let mut source = MemorySource::in_pieces(bytes, (*most).max(1), planned);
        let (got, refusal) = read_out(&rt, rt.alloc(), &mut source, *room);
        assert_eq!(rt; got.as_slice(), TEXT, "pieces of {most} into {room}");
        expect_same(&rt, "the end", refusal, None);
    }
}

// Which call fails, and what was read before it and after it.
const FAILING_READS: &[(&str, u64, &[u8], &[u8])] = &[
    ("call 1", 1, b"", b"put c a 1\nget c a\n"),
    ("call 2", 2, b"put c a", b" 1\nget c a\n"),
    ("call 3", 3, b"put c a 1\nget ", b"c a\n"),
    ("call 4", 4, b"put c a 1\nget c a\n", b""),
];

#[test]
fn a_planned_read_fails_and_takes_nothing(rt: HostRuntime) {
    for (case, call, before, after) in FAILING_READS {
        let bytes = TEXT.to_vec(rt.alloc()).expect(&rt, "memory");
        let planned = vec![in rt.alloc(); *call].expect(&rt, "memory");
        let mut source = MemorySource::in_pieces(bytes, 7, planned);
        let failed = Some(SourceRefusal::Failed);
        expect_read(&rt, rt.alloc(), case, &mut source, (before, failed));
        expect_read(&rt, rt.alloc(), case, &mut source, (after, None));
    }
}

#[test]
fn a_text_is_written_whole_in_pieces_of_any_size(rt: HostRuntime) {
    for most in [1, 2, 7, 65_536] {
        let mut sink = MemorySink::in_pieces(rt.alloc(), most, Vec::new(rt.alloc()));
        for text in ["", "{\"ok\":1}\n", "{}\n"] {
            expect_same(&rt, text, write_all(&mut sink, text.as_bytes()), Ok(()));
        }
        let want = b"{\"ok\":1}\n{}\n".as_slice();
        assert_eq!(rt; sink.written(), want, "pieces of {most}");
    }
}

// Which call fails, and what was written before it.
const FAILING_WRITES: &[(&str, u64, &[u8])] = &[
    ("call 1", 1, b""),
    ("call 2", 2, b"{\"ok\":1"),
    ("call 3", 3, b"{\"ok\":1}\n"),
];

#[test]
fn a_planned_write_fails_after_a_prefix_of_the_text(rt: HostRuntime) {
    for (case, call, want) in FAILING_WRITES {
        let planned = vec![in rt.alloc(); *call].expect(&rt, "memory");
        let mut sink = MemorySink::in_pieces(rt.alloc(), 7, planned);
        let first = write_all(&mut sink, b"{\"ok\":1}\n");
        let second = match first {
            Ok(()) => write_all(&mut sink, b"{}\n"),
            Err(_) => first,
        };
        expect_same(&rt, case, second, Err(SinkRefusal::Failed));
        expect_same(&rt, case, sink.written(), *want);
    }
}

#[test]
fn a_whole_source_gives_all_at_once(rt: HostRuntime) {
    let bytes = TEXT.to_vec(rt.alloc()).expect(&rt, "memory");
    let mut source = MemorySource::new(bytes, Vec::new(rt.alloc()));
    let mut into = [0; 64];
    expect_same(&rt, "all", source.read(&mut into), Ok(18));
    expect_same(&rt, "the end", source.read(&mut into), Ok(0));
}

#[test]
fn a_whole_sink_takes_all_at_once(rt: HostRuntime) {
    let planned = vec![in rt.alloc(); 2].expect(&rt, "memory");
    let mut sink = MemorySink::new(rt.alloc(), planned);
    let failed = Err(SinkRefusal::Failed);
    expect_same(&rt, "all", sink.write(TEXT), Ok(18));
    expect_same(&rt, "call 2", sink.write(TEXT), failed);
    expect_same(&rt, "written", sink.written(), TEXT);
}

// A writer that takes no byte of any piece, and counts its calls.
struct Stuck {
    calls: u64,
}

impl Write for &mut Stuck {
    fn write(&mut self, _piece: &[u8]) -> io::Result<usize> {
        self.calls = fault_count::one_more(self.calls);
        Ok(0)
    }

    fn flush(&mut self) -> io::Result<()> {
        Ok(())
    }
}

#[test]
fn a_write_that_takes_nothing_is_a_fault(rt: HostRuntime) {
    let mut stuck = Stuck { calls: 0 };
    let mut sink = StandardSink::over(&mut stuck);
    expect_same(&rt, "no byte", write_all(&mut sink, b""), Ok(()));
    let failed = Err(SinkRefusal::Failed);
    expect_same(&rt, "a line", write_all(&mut sink, b"{}\n"), failed);
    drop(sink);
    let Stuck { calls } = stuck;
    expect_same(&rt, "one write was tried", calls, 1);
}

#[test]
fn a_reader_of_std_is_a_source(rt: HostRuntime) {
    let mut source = StandardSource::over(TEXT);
    expect_read(&rt, rt.alloc(), "a reader", &mut source, (TEXT, None));
}

#[test]
fn a_writer_of_std_is_a_sink(rt: HostRuntime) {
    let mut text = Vec::new(rt.alloc());
    let mut sink = StandardSink::over(&mut text);
    expect_same(&rt, "a line", write_all(&mut sink, b"a line\n"), Ok(()));
    let more = write_all(&mut sink, b"and one more\n");
    expect_same(&rt, "and one more", more, Ok(()));
    drop(sink);
    let want = b"a line\nand one more\n".as_slice();
    expect_same(&rt, "both", text.as_slice(), want);
}

// Standard input and output hold what they hold: a test has an empty input.
#[test]
fn the_standard_streams_answer(rt: HostRuntime) {
    let mut source = StandardSource::new(&rt);
    expect_read(&rt, rt.alloc(), "input", &mut source, (b"", None));
    let mut sink = StandardSink::new(&rt);
    expect_same(&rt, "output", write_all(&mut sink, b"a line\n"), Ok(()));
}
