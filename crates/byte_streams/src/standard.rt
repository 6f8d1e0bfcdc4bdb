// Readers and writers of std as streams, and the process's own among them.
ghost use Rattle.std.specs.Prelude.{◌≡◌};

use crate::{Sink, SinkRefusal, Source, SourceRefusal};
use fault_count::one_more;
use std::io::{self, ErrorKind, Printer, Read, Write};

/// A reader of std as a source. It tells the bytes that the reader tells.
#[derive(Drop)]
pub struct StandardSource<R: Read + Drop> {
    reader: R,
    faults: u64,
}

impl<R: Read + Drop> StandardSource<R> {
    /// The reader, with no fault so far.
    pub fn over(reader: R) -> Self
        ensures left { ⟦<StandardSource<R> as Source>⟧.left result ≡ R.remaining reader }
        ensures faults { ⟦<StandardSource<R> as Source>⟧.faults result ≡ 0 }
    {
        StandardSource { reader, faults: 0 }
    }

    /// The standard input, with no fault so far.
    pub fn new<I: Input<Reader = R>>(rt: &I) -> Self
        ensures { ⟦<StandardSource<R> as Source>⟧.faults result ≡ 0 }
    {
        StandardSource::over(rt.reader())
    }
}

impl<R: Read + Drop> Source for StandardSource<R> {
    ghost left = { λ s. R.remaining s.reader };

    ghost faults = { λ s. s.faults };

    fn read(&mut self, into: &mut [u8]) -> Result<usize, SourceRefusal> {
        match self.reader.read(into) {
            Ok(count) => Ok(count),
            Err(error) if error.kind() == ErrorKind::OutOfMemory => Err(SourceRefusal::NoMemory),
            Err(_) => {
                self.faults = one_more(self.faults);
                Err(SourceRefusal::Failed)
            }
        }
    }
}

/// A writer of std as a sink. It tells the bytes that the writer tells.
#[derive(Drop)]
pub struct StandardSink<W: Write + Drop> {
    writer: W,
    faults: u64,
}

impl<W: Write + Drop> StandardSink<W> {
    /// The writer, with no fault so far.
    pub fn over(writer: W) -> Self
        ensures written { ⟦<StandardSink<W> as Sink>⟧.written result ≡ W.contents writer }
        ensures faults { ⟦<StandardSink<W> as Sink>⟧.faults result ≡ 0 }
    {
        StandardSink { writer, faults: 0 }
    }
}

impl<'a, P: Print> StandardSink<Printer<'a, P>> {
    /// The standard output, with no fault so far. Each write reaches it at once.
    pub fn new(rt: &'a P) -> Self
        ensures { ⟦<StandardSink<Printer<'a, P>> as Sink>⟧.faults result ≡ 0 }
    {
        StandardSink::over(io::writer(rt))
    }
}

impl<W: Write + Drop> Sink for StandardSink<W> {
    ghost written = { λ s. W.contents s.writer };

    ghost faults = { λ s. s.faults };

    fn write(&mut self, piece: &[u8]) -> Result<usize, SinkRefusal> {
        match self.writer.write(piece) {
            Ok(count) if count > 0 || piece.is_empty() => Ok(count),
            Err(error) if error.kind() == ErrorKind::OutOfMemory => Err(SinkRefusal::NoMemory),
            _ => {
                self.faults = one_more(self.faults);
                Err(SinkRefusal::Failed)
            }
        }
    }
}
