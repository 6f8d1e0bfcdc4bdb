// The trait of sinks, where a report goes, and how a whole text is written.
ghost use Rattle.std.specs.Prelude.{◌≤◌, ℕ, List, length, IfOk};
ghost use Rattle.std.specs.declared.option.Option.{Option};
ghost use Rattle.byte_streams.specs.Streams.{WritesTo, TakesSome, WritesAll, HasCause};

use crate::SinkRefusal;

/// A sink of bytes. Code that is generic over it can't make it fail.
pub trait Sink {
    /// The bytes written, where it tells them.
    ghost written: { Self → Option (List ℕ) };

    /// How often it has failed. The count never falls.
    ghost faults: { Self → ℕ };

    /// Writes the beginning of the piece, and answers how many of its bytes: at least one, if it has one.
    ///
    /// A refusal writes none.
    fn write(&mut self, piece: &[u8]) -> Result<usize, SinkRefusal>
        ensures bound { IfOk result (λ n. n ≤ length piece.now) }
        ensures told { WritesTo (written self.old) (written self.new) piece.now result }
        ensures some { TakesSome (length piece.now) result }
        ensures cause { HasCause SinkRefusal.Failed (faults self.old) (faults self.new) result };
}

/// Writes the whole text, in one write where the sink takes it whole.
///
/// After a refusal a part of the text is written, never all of it.
/// Takes no memory but the sink's.
pub fn write_all<K: Sink>(sink: &mut K, bytes: &[u8]) -> Result<(), SinkRefusal>
    ensures told { WritesAll (K.written sink.old) (K.written sink.new) bytes.now result }
    ensures cause { HasCause SinkRefusal.Failed (K.faults sink.old) (K.faults sink.new) result }
{
    let mut done = 0;
    while done < bytes.len() {
        done += sink.write(&bytes[done..])?;
    }
    Ok(())
}
