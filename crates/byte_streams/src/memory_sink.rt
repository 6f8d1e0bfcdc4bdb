// A sink in memory, which fails where its plan says so.
ghost use Rattle.std.specs.Prelude.{◌≡◌, ◌≤◌, ◌↔◌, [], ◌++◌, min, length, take, Some, IfOk};
ghost use Rattle.std.specs.Result.{IsErrOf};
ghost use Rattle.byte_streams.specs.Streams.{WritesTo, TakesSome, HasCause};
ghost use Rattle.byte_streams.specs.Plans.{FailsNext, called, failed};

use crate::{Sink, SinkRefusal};
use fault_count::one_more;
use std::alloc::Global;
use std::marker::Model;

/// A sink of bytes in memory. It tells them.
#[derive(Drop)]
pub struct MemorySink {
    bytes: Vec<u8>,
    most: usize,
    calls: u64,
    faults: u64,
    planned: Vec<u64>,
}

impl Model for MemorySink {
    ghost use Rattle.std.specs.Prelude.{◌≤◌};
    ghost use Rattle.byte_streams.specs.Plans.{MemoryStream};

    ghost Value = { MemoryStream };

    ghost view = { λ s. record { bytes = s.bytes.items; most = s.most; calls = s.calls; faults = s.faults; planned = s.planned.items } };

    ghost invariant = { λ s. 1 ≤ s.most };
}

impl MemorySink {
    /// An empty sink, of whose calls those fail that `fail` numbers, from 1.
    pub fn new(alloc: Global, fail: Vec<u64>) -> Self
        ensures { result ≡ record { bytes = []; most = usize.MAX; calls = 0; faults = 0; planned = fail.items } }
    {
        MemorySink::in_pieces(alloc, usize::MAX, fail)
    }

    /// The same, whose writes take at most `most` bytes.
    pub fn in_pieces(alloc: Global, most: usize, fail: Vec<u64>) -> Self
        requires { 1 ≤ most }
        ensures { result ≡ record { bytes = []; most = most; calls = 0; faults = 0; planned = fail.items } }
    {
        MemorySink {
            bytes: Vec::new(alloc),
            most,
            calls: 0,
            faults: 0,
            planned: fail,
        }
    }

    /// What was written.
    pub fn written(&self) -> &[u8]
        ensures { result.now ≡ self.now.bytes }
    {
        &self.bytes
    }
}

impl Sink for MemorySink {
    ghost use Rattle.std.specs.Prelude.{Some};

    ghost written = { λ s. Some s.bytes };

    ghost faults = { λ s. s.faults };

    fn write(&mut self, piece: &[u8]) -> Result<usize, SinkRefusal>
        ensures bound { IfOk result (λ n. n ≤ length piece.now) }
        ensures told { WritesTo (Some self.old.bytes) (Some self.new.bytes) piece.now result }
        ensures some { TakesSome (length piece.now) result }
        ensures cause { HasCause SinkRefusal.Failed self.old.faults self.new.faults result }

        // A call fails exactly where it is planned to, and else takes all that it may.
        ensures planned { IsErrOf result SinkRefusal.Failed ↔ FailsNext self.old }
        ensures taken { IfOk result (λ n. (n ≡ min self.old.most (length piece.now)) × (self.new ≡ called self.old (self.old.bytes ++ take n piece.now))) }
        ensures refused { IsErrOf result SinkRefusal.Failed → self.new ≡ failed self.old }
        ensures no_memory { IsErrOf result SinkRefusal.NoMemory → self.new ≡ called self.old self.old.bytes }
    {
        self.calls = one_more(self.calls);
        if self.planned.contains(&self.calls) {
            self.faults = one_more(self.faults);
            return Err(SinkRefusal::Failed);
        }
        let count = self.most.min(piece.len());
        match self.bytes.extend_from_slice(&piece[..count]) {
            Ok(()) => Ok(count),
            Err(_) => Err(SinkRefusal::NoMemory),
        }
    }
}
