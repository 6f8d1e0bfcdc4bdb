// A source in memory, which fails where its plan says so.
ghost use Rattle.std.specs.Prelude.{◌≡◌, ◌≤◌, ◌↔◌, min, length, drop, Some, IfOk, OnErr};
ghost use Rattle.std.specs.Result.{IsErrOf};
ghost use Rattle.byte_streams.specs.Streams.{ReadsFrom, EndsAtEnd, HasCause};
ghost use Rattle.byte_streams.specs.Plans.{FailsNext, called, failed};

use crate::{Source, SourceRefusal};
use fault_count::one_more;
use std::marker::Model;

/// A source of bytes in memory. It tells them.
#[derive(Drop)]
pub struct MemorySource {
    bytes: Vec<u8>,
    given: usize,
    most: usize,
    calls: u64,
    faults: u64,
    planned: Vec<u64>,
}

impl Model for MemorySource {
    ghost use Rattle.std.specs.Prelude.{◌≤◌, drop, vec_len};
    ghost use Rattle.byte_streams.specs.Plans.{MemoryStream};

    ghost Value = { MemoryStream };

    ghost view = { λ s. record { bytes = drop s.given s.bytes.items; most = s.most; calls = s.calls; faults = s.faults; planned = s.planned.items } };

    ghost invariant = { λ s. (s.given ≤ vec_len s.bytes) × (1 ≤ s.most) };
}

impl MemorySource {
    /// A source of these bytes, of whose calls those fail that `fail` numbers, from 1.
    pub fn new(bytes: Vec<u8>, fail: Vec<u64>) -> Self
        ensures { result ≡ record { bytes = bytes.items; most = usize.MAX; calls = 0; faults = 0; planned = fail.items } }
    {
        MemorySource::in_pieces(bytes, usize::MAX, fail)
    }

    /// The same, whose reads give at most `most` bytes.
    pub fn in_pieces(bytes: Vec<u8>, most: usize, fail: Vec<u64>) -> Self
        requires { 1 ≤ most }
        ensures { result ≡ record { bytes = bytes.items; most = most; calls = 0; faults = 0; planned = fail.items } }
    {
        MemorySource {
            bytes,
            given: 0,
            most,
            calls: 0,
            faults: 0,
            planned: fail,
        }
    }
}

impl Source for MemorySource {
    ghost use Rattle.std.specs.Prelude.{Some};

    ghost left = { λ s. Some s.bytes };

    ghost faults = { λ s. s.faults };

    fn read(&mut self, into: &mut [u8]) -> Result<usize, SourceRefusal>
        ensures bound { IfOk result (λ n. n ≤ length into.old) }
        ensures told { ReadsFrom (Some self.old.bytes) (Some self.new.bytes) into.new result }
        ensures end { EndsAtEnd (Some self.old.bytes) (length into.old) result }
        ensures cause { HasCause SourceRefusal.Failed self.old.faults self.new.faults result }

        // A call fails exactly where it is planned to, and else gives all that it may.
        ensures planned { IsErrOf result SourceRefusal.Failed ↔ FailsNext self.old }
        ensures spares { IsErrOf result SourceRefusal.NoMemory → ⊥ }
        ensures given { IfOk result (λ n. (n ≡ min (length self.old.bytes) (min self.old.most (length into.old))) × (self.new ≡ called self.old (drop n self.old.bytes))) }
        ensures refused { OnErr result (self.new ≡ failed self.old) }
    {
        self.calls = one_more(self.calls);
        if self.planned.contains(&self.calls) {
            self.faults = one_more(self.faults);
            return Err(SourceRefusal::Failed);
        }
        let left = &self.bytes[self.given..];
        let count = left.len().min(self.most.min(into.len()));
        into[..count].copy_from_slice(&left[..count]);
        self.given += count;
        Ok(count)
    }
}
