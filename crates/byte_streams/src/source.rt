// The trait of sources: where a script comes from.
ghost use Rattle.std.specs.Prelude.{◌≤◌, ℕ, List, length, IfOk};
ghost use Rattle.std.specs.declared.option.Option.{Option};
ghost use Rattle.byte_streams.specs.Streams.{ReadsFrom, EndsAtEnd, HasCause};

use crate::SourceRefusal;

/// A source of bytes. Code that is generic over it can't make it fail.
pub trait Source {
    /// The bytes that are left, where it tells them.
    ghost left: { Self → Option (List ℕ) };

    /// How often it has failed. The count never falls.
    ghost faults: { Self → ℕ };

    /// Reads the next bytes into the beginning of the slice, and says how many.
    ///
    /// 0 for a slice that isn't empty is the end. A read may give fewer bytes than there is room for.
    /// The rest of the slice may hold anything, and all of it after a refusal.
    fn read(&mut self, into: &mut [u8]) -> Result<usize, SourceRefusal>
        ensures bound { IfOk result (λ n. n ≤ length into.old) }
        ensures told { ReadsFrom (left self.old) (left self.new) into.new result }
        ensures end { EndsAtEnd (left self.old) (length into.old) result }
        ensures cause { HasCause SourceRefusal.Failed (faults self.old) (faults self.new) result };
}
