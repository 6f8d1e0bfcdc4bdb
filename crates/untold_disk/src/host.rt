// The calls of a host, each with a relation that says what it may answer.
ghost use Rattle.std.specs.Prelude.{ℕ, List};
ghost use Rattle.std.specs.declared.result.Result.{Result as Answer};
ghost use Rattle.disk_trait.specs.declared.DiskRefusal.{DiskRefusal as Refusal};

use disk_trait::DiskRefusal;

/// Something with files that can be read and written.
///
/// Each call has a relation, from the host before it to the host after it. A host that leaves them out says nothing of
/// what its calls answer or do.
pub trait Host {
    /// What `length` may answer: the host before it, the file, the answer, the host after it.
    ghost length_gives: { Self → ℕ → Answer ℕ Refusal → Self → Type 0 } = { λ _ _ _ _. Unit {0} };

    /// What `read` may answer: the host before it, the file, the offset, the slice before it, the answer, the slice and
    /// the host after it.
    ghost read_gives: { Self → ℕ → ℕ → List ℕ → Answer ℕ Refusal → List ℕ → Self → Type 0 } = { λ _ _ _ _ _ _ _. Unit {0} };

    /// What `write_at` may answer: the host before it, the file, the offset, the bytes, the answer, the host after it.
    ghost write_gives: { Self → ℕ → ℕ → List ℕ → Answer (Unit {0}) Refusal → Self → Type 0 } = { λ _ _ _ _ _ _. Unit {0} };

    /// What `cut` may answer: the host before it, the file, the length, the answer, the host after it.
    ghost cut_gives: { Self → ℕ → ℕ → Answer (Unit {0}) Refusal → Self → Type 0 } = { λ _ _ _ _ _. Unit {0} };

    /// What `sync` may answer: the host before it, the file, the answer, the host after it.
    ghost sync_gives: { Self → ℕ → Answer (Unit {0}) Refusal → Self → Type 0 } = { λ _ _ _ _. Unit {0} };

    /// The length of the file in bytes.
    fn length(&mut self, file: u8) -> Result<u64, DiskRefusal>
        ensures { length_gives self.old file result self.new };

    /// Reads bytes from the offset `at` on, and answers how many.
    fn read(&mut self, file: u8, at: u64, into: &mut [u8]) -> Result<usize, DiskRefusal>
        ensures { read_gives self.old file at into.old result into.new self.new };

    /// Writes bytes from the offset `at` on.
    fn write_at(&mut self, file: u8, at: u64, bytes: &[u8]) -> Result<(), DiskRefusal>
        ensures { write_gives self.old file at bytes.now result self.new };

    /// Cuts the file to `to` bytes, if it is longer.
    fn cut(&mut self, file: u8, to: u64) -> Result<(), DiskRefusal>
        ensures { cut_gives self.old file to result self.new };

    /// Makes the file durable.
    fn sync(&mut self, file: u8) -> Result<(), DiskRefusal>
        ensures { sync_gives self.old file result self.new };
}
