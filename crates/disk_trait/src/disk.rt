// The calls of a disk, and what each does to what the disk tells.
ghost use Rattle.std.specs.Prelude.{◌≡◌, ◌≢◌, ℕ, ◌+◌, ◌-◌, ◌<◌, ◌≤◌, ◌^◌, length, take, drop, min, IfOk, OnOk, OnErr, IsErrOf};
ghost use Rattle.disk_trait.specs.declared.DiskRefusal.TheVariants.{NoMemory};
ghost use Rattle.disk_trait.specs.View.{Image, View, Tells};
ghost use Rattle.disk_trait.specs.Calls.{written, Torn, Shorn, Moved, Follows, TimePasses, Fewer, Same, Cause, KeepsOthers};
ghost use Rattle.fault_count.specs.OneMore.{IsOneMore};

use crate::DiskRefusal;

/// Eleven files of bytes, numbered 0 to 10, that a stop may cut short.
pub trait Disk {
    /// What the disk tells of its files, and its counts of faults and of restarts.
    ghost view: { Self → View };

    /// The length that reads see, in bytes.
    ///
    /// It counts what is pending too. A refusal leaves every file as it was.
    fn length(&mut self, file: u8) -> Result<u64, DiskRefusal>
        requires { file ≤ 10 }
        ensures told { IfOk result (λ n. Tells (view self.old) → n ≡ length ((view self.old).seen file)) }
        ensures below { IfOk result (λ n. n < 2 ^ 63) }
        ensures same { Same (view self.old) (view self.new) }
        ensures time { TimePasses (view self.old) (view self.new) }
        ensures cause { Cause (view self.old) (view self.new) result };

    /// Reads the bytes from the offset `at` on, at most as many as the slice has, and answers how many.
    ///
    /// `at` counts from 0 and may lie past the end. What is pending is read too. The slice past the answer, and all of
    /// it after a refusal, may hold anything.
    fn read(&mut self, file: u8, at: u64, into: &mut [u8]) -> Result<usize, DiskRefusal>
        requires { file ≤ 10 }
        ensures within { IfOk result (λ n. n ≤ length into.old) }
        ensures told { IfOk result (λ n. Tells (view self.old) → n ≡ min (length into.old) (length ((view self.old).seen file) - at)) }
        ensures bytes { IfOk result (λ n. Tells (view self.old) → take n into.new ≡ take n (drop at ((view self.old).seen file))) }
        ensures same { Same (view self.old) (view self.new) }
        ensures time { TimePasses (view self.old) (view self.new) }
        ensures cause { Cause (view self.old) (view self.new) result };

    /// Writes over what is there, and past the end.
    ///
    /// The first byte goes to the offset `at`, from 0, which is at most the length: a write leaves no gap. Until the
    /// file's next sync a stop may leave any bytes in the range. After `Failed` the range is pending all the same.
    fn write_at(&mut self, file: u8, at: u64, bytes: &[u8]) -> Result<(), DiskRefusal>
        requires file { file ≤ 10 }
        requires offset { Tells (view self.old) → at ≤ length ((view self.old).seen file) }
        ensures written { OnOk result (Tells (view self.old) → (view self.new).seen file ≡ written ((view self.old).seen file) at bytes.now) }
        ensures below { OnOk result (at + length bytes.now < 2 ^ 63) }
        ensures others { (f : ℕ) → f ≢ file → (view self.new).seen f ≡ (view self.old).seen f }
        ensures images { Follows (Moved file (Torn at (length bytes.now))) (view self.old) (view self.new) }
        ensures others_stay { KeepsOthers file (view self.old) (view self.new) }
        ensures tells { Tells (view self.old) → Tells (view self.new) }
        ensures time { TimePasses (view self.old) (view self.new) }
        ensures as_before { IsErrOf result NoMemory → Same (view self.old) (view self.new) }
        ensures cause { Cause (view self.old) (view self.new) result };

    /// Cuts the file to `to` bytes, if it is longer.
    ///
    /// Until the file's next sync a stop may leave any length between, with any bytes past the cut. After `Failed` the
    /// cut is pending all the same.
    fn cut(&mut self, file: u8, to: u64) -> Result<(), DiskRefusal>
        requires { file ≤ 10 }
        ensures cut { OnOk result (Tells (view self.old) → (view self.new).seen file ≡ take to ((view self.old).seen file)) }
        ensures others { (f : ℕ) → f ≢ file → (view self.new).seen f ≡ (view self.old).seen f }
        ensures images { Follows (Moved file (Shorn to)) (view self.old) (view self.new) }
        ensures others_stay { KeepsOthers file (view self.old) (view self.new) }
        ensures tells { Tells (view self.old) → Tells (view self.new) }
        ensures time { TimePasses (view self.old) (view self.new) }
        ensures as_before { IsErrOf result NoMemory → Same (view self.old) (view self.new) }
        ensures cause { Cause (view self.old) (view self.new) result };

    /// Makes the file durable: after Ok a stop leaves of it what a read gives.
    ///
    /// A refusal changes nothing: what was pending stays so.
    fn sync(&mut self, file: u8) -> Result<(), DiskRefusal>
        requires { file ≤ 10 }
        ensures durable { OnOk result ((m : Image) → (view self.new).images m → m file ≡ (view self.old).seen file) }
        ensures seen { (f : ℕ) → (view self.new).seen f ≡ (view self.old).seen f }
        ensures images { Fewer (view self.old) (view self.new) }
        ensures others_stay { KeepsOthers file (view self.old) (view self.new) }
        ensures refused { OnErr result (Same (view self.old) (view self.new)) }
        ensures tells { Tells (view self.old) → Tells (view self.new) }
        ensures time { TimePasses (view self.old) (view self.new) }
        ensures cause { Cause (view self.old) (view self.new) result };

    /// Stops and starts again: the disk then holds one of its images, and nothing is pending.
    ///
    /// A read shows what that image holds. Which one it is isn't said. The count of restarts rises by this call alone.
    fn restart(&mut self)
        ensures images { Fewer (view self.old) (view self.new) }
        ensures durable { (m : Image) → (view self.new).images m → (f : ℕ) → m f ≡ (view self.new).seen f }
        ensures tells { Tells (view self.old) → Tells (view self.new) }
        ensures time { TimePasses (view self.old) (view self.new) }
        ensures faults { (view self.old).faults ≤ (view self.new).faults }
        ensures counted { IsOneMore (view self.old).restarts (view self.new).restarts }
        ensures no_less { (view self.old).restarts ≤ (view self.new).restarts }
        ensures spares { (view self.old).spares → (view self.new).spares };
}
