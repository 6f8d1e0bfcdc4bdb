// The disk over a host: which answers it hands on, and which refusals it counts.
ghost use Rattle.std.specs.Prelude.{◌≡◌, ℕ, ◌+◌, ◌<◌, ◌≤◌, ◌^◌, length, nat_lt, nat_le, Ok, Err, OnOk, IfOk};
ghost use Rattle.fault_count.specs.OneMore.{IsOneMore};
ghost use Rattle.disk_trait.specs.Calls.{Fewer, Cause, KeepsOthers};
ghost use Rattle.disk_trait.specs.View.{untold};
ghost use Rattle.disk_trait.specs.declared.DiskRefusal.TheVariants.{Failed};
ghost use Rattle.untold_disk.specs.HandedOn.{handed_on};

use crate::Host;
use disk_trait::{Disk, DiskRefusal};
use fault_count::one_more;

/// No file reaches this length.
const LIMIT: u64 = 1 << 63;

/// A host's files as a disk that tells nothing.
#[derive(Drop)]
pub struct UntoldDisk<H: Host + Drop> {
    host: H,
    faults: u64,
    restarts: u64,
}

impl<H: Host + Drop> UntoldDisk<H> {
    /// A disk over the host, with no fault and no restart so far.
    pub fn over(host: H) -> Self
        ensures host { result.host ≡ host }
        ensures faults { (⟦<UntoldDisk<H> as Disk>⟧.view result).faults ≡ 0 }
    {
        UntoldDisk {
            host,
            faults: 0,
            restarts: 0,
        }
    }
}

// Counts the answer if it is `Failed`. Restarts stay as they are, which the clause names.
fn counted<T: Drop>(
    faults: &mut u64,
    restarts: u64,
    answer: Result<T, DiskRefusal>,
) -> Result<T, DiskRefusal>
    ensures answer { result ≡ answer }
    ensures cause { Cause (untold faults.old restarts) (untold faults.new restarts) result }
{
    if let Err(DiskRefusal::Failed) = answer {
        *faults = one_more(*faults);
    }
    answer
}

#[tactic(auto, unfolding(disk_trait::specs::Calls::KeepsOthers))]
impl<H: Host + Drop> Disk for UntoldDisk<H> {
    ghost view = { λ disk. untold disk.faults disk.restarts };

    fn length(&mut self, file: u8) -> Result<u64, DiskRefusal>
        ensures answer { (answer : _) × H.length_gives self.old.host file answer self.new.host × (result ≡ handed_on (λ n. nat_lt n (2 ^ 63)) answer) }
        ensures below { IfOk result (λ n. n < 2 ^ 63) }
        ensures cause { Cause (untold self.old.faults self.old.restarts) (untold self.new.faults self.new.restarts) result }
    {
        let answer = match self.host.length(file) {
            Ok(length) if length >= LIMIT => Err(DiskRefusal::Failed),
            answer => answer,
        };
        counted(&mut self.faults, self.restarts, answer)
    }

    fn read(&mut self, file: u8, at: u64, into: &mut [u8]) -> Result<usize, DiskRefusal>
        ensures answer { (answer : _) × H.read_gives self.old.host file at into.old answer into.new self.new.host × (result ≡ handed_on (λ n. nat_le n (length into.old)) answer) }
        ensures within { IfOk result (λ n. n ≤ length into.old) }
        ensures cause { Cause (untold self.old.faults self.old.restarts) (untold self.new.faults self.new.restarts) result }
    {
        let most = into.len();
        let answer = match self.host.read(file, at, into) {
            Ok(count) if count > most => Err(DiskRefusal::Failed),
            answer => answer,
        };
        counted(&mut self.faults, self.restarts, answer)
    }

    fn write_at(&mut self, file: u8, at: u64, bytes: &[u8]) -> Result<(), DiskRefusal>
        ensures answer { at + length bytes.now < 2 ^ 63 → H.write_gives self.old.host file at bytes.now result self.new.host }
        ensures too_long { 2 ^ 63 ≤ at + length bytes.now → (result ≡ Err Failed) × (self.new.host ≡ self.old.host) }
        ensures below { OnOk result (at + length bytes.now < 2 ^ 63) }
        ensures others_stay { KeepsOthers file (untold self.old.faults self.old.restarts) (untold self.new.faults self.new.restarts) }
        ensures cause { Cause (untold self.old.faults self.old.restarts) (untold self.new.faults self.new.restarts) result }
    {
        if at >= LIMIT || bytes.len() as u64 >= LIMIT - at {
            return counted(&mut self.faults, self.restarts, Err(DiskRefusal::Failed));
        }
        counted(
            &mut self.faults,
            self.restarts,
            self.host.write_at(file, at, bytes),
        )
    }

    fn cut(&mut self, file: u8, to: u64) -> Result<(), DiskRefusal>
        ensures answer { H.cut_gives self.old.host file to result self.new.host }
        ensures others_stay { KeepsOthers file (untold self.old.faults self.old.restarts) (untold self.new.faults self.new.restarts) }
        ensures cause { Cause (untold self.old.faults self.old.restarts) (untold self.new.faults self.new.restarts) result }
    {
        counted(&mut self.faults, self.restarts, self.host.cut(file, to))
    }

    fn sync(&mut self, file: u8) -> Result<(), DiskRefusal>
        ensures answer { H.sync_gives self.old.host file result self.new.host }
        ensures others_stay { KeepsOthers file (untold self.old.faults self.old.restarts) (untold self.new.faults self.new.restarts) }
        ensures cause { Cause (untold self.old.faults self.old.restarts) (untold self.new.faults self.new.restarts) result }
    {
        counted(&mut self.faults, self.restarts, self.host.sync(file))
    }

    fn restart(&mut self)
        ensures images { Fewer (untold self.old.faults self.old.restarts) (untold self.new.faults self.new.restarts) }
        ensures host { self.new ≡ record self.old { restarts = self.new.restarts } }
        ensures counted { IsOneMore self.old.restarts self.new.restarts }
        ensures no_less { self.old.restarts ≤ self.new.restarts }
    {
        self.restarts = one_more(self.restarts);
    }
}
