// The calls that seal a file, and a sync.
ghost use Rattle.std.specs.Prelude.{◌≡◌, ◌≢◌, ℕ, ◌≤◌, ◌<◌, ◌∷◌, [], length, drop, IfOk, OnOk, OnErr, IsTrue, ◌↔◌};
ghost use Rattle.disk_trait.specs.View.{Image, View, Tells};
ghost use Rattle.disk_trait.specs.Calls.{Moved, Same, Cause};
ghost use Rattle.disk_trait.specs.Moments.{After, Throughout};
ghost use Rattle.seal_gate.specs.Seal.{header_end, IsSealed, IsShort, StaysShort, ButFirst, IsSettled, Each};

use disk_trait::{Disk, DiskRefusal, write_synced};

/// Where the header after the seal ends: the least length of a sealed file.
pub const HEADER_END: u64 = 41;

/// What `blank` writes.
const BLANK: u8 = 0;

/// What `erase` writes.
const ERASED: u8 = 0;

/// What `seal` writes. Any byte but zero counts as a seal.
const SEALED: u8 = 1;

/// Makes the first byte zero, in a file that is too short to be sealed.
///
/// An empty file gets its first byte. At each moment of the call, and after a refusal, the file is still too short, and
/// the first byte may be any or missing. Takes no memory but the disk's. Two device calls: write, sync.
pub fn blank<D: Disk>(disk: &mut D, file: u8) -> Result<(), DiskRefusal>
    requires file { file ≤ 10 }
    requires short { Each (D.view disk.old) file IsShort }

    // After Ok one image is left, and its first byte is zero.
    ensures blank { OnOk result (Each (D.view disk.new) file (λ bytes. bytes ≡ 0 ∷ drop 1 ((D.view disk.old).seen file))) }

    ensures moments { Throughout (D.view disk.old) (D.view disk.new) (After (D.view disk.old) (Moved file StaysShort)) }
    ensures cause { Cause (D.view disk.old) (D.view disk.new) result }
    ensures others { (f : ℕ) → f ≢ file → (D.view disk.new).seen f ≡ (D.view disk.old).seen f }
    ensures tells { Tells (D.view disk.old) → Tells (D.view disk.new) }
{
    write_synced(disk, file, 0, &[BLANK])
}

/// Makes the first byte zero, in a file that isn't empty: it is then not sealed.
///
/// At each moment of the call, and after a refusal, the images are the earlier ones and those with another first byte.
/// Takes no memory but the disk's. Two device calls: write, sync.
pub fn erase<D: Disk>(disk: &mut D, file: u8) -> Result<(), DiskRefusal>
    requires file { file ≤ 10 }
    requires not_empty { Each (D.view disk.old) file (λ bytes. 0 < length bytes) }

    // After Ok one image is left, and its first byte is zero.
    ensures erased { OnOk result (Each (D.view disk.new) file (λ bytes. bytes ≡ 0 ∷ drop 1 ((D.view disk.old).seen file))) }

    ensures moments { Throughout (D.view disk.old) (D.view disk.new) (After (D.view disk.old) (Moved file ButFirst)) }
    ensures cause { Cause (D.view disk.old) (D.view disk.new) result }
    ensures others { (f : ℕ) → f ≢ file → (D.view disk.new).seen f ≡ (D.view disk.old).seen f }
    ensures tells { Tells (D.view disk.old) → Tells (D.view disk.new) }
{
    write_synced(disk, file, 0, &[ERASED])
}

/// Makes all that was written to the file durable.
///
/// A refusal changes nothing: what was pending stays so. Takes no memory but the disk's. One device call: sync.
pub fn settle<D: Disk>(disk: &mut D, file: u8) -> Result<(), DiskRefusal>
    requires { file ≤ 10 }

    ensures settled { OnOk result (IsSettled (D.view disk.new) file) }

    // No moment has an image that wasn't one before.
    ensures moments { Throughout (D.view disk.old) (D.view disk.new) (D.view disk.old).images }
    ensures cause { Cause (D.view disk.old) (D.view disk.new) result }
    ensures refused { OnErr result (Same (D.view disk.old) (D.view disk.new)) }
    ensures seen { (f : ℕ) → (D.view disk.new).seen f ≡ (D.view disk.old).seen f }
    ensures tells { Tells (D.view disk.old) → Tells (D.view disk.new) }
{
    disk.sync(file)
}

/// Seals a file that is settled and has at least 41 bytes: its first byte is then 1.
///
/// At each moment of the call, and after a refusal, the other bytes are those that were settled, so the file isn't
/// sealed or is whole. Takes no memory but the disk's. Two device calls: write, sync.
pub fn seal<D: Disk>(disk: &mut D, file: u8) -> Result<(), DiskRefusal>
    requires file { file ≤ 10 }
    requires settled { IsSettled (D.view disk.old) file }
    requires long { Each (D.view disk.old) file (λ bytes. header_end ≤ length bytes) }

    // After Ok one image is left: the settled bytes after a seal.
    ensures sealed { OnOk result (Each (D.view disk.new) file (λ bytes. bytes ≡ 1 ∷ drop 1 ((D.view disk.old).seen file))) }

    ensures moments { Throughout (D.view disk.old) (D.view disk.new) (After (D.view disk.old) (Moved file ButFirst)) }
    ensures cause { Cause (D.view disk.old) (D.view disk.new) result }
    ensures others { (f : ℕ) → f ≢ file → (D.view disk.new).seen f ≡ (D.view disk.old).seen f }
    ensures tells { Tells (D.view disk.old) → Tells (D.view disk.new) }
{
    write_synced(disk, file, 0, &[SEALED])
}

/// Whether a read shows a sealed file.
///
/// A read shows what is pending too. Takes no memory but the disk's. At most two device calls: length, read.
pub fn is_sealed<D: Disk>(disk: &mut D, file: u8) -> Result<bool, DiskRefusal>
    requires { file ≤ 10 }

    ensures told { IfOk result (λ answer. Tells (D.view disk.old) → (IsTrue answer ↔ IsSealed ((D.view disk.old).seen file))) }

    ensures moments { Throughout (D.view disk.old) (D.view disk.new) (D.view disk.old).images }
    ensures cause { Cause (D.view disk.old) (D.view disk.new) result }
    ensures reads_only { Same (D.view disk.old) (D.view disk.new) }
{
    if disk.length(file)? < HEADER_END {
        return Ok(false);
    }
    let mut first = [0];
    let count = disk.read(file, 0, &mut first)?;
    Ok(count == 1 && first[0] != 0)
}
