// A write that is durable when it answers Ok: the unit of the layers above.
ghost use Rattle.std.specs.Prelude.{◌≡◌, ◌≢◌, ℕ, ◌+◌, ◌<◌, ◌≤◌, ◌^◌, length, OnOk};
ghost use Rattle.disk_trait.specs.View.{Image, View, Tells};
ghost use Rattle.disk_trait.specs.Calls.{written, Torn, Moved, Cause};
ghost use Rattle.disk_trait.specs.Moments.{After, Throughout};

use crate::{Disk, DiskRefusal};

/// Writes and syncs: after Ok every image of the file has the bytes.
///
/// The first byte goes to the offset `at`, from 0, at most the length. At each moment of the call, and after a refusal, a
/// stop may leave any bytes in the range. Takes no memory but the disk's. Two device calls: write, sync.
pub fn write_synced<D: Disk>(
    disk: &mut D,
    file: u8,
    at: u64,
    bytes: &[u8],
) -> Result<(), DiskRefusal>
    requires file { file ≤ 10 }
    requires offset { Tells (D.view disk.old) → at ≤ length ((D.view disk.old).seen file) }
    ensures durable { OnOk result ((m : Image) → (D.view disk.new).images m → m file ≡ written ((D.view disk.old).seen file) at bytes.now) }
    ensures below { OnOk result (at + length bytes.now < 2 ^ 63) }
    ensures others { (f : ℕ) → f ≢ file → (D.view disk.new).seen f ≡ (D.view disk.old).seen f }
    ensures tells { Tells (D.view disk.old) → Tells (D.view disk.new) }
    ensures moments { Throughout (D.view disk.old) (D.view disk.new) (After (D.view disk.old) (Moved file (Torn at (length bytes.now)))) }
    ensures cause { Cause (D.view disk.old) (D.view disk.new) result }
{
    disk.write_at(file, at, bytes)?;
    disk.sync(file)?;
    Ok(())
}
