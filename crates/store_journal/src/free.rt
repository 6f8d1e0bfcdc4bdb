// A file is made free of a store: its first byte is zero then, and durable.
ghost use Rattle.std.specs.Prelude.{◌≡◌, ◌≢◌, ℕ, ◌≤◌, ◌∷◌, List, slice_index, IfOk, OnOk, IsTrue, ◌↔◌};
ghost use Rattle.disk_trait.specs.View.{Image, View, Tells};
ghost use Rattle.disk_trait.specs.Calls.{Moved, Same, Cause};
ghost use Rattle.disk_trait.specs.Moments.{After, Throughout};
ghost use Rattle.seal_gate.specs.Seal.{IsSealed, ButFirst, IsSettled, Each};
ghost use Rattle.store_journal.specs.Created.{IsUnsealed, IsBlank, IsFreed};

use disk_trait::{Disk, DiskRefusal};
use seal_gate::{blank, erase, is_sealed};

/// Erases the file where it is sealed, and else leaves it.
///
/// At each moment of the call, and after a refusal, the images are the earlier ones and those with another first byte.
/// Takes no memory but the disk's. At most four device calls: length, read, write, sync; the last two where it is sealed.
pub fn clear<D: Disk>(disk: &mut D, file: u8) -> Result<(), DiskRefusal>
    requires file { file ≤ 10 }
    requires settled { IsSettled (D.view disk.old) file }

    ensures cleared { OnOk result (Each (D.view disk.new) file IsUnsealed) }
    ensures settled { OnOk result (IsSettled (D.view disk.new) file) }

    ensures moments { Throughout (D.view disk.old) (D.view disk.new) (After (D.view disk.old) (Moved file ButFirst)) }
    ensures cause { Cause (D.view disk.old) (D.view disk.new) result }

    ensures unsealed { Tells (D.view disk.old) → IsUnsealed ((D.view disk.old).seen file) → Same (D.view disk.old) (D.view disk.new) }
    ensures unsealed_moments { Tells (D.view disk.old) → IsUnsealed ((D.view disk.old).seen file) → Throughout (D.view disk.old) (D.view disk.new) (D.view disk.old).images }
    ensures others { (f : ℕ) → f ≢ file → (D.view disk.new).seen f ≡ (D.view disk.old).seen f }
    ensures tells { Tells (D.view disk.old) → Tells (D.view disk.new) }
{
    if is_sealed(disk, file)? {
        return erase(disk, file);
    }
    Ok(())
}

/// Makes the first byte zero: a sealed file is erased, one whose first byte is zero is left, any other is blanked.
pub(crate) fn free<D: Disk>(disk: &mut D, file: u8) -> Result<(), DiskRefusal>
    requires file { file ≤ 10 }
    requires settled { IsSettled (D.view disk.old) file }

    ensures freed { OnOk result (Each (D.view disk.new) file IsBlank) }

    ensures moments { Throughout (D.view disk.old) (D.view disk.new) (After (D.view disk.old) (Moved file IsFreed)) }
    ensures cause { Cause (D.view disk.old) (D.view disk.new) result }
    ensures others { (f : ℕ) → f ≢ file → (D.view disk.new).seen f ≡ (D.view disk.old).seen f }
    ensures tells { Tells (D.view disk.old) → Tells (D.view disk.new) }
{
    clear(disk, file)?;
    if is_blank(disk, file)? {
        return Ok(());
    }
    blank(disk, file)
}

/// Whether a read shows a first byte, and it is zero.
fn is_blank<D: Disk>(disk: &mut D, file: u8) -> Result<bool, DiskRefusal>
    requires { file ≤ 10 }

    ensures told { IfOk result (λ answer. Tells (D.view disk.old) → (IsTrue answer ↔ IsBlank ((D.view disk.old).seen file))) }

    ensures moments { Throughout (D.view disk.old) (D.view disk.new) (D.view disk.old).images }
    ensures cause { Cause (D.view disk.old) (D.view disk.new) result }
    ensures reads_only { Same (D.view disk.old) (D.view disk.new) }
{
    let mut first = [1];
    let count = disk.read(file, 0, &mut first)?;
    Ok(count == 1 && first[0] == 0)
}
