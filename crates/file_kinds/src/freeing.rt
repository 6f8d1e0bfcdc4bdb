//! A file is made free of a store, by its kind.
ghost use Rattle.std.specs.Prelude.{◌≡◌, ◌≢◌, ℕ, ◌≤◌, OnOk};
ghost use Rattle.disk_trait.specs.View.{Image, View, Tells};
ghost use Rattle.disk_trait.specs.Calls.{Moved, Cause};
ghost use Rattle.disk_trait.specs.Moments.{After, Throughout};
ghost use Rattle.seal_gate.specs.Seal.{Each};
ghost use Rattle.store_journal.specs.Created.{IsBlank};
ghost use Rattle.file_kinds.specs.Freeing.{IsFreeable, IsFreedFrom};

use disk_trait::{Disk, DiskRefusal};
use seal_gate::{blank, erase};
use slot_board::SlotKind;

/// Makes the first byte zero, and durable.
///
/// A file of which nothing is known isn't freed: the condition refuses it. Of a blank file other bytes may be pending, and a
/// write of its first byte could leave it sealed, so it isn't touched. At each moment of the call, and after a refusal, an
/// empty file is still short, a blank one is as it was, and any other has all its bytes but perhaps the first. Takes no memory
/// but the disk's. Device calls: write and sync of the first byte; none for a blank file.
pub fn free<D: Disk>(disk: &mut D, file: u8, kind: SlotKind) -> Result<(), DiskRefusal>
    requires file { file ≤ 10 }
    requires fits { Each (D.view disk.old) file (IsFreeable kind) }
    requires known { kind ≢ SlotKind.Unknown }

    ensures freed { OnOk result (Each (D.view disk.new) file IsBlank) }

    ensures moments { Throughout (D.view disk.old) (D.view disk.new) (After (D.view disk.old) (Moved file (IsFreedFrom kind))) }
    ensures cause { Cause (D.view disk.old) (D.view disk.new) result }
    ensures others { (f : ℕ) → f ≢ file → (D.view disk.new).seen f ≡ (D.view disk.old).seen f }
    ensures tells { Tells (D.view disk.old) → Tells (D.view disk.new) }
{
    match kind {
        SlotKind::Empty => blank(disk, file),
        SlotKind::Blank | SlotKind::Unknown => Ok(()),
        SlotKind::Stale => erase(disk, file),
        SlotKind::Doubt => erase(disk, file),
        SlotKind::Current => erase(disk, file),
    }
}
