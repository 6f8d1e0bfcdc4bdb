// A new store's bytes after its first byte.
ghost use Rattle.std.specs.Prelude.{◌≡◌, ◌≢◌, ℕ, ◌≤◌, ◌∷◌, List, OnOk};
ghost use Rattle.disk_trait.specs.View.{Image, View, Tells};
ghost use Rattle.disk_trait.specs.Calls.{Moved, Cause};
ghost use Rattle.disk_trait.specs.Moments.{After, Throughout};
ghost use Rattle.record_form.specs.HeaderText.{header_text};
ghost use Rattle.seal_gate.specs.Seal.{Each};
ghost use Rattle.store_journal.specs.Created.{IsBlank, empty_text};

use crate::layout::{FIRST_GATE, HEADER_START};
use disk_trait::{Disk, DiskRefusal, write_synced};
use record_form::{CLOSED_GATE, Header, encode_header};

/// Writes the header and a closed gate after a first byte of zero, and syncs.
pub(crate) fn lay<D: Disk>(disk: &mut D, file: u8, header: &Header) -> Result<(), DiskRefusal>
    requires file { file ≤ 10 }
    requires blank { Each (D.view disk.old) file IsBlank }

    ensures laid { OnOk result (Each (D.view disk.new) file (λ bytes. bytes ≡ empty_text 0 header.now)) }

    ensures moments { Throughout (D.view disk.old) (D.view disk.new) (After (D.view disk.old) (Moved file (λ old new. IsBlank new))) }
    ensures cause { Cause (D.view disk.old) (D.view disk.new) result }
    ensures others { (f : ℕ) → f ≢ file → (D.view disk.new).seen f ≡ (D.view disk.old).seen f }
    ensures tells { Tells (D.view disk.old) → Tells (D.view disk.new) }
{
    disk.cut(file, HEADER_START as u64)?;
    disk.write_at(file, HEADER_START as u64, &encode_header(header))?;
    write_synced(disk, file, FIRST_GATE as u64, &[CLOSED_GATE])?;
    Ok(())
}
