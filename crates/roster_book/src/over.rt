//! One roster, written to one host on whose disk nothing is pending.
ghost use Rattle.std.specs.Prelude.{◌≡◌, ◌↔◌, ℕ, ◌≤◌, ◌∷◌, [], Option, Some, IfOk, IfErr, OnOk, IsTrue};
ghost use Rattle.disk_trait.specs.View.{Tells};
ghost use Rattle.disk_trait.specs.Calls.{Cause};
ghost use Rattle.disk_trait.specs.Moments.{Throughout, Onward};
ghost use Rattle.roster_book.specs.Reading.{HasSealedRoster};
ghost use Rattle.roster_book.specs.Writing.{IsSomeRoster, IsCaused};
ghost use Rattle.roster_form.specs.RosterText.{IsRosterText};
ghost use Rattle.roster_form.specs.Shown.{Shows, ShowsOneOf, IsSeenAs, IsEarlier};
ghost use Rattle.roster_form.specs.declared.roster.Roster.{Roster};
ghost use Rattle.seal_gate.specs.Seal.{IsSettled};
ghost use Rattle.store_journal.specs.Loading.{OnlyReads};

use crate::read::{file_to_write, newest_file};
use crate::write::write_roster;
use disk_trait::{Disk, DiskRefusal};

/// Whether file 0 or 1 of a service disk is sealed, whatever else it holds.
///
/// Takes no memory but the disk's. Two device calls: reads.
pub fn has_roster<D: Disk>(disk: &mut D) -> Result<bool, DiskRefusal>
    ensures told { IfOk result (λ sealed. Tells (D.view disk.old) → (IsTrue sealed ↔ HasSealedRoster (D.view disk.old).seen)) }
    ensures cause { Cause (D.view disk.old) (D.view disk.new) result }
    ensures reads_only { OnlyReads (D.view disk.old) (D.view disk.new) }
{
    Ok(newest_file(disk)?.is_some())
}

/// Writes a roster to one host, over an earlier one or none. Nothing may be pending in files 0 and 1 of its service disk.
///
/// `text` is `encode_roster` of the roster. Takes no memory but the disk's. Device calls: those of `file_to_write` and of
/// `write_roster`.
pub fn write_over<D: Disk>(disk: &mut D, text: &[u8]) -> Result<(), DiskRefusal>
    requires text { IsSomeRoster text.now }
    requires settled { (f : ℕ) → f ≤ 1 → IsSettled (D.view disk.old) f }

    // After Ok the host shows this roster and nothing else, and nothing is pending.
    ensures written { OnOk result ((roster : Roster) (shown : Option Roster) → IsRosterText roster text.now → (Tells (D.view disk.old) → Shows (D.view disk.old).seen shown) → IsEarlier shown roster
        → IsSeenAs (D.view disk.new) (Some roster ∷ [])) }
    ensures settled { OnOk result ((f : ℕ) → f ≤ 1 → IsSettled (D.view disk.new) f) }

    // At every moment it shows what it showed, or this roster.
    ensures moments { (roster : Roster) (shown : Option Roster) → IsRosterText roster text.now → (Tells (D.view disk.old) → Shows (D.view disk.old).seen shown) → IsEarlier shown roster
        → Throughout (D.view disk.old) (D.view disk.new) (ShowsOneOf (Some roster ∷ shown ∷ [])) }

    ensures cause { IfErr result (IsCaused (D.view disk.old) (D.view disk.new)) }
    ensures others { (f : ℕ) → 2 ≤ f → (D.view disk.new).seen f ≡ (D.view disk.old).seen f }
    ensures onward { Onward (D.view disk.old) (D.view disk.new) }
{
    let file = file_to_write(disk)?;
    match write_roster(disk, file, None, text) {
        Ok(()) => Ok(()),
        Err(unwritten) => Err(unwritten.refusal),
    }
}
