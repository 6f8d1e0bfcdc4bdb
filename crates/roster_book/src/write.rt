//! One roster, written to one host.
ghost use Rattle.std.specs.Prelude.{◌≡◌, ◌≢◌, ◌↔◌, ℕ, ◌-◌, ◌≤◌, ◌∷◌, [], List, Option, Some, None, IfOk, IfErr, OnOk, IsTrue};
ghost use Rattle.disk_trait.specs.View.{Image, View, Tells};
ghost use Rattle.disk_trait.specs.Calls.{Moved, Same, Cause};
ghost use Rattle.disk_trait.specs.Moments.{Now, After, Throughout, Onward};
ghost use Rattle.seal_gate.specs.Seal.{Each, IsSettled};
ghost use Rattle.store_journal.specs.Created.{IsBlank};
ghost use Rattle.roster_form.specs.RosterText.{IsRosterText};
ghost use Rattle.roster_form.specs.Shown.{IsWritingOver, IsSeenAs};
ghost use Rattle.roster_form.specs.declared.roster.Roster.{Roster};
ghost use Rattle.roster_book.specs.Writing.{IsSomeRoster, HasFreeFirst, IsReadyToWrite, IsCaused, OnlyIn};

use disk_trait::{Disk, DiskRefusal, write_synced};
use seal_gate::{seal, settle};

/// What a first byte of a file that isn't sealed is.
const ERASED: u8 = 0;

/// What a refused write of a roster left pending in its file.
#[derive(Clone, Copy, Debug, PartialEq, Eq, Drop)]
pub enum Doubt {
    /// The first byte alone.
    FirstByte,
    /// What stands after the first byte, which is zero.
    Rest,
}

/// Why a roster wasn't written, and what the file is left in.
#[derive(Clone, Copy, Debug, PartialEq, Eq, Drop)]
pub struct Unwritten {
    /// The refusal of the disk.
    pub refusal: DiskRefusal,
    /// What is pending in the file: for the next try.
    pub doubt: Option<Doubt>,
}

/// Writes a roster to one host, into the file of its service disk that isn't its newest sealed one.
///
/// `text` is `encode_roster` of the roster. `doubt` is `None` at first, and after a refused write of the same roster what that
/// one answered; `file` is then the same again. First the file is made free: a sealed one is erased, and one that is too
/// short to be sealed is blanked. After a refused write of the first byte that is written again; after any other refused
/// call the file is synced first, and its first byte, which is zero, isn't touched. Then it is cut to one byte, the rest is
/// written and synced, and then sealed. Takes no memory but the disk's. Device calls: at most two reads, a write and a sync;
/// then cut, write, sync, write, sync.
pub fn write_roster<D: Disk>(
    disk: &mut D,
    file: u8,
    doubt: Option<Doubt>,
    text: &[u8],
) -> Result<(), Unwritten>
    requires file { file ≤ 1 }
    requires text { IsSomeRoster text.now }
    requires ready { IsReadyToWrite text.now file (1 - file) doubt (D.view disk.old) }

    // After Ok the host shows this roster and nothing else.
    ensures written { OnOk result ((roster : Roster) (sights : List (Option Roster)) → IsRosterText roster text.now
        → Now (D.view disk.old) (IsWritingOver roster file (1 - file) sights) → IsSeenAs (D.view disk.new) (Some roster ∷ [])) }

    // At every moment, and after a refusal, it shows what it showed before, or this roster.
    ensures moments { (roster : Roster) (sights : List (Option Roster)) → IsRosterText roster text.now
        → Now (D.view disk.old) (IsWritingOver roster file (1 - file) sights) → Throughout (D.view disk.old) (D.view disk.new) (IsWritingOver roster file (1 - file) sights) }

    // A refusal, after which the write may be tried again.
    ensures again { IfErr result (λ unwritten. IsReadyToWrite text.now file (1 - file) unwritten.doubt (D.view disk.new)) }
    ensures cause { IfErr result (λ unwritten. IsCaused (D.view disk.old) (D.view disk.new) unwritten.refusal) }

    // No other file has changed, at any moment; after Ok nothing is pending in this one.
    ensures beside { Throughout (D.view disk.old) (D.view disk.new) (After (D.view disk.old) (OnlyIn file)) }
    ensures settled { OnOk result (IsSettled (D.view disk.new) file) }
    ensures others { (f : ℕ) → f ≢ file → (D.view disk.new).seen f ≡ (D.view disk.old).seen f }
    ensures onward { Onward (D.view disk.old) (D.view disk.new) }
{
    free_file(disk, file, doubt, text)?;
    if let Err(refusal) = lay_rest(disk, file, &text[1..]) {
        return Err(Unwritten {
            refusal,
            doubt: Some(Doubt::Rest),
        });
    }
    if let Err(refusal) = seal(disk, file) {
        return Err(Unwritten {
            refusal,
            doubt: Some(Doubt::FirstByte),
        });
    }
    Ok(())
}

/// Makes the first byte zero, and leaves it where it is. After another refused call the file is synced first.
fn free_file<D: Disk>(
    disk: &mut D,
    file: u8,
    doubt: Option<Doubt>,
    text: &[u8],
) -> Result<(), Unwritten>
    requires file { file ≤ 1 }
    requires ready { IsReadyToWrite text.now file (1 - file) doubt (D.view disk.old) }
    ensures freed { OnOk result (Each (D.view disk.new) file IsBlank) }
    ensures moments { (roster : Roster) (sights : List (Option Roster)) → IsRosterText roster text.now
        → Now (D.view disk.old) (IsWritingOver roster file (1 - file) sights) → Throughout (D.view disk.old) (D.view disk.new) (IsWritingOver roster file (1 - file) sights) }
    ensures again { IfErr result (λ unwritten. IsReadyToWrite text.now file (1 - file) unwritten.doubt (D.view disk.new)) }
    ensures cause { IfErr result (λ unwritten. IsCaused (D.view disk.old) (D.view disk.new) unwritten.refusal) }
    ensures beside { Throughout (D.view disk.old) (D.view disk.new) (After (D.view disk.old) (OnlyIn file)) }
    ensures others { (f : ℕ) → f ≢ file → (D.view disk.new).seen f ≡ (D.view disk.old).seen f }
    ensures onward { Onward (D.view disk.old) (D.view disk.new) }
{
    match doubt {
        None => free_settled(disk, file, text),
        Some(Doubt::FirstByte) => zero_first(disk, file, text),
        Some(Doubt::Rest) => match settle(disk, file) {
            Ok(()) => Ok(()),
            Err(refusal) => Err(Unwritten { refusal, doubt }),
        },
    }
}

/// Makes the first byte zero where it isn't, in a file in which nothing is pending.
fn free_settled<D: Disk>(disk: &mut D, file: u8, text: &[u8]) -> Result<(), Unwritten>
    requires file { file ≤ 1 }
    requires ready { IsReadyToWrite text.now file (1 - file) None (D.view disk.old) }
    ensures freed { OnOk result (Each (D.view disk.new) file IsBlank) }
    ensures moments { (roster : Roster) (sights : List (Option Roster)) → IsRosterText roster text.now
        → Now (D.view disk.old) (IsWritingOver roster file (1 - file) sights) → Throughout (D.view disk.old) (D.view disk.new) (IsWritingOver roster file (1 - file) sights) }
    ensures again { IfErr result (λ unwritten. IsReadyToWrite text.now file (1 - file) unwritten.doubt (D.view disk.new)) }
    ensures cause { IfErr result (λ unwritten. IsCaused (D.view disk.old) (D.view disk.new) unwritten.refusal) }
    ensures beside { Throughout (D.view disk.old) (D.view disk.new) (After (D.view disk.old) (OnlyIn file)) }
    ensures others { (f : ℕ) → f ≢ file → (D.view disk.new).seen f ≡ (D.view disk.old).seen f }
    ensures onward { Onward (D.view disk.old) (D.view disk.new) }
{
    match is_blank(disk, file) {
        Ok(true) => Ok(()),
        Ok(false) => zero_first(disk, file, text),
        Err(refusal) => Err(Unwritten {
            refusal,
            doubt: None,
        }),
    }
}

/// Makes the first byte zero, where any first byte is harmless.
fn zero_first<D: Disk>(disk: &mut D, file: u8, text: &[u8]) -> Result<(), Unwritten>
    requires file { file ≤ 1 }
    requires free { Now (D.view disk.old) (HasFreeFirst text.now file (1 - file)) }
    ensures freed { OnOk result (Each (D.view disk.new) file IsBlank) }
    ensures moments { (roster : Roster) (sights : List (Option Roster)) → IsRosterText roster text.now
        → Now (D.view disk.old) (IsWritingOver roster file (1 - file) sights) → Throughout (D.view disk.old) (D.view disk.new) (IsWritingOver roster file (1 - file) sights) }
    ensures again { IfErr result (λ unwritten. IsReadyToWrite text.now file (1 - file) unwritten.doubt (D.view disk.new)) }
    ensures cause { IfErr result (λ unwritten. IsCaused (D.view disk.old) (D.view disk.new) unwritten.refusal) }
    ensures beside { Throughout (D.view disk.old) (D.view disk.new) (After (D.view disk.old) (OnlyIn file)) }
    ensures others { (f : ℕ) → f ≢ file → (D.view disk.new).seen f ≡ (D.view disk.old).seen f }
    ensures onward { Onward (D.view disk.old) (D.view disk.new) }
{
    match write_synced(disk, file, 0, &[ERASED]) {
        Ok(()) => Ok(()),
        Err(refusal) => Err(Unwritten {
            refusal,
            doubt: Some(Doubt::FirstByte),
        }),
    }
}

/// Whether a read shows a first byte, and it is zero.
fn is_blank<D: Disk>(disk: &mut D, file: u8) -> Result<bool, DiskRefusal>
    requires { file ≤ 10 }
    ensures told { IfOk result (λ answer. Tells (D.view disk.old) → (IsTrue answer ↔ IsBlank ((D.view disk.old).seen file))) }
    ensures moments { Throughout (D.view disk.old) (D.view disk.new) (D.view disk.old).images }
    ensures cause { Cause (D.view disk.old) (D.view disk.new) result }
    ensures reads_only { Same (D.view disk.old) (D.view disk.new) }
{
    let mut first = [1];
    let count = disk.read(file, 0, &mut first)?;
    Ok(count == 1 && first[0] == 0)
}

/// Cuts the file after its first byte, which is zero, writes the rest and syncs.
fn lay_rest<D: Disk>(disk: &mut D, file: u8, rest: &[u8]) -> Result<(), DiskRefusal>
    requires file { file ≤ 10 }
    requires blank { Each (D.view disk.old) file IsBlank }
    ensures laid { OnOk result (Each (D.view disk.new) file (λ bytes. bytes ≡ 0 ∷ rest.now)) }
    ensures moments { Throughout (D.view disk.old) (D.view disk.new) (After (D.view disk.old) (Moved file (λ old new. IsBlank new))) }
    ensures cause { Cause (D.view disk.old) (D.view disk.new) result }
    ensures others { (f : ℕ) → f ≢ file → (D.view disk.new).seen f ≡ (D.view disk.old).seen f }
    ensures tells { Tells (D.view disk.old) → Tells (D.view disk.new) }
{
    disk.cut(file, 1)?;
    write_synced(disk, file, 1, rest)?;
    Ok(())
}
