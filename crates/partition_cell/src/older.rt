//! The stores of a partition are erased, but the newest.
ghost use Rattle.std.specs.Prelude.{◌≡◌, ◌≢◌, ℕ, ◌+◌, ◌<◌, ◌≤◌, List, [], ◌∷◌, length, slice_get, Contains, Some, true, IfOk, IfErr, OnOk};
ghost use Rattle.disk_lane.specs.Lanes.{OnHost};
ghost use Rattle.disk_trait.specs.View.{Tells};
ghost use Rattle.disk_trait.specs.Calls.{Moved, Cause};
ghost use Rattle.disk_trait.specs.Moments.{After, Throughout};
ghost use Rattle.file_kinds.specs.Freeing.{IsFreeable};
ghost use Rattle.newest_store.specs.Clearing.{MayLoseSeal};
ghost use Rattle.partition_cell.specs.Older.{ErasesOlderIn, AreFreed, IsDoneTo, IsErasureFault};
ghost use Rattle.seal_gate.specs.Seal.{IsSettled, Each};
ghost use Rattle.slot_board.specs.Slots.{slot_at, hosts_of, told_by, unknown_slot, is_free};

use crate::refusal::{CellRefusal, refused_cell};
use disk_trait::{Disk, DiskRefusal};
use file_kinds::{FileForm, file_form};
use seal_gate::erase;
use slot_board::{Board, SlotKind};

/// Which file has the newest store.
#[derive(Clone, Copy, Drop)]
pub(crate) struct Newest {
    pub(crate) host: u16,
    pub(crate) file: u8,
}

/// Erases files 0 and 1 of these hosts where they are sealed, but not the newest store's, and enters what each is then.
///
/// By host in the order of the list, then by file. The newest store isn't touched.
pub(crate) fn erase_older<D: Disk>(
    disks: &mut [D],
    board: &mut Board,
    hosts: &[u16],
    newest: Newest,
) -> Result<(), CellRefusal>
    requires disks { (h : ℕ) → Contains hosts.now h → h < length disks.old }
    requires settled { (h f : ℕ) (disk : D) → Contains hosts.now h → f ≤ 1 → slice_get disks.old h ≡ Some disk → IsSettled (D.view disk) f }
    requires unknown { (h f : ℕ) → slot_at board.old h f ≡ unknown_slot }
    requires as_many { hosts_of board.old ≡ length disks.old }
    requires untold { told_by board.old ≡ 0 }
    requires newest { newest.file ≤ 1 }
    ensures freed { OnOk result (AreFreed D.view hosts.now newest.host newest.file (λ h f. Contains hosts.now h) disks.old disks.new board.new) }
    ensures erases { ErasesOlderIn D.view hosts.now newest.host newest.file disks.old disks.new }
    ensures refused { IfErr result (IsErasureFault D.view hosts.now disks.old disks.new) }
{
    for host in hosts {
        free_host(disks, board, *host, newest)?;
    }
    Ok(())
}

/// The same for one host's two files.
fn free_host<D: Disk>(
    disks: &mut [D],
    board: &mut Board,
    host: u16,
    newest: Newest,
) -> Result<(), CellRefusal>
    requires disk { host < length disks.old }
    requires slot { host < hosts_of board.old }
    requires settled { (f : ℕ) (disk : D) → f ≤ 1 → slice_get disks.old host ≡ Some disk → IsSettled (D.view disk) f }
    ensures freed { OnOk result ((start : List D) (hosts done : List ℕ) → Contains hosts host → AreFreed D.view hosts newest.host newest.file (IsDoneTo done host 0) start disks.old board.old
        → AreFreed D.view hosts newest.host newest.file (IsDoneTo done host 2) start disks.new board.new) }
    ensures erases { (hosts : List ℕ) → Contains hosts host → ErasesOlderIn D.view hosts newest.host newest.file disks.old disks.new }
    ensures refused { IfErr result (IsErasureFault D.view (host ∷ []) disks.old disks.new) }
{
    free_file(disks, board, host, 0, newest)?;
    free_file(disks, board, host, 1, newest)
}

/// The same for one file.
fn free_file<D: Disk>(
    disks: &mut [D],
    board: &mut Board,
    host: u16,
    file: u8,
    newest: Newest,
) -> Result<(), CellRefusal>
    requires disk { host < length disks.old }
    requires slot { host < hosts_of board.old }
    requires file { file ≤ 1 }
    requires settled { (disk : D) → slice_get disks.old host ≡ Some disk → IsSettled (D.view disk) file }
    ensures freed { OnOk result ((start : List D) (hosts done : List ℕ) → Contains hosts host → AreFreed D.view hosts newest.host newest.file (IsDoneTo done host file) start disks.old board.old
        → AreFreed D.view hosts newest.host newest.file (IsDoneTo done host (file + 1)) start disks.new board.new) }
    ensures erases { (hosts : List ℕ) → Contains hosts host → ErasesOlderIn D.view hosts newest.host newest.file disks.old disks.new }
    ensures refused { IfErr result (IsErasureFault D.view (host ∷ []) disks.old disks.new) }
    ensures hosts { hosts_of board.new ≡ hosts_of board.old }
    ensures settled { OnOk result ((f : ℕ) → OnHost host disks.old disks.new (λ before now. f ≤ 1 → IsSettled (D.view before) f → IsSettled (D.view now) f)) }
{
    if host == newest.host && file == newest.file {
        return Ok(());
    }
    match free_of_store(&mut disks[host as usize], file) {
        Ok(kind) => {
            board.set(host, file, kind, 0);
            Ok(())
        }
        Err(refusal) => Err(refused_cell(host, refusal)),
    }
}

/// Makes a file free of a store, and says what it is then.
fn free_of_store<D: Disk>(disk: &mut D, file: u8) -> Result<SlotKind, DiskRefusal>
    requires file { file ≤ 1 }
    requires settled { IsSettled (D.view disk.old) file }
    ensures free { IfOk result (λ kind. (is_free kind ≡ true) × Each (D.view disk.new) file (IsFreeable kind)) }
    ensures settled { OnOk result (IsSettled (D.view disk.new) file) }
    ensures moments { Throughout (D.view disk.old) (D.view disk.new) (After (D.view disk.old) (Moved file MayLoseSeal)) }
    ensures cause { Cause (D.view disk.old) (D.view disk.new) result }
    ensures others { (f : ℕ) → f ≢ file → (D.view disk.new).seen f ≡ (D.view disk.old).seen f }
    ensures tells { Tells (D.view disk.old) → Tells (D.view disk.new) }
{
    match file_form(disk, file)? {
        FileForm::Blank => Ok(SlotKind::Blank),
        FileForm::Short => Ok(SlotKind::Empty),
        FileForm::Sealed => {
            erase(disk, file)?;
            Ok(SlotKind::Blank)
        }
    }
}
