//! What a host shows, and where the next roster goes.
ghost use Rattle.std.specs.Prelude.{◌≡◌, ◌≢◌, ◌⊎◌, ℕ, ◌-◌, ◌≤◌, length, List, Option, Some, None, IfOk, IfErr, IsErrOf, OnOk};
ghost use Rattle.disk_trait.specs.View.{Image, View, Tells};
ghost use Rattle.disk_trait.specs.Calls.{Same, Cause};
ghost use Rattle.disk_trait.specs.Moments.{Throughout, Onward};
ghost use Rattle.seal_gate.specs.Seal.{IsSealed, IsSettled};
ghost use Rattle.store_journal.specs.Loading.{OnlyReads};
ghost use Rattle.newest_store.specs.Newest.{IsNewest};
ghost use Rattle.roster_form.specs.Shown.{Shows};
ghost use Rattle.roster_form.specs.RosterFault.{roster_fault};
ghost use Rattle.roster_book.specs.Reading.{IsEpochOf, IsNewestOf, IsOneOfTwo, IsFreeFile, IsOfSite, IsUnread, IsUnshown};
ghost use Rattle.roster_book.specs.Writing.{IsReadyToWrite};
ghost use Rattle.roster_form.specs.RosterText.{IsRosterText};
ghost use Rattle.disk_trait.specs.Calls.{Rose};
ghost use Rattle.roster_book.specs.declared.fault.ShownFault.TheVariants.{Failed, Damaged};

use crate::fault::ShownFault;
use byte_fields::u64_at;
use disk_trait::{Disk, DiskRefusal};
use roster_form::{Roster, RosterFault, decode_roster};
use std::alloc::Global;

/// How many bytes the seal and the head of a roster's file have.
const HEAD_END: usize = 41;

/// Where the epoch stands in a roster's file.
const EPOCH_OFFSET: usize = 9;

/// The file of a service disk to which the next roster goes: the one that isn't its newest sealed one, and file 0 where
/// neither is sealed.
///
/// Takes no memory but the disk's. Two device calls: reads.
pub fn file_to_write<D: Disk>(disk: &mut D) -> Result<u8, DiskRefusal>
    ensures free { IfOk result (λ file. Tells (D.view disk.old) → IsFreeFile (D.view disk.old).seen file) }
    ensures one_of_two { IfOk result (λ file. file ≤ 1) }
    // Where nothing is pending in files 0 and 1, the write may begin.
    ensures ready { IfOk result (λ file. Tells (D.view disk.old) → ((f : ℕ) → f ≤ 1 → IsSettled (D.view disk.old) f)
        → (text : List ℕ) → IsReadyToWrite text file (1 - file) None (D.view disk.new)) }
    ensures moments { Throughout (D.view disk.old) (D.view disk.new) (D.view disk.old).images }
    ensures cause { Cause (D.view disk.old) (D.view disk.new) result }
    ensures reads_only { Same (D.view disk.old) (D.view disk.new) }
{
    match newest_file(disk)? {
        Some(newest) => Ok(1 - newest),
        None => Ok(0),
    }
}

/// The roster that a host shows, if a file of its service disk is sealed: that in the newest sealed one.
///
/// Takes memory for that file, whole, and for the names. Device calls: two reads, and for the newest file length and read.
pub fn shown_roster<D: Disk>(
    alloc: Global,
    disk: &mut D,
    partitions: u16,
) -> Result<Option<Roster>, ShownFault>
    ensures shown { IfOk result (λ shown. Tells (D.view disk.old) → Shows (D.view disk.old).seen shown) }
    ensures site { IfOk result (IsOfSite partitions) }
    ensures refused { IfErr result (λ fault. IsUnshown (D.view disk.old) (D.view disk.new) partitions fault) }
    ensures reads_only { OnlyReads (D.view disk.old) (D.view disk.new) }
{
    match newest_file(disk)? {
        Some(file) => match roster_in(alloc, disk, file, partitions) {
            Ok(roster) => Ok(Some(roster)),
            Err(fault) => Err(fault),
        },
        None => Ok(None),
    }
}

/// The roster in a file.
fn roster_in<D: Disk>(
    alloc: Global,
    disk: &mut D,
    file: u8,
    partitions: u16,
) -> Result<Roster, ShownFault>
    requires { file ≤ 1 }
    ensures read { IfOk result (λ roster. Tells (D.view disk.old) → IsRosterText roster ((D.view disk.old).seen file)) }
    ensures site { IfOk result (λ roster. roster.partitions ≡ partitions) }
    ensures refused { IfErr result (λ fault. IsUnread (D.view disk.old) (D.view disk.new) partitions file fault) }
    ensures reads_only { OnlyReads (D.view disk.old) (D.view disk.new) }
{
    let bytes = whole_file(alloc, disk, file)?;
    match decode_roster(alloc, bytes.as_slice(), partitions) {
        Ok(roster) => Ok(roster),
        Err(RosterFault::Form { at }) => Err(ShownFault::Damaged { file, at }),
        Err(RosterFault::NoMemory) => Err(ShownFault::NoMemory),
    }
}

/// All bytes of a file.
fn whole_file<D: Disk>(alloc: Global, disk: &mut D, file: u8) -> Result<Vec<u8>, ShownFault>
    requires { file ≤ 1 }
    ensures whole { IfOk result (λ bytes. Tells (D.view disk.old) → bytes.items ≡ (D.view disk.old).seen file) }
    ensures failed { IsErrOf result Failed → Rose (D.view disk.old).faults (D.view disk.new).faults }
    ensures no_other { (at : ℕ) (f : ℕ) → IsErrOf result (Damaged f at) → ⊥ }
    ensures reads_only { OnlyReads (D.view disk.old) (D.view disk.new) }
{
    let length = disk.length(file)?;
    let mut bytes = vec![in alloc; 0; length as usize]?;
    disk.read(file, 0, bytes.as_mut_slice())?;
    Ok(bytes)
}

/// The newest sealed file, if one is sealed.
pub(crate) fn newest_file<D: Disk>(disk: &mut D) -> Result<Option<u8>, DiskRefusal>
    ensures newest { IfOk result (λ newest. Tells (D.view disk.old) → IsNewestOf (D.view disk.old).seen newest) }
    ensures one_of_two { IfOk result (λ newest. IsOneOfTwo newest) }
    ensures moments { Throughout (D.view disk.old) (D.view disk.new) (D.view disk.old).images }
    ensures cause { Cause (D.view disk.old) (D.view disk.new) result }
    ensures reads_only { Same (D.view disk.old) (D.view disk.new) }
{
    let first = sealed_epoch(disk, 0)?;
    let second = sealed_epoch(disk, 1)?;
    Ok(newer(first, second))
}

/// The file of the greater epoch, and of the same epoch file 0.
fn newer(first: Option<u64>, second: Option<u64>) -> Option<u8>
    ensures newest { (m : Image) → IsEpochOf (m 0) first → IsEpochOf (m 1) second → IsNewestOf m result }
    ensures one_of_two { IsOneOfTwo result }
{
    match (first, second) {
        (Some(one), Some(other)) => { if one < other { Some(1) } else { Some(0) } }
        (Some(_), None) => Some(0),
        (None, Some(_)) => Some(1),
        (None, None) => None,
    }
}

/// The epoch in a sealed file, whatever else it holds.
fn sealed_epoch<D: Disk>(disk: &mut D, file: u8) -> Result<Option<u64>, DiskRefusal>
    requires { file ≤ 1 }
    ensures told { IfOk result (λ epoch. Tells (D.view disk.old) → IsEpochOf ((D.view disk.old).seen file) epoch) }
    ensures moments { Throughout (D.view disk.old) (D.view disk.new) (D.view disk.old).images }
    ensures cause { Cause (D.view disk.old) (D.view disk.new) result }
    ensures reads_only { Same (D.view disk.old) (D.view disk.new) }
{
    let mut head = [0; HEAD_END];
    let count = disk.read(file, 0, &mut head)?;
    Ok(epoch_in(&head[..count]))
}

/// The epoch in the first bytes of a file, if that is sealed.
fn epoch_in(head: &[u8]) -> Option<u64>
    ensures { IsEpochOf head.now result }
{
    if head.len() < HEAD_END || head[0] == 0 {
        return None;
    }
    Some(u64_at(head, EPOCH_OFFSET))
}
