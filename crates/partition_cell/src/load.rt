//! A cell of the newest store among several hosts.
ghost use Rattle.std.specs.Prelude.{◌≡◌, ◌≢◌, ℕ, ◌<◌, ◌≤◌, ◌^◌, List, length, slice_get, Contains, Some, IfOk, IfErr, IsErrOf};
ghost use Rattle.disk_trait.specs.View.{View, Tells};
ghost use Rattle.disk_trait.specs.Calls.{Rose};
ghost use Rattle.newest_store.specs.Choice.{seen_on, AllTell, OnlyReadsLane, IsNewestAmong, AreHeaded};
ghost use Rattle.file_kinds.specs.Kinds.{PartitionNumber};
ghost use Rattle.partition_cell.specs.Loaded.{IsNewestFound, IsLoadRefusal, IsLoadedCell, KeepsNewest, StandsThroughout, load_refusal, choice_refusal};
ghost use Rattle.seal_gate.specs.Seal.{IsSettled};
ghost use Rattle.store_journal.specs.ContentsOf.{HasContentsOf};
ghost use Rattle.store_journal.specs.Created.{IsUnsealed};
ghost use Rattle.store_journal.specs.Fault.{IsDamagedAt};
ghost use Rattle.store_journal.specs.Loading.{IsLoaded, OnlyReads};
ghost use Rattle.store_journal.specs.declared.fault.LoadFault.TheVariants.{NotSealed, Damaged, Failed};

use crate::cell::Cell;
use crate::older::{Newest, erase_older};
use crate::refusal::CellRefusal;
use disk_trait::Disk;
use newest_store::{Choice, ChoiceFault, newest};
use slot_board::{Board, SlotKind};
use std::alloc::Global;
use store_journal::{LoadFault, Loaded, Store};

/// The offset of the version in a store's file, from 0.
const VERSION_AT: u64 = 9;

impl<D: Disk> Cell<D> {
    /// Makes a cell of the newest store among files 0 and 1 of these hosts, and erases every other sealed one there. Nothing may be
    /// pending in any of them. A host is the number of its disk, from 0.
    ///
    /// The newest is the sealed file of greatest version, of several that of the lowest host, and of one host's the lower. The
    /// headers are judged first, in the order of the list; then the newest store is read whole; and then the others are erased,
    /// by host in the order of the list. A refusal gives the disks back; `NoStore` and `Damaged` come before anything is
    /// erased. Takes memory for the kinds of files, for the whole file and for the contents.
    pub fn load_newest(
        alloc: Global,
        mut disks: Vec<D>,
        partition: u16,
        partitions: u16,
        hosts: &[u16],
    ) -> Result<Cell<D>, (CellRefusal, Vec<D>)>
        requires hosts { (h : ℕ) → Contains hosts.now h → h < length disks.items }
        requires few { length disks.items < 2 ^ 16 }
        requires least { partition < partitions }
        requires most { partitions ≤ 257 }
        requires settled { (h f : ℕ) (disk : D) → Contains hosts.now h → f ≤ 1 → slice_get disks.items h ≡ Some disk → IsSettled (D.view disk) f }

        // After Ok the cell has the newest store, whole, and no other is left.
        ensures of_partition { IfOk result (λ cell. cell.store.id.partition ≡ partition) }
        ensures loaded { IfOk result (IsLoadedCell D.view hosts.now (record { partition = partition; partitions = partitions }) disks.items) }

        // After a refusal too the newest store is as it was, and so it is at every moment.
        ensures refused { IfErr result (λ refused. IsLoadRefusal D.view hosts.now (record { partition = partition; partitions = partitions }) disks.items refused.1.items refused.0) }
        ensures kept { IfErr result (λ refused. KeepsNewest D.view hosts.now (record { partition = partition; partitions = partitions }) disks.items refused.1.items) }
        ensures stands { IfErr result (λ refused. StandsThroughout D.view hosts.now (record { partition = partition; partitions = partitions }) disks.items refused.1.items) }
    {
        let found = find_newest(alloc, disks.as_mut_slice(), partition, partitions, hosts);
        let (host, Loaded { store, contents }) = match found {
            Ok(found) => found,
            Err(refusal) => return Err((refusal, disks)),
        };
        let mut board = match Board::of(alloc, disks.len() as u16) {
            Ok(board) => board,
            Err(_) => return Err((CellRefusal::NoMemory, disks)),
        };
        let newest = Newest {
            host,
            file: store.file,
        };
        match erase_older(disks.as_mut_slice(), &mut board, hosts, newest) {
            Ok(()) => {
                board.set(host, store.file, SlotKind::Current, store.id.version);
                Ok(Cell {
                    disks,
                    board,
                    partition,
                    partitions,
                    owner: host,
                    store,
                    map: contents,
                    flight: None,
                    moving: None,
                })
            }
            Err(refusal) => Err((refusal, disks)),
        }
    }
}

/// Finds the newest store of these hosts' files, and reads it. Nothing is written.
fn find_newest<D: Disk>(
    alloc: Global,
    disks: &mut [D],
    partition: u16,
    partitions: u16,
    hosts: &[u16],
) -> Result<(u16, Loaded), CellRefusal>
    requires disks { (h : ℕ) → Contains hosts.now h → h < length disks.old }
    requires settled { (h f : ℕ) (disk : D) → Contains hosts.now h → f ≤ 1 → slice_get disks.old h ≡ Some disk → IsSettled (D.view disk) f }
    ensures found { IfOk result (λ found. HasContentsOf (IsNewestFound D.view hosts.now partitions disks.old disks.new found.0 found.1.store) found.1.contents) }
    ensures store { IfOk result (λ found. Contains hosts.now found.0 × (found.1.store.file ≤ 1) × (found.1.store.id.partition ≡ partition) × (found.1.store.id.version < 2 ^ 58)) }
    ensures refused { IfErr result (IsLoadRefusal D.view hosts.now (record { partition = partition; partitions = partitions }) disks.old disks.new) }
    ensures reads_only { OnlyReadsLane D.view disks.old disks.new }
{
    let newest = choose_newest(disks, hosts)?;
    match load_bounded(
        alloc,
        &mut disks[newest.host as usize],
        newest.file,
        partition,
        partitions,
    ) {
        Ok(loaded) => Ok((newest.host, loaded)),
        Err(fault) => Err(refused_load(newest.host, newest.file, fault)),
    }
}

/// Finds which file has the newest store.
fn choose_newest<D: Disk>(disks: &mut [D], hosts: &[u16]) -> Result<Newest, CellRefusal>
    requires disks { (h : ℕ) → Contains hosts.now h → h < length disks.old }
    ensures newest { IfOk result (λ newest. AllTell D.view disks.old hosts.now → IsNewestAmong (seen_on D.view disks.old) hosts.now newest.host newest.file) }
    ensures headed { IfOk result (λ newest. AllTell D.view disks.old hosts.now → AreHeaded (seen_on D.view disks.old) hosts.now) }
    ensures one_of { IfOk result (λ newest. Contains hosts.now newest.host × (newest.file ≤ 1)) }
    ensures there { IfOk result (λ newest. newest.host < length disks.new) }
    ensures refused { IfErr result (λ refusal. (number : PartitionNumber) → IsLoadRefusal D.view hosts.now number disks.old disks.new refusal) }
    ensures reads_only { OnlyReadsLane D.view disks.old disks.new }
{
    match newest(disks, hosts) {
        Ok(Choice::One { host, file, .. }) => Ok(Newest { host, file }),
        Ok(Choice::NoStore) => Err(CellRefusal::NoStore),
        Err(fault) => Err(refused_choice(fault)),
    }
}

/// Reads the store of a file. Each store's version is below 2^58, but a disk that doesn't tell what it holds may show another.
fn load_bounded<D: Disk>(
    alloc: Global,
    disk: &mut D,
    file: u8,
    partition: u16,
    partitions: u16,
) -> Result<Loaded, LoadFault>
    requires file { file ≤ 1 }
    ensures loaded { IfOk result (λ loaded. HasContentsOf (IsLoaded (D.view disk.old) (D.view disk.new) partitions loaded.store) loaded.contents) }
    ensures store { IfOk result (λ loaded. (loaded.store.file ≡ file) × (loaded.store.id.partition ≡ partition) × (loaded.store.id.version < 2 ^ 58)) }
    ensures failed { IsErrOf result Failed → Rose (D.view disk.old).faults (D.view disk.new).faults }
    ensures not_sealed { IsErrOf result NotSealed → Tells (D.view disk.old) → IsUnsealed ((D.view disk.old).seen file) }
    ensures damaged { (at : ℕ) → IsErrOf result (Damaged at) → Tells (D.view disk.old) → IsDamagedAt ((D.view disk.old).seen file) partition partitions at }
    ensures reads_only { OnlyReads (D.view disk.old) (D.view disk.new) }
{
    let loaded = Store::load(alloc, disk, file, partition, partitions)?;
    if loaded.store.id.version < 1 << 58 {
        Ok(loaded)
    } else {
        Err(LoadFault::Damaged { at: VERSION_AT })
    }
}

/// Why the newest store wasn't read, with its host and its file. It is sealed, so that a disk which finds none there tells nothing.
fn refused_load(host: u16, file: u8, fault: LoadFault) -> CellRefusal
    ensures { result ≡ load_refusal host file fault }
{
    match fault {
        LoadFault::NotSealed => CellRefusal::NoStore,
        LoadFault::Damaged { at } => CellRefusal::Damaged { host, file, at },
        LoadFault::Failed => CellRefusal::Fault { host },
        LoadFault::NoMemory => CellRefusal::NoMemory,
    }
}

/// Why no store was chosen.
fn refused_choice(fault: ChoiceFault) -> CellRefusal
    ensures { result ≡ choice_refusal fault }
{
    match fault {
        ChoiceFault::Failed { host } => CellRefusal::Fault { host },
        ChoiceFault::Damaged { host, file, at } => CellRefusal::Damaged { host, file, at },
        ChoiceFault::NoMemory => CellRefusal::NoMemory,
    }
}
