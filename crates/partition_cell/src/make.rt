//! The first store of a partition.
ghost use Rattle.std.specs.Prelude.{◌≡◌, ◌≢◌, ℕ, ◌<◌, ◌≤◌, ◌^◌, [], slice_get, Some, None, IfOk, IfErr, OnOk, IsErrOf, length, true};
ghost use Rattle.disk_trait.specs.View.{View, Tells};
ghost use Rattle.disk_trait.specs.Calls.{Moved, Cause};
ghost use Rattle.disk_trait.specs.Moments.{After, Throughout};
ghost use Rattle.file_kinds.specs.Freeing.{IsFreeable};
ghost use Rattle.partition_cell.specs.Made.{IsFirst, IsMaking, MakingOn, IsMakingFault, first_header};
ghost use Rattle.partition_cell.specs.Standing.{IsLone};
ghost use Rattle.record_form.specs.HeaderText.{IsHeader};
ghost use Rattle.seal_gate.specs.Seal.{IsSettled, Each};
ghost use Rattle.slot_board.specs.Slots.{is_free};
ghost use Rattle.store_journal.specs.AtRest.{AtRest};
ghost use Rattle.store_journal.specs.Created.{IsFreed};

use crate::cell::Cell;
use crate::refusal::{CellRefusal, refused_cell};
use disk_trait::{Disk, DiskRefusal};
use file_kinds::{FileForm, file_form, free};
use partition_map::PartitionMap;
use record_form::Header;
use slot_board::{Board, SlotKind};
use std::alloc::Global;
use store_ident::StoreId;
use store_journal::Store;

impl<D: Disk> Cell<D> {
    ghost use Rattle.disk_lane.specs.Lanes.{LaneEvent};

    /// Makes an empty store of version 1 and epoch 1 in file 0 of the host, the first of its partition, and erases a store in its
    /// file 1. Nothing may be pending in either.
    ///
    /// A refusal gives the disks back. Takes memory for the kinds of files. At most eleven device calls on the host's disk.
    pub fn create(
        alloc: Global,
        mut disks: Vec<D>,
        partition: u16,
        partitions: u16,
        host: u16,
    ) -> Result<Cell<D>, (CellRefusal, Vec<D>)>
        requires host { host < length disks.items }
        requires few { length disks.items < 2 ^ 16 }
        requires least { partition < partitions }
        requires most { partitions ≤ 257 }
        requires settled { (disk : D) → slice_get disks.items host ≡ Some disk → (f : ℕ) → f ≤ 1 → IsSettled (D.view disk) f }

        ensures made { IfOk result (λ cell. IsFirst cell host partition partitions) }
        ensures lone { IfOk result IsLone }
        ensures event { IfOk result (λ cell. LaneEvent D.view host disks.items cell.disks (MakingOn D.view host disks.items (first_header partition partitions host))) }
        ensures refused { IfErr result (λ refused. LaneEvent D.view host disks.items refused.1.items (MakingOn D.view host disks.items (first_header partition partitions host))) }
        ensures fault { IfErr result (λ refused. IsMakingFault D.view host disks.items refused.1.items refused.0) }
    {
        let header = Header {
            id: StoreId {
                partition,
                version: 1,
                epoch: 1,
                host,
            },
            partitions,
        };
        let mut board = match Board::of(alloc, disks.len() as u16) {
            Ok(board) => board,
            Err(_) => return Err((CellRefusal::NoMemory, disks)),
        };
        match make_store(&mut disks[host as usize], header) {
            Ok((store, kind)) => {
                board.set(host, 0, SlotKind::Current, 1);
                board.set(host, 1, kind, 0);
                Ok(Cell {
                    disks,
                    board,
                    partition,
                    partitions,
                    owner: host,
                    store,
                    map: PartitionMap::empty(alloc),
                    flight: None,
                    moving: None,
                })
            }
            Err(refusal) => Err((refused_cell(host, refusal), disks)),
        }
    }
}

/// Makes an empty store in file 0 of the disk, and file 1 free; tells the store and the kind of file 1.
fn make_store<D: Disk>(disk: &mut D, header: Header) -> Result<(Store, SlotKind), DiskRefusal>
    requires header { IsHeader header }
    requires settled { (f : ℕ) → f ≤ 1 → IsSettled (D.view disk.old) f }
    ensures store { IfOk result (λ made. AtRest (D.view disk.new) made.0 header [] × (made.0.file ≡ 0) × (made.0.id ≡ header.id) × (made.0.end ≡ 41)) }
    ensures spare { IfOk result (λ made. (is_free made.1 ≡ true) × Each (D.view disk.new) 1 (IsFreeable made.1)) }
    ensures moments { Throughout (D.view disk.old) (D.view disk.new) (After (D.view disk.old) (IsMaking header)) }
    ensures cause { Cause (D.view disk.old) (D.view disk.new) result }
    ensures tells { Tells (D.view disk.old) → Tells (D.view disk.new) }
{
    let kind = clear_spare(disk)?;
    let store = Store::create(disk, 0, header)?;
    Ok((store, kind))
}

/// Makes file 1 free of a store, and tells its kind.
fn clear_spare<D: Disk>(disk: &mut D) -> Result<SlotKind, DiskRefusal>
    requires settled { IsSettled (D.view disk.old) 1 }
    ensures spare { IfOk result (λ kind. (is_free kind ≡ true) × Each (D.view disk.new) 1 (IsFreeable kind)) }
    ensures moments { Throughout (D.view disk.old) (D.view disk.new) (After (D.view disk.old) (Moved 1 IsFreed)) }
    ensures cause { Cause (D.view disk.old) (D.view disk.new) result }
    ensures others { (f : ℕ) → f ≢ 1 → (D.view disk.new).seen f ≡ (D.view disk.old).seen f }
    ensures tells { Tells (D.view disk.old) → Tells (D.view disk.new) }
{
    match file_form(disk, 1)? {
        FileForm::Blank => Ok(SlotKind::Blank),
        FileForm::Short => Ok(SlotKind::Empty),
        FileForm::Sealed => {
            free(disk, 1, SlotKind::Stale)?;
            Ok(SlotKind::Blank)
        }
    }
}
