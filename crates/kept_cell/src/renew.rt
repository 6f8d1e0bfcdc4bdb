//! The store of a kept cell is built anew.
ghost use Rattle.std.specs.Prelude.{◌≡◌, ℕ, ◌+◌, ◌<◌, ◌≤◌, ◌^◌, IfOk, OnOk, OnErr, IsErrOf, None, Some, ◌↔◌, ◌⊎◌};

use crate::kept::Kept;
use disk_trait::Disk;
use partition_cell::MoveRefusal;
use std::alloc::Global;
use store_ident::StoreId;

impl<D: Disk> Kept<D> {
    ghost use Rattle.disk_lane.specs.Lanes.{LaneEvent, HasFailedOn};
    ghost use Rattle.partition_cell.specs.Beyond.{OthersStay};
    ghost use Rattle.partition_cell.specs.Entered.{IsAnew, IsNotRenewed};
    ghost use Rattle.partition_cell.specs.Cells.{Surviving, IsSoundCell, NoneForgotten};
    ghost use Rattle.partition_cell.specs.declared.moving.Moving.{Moving};
    ghost use Rattle.partition_cell.specs.declared.refusal.MoveRefusal.TheVariants.{Busy, VersionEnd, Fault};
    ghost use Rattle.slot_board.specs.Slots.{told_by};

    /// Builds the contents anew in the owner's other file, with the next version and in this epoch. The contents and the trail stay;
    /// what was in flight is dropped.
    ///
    /// Refused where a store is being built, where no version is left, by the owner's disk, and where memory runs out. After a
    /// refusal the old store is the current one; where the disk failed at the seal, the new one is in doubt.
    pub fn renew(&mut self, alloc: Global, epoch: u64) -> Result<StoreId, MoveRefusal>
        requires least { 1 ≤ epoch }
        requires epoch { epoch < 2 ^ 58 }

        // After Ok the new store has the contents and nothing else, and nothing is in flight or in doubt.
        ensures renewed { IfOk result (λ id. (id ≡ self.new.cell.store.id) × IsSoundCell self.new.cell) }
        ensures anew { OnOk result (IsAnew self.old.cell self.new.cell epoch 0) }
        ensures refused { OnErr result (IsNotRenewed self.old.cell self.new.cell) }
        ensures trail { self.new.trail ≡ self.old.trail }
        ensures kept { (self.new.cell.maps ≡ self.old.cell.maps) × (self.new.cell.owner ≡ self.old.cell.owner) × (self.new.cell.number ≡ self.old.cell.number) × (self.new.cell.moving ≡ self.old.cell.moving) }
        ensures known { NoneForgotten self.old.cell.board self.new.cell.board }

        // At every moment, in every image, the files stand for what is durable, or for it and what was in flight.
        ensures event { LaneEvent D.view self.old.cell.owner self.old.cell.disks self.new.cell.disks (Surviving self.old.cell) }
        ensures others { OthersStay D.view self.old.cell.owner self.old.cell.disks self.new.cell.disks }

        ensures busy { (to : ℕ) → IsErrOf result (Busy to) ↔ ((moving : Moving) × (self.old.cell.moving ≡ Some moving) × (moving.host ≡ to)) }
        ensures version_end { IsErrOf result VersionEnd ↔ ((self.old.cell.moving ≡ None) × (told_by self.old.cell.board + 1 ≡ 2 ^ 58)) }
        ensures untouched { (IsErrOf result VersionEnd ⊎ ((to : ℕ) × IsErrOf result (Busy to))) → self.new ≡ self.old }
        ensures fault { (host : ℕ) → IsErrOf result (Fault host) → (host ≡ self.old.cell.owner) × HasFailedOn D.view host self.old.cell.disks self.new.cell.disks }
    {
        self.cell.renew(alloc, epoch)
    }
}
