//! The contents are built anew in the owner's other file.
ghost use Rattle.std.specs.Prelude.{◌≡◌, ◌≢◌, ◌⊎◌, ℕ, ◌+◌, ◌<◌, ◌≤◌, ◌^◌, List, length, true, false, IfOk, OnOk, OnErr, IsErrOf, None, Some, ◌↔◌};
ghost use Rattle.cache_model.specs.PlainList.{live};
ghost use Rattle.disk_trait.specs.declared.DiskRefusal.TheVariants.{Failed};
ghost use Rattle.file_kinds.specs.Order.{IsRecorded};

use crate::cell::Cell;
use crate::refusal::{MoveRefusal, refused_move};
use disk_trait::{Disk, DiskRefusal};
use std::alloc::Global;
use store_build::Progress;
use store_ident::StoreId;

impl<D: Disk> Cell<D> {
    ghost use Rattle.disk_lane.specs.Lanes.{LaneEvent, HasFailedOn};
    ghost use Rattle.partition_cell.specs.Beyond.{OthersStay};
    ghost use Rattle.partition_cell.specs.Cells.{caches_of, Surviving, SameList, BuildGoesOn, IsSoundCell, NoneForgotten};
    ghost use Rattle.partition_cell.specs.Entered.{next_id, IsAnew, IsNotRenewed};
    ghost use Rattle.partition_cell.specs.declared.moving.Moving.{Moving};
    ghost use Rattle.partition_cell.specs.declared.refusal.MoveRefusal.TheVariants.{Busy, VersionEnd, Fault};
    ghost use Rattle.slot_board.specs.Slots.{told_by};

    /// Builds the contents anew in the owner's other file, with the next version and in this epoch, and seals it: it is then the
    /// current store, and what was in flight is dropped.
    ///
    /// Refused where a store is being built, where no version is left, by the owner's disk, and where memory runs out. After a
    /// refusal the old store is the current one; where the disk failed at the seal, the new one is in doubt. Takes memory for a
    /// batch of 64 items.
    pub fn renew(&mut self, alloc: Global, epoch: u64) -> Result<StoreId, MoveRefusal>
        requires least { 1 ≤ epoch }
        requires epoch { epoch < 2 ^ 58 }

        // After Ok the new store has the contents and nothing else, and nothing is in flight or in doubt.
        ensures renewed { IfOk result (λ id. (id ≡ self.new.store.id) × IsSoundCell self.new) }
        ensures anew { OnOk result (IsAnew self.old self.new epoch 0) }
        ensures refused { OnErr result (IsNotRenewed self.old self.new) }
        ensures kept { (self.new.maps ≡ self.old.maps) × (self.new.owner ≡ self.old.owner) × (self.new.number ≡ self.old.number) × (self.new.moving ≡ self.old.moving) }
        ensures known { NoneForgotten self.old.board self.new.board }

        // At every moment, in every image, the files stand for what is durable, or for it and what was in flight.
        ensures event { LaneEvent D.view self.old.owner self.old.disks self.new.disks (Surviving self.old) }

        // Files 2 and up hold what they held, at every moment, in every image.
        ensures others { OthersStay D.view self.old.owner self.old.disks self.new.disks }

        ensures busy { (to : ℕ) → IsErrOf result (Busy to) ↔ ((moving : Moving) × (self.old.moving ≡ Some moving) × (moving.host ≡ to)) }
        ensures version_end { IsErrOf result VersionEnd ↔ ((self.old.moving ≡ None) × (told_by self.old.board + 1 ≡ 2 ^ 58)) }
        ensures untouched { (IsErrOf result VersionEnd ⊎ ((to : ℕ) × IsErrOf result (Busy to))) → self.new ≡ self.old }
        ensures fault { (host : ℕ) → IsErrOf result (Fault host) → (host ≡ self.old.owner) × HasFailedOn D.view host self.old.disks self.new.disks }
    {
        if let Some(to) = self.target() {
            return Err(MoveRefusal::Busy { to });
        }
        if self.next_version().is_none() {
            return Err(MoveRefusal::VersionEnd);
        }
        let host = self.owner;
        match self.rebuild(alloc, epoch) {
            Ok(id) => Ok(id),
            Err(refusal) => Err(refused_move(host, refusal)),
        }
    }

    /// Builds the contents anew in the owner's other file, and seals it.
    pub(crate) fn rebuild(&mut self, alloc: Global, epoch: u64) -> Result<StoreId, DiskRefusal>
        requires least { 1 ≤ epoch }
        requires epoch { epoch < 2 ^ 58 }
        requires version { told_by self.old.board + 1 < 2 ^ 58 }
        requires still { self.old.moving ≡ None }
        requires recorded { IsRecorded self.old.board self.old.owner }
        ensures sealed { IfOk result (λ id. (id ≡ self.new.store.id) × IsSoundCell self.new) }
        ensures anew { OnOk result (IsAnew self.old self.new epoch 0) }
        ensures refused { OnErr result (IsNotRenewed self.old self.new) }
        ensures owner { self.new.owner ≡ self.old.owner }
        ensures maps { self.new.maps ≡ self.old.maps }
        ensures number { self.new.number ≡ self.old.number }
        ensures still { self.new.moving ≡ None }
        ensures known { NoneForgotten self.old.board self.new.board }
        ensures event { LaneEvent D.view self.old.owner self.old.disks self.new.disks (Surviving self.old) }
        ensures others { OthersStay D.view self.old.owner self.old.disks self.new.disks }
        ensures failed { IsErrOf result Failed → HasFailedOn D.view self.old.owner self.old.disks self.new.disks }
    {
        let host = self.owner();
        self.build_whole(alloc, host, epoch)?;
        let id = self.target_seal()?;
        Ok(id)
    }

    /// Builds the contents in a file of the host, up to its seal.
    fn build_whole(&mut self, alloc: Global, to: u16, epoch: u64) -> Result<(), DiskRefusal>
        requires recorded { IsRecorded self.old.board to }
        requires least { 1 ≤ epoch }
        requires epoch { epoch < 2 ^ 58 }
        requires version { told_by self.old.board + 1 < 2 ^ 58 }
        requires still { self.old.moving ≡ None }
        ensures settled { OnOk result ((moving : Moving) × (self.new.moving ≡ Some moving) × (moving.host ≡ to) × (moving.build.id ≡ next_id self.old to epoch) × (moving.build.whole ≡ true) × (moving.settled ≡ true)) }
        ensures refused { OnErr result (self.new.moving ≡ None) }
        ensures same { SameList self.old self.new }
        ensures event { LaneEvent D.view to self.old.disks self.new.disks (Surviving self.old) }
        ensures others { OthersStay D.view to self.old.disks self.new.disks }
        ensures failed { IsErrOf result Failed → HasFailedOn D.view to self.old.disks self.new.disks }
    {
        self.target_begin(to, epoch)?;
        self.write_all(alloc)?;
        self.target_settle()?;
        Ok(())
    }

    /// Begins a store in a file of the host.
    fn target_begin(&mut self, to: u16, epoch: u64) -> Result<(), DiskRefusal>
        requires recorded { IsRecorded self.old.board to }
        requires least { 1 ≤ epoch }
        requires epoch { epoch < 2 ^ 58 }
        requires version { told_by self.old.board + 1 < 2 ^ 58 }
        requires still { self.old.moving ≡ None }
        ensures begun { OnOk result ((moving : Moving) × (self.new.moving ≡ Some moving) × (moving.host ≡ to) × (moving.build.id ≡ next_id self.old to epoch)) }
        ensures refused { OnErr result (self.new.moving ≡ None) }
        ensures same { SameList self.old self.new }
        ensures event { LaneEvent D.view to self.old.disks self.new.disks (Surviving self.old) }
        ensures others { OthersStay D.view to self.old.disks self.new.disks }
        ensures failed { IsErrOf result Failed → HasFailedOn D.view to self.old.disks self.new.disks }
    {
        let file = self.free_target(to)?;
        self.start_build(to, file, epoch)?;
        Ok(())
    }

    /// Writes all that is left of the store that is built.
    fn write_all(&mut self, alloc: Global) -> Result<(), DiskRefusal>
        requires moving { (moving : Moving) × (self.old.moving ≡ Some moving) }
        ensures whole { OnOk result ((moving : Moving) × (self.new.moving ≡ Some moving) × (moving.build.whole ≡ true)) }
        ensures goes { OnOk result (BuildGoesOn self.old.moving self.new.moving) }
        ensures refused { OnErr result (self.new.moving ≡ None) }
        ensures kept { self.new ≡ record self.old { disks = self.new.disks; moving = self.new.moving } }
        ensures event { (old : Moving) → self.old.moving ≡ Some old → LaneEvent D.view old.host self.old.disks self.new.disks (Surviving self.old) }
        ensures others { (old : Moving) → self.old.moving ≡ Some old → OthersStay D.view old.host self.old.disks self.new.disks }
        ensures failed { (old : Moving) → self.old.moving ≡ Some old → IsErrOf result Failed → HasFailedOn D.view old.host self.old.disks self.new.disks }
    {
        let _ = &self.disks;
        'records: loop {
            match self.target_write(alloc)? {
                Progress::More => {}
                Progress::Whole => return Ok(()),
            }
        }
    }
}
