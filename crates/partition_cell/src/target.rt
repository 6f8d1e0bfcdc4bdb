//! A store is built on a host of the lane, and sealed there: in the owner's other file at a renewal.
ghost use Rattle.std.specs.Prelude.{◌≡◌, ◌≢◌, ◌⊎◌, ℕ, ◌+◌, ◌<◌, ◌≤◌, ◌^◌, List, [], ◌∷◌, length, true, false, IfOk, OnOk, OnErr, IsErrOf, None, Some};
ghost use Rattle.cache_model.specs.PlainList.{live};
ghost use Rattle.disk_trait.specs.declared.DiskRefusal.TheVariants.{Failed};
ghost use Rattle.file_kinds.specs.Order.{IsRecorded, SurvivesIn};
ghost use Rattle.partition_map.specs.Items.{items_after};
ghost use Rattle.slot_board.specs.declared.board.SlotKind.TheVariants.{Blank, Doubt};

use crate::cell::Cell;
use crate::moving::Moving;
use cache_model::plain_list_leaves_the_contents;
use disk_trait::{Disk, DiskRefusal};
use file_kinds::free;
use record_form::Header;
use seal_gate::{seal, settle};
use slot_board::SlotKind;
use std::alloc::Global;
use store_build::{Build, Progress};
use store_ident::StoreId;

impl<D: Disk> Cell<D> {
    ghost use Rattle.disk_lane.specs.Lanes.{LaneEvent, HasFailedOn};
    ghost use Rattle.partition_cell.specs.Beyond.{OthersStay};
    ghost use Rattle.partition_cell.specs.Entered.{next_id};
    ghost use Rattle.partition_cell.specs.Cells.{NoneForgotten, caches_of, list_of, flight_of, IsSoundCell, Surviving};
    ghost use Rattle.partition_cell.specs.declared.moving.Moving.{Moving};
    ghost use Rattle.slot_board.specs.Slots.{slot_at, hosts_of, told_by, IsSet};
    ghost use Rattle.store_build.specs.declared.build.Progress.TheVariants.{More, Whole};

    /// Makes a file of the host free for a store that is to be built, and tells which.
    pub(crate) fn free_target(&mut self, to: u16) -> Result<u8, DiskRefusal>
        requires recorded { IsRecorded self.old.board to }
        requires still { self.old.moving ≡ None }
        ensures freed { IfOk result (λ file. (file ≤ 1) × IsSet self.old.board self.new.board to file (record { kind = Blank; version = 0 })) }
        ensures refused { OnErr result (self.new.board ≡ self.old.board) }
        ensures kept { self.new ≡ record self.old { disks = self.new.disks; board = self.new.board } }
        ensures event { LaneEvent D.view to self.old.disks self.new.disks (SurvivesIn self.old.board self.old.owner self.old.number (list_of self.old) (flight_of self.old)) }
        ensures others { OthersStay D.view to self.old.disks self.new.disks }
        ensures failed { IsErrOf result Failed → HasFailedOn D.view to self.old.disks self.new.disks }
    {
        let file = self.board.choose_target(to);
        let kind = self.board.kind(to, file);
        free(&mut self.disks[to as usize], file, kind)?;
        self.board.set(to, file, SlotKind::Blank, 0);
        Ok(file)
    }

    /// Begins a store in a blank file of the host.
    pub(crate) fn start_build(&mut self, to: u16, file: u8, epoch: u64) -> Result<(), DiskRefusal>
        requires there { to < hosts_of self.old.board }
        requires file { file ≤ 1 }
        requires blank { (slot_at self.old.board to file).kind ≡ Blank }
        requires least { 1 ≤ epoch }
        requires epoch { epoch < 2 ^ 58 }
        requires version { told_by self.old.board + 1 < 2 ^ 58 }
        requires still { self.old.moving ≡ None }
        ensures begun { OnOk result ((moving : Moving) × (self.new.moving ≡ Some moving) × (moving.host ≡ to) × (moving.build.id ≡ next_id self.old to epoch) × (moving.build.whole ≡ false)) }
        ensures refused { OnErr result (self.new.moving ≡ None) }
        ensures kept { self.new ≡ record self.old { disks = self.new.disks; moving = self.new.moving } }
        ensures event { LaneEvent D.view to self.old.disks self.new.disks (SurvivesIn self.old.board self.old.owner self.old.number (list_of self.old) (flight_of self.old)) }
        ensures others { OthersStay D.view to self.old.disks self.new.disks }
        ensures failed { IsErrOf result Failed → HasFailedOn D.view to self.old.disks self.new.disks }
    {
        let version = match self.board.next_version() {
            Some(version) => version,
            None => unreachable!(),
        };
        let header = Header {
            id: StoreId {
                partition: self.partition,
                version,
                epoch,
                host: to,
            },
            partitions: self.partitions,
        };
        let build = Build::begin(&mut self.disks[to as usize], file, header)?;
        self.moving = Some(Moving {
            host: to,
            build,
            settled: false,
        });
        Ok(())
    }

    /// Writes the next record of the store that is built, or its closed gate. A refusal ends the build.
    pub(crate) fn target_write(&mut self, alloc: Global) -> Result<Progress, DiskRefusal>
        requires moving { (moving : Moving) × (self.old.moving ≡ Some moving) }
        ensures moved { (old : Moving) → self.old.moving ≡ Some old → IfOk result (λ progress. (new : Moving) × (self.new.moving ≡ Some new) × (new.host ≡ old.host) × (new.build.id ≡ old.build.id)
            × (progress ≡ More → length (items_after new.build.last (caches_of self.old)) < length (items_after old.build.last (caches_of self.old))) × (progress ≡ Whole → new.build.whole ≡ true)) }
        ensures refused { OnErr result (self.new.moving ≡ None) }
        ensures kept { self.new ≡ record self.old { disks = self.new.disks; moving = self.new.moving } }
        ensures event { (old : Moving) → self.old.moving ≡ Some old → LaneEvent D.view old.host self.old.disks self.new.disks (SurvivesIn self.old.board self.old.owner self.old.number (list_of self.old) (flight_of self.old)) }
        ensures others { (old : Moving) → self.old.moving ≡ Some old → OthersStay D.view old.host self.old.disks self.new.disks }
        ensures failed { (old : Moving) → self.old.moving ≡ Some old → IsErrOf result Failed → HasFailedOn D.view old.host self.old.disks self.new.disks }
    {
        let mut moving = match self.moving.take() {
            Some(moving) => moving,
            None => unreachable!(),
        };
        moving.settled = false;
        let progress = moving
            .build
            .next_batch(alloc, &mut self.disks[moving.host as usize], &self.map)?;
        self.moving = Some(moving);
        Ok(progress)
    }

    /// Makes the whole build durable but for its seal. A refusal ends the build.
    pub(crate) fn target_settle(&mut self) -> Result<(), DiskRefusal>
        requires moving { (moving : Moving) × (self.old.moving ≡ Some moving) × (moving.build.whole ≡ true) }
        ensures settled { (old : Moving) → self.old.moving ≡ Some old → OnOk result ((new : Moving) × (self.new.moving ≡ Some new) × (new.host ≡ old.host) × (new.build.id ≡ old.build.id) × (new.build.whole ≡ true) × (new.settled ≡ true)) }
        ensures refused { OnErr result (self.new.moving ≡ None) }
        ensures kept { self.new ≡ record self.old { disks = self.new.disks; moving = self.new.moving } }
        ensures event { (old : Moving) → self.old.moving ≡ Some old → LaneEvent D.view old.host self.old.disks self.new.disks (SurvivesIn self.old.board self.old.owner self.old.number (list_of self.old) (flight_of self.old)) }
        ensures others { (old : Moving) → self.old.moving ≡ Some old → OthersStay D.view old.host self.old.disks self.new.disks }
        ensures failed { (old : Moving) → self.old.moving ≡ Some old → IsErrOf result Failed → HasFailedOn D.view old.host self.old.disks self.new.disks }
    {
        let mut moving = match self.moving.take() {
            Some(moving) => moving,
            None => unreachable!(),
        };
        settle(&mut self.disks[moving.host as usize], moving.build.file)?;
        moving.settled = true;
        self.moving = Some(moving);
        Ok(())
    }

    /// Seals the build: it is then the current store, its host the owner, and nothing is in flight. After a refusal its file is
    /// in doubt.
    pub(crate) fn target_seal(&mut self) -> Result<StoreId, DiskRefusal>
        requires moving { (moving : Moving) × (self.old.moving ≡ Some moving) × (moving.build.whole ≡ true) × (moving.settled ≡ true) }
        ensures sealed { (old : Moving) → self.old.moving ≡ Some old → IfOk result (λ id. (id ≡ old.build.id) × (self.new.store.id ≡ old.build.id) × (self.new.store.file ≡ old.build.file) × (self.new.owner ≡ old.host) × IsSoundCell self.new) }
        ensures plain { OnOk result (self.new.store.end + 1 ≡ live (caches_of self.old)) }
        ensures other { (old : Moving) → self.old.moving ≡ Some old → OnOk result (old.host ≡ self.old.owner → self.new.store.file + self.old.store.file ≡ 1) }
        ensures told { told_by self.new.board ≡ told_by self.old.board + 1 }
        ensures refused { OnErr result ((self.new.owner ≡ self.old.owner) × (self.new.store ≡ self.old.store) × (self.new.flight ≡ self.old.flight)) }
        ensures ended { self.new.moving ≡ None }
        ensures known { NoneForgotten self.old.board self.new.board }
        ensures maps { self.new.maps ≡ self.old.maps }
        ensures number { self.new.number ≡ self.old.number }
        ensures event { (old : Moving) → self.old.moving ≡ Some old → LaneEvent D.view old.host self.old.disks self.new.disks (SurvivesIn self.old.board self.old.owner self.old.number (list_of self.old) (flight_of self.old)) }
        ensures others { (old : Moving) → self.old.moving ≡ Some old → OthersStay D.view old.host self.old.disks self.new.disks }
        ensures failed { (old : Moving) → self.old.moving ≡ Some old → IsErrOf result Failed → HasFailedOn D.view old.host self.old.disks self.new.disks }
    {
        plain_list_leaves_the_contents();
        let moving = match self.moving.take() {
            Some(moving) => moving,
            None => unreachable!(),
        };
        let Moving { host, build, .. } = moving;
        let file = build.file;
        let id = build.id;
        self.board.set(host, file, SlotKind::Doubt, id.version);
        seal(&mut self.disks[host as usize], file)?;
        self.board.supersede();
        self.board.set(host, file, SlotKind::Current, id.version);
        self.owner = host;
        self.store = build.finish();
        self.flight = None;
        Ok(id)
    }
}
