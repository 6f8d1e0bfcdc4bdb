//! A partition's cell, and what is asked of it.
ghost use Rattle.std.specs.Prelude.{◌≡◌, ◌≢◌, ℕ, ◌+◌, ◌<◌, ◌≤◌, ◌^◌, List, length, IfOk, MatchOption, IsTrue, ◌↔◌, Some, None};
ghost use Rattle.cache_model.specs.Change.{Change};
ghost use Rattle.cache_model.specs.Reply.{reply_after};
ghost use Rattle.partition_map.specs.After.{AgreesWith};

use crate::moving::Moving;
use cache_key::{Mutation, Reply, Request};
use disk_trait::Disk;
use partition_map::PartitionMap;
use slot_board::Board;
use std::alloc::{AllocError, Global};
use std::marker::Model;
use store_ident::StoreId;
use store_journal::Store;

/// A partition's store on its hosts' disks, and its contents.
#[derive(Drop)]
pub struct Cell<D: Disk> {
    pub(crate) disks: Vec<D>,
    pub(crate) board: Board,
    pub(crate) partition: u16,
    pub(crate) partitions: u16,
    pub(crate) owner: u16,
    pub(crate) store: Store,
    pub(crate) map: PartitionMap,
    pub(crate) flight: Option<Mutation>,
    pub(crate) moving: Option<Moving>,
}

impl<D: Disk> Model for Cell<D> {
    ghost use Rattle.partition_cell.specs.Cells.{Cell as CellSeen, IsKept};

    ghost Value = { CellSeen D };

    ghost view = { λ c. record { disks = c.disks.items; board = c.board; number = record { partition = c.partition; partitions = c.partitions }; owner = c.owner; store = c.store; maps = c.map; flight = c.flight; moving = c.moving } };

    ghost invariant = { λ c. IsKept D.view (record { disks = c.disks.items; board = c.board; number = record { partition = c.partition; partitions = c.partitions }; owner = c.owner; store = c.store; maps = c.map; flight = c.flight; moving = c.moving }) };
}

impl<D: Disk> Cell<D> {
    ghost use Rattle.disk_lane.specs.Lanes.{LaneImage, IsLaneImage};
    ghost use Rattle.file_kinds.specs.Kinds.{IsVersion};
    ghost use Rattle.file_kinds.specs.Order.{IsRecorded, SurvivesIn};
    ghost use Rattle.partition_cell.specs.Cells.{list_of, flight_of, IsSoundCell};
    ghost use Rattle.partition_cell.specs.Standing.{IsCurrentIn, IsLone};
    ghost use Rattle.partition_cell.specs.declared.moving.Moving.{Moving};
    ghost use Rattle.seal_gate.specs.Seal.{IsSealed};
    ghost use Rattle.slot_board.specs.Slots.{slot_at, told_by};
    ghost use Rattle.store_journal.specs.Created.{IsUnsealed};
    ghost use Rattle.store_journal.specs.Stands.{version_in};

    /// The host whose disk has the current store.
    pub fn owner(&self) -> u16
        ensures { result ≡ self.now.owner }
    {
        self.owner
    }

    /// The identifier of the current store.
    pub fn id(&self) -> StoreId
        ensures { result ≡ self.now.store.id }
    {
        self.store.id
    }

    /// The contents.
    pub fn contents(&self) -> &PartitionMap
        ensures contents { result.now ≡ self.now.maps }
        ensures agrees { (changes : List Change) × AgreesWith changes self.now.maps }
    {
        &self.map
    }

    /// The number of the partition.
    pub fn partition(&self) -> u16
        ensures { result ≡ self.now.number.partition }
    {
        self.partition
    }

    /// The version of the next store. `None` where that is 2^58, which is no version.
    pub fn next_version(&self) -> Option<u64>
        ensures { MatchOption result (told_by self.now.board + 1 ≡ 2 ^ 58) (λ version. (version ≡ told_by self.now.board + 1) × (version < 2 ^ 58)) }
    {
        self.board.next_version()
    }

    /// The host on which a store is being built, if one is.
    pub fn target(&self) -> Option<u16>
        ensures some { (to : ℕ) → (result ≡ Some to) ↔ ((moving : Moving) × (self.now.moving ≡ Some moving) × (moving.host ≡ to)) }
        ensures none { (result ≡ None) ↔ (self.now.moving ≡ None) }
    {
        match &self.moving {
            Some(moving) => Some(moving.host),
            None => None,
        }
    }

    /// What the request is replied. Takes memory for a copy of the value in the reply.
    pub fn answer(&self, alloc: Global, request: &Request) -> Result<Reply, AllocError>
        ensures { IfOk result (λ reply. (changes : List Change) → AgreesWith changes self.now.maps → reply ≡ reply_after changes request.now) }
    {
        self.map.answer(alloc, request)
    }

    /// Whether nothing is in flight, and no file is in doubt.
    pub fn is_sound(&self) -> bool
        ensures { IsTrue result ↔ IsSoundCell self.now }
    {
        self.flight.is_none() && !self.board.has_doubt()
    }

    /// Gives the disks back. Takes no memory.
    pub fn into_lane(self) -> Vec<D>
        ensures { result.items ≡ self.disks }
    {
        self.disks
    }

    /// The law of a cell: in whatever a stop may leave now, the files of the recorded hosts stand for what is durable, or for
    /// it and all that is in flight. Does nothing.
    ///
    /// And each file that is sealed there is a whole store of the partition, of the version that was told of it. The owner is
    /// recorded. Where the cell is sound, the current store has the greatest version of them; where it is lone, no other file is
    /// sealed.
    pub fn survives(&self)
        ensures whole { (ms : LaneImage) → IsLaneImage D.view self.now.disks ms → (h f : ℕ) → IsRecorded self.now.board h → f ≤ 1 → IsSealed (ms h f) → IsVersion self.now.number (slot_at self.now.board h f).version (ms h f) }
        ensures there { self.now.owner < length self.now.disks }
        ensures recorded { IsRecorded self.now.board self.now.owner }
        ensures told { (ms : LaneImage) → IsLaneImage D.view self.now.disks ms → (h f : ℕ) → IsRecorded self.now.board h → f ≤ 1 → IsSealed (ms h f) → version_in (ms h f) ≤ told_by self.now.board }
        ensures current { IsSoundCell self.now → (ms : LaneImage) → IsLaneImage D.view self.now.disks ms → IsCurrentIn self.now ms }
        ensures lone { IsLone self.now → (ms : LaneImage) → IsLaneImage D.view self.now.disks ms → (h f : ℕ) → IsRecorded self.now.board h → f ≤ 1 → ((h ≡ self.now.owner) × (f ≡ self.now.store.file) → ⊥) → IsUnsealed (ms h f) }
        ensures survives { (ms : LaneImage) → IsLaneImage D.view self.now.disks ms → SurvivesIn self.now.board self.now.owner self.now.number (list_of self.now) (flight_of self.now) ms }
    {
        let _ = &self.owner;
    }
}
