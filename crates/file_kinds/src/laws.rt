//! Laws of kinds, each the contract of a function that does nothing.
ghost use Rattle.std.specs.Prelude.{◌≡◌, ◌≢◌, ℕ, ◌≤◌, List, length};
ghost use Rattle.cache_model.specs.Change.{Change};
ghost use Rattle.disk_lane.specs.Lanes.{LaneImage, IsLaneImage};
ghost use Rattle.seal_gate.specs.Seal.{IsSealed};
ghost use Rattle.slot_board.specs.declared.board.Board.{Board};
ghost use Rattle.slot_board.specs.declared.board.SlotKind.{SlotKind};
ghost use Rattle.slot_board.specs.declared.board.SlotKind.TheVariants.{Current, Unknown};
ghost use Rattle.slot_board.specs.Slots.{slot_at, hosts_of};
ghost use Rattle.file_kinds.specs.Kinds.{PartitionNumber, IsVersion, IsOfKind};
ghost use Rattle.file_kinds.specs.Freeing.{IsFreeable, IsFreedFrom};
ghost use Rattle.file_kinds.specs.Order.{IsOrdered, IsRecorded, AreOfKind, SurvivesIn};

use disk_trait::Disk;

/// Where each file of a lane is as its kind says, and the kinds are in order, then in every image of the lane, on any recorded
/// hosts with the owner among them, one sealed file has the greatest version, and it is a store of the partition with the
/// contents of the list, or of the list and what is in flight.
pub fn kinds_give_one_newest_store<D: Disk>(disks: &[D])
    ensures { (board : Board) (owner file : ℕ) (number : PartitionNumber) (changes flight : List Change)
        → length disks.now ≡ hosts_of board
        → IsOrdered board owner file
        → AreOfKind D.view disks.now board number changes flight
        → (ms : LaneImage) → IsLaneImage D.view disks.now ms
        → SurvivesIn board owner number changes flight ms }
{}

/// Each sealed file of a recorded host is a whole store of the partition, with the version that was told of it: also an older
/// one, whose header a recovery judges before it chooses.
pub fn sealed_files_are_whole<D: Disk>(disks: &[D])
    ensures { (board : Board) (number : PartitionNumber) (changes flight : List Change)
        → length disks.now ≡ hosts_of board
        → AreOfKind D.view disks.now board number changes flight
        → (ms : LaneImage) → IsLaneImage D.view disks.now ms
        → (host file : ℕ) → IsRecorded board host → file ≤ 1 → IsSealed (ms host file)
        → IsVersion number (slot_at board host file).version (ms host file) }
{}

/// A file that is as its kind says can be freed by it, unless nothing is known of it, and meanwhile stays as its kind says,
/// unless it is the current one.
pub fn freed_files_keep_their_kind()
    ensures freeable { (number : PartitionNumber) (changes flight : List Change) (kind : SlotKind) (version : ℕ) (bytes : List ℕ)
        → kind ≢ Unknown → IsOfKind number changes flight kind version bytes → IsFreeable kind bytes }
    ensures kept { (number : PartitionNumber) (changes flight : List Change) (kind : SlotKind) (version : ℕ) (old new : List ℕ)
        → kind ≢ Current → IsOfKind number changes flight kind version old → IsFreedFrom kind old new
        → IsOfKind number changes flight kind version new }
{}
