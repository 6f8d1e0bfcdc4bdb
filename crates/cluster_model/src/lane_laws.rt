//! What holds of the disks of one partition: each law is the contract of a function that does nothing.
ghost use Rattle.std.specs.Prelude.{◌≡◌, ◌⊎◌, ℕ, ◌≤◌, List, [], Contains};
ghost use Rattle.cache_model.specs.Contents.{SameContents};
ghost use Rattle.disk_lane.specs.Lanes.{LaneImage};
ghost use Rattle.store_journal.specs.Created.{IsUnsealed};
ghost use Rattle.file_kinds.specs.Kinds.{PartitionNumber};
ghost use Rattle.cluster_model.specs.Lane.{HostedStore, LaneStanding, HoldsStore, Opens, IsSlot, KeepsLane, choices};
ghost use Rattle.cluster_model.specs.LaneSteps.{standing_for, with_doubt, ChangesOne, IsErasedFrom, IsAside, IsApart, IsNewerThanAll, IsMore};

/// Over any hosts that are recorded and have the store's own among them, the newest store is one that may be found, and there
/// is one newest store alone. A host whose files aren't sealed may be recorded, and any host may be let go. Does nothing.
pub fn a_lane_opens()
    ensures opens { (number : PartitionNumber) (recorded hosts : List ℕ) (standing : LaneStanding) (lane : LaneImage) → KeepsLane number recorded standing lane
        → ((host : ℕ) → Contains hosts host → Contains recorded host) → Contains hosts standing.store.host
        → (store : HostedStore) × Contains (choices standing) store × Opens number hosts lane store }
    // Whatever two stores open it are one, with the same contents.
    ensures once { (number : PartitionNumber) (hosts : List ℕ) (lane : LaneImage) (one other : HostedStore) → Opens number hosts lane one → Opens number hosts lane other
        → (other.host ≡ one.host) × (other.id ≡ one.id) × (other.end ≡ one.end) × SameContents one.changes other.changes }
    ensures recorded { (number : PartitionNumber) (recorded hosts : List ℕ) (standing : LaneStanding) (lane : LaneImage) → KeepsLane number recorded standing lane
        → ((host : ℕ) → Contains hosts host → Contains recorded host ⊎ ((f : ℕ) → f ≤ 1 → IsUnsealed (lane host f))) → KeepsLane number hosts standing lane }
{}

/// What the calls on one disk of a partition keep, from one image to the next: an act that is tried leaves open whether it
/// is done, and one that is done doesn't. Does nothing.
pub fn each_act_keeps_the_lane()
    // A file that no commit goes to is erased.
    ensures freed { (number : PartitionNumber) (recorded : List ℕ) (standing : LaneStanding) (old new : LaneImage) (host file : ℕ) → (keeps : KeepsLane number recorded standing old) → ChangesOne host file old new
        → IsAside host file standing keeps.file → IsErasedFrom (old host file) (new host file) → KeepsLane number recorded standing new }
    // It becomes anything that may stand there, as by a second erasure, which may show again what the first one hid.
    ensures aside { (number : PartitionNumber) (recorded : List ℕ) (standing : LaneStanding) (old new : LaneImage) (host file : ℕ) → (keeps : KeepsLane number recorded standing old) → ChangesOne host file old new
        → IsAside host file standing keeps.file → IsSlot number standing host (new host file) → IsApart recorded standing old host file (new host file) → KeepsLane number recorded standing new }
    // A newer store is sealed in such a file.
    ensures sealing { (number : PartitionNumber) (recorded : List ℕ) (standing : LaneStanding) (store : HostedStore) (old new : LaneImage) (file : ℕ) → (keeps : KeepsLane number recorded standing old) → ChangesOne store.host file old new
        → IsAside store.host file standing keeps.file → IsNewerThanAll store standing → IsUnsealed (new store.host file) ⊎ HoldsStore number store (new store.host file) → KeepsLane number recorded (with_doubt standing store) new }
    ensures sealed { (number : PartitionNumber) (recorded : List ℕ) (standing : LaneStanding) (store : HostedStore) (old new : LaneImage) (file : ℕ) → (keeps : KeepsLane number recorded standing old) → file ≤ 1 → ChangesOne store.host file old new
        → IsNewerThanAll store standing → HoldsStore number store (new store.host file) → KeepsLane number recorded (standing_for store) new }
    // A group is added to the store that commits go to.
    ensures appending { (number : PartitionNumber) (recorded : List ℕ) (standing : LaneStanding) (more : HostedStore) (old new : LaneImage) → (keeps : KeepsLane number recorded standing old) → ChangesOne standing.store.host keeps.file old new
        → IsMore standing.store more → HoldsStore number standing.store (new standing.store.host keeps.file) ⊎ HoldsStore number more (new standing.store.host keeps.file) → KeepsLane number recorded (with_doubt standing more) new }
    ensures appended { (number : PartitionNumber) (recorded : List ℕ) (standing : LaneStanding) (more : HostedStore) (old new : LaneImage) → (keeps : KeepsLane number recorded standing old) → ChangesOne standing.store.host keeps.file old new
        → Contains recorded standing.store.host → standing.perhaps ≡ [] → IsMore standing.store more → HoldsStore number more (new standing.store.host keeps.file) → KeepsLane number recorded (standing_for more) new }
{}
