//! How what memory has of a cluster fits what its disks keep: each law is the contract of a function that does nothing.
ghost use Rattle.std.specs.Prelude.{◌≡◌, ℕ, List, slice_get, Some, None, true, Contains};
ghost use Rattle.cache_model.specs.Change.{Change};
ghost use Rattle.roster_form.specs.Membership.{Host};
ghost use Rattle.roster_form.specs.declared.roster.Roster.{Roster};
ghost use Rattle.roster_form.specs.Succession.{Rosters, AreSuccessive, listed};
ghost use Rattle.cluster_model.specs.Lane.{LaneStanding};
ghost use Rattle.cluster_model.specs.LaneSteps.{IsNewerThanAll};
ghost use Rattle.cluster_model.specs.Site.{SiteShape, numbers_of};
ghost use Rattle.cluster_model.specs.SiteSteps.{IsNumberOf};
ghost use Rattle.cluster_model.specs.Agreement.{two_of, IsInEach, Durable};
ghost use Rattle.cluster_model.specs.Members.{left_by, is_member};
ghost use Rattle.cluster_model.specs.Memory.{Setting, PartState, next_store, with_told, IsTold, first_owned};

/// What memory has of a cluster fits what its disks keep: the next store of a partition is newer than each that may be found,
/// a host may leave that owns no partition, and a member is a host of each roster that may pass. Does nothing.
pub fn memory_fits_the_disks()
    ensures newer { (setting : Setting) (durable : Durable) (partition : ℕ) (standing : LaneStanding) (part : PartState) (host : ℕ) (changes : List Change) → IsTold standing part
        → IsNewerThanAll (next_store setting durable partition part host changes) standing }
    ensures told { (standings : List LaneStanding) (parts : List PartState) (partition : ℕ) (standing : LaneStanding) (part : PartState) → slice_get standings partition ≡ Some standing
        → slice_get (with_told standings parts) partition ≡ Some part → IsTold standing part }
    ensures leaves { (shape : SiteShape) (last : Roster) (host : Host) (number first : ℕ) (standings : List LaneStanding) (parts : List PartState) (partition : ℕ) (standing : LaneStanding) (part : PartState) → IsNumberOf shape host number
        → first_owned number first standings parts ≡ None → slice_get standings partition ≡ Some standing → slice_get parts partition ≡ Some part
        → Contains (numbers_of shape.hosts last.hosts) standing.store.host → Contains (numbers_of shape.hosts (left_by last host).hosts) standing.store.host }
    ensures member { (shape : SiteShape) (rosters : Rosters) (number : ℕ) (host : Host) → AreSuccessive (listed rosters) → slice_get shape.hosts number ≡ Some host → is_member rosters host ≡ true → IsInEach shape.hosts (two_of rosters) number }
{}
