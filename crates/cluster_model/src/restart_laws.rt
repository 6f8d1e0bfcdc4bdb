//! What a stop and a restart leave of a cluster: each law is the contract of a function that does nothing.
ghost use Rattle.std.specs.Prelude.{◌≡◌, ◌⊎◌, ◌++◌, ℕ, List, [], slice_get, Some, map};
ghost use Rattle.roster_form.specs.Membership.{Host};
ghost use Rattle.roster_form.specs.declared.roster.Roster.{Roster};
ghost use Rattle.roster_form.specs.Succession.{KeepsRosters};
ghost use Rattle.cluster_model.specs.Lane.{LaneStanding, HasOneFlight};
ghost use Rattle.cluster_model.specs.Site.{SiteShape, SiteImage, site_view};
ghost use Rattle.cluster_model.specs.Agreement.{some_of, Durable, KeepsSite, IsSaved};
ghost use Rattle.cluster_model.specs.Restart.{counting_roster, IsSeenOrNot, Picks, IsAtRest, AreRestarted};

use disk_trait::Disk;

/// Whatever image of its disks a restart takes, what they keep then is picked of what they kept; and no other roster may
/// pass than the one that counts. Does nothing.
pub fn a_restart_picks()
    ensures { (shape : SiteShape) (old : Durable) (passing : List Roster) (image : SiteImage) → KeepsSite shape old passing image → IsSeenOrNot shape old passing image
        → (new : Durable) × Picks shape old new × KeepsSite shape new (some_of (counting_roster new.rosters)) image }
{}

/// A stop, of an open cluster or in the midst of a recovery, from the disks before it to those after their restart: what
/// these hold was picked, and only the roster that counts may pass. Does nothing.
pub fn a_stop_is_stored<D: Disk>(
    lanes: &[Vec<D>],
    services: &[D],
    lanes_after: &[Vec<D>],
    services_after: &[D],
)
    ensures { (shape : SiteShape) (durable : Durable) (passing : List Roster) (image : SiteImage) → IsSaved shape durable passing (site_view D.view (map (λ disks. disks.items) lanes.now) services.now)
        → AreRestarted (site_view D.view (map (λ disks. disks.items) lanes.now) services.now) (site_view D.view (map (λ disks. disks.items) lanes_after.now) services_after.now) image
        → IsSeenOrNot shape durable passing image
        → (picked : Durable) × Picks shape durable picked × IsSaved shape picked (some_of (counting_roster picked.rosters)) (site_view D.view (map (λ disks. disks.items) lanes_after.now) services_after.now) }
{}

/// What a restart picks is what was kept: of a partition the changes that were answered, or these and all that was in
/// flight; the rosters; and where nothing was in flight all of it. Does nothing.
pub fn a_stop_loses_nothing()
    ensures picked { (shape : SiteShape) (old new : Durable) (roster : Roster) (partition : ℕ) (standing : LaneStanding) → Picks shape old new → counting_roster new.rosters ≡ Some roster → slice_get old.standings partition ≡ Some standing
        → (one : HasOneFlight standing)
        → (after : LaneStanding) × (slice_get new.standings partition ≡ Some after) × (after.perhaps ≡ []) × ((after.store.changes ≡ standing.store.changes) ⊎ (after.store.changes ≡ standing.store.changes ++ one.flight)) }
    ensures rosters { (shape : SiteShape) (old new : Durable) → KeepsRosters old.rosters old.sights → Picks shape old new → KeepsRosters new.rosters new.sights }
    ensures rest { (shape : SiteShape) (old new : Durable) → IsAtRest old → Picks shape old new → (new.rosters ≡ old.rosters) × (new.standings ≡ old.standings) × ((host : Host) → new.sights host ≡ old.sights host) }
{}
