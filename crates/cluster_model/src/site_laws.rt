//! What holds of all disks of a site together: each law is the contract of a function that does nothing.
ghost use Rattle.std.specs.Prelude.{◌≡◌, ◌⊎◌, ℕ, ◌≤◌, List, ◌∷◌, [], slice_get, Option, Some, None, Contains, map};
ghost use Rattle.disk_lane.specs.Lanes.{LaneImage};
ghost use Rattle.store_journal.specs.Created.{IsUnsealed};
ghost use Rattle.file_kinds.specs.Kinds.{PartitionNumber};
ghost use Rattle.roster_form.specs.Membership.{Host};
ghost use Rattle.roster_form.specs.declared.roster.Roster.{Roster};
ghost use Rattle.roster_form.specs.Shown.{Sights, MayShow, ShowsOneOf};
ghost use Rattle.roster_form.specs.Choice.{Sighting, MayOpenBy};
ghost use Rattle.roster_form.specs.Succession.{Rosters, Succeeds, IsGoodRoster, KeepsRosters, IsShownByAll, without_writing};
ghost use Rattle.cluster_model.specs.Lane.{HostedStore, HoldsStore, LaneStanding, KeepsLane, Opens, choices};
ghost use Rattle.cluster_model.specs.LaneSteps.{standing_for};
ghost use Rattle.cluster_model.specs.Site.{SiteShape, partition_of, numbers_of, service_disk, SiteImage, lane_in, site_view};
ghost use Rattle.cluster_model.specs.Agreement.{hosts_in, two_of, with_writing, with_finished, IsInEach, IsRosterOf, IsShownOn, Durable, KeepsSite, AreSighted, IsFoundAgain, IsSaved, SurvivesStops};
ghost use Rattle.cluster_model.specs.SiteSteps.{with_standing, with_rosters, with_sights, ChangesLane, ChangesService, IsNumberOf, IsCleared};

use disk_trait::Disk;

/// What was answered survives: whatever image a stop leaves, and whatever hosts come back, where they may open the cluster
/// each partition's newest store on the recorded hosts is one that may be found, with the changes that were answered, or
/// these and all that was in flight. Does nothing.
pub fn what_was_answered_survives()
    ensures survives { (shape : SiteShape) (durable : Durable) (passing : List Roster) (image : SiteImage) (sightings : List Sighting) (roster : Roster) (partition : ℕ) (standing : LaneStanding) → KeepsSite shape durable passing image
        → AreSighted shape image sightings → MayOpenBy sightings roster → slice_get durable.standings partition ≡ Some standing → IsFoundAgain shape standing partition roster.hosts image }
    ensures found { (shape : SiteShape) (durable : Durable) (passing : List Roster) (image : SiteImage) (sightings : List Sighting) (roster : Roster) (partition : ℕ) (standing : LaneStanding) → KeepsSite shape durable passing image
        → AreSighted shape image sightings → MayOpenBy sightings roster → slice_get durable.standings partition ≡ Some standing
        → (store : HostedStore) × Contains (choices standing) store × Opens (partition_of shape partition) (numbers_of shape.hosts roster.hosts) (lane_in image partition) store }
    // While a cluster is open these are the last finished roster and the one being written.
    ensures two { (rosters : Rosters) (sights : Sights) (sightings : List Sighting) (roster : Roster) → KeepsRosters rosters sights → ((each : Sighting) → Contains sightings each → MayShow sights each.host each.shown)
        → MayOpenBy sightings roster → Contains (two_of rosters) roster }
{}

/// The same over the disks of a site, a list for each partition and one of service disks: what they keep survives. Does
/// nothing.
pub fn every_stop_is_survived<D: Disk>(lanes: &[Vec<D>], services: &[D])
    ensures { (shape : SiteShape) (durable : Durable) (passing : List Roster) → IsSaved shape durable passing (site_view D.view (map (λ disks. disks.items) lanes.now) services.now)
        → SurvivesStops shape durable (site_view D.view (map (λ disks. disks.items) lanes.now) services.now) }
{}

/// A host stays one of each roster that may pass: a change that begins has to have it. Does nothing.
pub fn owners_stay_members()
    ensures begun { (hosts : List Host) (rosters : Rosters) (new : Roster) (number : ℕ) → IsInEach hosts (two_of rosters) number → Contains (numbers_of hosts new.hosts) number → IsInEach hosts (two_of (with_writing rosters new)) number }
    ensures finished { (hosts : List Host) (rosters : Rosters) (new : Roster) (number : ℕ) → IsInEach hosts (two_of rosters) number → rosters.writing ≡ Some new → IsInEach hosts (two_of (with_finished rosters new)) number }
    ensures given_up { (hosts : List Host) (rosters : Rosters) (number : ℕ) → IsInEach hosts (two_of rosters) number → IsInEach hosts (two_of (without_writing rosters)) number }
{}

/// What the acts keep of a whole site, from one image to the next: those on one lane keep it where they keep that lane, a
/// roster's write keeps it where it keeps the rosters, and a change begins and ends with no call. Does nothing.
pub fn each_act_keeps_the_site()
    // A cluster begins with its stores, while no host shows a roster.
    ensures made { (number : PartitionNumber) (store : HostedStore) (files : LaneImage) (file : ℕ) → file ≤ 1 → HoldsStore number store (files store.host file) → ((f : ℕ) → f ≤ 1 → (f ≡ file) ⊎ IsUnsealed (files store.host f))
        → KeepsLane number (store.host ∷ []) (standing_for store) files }
    ensures created { (shape : SiteShape) (first : Roster) (number : ℕ) (host : Host) (sights : Sights) (standings : List LaneStanding) (image : SiteImage) → first.epoch ≡ 1 → IsGoodRoster first → IsRosterOf shape first
        → first.hosts ≡ host ∷ [] → IsNumberOf shape host number → ((other : Host) (roster : Roster) → MayShow sights other (Some roster) → ⊥)
        → ((name : Host) → (shown : Option Roster) × MayShow sights name shown × IsShownOn shape image name shown)
        → ((partition : ℕ) (standing : LaneStanding) → slice_get standings partition ≡ Some standing → KeepsLane (partition_of shape partition) (number ∷ []) standing (lane_in image partition) × (standing.store.host ≡ number))
        → KeepsSite shape (record { rosters = record { finished = []; writing = Some first }; sights = sights; standings = standings }) (first ∷ []) image }
    ensures lane { (shape : SiteShape) (durable : Durable) (passing : List Roster) (old new : SiteImage) (partition : ℕ) (change : LaneStanding → LaneStanding) → KeepsSite shape durable passing old → ChangesLane partition old new
        → ((standing : LaneStanding) → slice_get durable.standings partition ≡ Some standing → KeepsLane (partition_of shape partition) (numbers_of shape.hosts (hosts_in passing)) standing (lane_in old partition)
        → KeepsLane (partition_of shape partition) (numbers_of shape.hosts (hosts_in passing)) (change standing) (lane_in new partition) × IsInEach shape.hosts passing (change standing).store.host)
        → KeepsSite shape (with_standing durable partition change) passing new }
    ensures service { (shape : SiteShape) (durable : Durable) (sights : Sights) (old new : SiteImage) (number : ℕ) (host : Host) → KeepsSite shape durable (two_of durable.rosters) old → ChangesService number old new → IsNumberOf shape host number
        → KeepsRosters durable.rosters sights → ((other : Host) (shown : Option Roster) → MayShow durable.sights other shown → (other ≡ host) ⊎ MayShow sights other shown) → ShowsOneOf (sights host) (new (service_disk number))
        → KeepsSite shape (with_sights durable sights) (two_of durable.rosters) new }
    // A change begins where each of its hosts is recorded already, but perhaps one whose files aren't sealed, and where each owner is one of them.
    ensures begun { (shape : SiteShape) (last : Roster) (older : List Roster) (new : Roster) (joining : Host) (durable : Durable) (image : SiteImage) → durable.rosters ≡ record { finished = last ∷ older; writing = None }
        → KeepsSite shape durable (two_of durable.rosters) image → Succeeds last new → IsGoodRoster new → IsRosterOf shape new
        → ((host : Host) → Contains new.hosts host → Contains last.hosts host ⊎ (host ≡ joining)) → IsCleared shape image joining ⊎ Contains last.hosts joining
        → ((partition : ℕ) (standing : LaneStanding) → slice_get durable.standings partition ≡ Some standing → Contains (numbers_of shape.hosts new.hosts) standing.store.host)
        → KeepsSite shape (with_rosters durable (with_writing durable.rosters new)) (two_of (with_writing durable.rosters new)) image }
    ensures finished { (shape : SiteShape) (finished : List Roster) (new : Roster) (durable : Durable) (image : SiteImage) → durable.rosters ≡ record { finished = finished; writing = Some new } → KeepsSite shape durable (two_of durable.rosters) image
        → IsShownByAll durable.sights new → KeepsSite shape (with_rosters durable (with_finished durable.rosters new)) (two_of (with_finished durable.rosters new)) image }
{}
