//! What is on the disks where a recovery of what a run found is refused: each law is the contract of a function that does nothing.
ghost use Rattle.std.specs.Prelude.{◌≡◌, ℕ, ◌≤◌, List, slice_get, Some, None, true, Contains};
ghost use Rattle.cluster_model.specs.Memory.{Setting};
ghost use Rattle.cluster_model.specs.Site.{SiteImage, partition_of, numbers_of, lane_disk, service_disk, is_among};
ghost use Rattle.command_plans.specs.Asked.{no_store, damaged_store, not_created, refused};
ghost use Rattle.command_plans.specs.Found.{FoundSite, IsFoundSite, IsDamagedFile};
ghost use Rattle.command_plans.specs.OpeningPlans.{present_hosts, sightings_at, recover_found_plan};
ghost use Rattle.roster_form.specs.Choice.{chosen_roster};
ghost use Rattle.roster_form.specs.Membership.{Host};
ghost use Rattle.roster_form.specs.Shown.{Shows};
ghost use Rattle.roster_form.specs.declared.roster.Roster.{Roster};
ghost use Rattle.store_journal.specs.Created.{IsUnsealed};

/// A recovery is refused for a damaged file only where that file is damaged at that offset; for a missing store only where no file of the
/// partition is sealed on a host of the chosen roster; and for no cluster only where no present host shows a roster. Does nothing.
pub fn a_refusal_is_on_the_disks()
    ensures damaged { (setting : Setting) (found : FoundSite) (present : List Host) (image : SiteImage) (host : Host) (partition file offset : ℕ) → IsFoundSite setting.shape found image
        → (recover_found_plan setting found present).answer ≡ refused (damaged_store host partition file offset)
        → (number : ℕ) × (slice_get setting.shape.hosts number ≡ Some host) × IsDamagedFile (partition_of setting.shape partition) (image (lane_disk partition number) file) offset }
    ensures missing { (setting : Setting) (found : FoundSite) (present : List Host) (image : SiteImage) (partition : ℕ) → IsFoundSite setting.shape found image → (recover_found_plan setting found present).answer ≡ refused (no_store partition)
        → (chosen : Roster) × (chosen_roster (sightings_at found.sights (present_hosts setting.shape present)) ≡ Some chosen)
        × ((number file : ℕ) → Contains (numbers_of setting.shape.hosts chosen.hosts) number → file ≤ 1 → IsUnsealed (image (lane_disk partition number) file)) }
    ensures not_created { (setting : Setting) (found : FoundSite) (present : List Host) (image : SiteImage) → IsFoundSite setting.shape found image → (recover_found_plan setting found present).answer ≡ refused not_created
        → (number : ℕ) (host : Host) → slice_get setting.shape.hosts number ≡ Some host → is_among present host ≡ true → Shows (image (service_disk number)) None }
{}
