//! What the disks keep at a stage of a run survives, and a restart leads to a stage again: each law is the contract of a function
//! that does nothing.
ghost use Rattle.std.specs.Prelude.{◌≡◌, ◌++◌, List, [], ◌∷◌, map, Some, true};
ghost use Rattle.roster_form.specs.Membership.{Host};
ghost use Rattle.roster_form.specs.declared.roster.Roster.{Roster};
ghost use Rattle.cluster_model.specs.Agreement.{Durable, some_of, two_of, KeepsSite, IsSaved, SurvivesStops};
ghost use Rattle.cluster_model.specs.Acts.{SiteHost, Act, writes, finishes, KeepsRostersThroughout};
ghost use Rattle.cluster_model.specs.Carried.{IsCarriedOver};
ghost use Rattle.cluster_model.specs.Memory.{Setting};
ghost use Rattle.cluster_model.specs.Restart.{counting_roster, IsSeenOrNot, AreRestarted};
ghost use Rattle.cluster_model.specs.Site.{SiteShape, SiteImage, site_view};
ghost use Rattle.command_plans.specs.OpeningPlans.{roster_reads, recover_plan};
ghost use Rattle.command_plans.specs.Kept.{KeepsClosed};
ghost use Rattle.command_plans.specs.OnDisks.{only_counted, IsStageOn};
ghost use Rattle.command_plans.specs.Stage.{OpenSite, closed, opened, RunStage, IsRestartOf};

use disk_trait::Disk;

/// What was answered survives every stop at a stage that the disks of a site keep: with a cluster that is closed, and with an open one. Does
/// nothing.
pub fn every_stage_is_survived<D: Disk>(lanes: &[Vec<D>], services: &[D])
    ensures closed { (shape : SiteShape) (durable : Durable) → IsStageOn shape (closed durable) (site_view D.view (map (λ disks. disks.items) lanes.now) services.now)
        → SurvivesStops shape durable (site_view D.view (map (λ disks. disks.items) lanes.now) services.now) }
    ensures opened { (shape : SiteShape) (site : OpenSite) → site.known ≡ true → IsStageOn shape (opened site) (site_view D.view (map (λ disks. disks.items) lanes.now) services.now)
        → SurvivesStops shape site.durable (site_view D.view (map (λ disks. disks.items) lanes.now) services.now) }
{}

/// A restart of all disks of a site leads from a stage that they keep to one that they keep then. Does nothing.
pub fn a_restart_leads_to_a_stage<D: Disk>(
    lanes: &[Vec<D>],
    services: &[D],
    lanes_after: &[Vec<D>],
    services_after: &[D],
)
    ensures closed { (shape : SiteShape) (durable : Durable) (passing : List Roster) (image : SiteImage) → IsSaved shape (only_counted durable) passing (site_view D.view (map (λ disks. disks.items) lanes.now) services.now)
        → AreRestarted (site_view D.view (map (λ disks. disks.items) lanes.now) services.now) (site_view D.view (map (λ disks. disks.items) lanes_after.now) services_after.now) image
        → IsSeenOrNot shape (only_counted durable) passing image
        → (new : RunStage) × IsRestartOf shape (closed durable) new × IsStageOn shape new (site_view D.view (map (λ disks. disks.items) lanes_after.now) services_after.now) }
    ensures opened { (shape : SiteShape) (site : OpenSite) (image : SiteImage) → IsStageOn shape (opened site) (site_view D.view (map (λ disks. disks.items) lanes.now) services.now)
        → AreRestarted (site_view D.view (map (λ disks. disks.items) lanes.now) services.now) (site_view D.view (map (λ disks. disks.items) lanes_after.now) services_after.now) image
        → (site.known ≡ true → IsSeenOrNot shape site.durable (two_of site.durable.rosters) image)
        → (new : RunStage) × IsRestartOf shape (opened site) new × IsStageOn shape new (site_view D.view (map (λ disks. disks.items) lanes_after.now) services_after.now) }
{}

/// A recovery of what the disks keep keeps the site, wherever it is cut short: where it is refused; where the chosen roster is written to
/// those that lack it; and where the partitions are loaded. So do other acts after rosters were read, also while the roster that
/// was being written, and that some host shows alone, is written to the hosts that lack it, and no other may pass. Does nothing.
pub fn a_recovery_keeps_the_site()
    ensures recovery { (setting : Setting) (durable kept : Durable) (present : List Host) (old next : SiteImage) → KeepsClosed setting.shape durable → KeepsSite setting.shape durable (some_of (counting_roster durable.rosters)) old
        → IsCarriedOver setting.shape (recover_plan setting durable present).acts durable kept old next → (passing : List Roster) × KeepsSite setting.shape kept passing next }
    ensures rest { (shape : SiteShape) (new : Roster) (present : List Host) (hosts : List SiteHost) (more : List Act) (durable kept : Durable) (old next : SiteImage) → durable.rosters.writing ≡ Some new
        → KeepsSite shape durable (new ∷ []) old → ((host : Host) × (durable.sights host ≡ Some new ∷ [])) → KeepsRostersThroughout (map writes hosts ++ finishes ∷ more) durable
        → IsCarriedOver shape (roster_reads shape present ++ (map writes hosts ++ finishes ∷ more)) durable kept old next → (passing : List Roster) × KeepsSite shape kept passing next }
    ensures others { (shape : SiteShape) (present : List Host) (more : List Act) (durable kept : Durable) (old next : SiteImage) → KeepsSite shape durable (two_of durable.rosters) old → KeepsRostersThroughout more durable
        → IsCarriedOver shape (roster_reads shape present ++ more) durable kept old next → (passing : List Roster) × KeepsSite shape kept passing next }
{}
