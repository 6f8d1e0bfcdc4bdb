//! Loading the partitions of a cluster: each law is the contract of a function that does nothing.
ghost use Rattle.std.specs.Prelude.{ℕ, List, length, map};
ghost use Rattle.cluster_model.specs.Agreement.{Durable};
ghost use Rattle.cluster_model.specs.Site.{SiteShape, SiteImage};
ghost use Rattle.command_plans.specs.OpeningPlans.{lane_loads};
ghost use Rattle.open_lanes.specs.Opened.{KeepNewest};
ghost use Rattle.opening_laws.specs.Loadable.{IsLoadable};
ghost use Rattle.site_disks.specs.Following.{IsDoneFrom};
ghost use Rattle.site_disks.specs.SiteDisks.{views_of, HasLanesFor};
ghost use Rattle.site_disks.specs.Stretches.{IsMoment};
ghost use Rattle.site_disks.specs.Told.{SiteTells, IsNothingPending};

use disk_trait::Disk;

/// Whatever a stop may leave at any moment of a load, by which the newest store of each lane is as it was, follows from what it might
/// have left before by the calls of the load: they change nothing of what is kept. Does nothing.
pub fn a_load_is_quiet<D: Disk>(old: &[Vec<D>], new: &[Vec<D>], services: &[D])
    ensures { (shape : SiteShape) (hosts : List ℕ) (durable : Durable) (image : SiteImage) → HasLanesFor shape.partitions (length shape.hosts) (map (λ disks. disks.items) old.now)
        → SiteTells (views_of D.view (record { lanes = map (λ disks. disks.items) old.now; services = services.now })) → IsNothingPending (views_of D.view (record { lanes = map (λ disks. disks.items) old.now; services = services.now }))
        → KeepNewest D.view hosts shape.partitions (map (λ disks. disks.items) old.now) (map (λ disks. disks.items) new.now) → IsLoadable shape hosts durable
        → IsMoment (views_of D.view (record { lanes = map (λ disks. disks.items) old.now; services = services.now })) (views_of D.view (record { lanes = map (λ disks. disks.items) new.now; services = services.now })) image
        → IsDoneFrom shape (lane_loads hosts shape.partitions) durable (views_of D.view (record { lanes = map (λ disks. disks.items) old.now; services = services.now })) image }
{}
