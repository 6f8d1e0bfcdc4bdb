//! All disks of a site: a lane for each partition, and a service disk for each host.
//!
//! Seen as: what each disk tells, by its place in the site (`views_of`, specs/SiteDisks.antt); a site has the disks that its hosts
//! and partitions ask for (`HasDisks`).
//! Keeps: what holds at every moment while the disks change, one stretch of calls after the other (`AreStretches`,
//! specs/Stretches.antt); and that the images of a site follow acts, each as the contracts of its calls say of one disk
//! (`AreDoneOver`, `IsCarriedFrom`, specs/Following.antt).
//! Hides: nothing.
//! Not here: what the disks keep (cluster_model), and the calls themselves.
//! Laws: StretchesLemmas, FollowingLemmas.
#![tactic(auto)]

mod site;

pub use site::{Lane, Site};
