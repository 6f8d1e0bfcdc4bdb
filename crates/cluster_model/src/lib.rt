//! What the disks of a whole cluster keep, and what every stop leaves of it: definitions and their laws.
//!
//! Seen as: a partition stands for the store that commits go to, and for those that a stop may show in its place
//! (`LaneStanding`, specs/Lane.antt); the disks of a cluster keep its rosters, what each host may show of them, and what each
//! partition stands for (`Durable`, specs/Agreement.antt). Hosts are numbers within a lane, and names in rosters.
//! Keeps: in every image of the site that keeps this (`KeepsSite`), whatever hosts come back, where they may open the cluster
//! each partition has one newest store, with the changes that were answered, or these and all that was in flight
//! (`site_laws`). Each act on one disk keeps the invariant of its lane (`KeepsLane`, `lane_laws`) and of the site. What memory
//! has fits what the disks keep (`memory_laws`). A restart picks one of the choices that the disks leave (`Picks`,
//! specs/Restart.antt), and a stop at rest loses nothing (`restart_laws`). A change of the roster keeps the rosters wherever its
//! acts are cut short (`AreCutShort`, specs/Acts.antt), and so a whole plan keeps the invariant of the site (`IsCarriedOver`,
//! specs/Carried.antt, `act_laws`).
//! Hides: nothing; no code stands here, and each law is the contract of a function that does nothing.
//! Laws: those of the modules; ActsLemmas, AgreementLemmas, CarriedLemmas, MembersLemmas, MemoryLemmas, PicksLemmas, RestartLemmas,
//! SiteLemmas, SiteStepLemmas and TurnsLemmas for proofs.
//! Not here: kinds of files (file_kinds), how rosters follow one another (roster_form), the verdict of a recovery (quorum), and
//! the plans of commands. Worked examples: proofs/Rows.antt.
#![tactic(auto)]

pub mod act_laws;
pub mod lane_laws;
pub mod memory_laws;
pub mod restart_laws;
pub mod site_laws;
