//! What opening the lanes of a site does to what its disks keep: laws alone.
//!
//! Seen as: acts of the model of a cluster that change nothing of what is kept (`IsLoadable`, specs/Loadable.antt).
//! Keeps: where the newest store of each lane is as it was, at every moment, the images follow the calls of a load (`a_load_is_quiet`).
//! Hides: nothing; no code stands here, and each law is the contract of a function that does nothing.
//! Not here: the calls themselves (open_lanes, partition_cell), and what the disks keep (cluster_model).
#![tactic(auto)]

pub mod load_laws;
