//! The disks that the arguments plan.
//!
//! Seen as: the site of a run (cluster_cli's `Site`), with disks in memory.
//! Keeps: the site has the hosts and the partitions of the plan; its disk is empty, fails where the plan cuts it, and a
//!   restart takes the image of the plan's pick. Arguments without a plan get a site without hosts, disks and partitions.
//! Hides: how a lane is put together.
//! Not here: what the arguments say (plan_words), what a disk in memory does (disk_memory), the run (cluster_cli).
#![tactic(auto)]

mod memory;

pub use memory::memory_site;
