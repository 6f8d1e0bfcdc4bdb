//! All partitions of a cluster, made or loaded one after the other.
//!
//! Seen as: a list of lanes, by partition from 0, from the disks before to those after (specs/Opened.antt).
//! Keeps: after Ok each partition has its cell, which is the first one (`AreMade`) or has the newest store of its lane (`AreLoaded`), with a
//! trail that begins. Every lane is given back at its place, after a refusal too; of a load that is refused the newest store of each lane
//! is as it was, at every moment (`KeepNewest`), and the partition is the first that wasn't loaded (`AreLoadedBefore`). Of a creation no
//! clause says that it is the first.
//! Hides: that a lane's disks are moved into its cell, and back.
//! Not here: one partition's store (partition_cell), rosters, and what the disks of a whole cluster keep (cluster_model).
#![tactic(auto)]

mod close;
mod create;
mod load;
mod opened;

pub use close::close_lanes;
pub use create::create_lanes;
pub use load::load_lanes;
pub use opened::{NotOpened, Opened};
