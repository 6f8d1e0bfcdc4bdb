//! What each command does to a cluster on one disk, and what it is answered.
//!
//! Seen as: a step from state to state (`CommandStep`, specs/Commands.antt): whether a cluster is open, its store and its
//!   changes, what the files are known to hold, and how often the disk failed and was restarted (`State`, specs/State.antt).
//!   What an event does to an open cluster: `EventChange`, specs/Events.antt. A command that memory runs out in is broken off,
//!   and leaves a state too (`CommandBreaks`, specs/Breaks.antt).
//! Keeps: after each command, each image that a stop may leave stands for what the state says: the changes that were answered,
//!   and of those in flight all or nothing (`IsInState`, `DiskIsIn`, specs/OnDisk.antt).
//! Hides: that the partition is a cell with a trail (kept_cell), which owns the disk while a cluster is open.
//! Not here: a script, its report and its statuses (script_loop, cluster_cli), when a store is built anew and what it then is
//!   (partition_cell), which store of a disk is the newest (newest_store).
//! Laws: `Opened::is_stored`; FilesLemmas.
#![tactic(auto)]

mod answers;
mod cluster;
mod command;
mod create;
mod events;
mod partition;
mod recover;
mod restart;

pub use cluster::{Cluster, Opened};
pub use command::obey;
pub use restart::restart_lane;
