//! The disks of one partition, one for each host: a lane.
//!
//! Seen as: a list of disks by host number, from 0; an image of the lane has one of each disk's images (`IsLaneImage`,
//! specs/Lanes.antt).
//! Keeps: an event writes one disk, and at every moment of it, in every image of the whole lane, a property holds
//! (`LaneEvent`); a fault has a disk that failed (`HasFailedOn`).
//! Hides: nothing.
//! Not here: what the files of a lane hold (file_kinds, newest_store), and disks themselves (disk_trait).
//! Laws: `laws`, and LaneLemmas for proofs.
//! Cost: the functions of `laws` do nothing.
#![tactic(auto)]

pub mod laws;
