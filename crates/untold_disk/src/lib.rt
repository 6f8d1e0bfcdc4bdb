//! A disk over a host of which nothing is known: it tells nothing of its files, and counts its faults and restarts.
//!
//! Seen as: a view with no image, and the counts of faults and restarts (`untold`, disk_trait's specs/View.antt). Each
//! clause of `Disk` on contents, lengths and images holds of it, since it has none.
//! Keeps: each call asks the host once and hands its answer on (`handed_on`, specs/HandedOn.antt). It answers `Failed` in
//! place of a length of 2^63 or more, in place of a read of more bytes than the slice has, and, without asking the host,
//! to a write that would end at 2^63 or after. A restart doesn't reach the host. Only `Failed` raises the count of faults.
//! Hides: whether the host failed, or answered what no disk may answer.
//! Not here: the host, which is any type with the trait `Host` and may promise nothing. That a real one behaves as a
//! disk does is not proved anywhere: docs/DISKS.md.
#![tactic(auto)]

mod disk;
mod host;

pub use disk::UntoldDisk;
pub use host::Host;
