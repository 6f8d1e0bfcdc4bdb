//! A disk of eleven files in memory, which tells what a stop at any moment may leave, and fails where its plan says so.
//!
//! Seen as: its plan, the list of the calls that changed it, and its counts (`History`, specs/History.antt).
//! What it tells follows from that list alone (`memory_view`, specs/MemoryView.antt; `file_after`, specs/Replay.antt).
//! Keeps: a call fails exactly where the plan says, or where a write would end at 2^63 or after; a failing write
//! or cut is pending, and a failing sync changes nothing; a call that is out of memory leaves everything as it was and
//! isn't counted; a restart takes exactly the image that the pick names, and removes a fuse that was met.
//! Costs: a read or a write its length; a sync the bytes from the first pending one to the last; a restart
//! nothing but the next change of each file, which copies as many. A file takes memory with its first write.
//! The history keeps each byte that was written, so that it can tell the images of past moments.
//! Hides: the bytes in memory. Each file has two texts that are changed in place, what a read gives and what a
//! restart takes, and the range of offsets outside which they are the same (`Mirrors`, specs/Mirrored.antt).
//! Not here: what any disk promises (disk_trait), a folder of real files.
#![tactic(auto)]

mod bytes;
mod disk;
mod file;
mod log;
mod medium;
mod plan;

pub use disk::MemoryDisk;
pub use plan::DiskPlan;
