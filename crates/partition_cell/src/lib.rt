//! One partition: its store in files 0 and 1 of its hosts' disks, and its contents.
//!
//! Seen as: a record (`Cell`, specs/Cells.antt) of the disks of its lane, what their files are known to be, the owner and its
//!   store, the contents, the mutation in flight, and the store that is being built.
//! Keeps: in every crash image of the lane, on any recorded hosts with the owner among them, one sealed file has the greatest
//!   version, and it has the contents, or these and the mutation in flight (`survives`). So it is at every moment of `commit`,
//!   `enter` and `renew` (their clauses `event`). A commit goes to a store that is at most twice as long as its contents need,
//!   and 65,536 bytes (`IsFit`, specs/Limits.antt); a store that was built anew has the contents and nothing else. Which store a
//!   cell has after `renew` and `enter` is exact (specs/Entered.antt): a fit cell keeps its own. Files 2 and up stay as they are,
//!   in every image (`OthersStay`, specs/Beyond.antt). While `load_newest` erases the older stores of several hosts, their files
//!   stand for what they stood for (`StandsThroughout`, specs/Loaded.antt).
//! Hides: which of a host's two files has the store, and how a store is built.
//! Not here: what was asked and replied (call_trail), and which of several stores is the newest (newest_store).
//! Laws: `survives`, and EnteredLemmas, BeyondLemmas, ListLemmas and ThroughoutLemmas for proofs.
//! Cost: a commit is four device calls and takes time for its record; `due` and `is_sound` look at each host's two files; a
//!   renewal takes time for the contents, and memory for 64 of their items; `load_newest` reads each header once, and the newest
//!   store once whole.
#![tactic(auto)]

mod cell;
mod commit;
mod enter;
mod load;
mod make;
mod moving;
mod older;
mod prepare;
mod refusal;
mod renew;
mod target;

pub use cell::Cell;
pub use moving::Moving;
pub use prepare::Prepared;
pub use refusal::{CellRefusal, MoveRefusal};
