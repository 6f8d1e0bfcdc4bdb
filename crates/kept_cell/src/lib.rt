//! A partition's cell with the trail of what was asked of it: what a client calls.
//!
//! Seen as: the cell and the trail (`KeptCell`, specs/KeptCells.antt).
//! Keeps: the contents of the cell are those after the trail's changes; each answered call stands in the trail, once, at the index
//!   that its receipt names; which store the cell has after a call is exact (`HasGrown` and `IsHeldBack`).
//! Hides: that a mutation's copies are made before the first device call.
//! Not here: how a mutation becomes durable, and when a store is built anew (partition_cell).
//! Laws: `Kept::follows_its_trail`.
//! Cost: a call costs what its reply, its record and its entry cost; where a store is due, a renewal more.
#![tactic(auto)]

mod asked;
mod call;
mod kept;
mod renew;

pub use kept::Kept;
