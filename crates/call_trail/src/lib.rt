//! What was asked of a partition, in order, and what it replied.
//!
//! Seen as: the contents that a trail begins with, its entries, and for how many more there is room (`Trail`,
//!   specs/Trails.antt). What they changed is one list of changes (`trail_changes`).
//! Keeps: each reply is the one after the base and the entries before it (`IsLegal`); at most 1,048,576 entries.
//! Hides: that the base is a map.
//! Not here: where a mutation becomes durable (partition_cell).
//! Laws: `the_same_contents_reply_the_same`; TrailLemmas for proofs.
//! Cost: `push` takes no memory; `reserve` takes that of entries, and with each doubling moves them.
#![tactic(auto)]

mod entry;
mod laws;
mod refusal;
mod trail;

pub use entry::{Entry, Receipt};
pub use laws::the_same_contents_reply_the_same;
pub use refusal::CallRefusal;
pub use trail::{HasTrail, MOST_ENTRIES, Trail};
