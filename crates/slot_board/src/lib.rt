//! What files 0 and 1 of a partition are known to be on each host.
//!
//! Seen as: a slot for each host and file, with the file's kind and the version that was told of it (`slot_at`,
//! specs/Slots.antt); how many hosts there are (`hosts_of`); the greatest version that was ever told (`told_by`).
//! Keeps: the greatest version never falls, also where the slot that had it is set anew, so no version is given twice; the
//! target of a build is never the current file.
//! Hides: where the slots stand in memory.
//! Not here: what a kind says of a file's bytes (file_kinds), and how the versions of one partition stand to each other.
//! Laws: none.
//! Cost: `of` takes memory for two slots a host; `supersede` and `has_doubt` go over all slots; the others look at one host.
#![tactic(auto)]

mod aging;
mod board;

pub use board::{Board, Slot, SlotKind};
