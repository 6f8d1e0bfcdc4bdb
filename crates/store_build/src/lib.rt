//! A store that is built in a file before it is sealed.
//!
//! Seen as: the plain list of a map's contents, of which the first batches are written (`IsBuilding`, specs/Built.antt), and
//! once it is settled the whole store but for its first byte (`IsBuilt`).
//! Keeps: at every moment of `begin` and `next_batch` each image of the file has a first byte of zero, so it isn't sealed, and no
//! other file changes; a whole build that was settled has exactly the bytes of the contents in records of 64 items.
//! Hides: how a record is made of a batch, and that the last item is kept by its key.
//! Not here: how a file is made free before (file_kinds), the settling and the seal (seal_gate).
//! Laws: `laws`; ItemLemmas, BatchLemmas and BuiltLemmas for proofs.
//! Cost: `begin` makes two device calls, `next_batch` one, or none after the last; `next_batch` takes memory for one batch of
//! items and its record, and looks at no other item; `left` looks at all that are left.
#![tactic(auto)]

mod build;
pub mod laws;
mod record;

pub use build::{Build, Progress};
