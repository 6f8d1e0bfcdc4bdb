//! The seal of a file: its first byte, written and made durable by itself.
//!
//! Seen as: a file is sealed where its first byte isn't zero and it has at least 41 bytes, the seal and a header
//! (`IsSealed`, specs/Seal.antt).
//! Keeps: at every moment of a call a stop leaves the file as it was but for its first byte, so that what was settled
//! before the seal is whole after it; no other file changes.
//! Hides: that a seal is one write with its sync, and that any byte but zero counts.
//! Not here: what stands after the seal (store_journal), and which sealed file counts (newest_store).
//! Laws: SealLemmas.
#![tactic(auto)]

mod gate;

pub use gate::{HEADER_END, blank, erase, is_sealed, seal, settle};
