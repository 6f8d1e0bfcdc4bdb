//! What a file of a partition holds in every crash image, by its kind, and how a file is made free.
//!
//! Seen as: a kind is a predicate on a file's bytes (`IsOfKind`, specs/Kinds.antt); kinds and versions of all files are in order
//! (`IsOrdered`, specs/Order.antt); the bytes of a file are blank, short or sealed (`HasFileForm`, specs/Freeing.antt).
//! Keeps: files that are as their kinds say, in order, have one newest store on any recorded hosts with the owner among
//! them, and it has the contents of the list, or of the list and what is in flight (`kinds_give_one_newest_store`); a file that
//! is being freed stays of its kind at every moment (`freed_files_keep_their_kind`).
//! Hides: which of two device calls frees a file of which kind.
//! Not here: the table of kinds (slot_board), the newest store of files as they are read (newest_store).
//! Laws: `laws`; KindLemmas and SurviveLemmas for proofs.
//! Cost: `free` makes two device calls or none, `file_form` one or two; no memory is taken but the disk's.
#![tactic(auto)]

mod form;
mod freeing;
pub mod laws;

pub use form::{FileForm, file_form};
pub use freeing::free;
