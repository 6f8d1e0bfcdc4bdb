//! The identifier of a store: which partition, how new, and since when.
//!
//! Seen as: four numbers. Within a partition a greater version is newer.
//! Keeps: an identifier has one spelling (`ident_text`, specs/Ident.antt). A text is read as an identifier exactly if it
//!   is the spelling of one, and what is printed is read back.
//! Hides: how its text is made, and how it is read.
//! Not here: how an identifier stands in a store's header (record_form), and which of two stores is taken (newest_store).
//! The first fault of a text: `IsFormFault` and `IsRangeFault`, specs/Faults.antt.
#![tactic(auto)]

mod fault;
mod fields;
mod ident;
mod number;

pub use fault::IdFault;
pub use ident::StoreId;
