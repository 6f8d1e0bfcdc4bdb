//! Rosters: who belongs to a cluster, the bytes of a roster's file, what hosts show, and how rosters follow one another.
//!
//! Seen as: `Roster` is the record of its fields, its hosts by their names; a roster has one spelling but for the seal
//! (`IsRosterText`, specs/RosterText.antt), and bytes have one first fault (`roster_fault`, specs/RosterFault.antt). An image of a
//! service disk shows the roster in its newest sealed file (`Shows`, specs/Shown.antt). Of what the present hosts show one
//! roster is chosen, and may open the cluster where its hosts are back (`MayOpenBy`, specs/Choice.antt).
//! Keeps: what is encoded is the spelling, what is decoded is spelled so, and what is spelled so is decoded unless memory runs
//! out; a fault is the first wrong field's. However rosters are written, only the last finished one and the one being written
//! can open a cluster (`KeepsRosters`, specs/Succession.antt, and `laws`).
//! Hides: that all bytes are judged before memory is taken for the names.
//! Not here: reading and writing a service disk (roster_book), and the verdict of a recovery (quorum).
//! Laws: ContainsLemmas, NamesLemmas, RosterTextLemmas, ShownLemmas, PassLemmas, SuccessionLemmas.
#![tactic(auto)]

mod decode;
mod encode;
mod fault;
mod head;
pub mod laws;
mod names;
mod roster;

pub use decode::decode_roster;
pub use encode::encode_roster;
pub use fault::RosterFault;
pub use roster::Roster;
