//! The rosters of one host: read from its service disk, and written to it; and what a member knows of its cluster's roster.
//!
//! Seen as: what the newest sealed file of files 0 and 1 holds (`Shows` of roster_form), and of several hosts what each shows
//! (`AreFound`, specs/Rosters.antt). A `Book` is an epoch, its members and a pending host (`Standing`, specs/Standing.antt);
//! `Doubts` is a list of files, each once (`IsEachOnce`, specs/Places.antt).
//! Keeps: at every moment of a write each image of the disk shows what one before it showed, or the new roster, also when
//! a refused write is tried again (`IsReadyToWrite`, specs/Writing.antt); after Ok it shows the new roster and nothing else. Reading
//! writes nothing, and a refusal is that of the first host in the list that has one (`IsReadRefusal`). A host that is joining is
//! no member (`laws`).
//! Hides: that the first byte of a file is written only where any first byte is harmless.
//! Not here: the bytes of a roster (roster_form), and which hosts are given one.
//! Laws: StandingLemmas, RostersLemmas, WritingLemmas.
#![tactic(auto)]

mod book;
mod doubts;
mod fault;
mod found;
pub mod laws;
mod over;
mod place;
mod read;
mod rosters;
mod write;

pub use book::Book;
pub use doubts::Doubts;
pub use fault::ShownFault;
pub use found::Found;
pub use over::{has_roster, write_over};
pub use place::Place;
pub use read::{file_to_write, shown_roster};
pub use rosters::{BookRefusal, read_rosters};
pub use write::{Doubt, Unwritten, write_roster};
