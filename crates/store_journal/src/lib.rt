//! One sealed store file: a header, records, and a closed gate after the last.
//!
//! Seen as: the header, and the list of groups that the records spell (`IsText`, specs/Text.antt); the files of a partition
//! stand for a list of changes together (`StandsFor`, `Survives`, specs/Stands.antt).
//! Keeps: at every moment of `append` each crash image has the old groups, or the old groups and the whole new one; at
//! every moment of `create` the file isn't sealed, is as it was but for its first byte, or is the whole empty store.
//! `load` writes nothing, and answers the contents after the groups that the bytes have (`HasContentsOf`,
//! specs/ContentsOf.antt, of `IsLoaded`, specs/Loading.antt), or where they first leave the form of a store (`IsDamagedAt`,
//! specs/Fault.antt); `identify` does so for the header alone.
//! That bytes are one store, and files stand for one list's contents: `laws`.
//! Hides: in which order an append and a creation write, that the gate of a new record opens last, and that a file is
//! read whole, in pieces, before it is judged; and that no list of all mutations is made.
//! Not here: which of two files is newer (newest_store), and the bytes of a header or a group (record_form).
//! Laws: ContentsLemmas, CreatedLemmas, FaultLemmas, StandsLemmas, TextLemmas, TextOnce.
#![tactic(auto)]

mod create;
mod fault;
mod free;
mod head;
mod identity;
mod judge;
pub mod laws;
mod layout;
mod load;
mod read_all;
mod records;
mod store;

pub use fault::LoadFault;
pub use free::clear;
pub use identity::identify;
pub use load::Loaded;
pub use store::Store;
