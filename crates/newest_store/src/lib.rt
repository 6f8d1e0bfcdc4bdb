//! The newest store of a partition: among files 0 and 1 of several hosts, and opened on one disk.
//!
//! Seen as: of several hosts the sealed file of greatest version counts, then the lowest host, then the lower file (`IsChosen`,
//! specs/Choice.antt). On one disk that is the newest file (`IsNewest`, specs/Newest.antt), and the files have its store
//! (`HasStore`).
//! Keeps: `newest` writes nothing (`OnlyReadsLane`), and blames the disk that failed, or the first file without a header
//! (`IsChoiceFault`). At every moment of `load_newest` the newest file is as it was (`ErasesOlder`, specs/Clearing.antt); after
//! Ok it alone is sealed, and its contents were answered as they stood (`IsNewestOpened`, specs/NewestOpened.antt). At every
//! moment of `clear_stores` the newest store is as it was unless no other is left (`ClearsOlderFirst`, specs/Clearing.antt), and
//! after Ok no file is sealed.
//! Hides: that headers are judged before a file is read whole, and that the older file is erased last when one is opened,
//! and first when both are cleared.
//! Not here: what a store's bytes are (store_journal), and what a recovery says of a refusal (cluster_commands).
//! Laws: ChoiceLemmas, NewestLemmas.
//! Cost: `newest` reads the first bytes of each file, and takes no memory but the disks'.
#![tactic(auto)]

mod choice;
mod clearing;
mod fault;
mod opening;
mod search;

pub use choice::{Choice, ChoiceFault, newest};
pub use clearing::clear_stores;
pub use fault::NewestFault;
pub use opening::load_newest;
