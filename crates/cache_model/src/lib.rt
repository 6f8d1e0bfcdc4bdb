//! What a partition holds after a list of mutations: the definitions, and the plain program.
//!
//! Seen as: a list of changes, the oldest first. It is read backwards: of the changes that touch a key, the last one
//!   decides (`value_after`, `is_present_after`, `AreContentsAfter`, specs/Contents.antt). A request changes
//!   `changes_asked` and is replied `reply_after` (specs/Reply.antt). Contents are seen as one list of caches, and spelled
//!   as one list of mutations (`plain_list`, specs/PlainList.antt).
//!   Over several partitions a request has parts (`parts_of`, specs/Parts.antt).
//! Keeps: lists of changes with the same contents have one list of caches (`contents_have_one_order`); the size of a cache
//!   is the number of its pairs there (`size_counts_the_pairs`); the plain list leaves the contents that it lists
//!   (`plain_list_leaves_the_contents`); a mutation lengthens a store of the contents by at most its growth
//!   (`live_grows_at_most`); lists with the same contents have them also after the same further changes
//!   (`same_contents_stay_the_same`).
//! Hides: that `Contents` is a map of maps.
//! Not here: the bytes of a mutation in a file (record_form).
//! Laws: ContentsLemmas, EntriesLemmas, GrowthLemmas, ListLemmas, PartsLemmas, SameLemmas, ShownLemmas, SizeLemmas,
//!   StepLemmas.
//! Cost: a value or a presence looks at each mutation at most once; contents take one look-up a mutation; a size takes
//!   the contents, and the live length their plain list.
#![tactic(auto)]

mod contents;
mod laws;
mod lengths;
mod plain;
mod same;

pub use contents::Contents;
pub use laws::{
    contents_have_one_order, live_grows_at_most, plain_list_leaves_the_contents, put_is_read_back,
    size_counts_the_pairs,
};
pub use lengths::{growth, live, plain_list};
pub use plain::{
    as_mutation, asks_nothing, collect_contents, find_value, is_mutation, is_present, reply_to,
    size,
};
pub use same::{same_contents_is_an_equivalence, same_contents_stay_the_same};
