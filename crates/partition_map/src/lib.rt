//! The contents of a partition in maps, so that a read costs no more than its work.
//!
//! Seen as: the extents in byte order of their caches' names, the names of all caches that there ever were, and how many
//!   more names need no memory (`Maps`, specs/Extents.antt). An extent is a cache that is there, or one for which places
//!   were made ready. What callers know of it is that the map agrees with a list of changes (`AgreesWith`,
//!   specs/After.antt), that it is ready for a change (`IsReadyFor`, specs/Readiness.antt), and which items stand after one
//!   (`items_after`, specs/Items.antt).
//! Keeps: `apply` appends to the list; `ready` leaves the contents as they are, also after an error; a store of the
//!   contents stays shorter than 2^48 bytes. A number, once given to a cache, stays its own. A copy agrees with every list
//!   that the map agrees with, and each goes on alone. A cache that was destroyed has no extent; and no place is without a
//!   value, and no extent without its cache, but for what was made ready last (`AreHiddenBy`, specs/Hidden.antt).
//! Hides: that a place is made ready by an entry without a value, and that sums are kept.
//! Not here: what an answer or the contents are after a list (cache_model); the store file (store_journal).
//! Laws: none.
//! Cost: a get, a put, a remove and a size one look-up by name and one by key, O(log n); `live` O(1); `extent` one look-up
//!   by hash; `entries_from` O(log n) and its items; `contents` and `copy` all of them, and `count_from` those after its
//!   item. `apply` takes no memory. Reads in order pass over at most 64 places and one extent that show nothing: what was
//!   made ready and not used goes at the next `ready`.
#![tactic(auto)]

mod change;
mod copy;
mod count;
mod extent;
mod item;
mod list;
mod map;
mod names;
mod places;
mod read;
mod readied;

pub use item::LastItem;
pub use map::PartitionMap;
