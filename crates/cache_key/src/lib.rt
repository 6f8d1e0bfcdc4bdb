//! The texts that name things in a cache, the requests of a client, and the partition of a key.
//!
//! Seen as: each text is the list of its bytes (`IsName`, `IsKey`, `IsValue`, specs/Names.antt); `Pairs` is a list of
//!   pairs of a key and a value, `HostList` a list of names.
//! Keeps: a text keeps the limits of its kind as long as it lives, and `Pairs` has at most 64 pairs. Equality and order
//!   of texts are those of the bytes.
//! Hides: that a text is a `String`, beside which its first bytes stand as numbers, so that most texts are compared without a
//!   look at the strings (leading.rt); and that each list is a `Vec`.
//! Not here: what a request does to a cache (cache_model), the bytes of a text in a file (record_form).
//! The partition of a key: `hash_partition`, specs/Partition.antt.
#![tactic(auto)]

mod check;
mod fault;
mod hosts;
mod keys;
mod leading;
mod limits;
mod names;
mod pairs;
mod partition;
mod reason;
mod request;
mod text;

pub use fault::{NameFault, PairsFault};
pub use hosts::HostList;
pub use keys::{Key, Value};
pub use limits::{MOST_KEY_BYTES, MOST_NAME_BYTES, MOST_PAIRS, MOST_VALUE_BYTES, is_in_alphabet};
pub use names::{CacheName, HostName, SnapshotName};
pub use pairs::Pairs;
pub use partition::{fnv1a, partition_of};
pub use reason::{Excerpt, TextReason};
pub use request::{EntryKey, Mutation, Reply, Request};
pub use text::{Limits, Text};
