//! The bytes of a store's header, and of a group of mutations.
//!
//! Seen as: a header has one spelling (`header_text`, specs/HeaderText.antt), and so has a group (`group_text`,
//! specs/GroupText.antt): the count of its mutations, and then each of them. A grammar is a value (`Form`, specs/Form.antt).
//! Keeps: what is encoded is the spelling; what is decoded is spelled so, each byte of it; what is spelled so is decoded,
//! unless memory runs out for a group; a fault is the first one from the left (`header_fault`, specs/HeaderFault.antt, and
//! `group_fault`, specs/GroupFault.antt). That a spelling is of one header or group, and what a first fault is: `laws`.
//! Hides: that all bytes are judged before memory is taken for the mutations.
//! Not here: where a header and its groups stand in a file, and which gate is open (store_journal).
//! Laws: FaultBounds, GroupFaultLemmas, GroupLengthLemmas, HeaderLemmas, NameLemmas.
#![tactic(auto)]

mod check_group;
mod encode;
mod fault;
mod group;
mod header;
pub mod laws;
mod length;
mod read_group;
mod read_header;
mod read_text;

pub use cache_model::growth;
pub use encode::{encode_header, encode_tail};
pub use fault::RecordFault;
pub use group::{CLOSED_GATE, Group, GroupRefusal, MOST_GROUP_BYTES, MOST_MUTATIONS, RECORD_HEAD};
pub use header::{HEADER_BYTES, Header, PARTITION_OFFSET, PARTITIONS_OFFSET};
pub use read_group::decode_group;
pub use read_header::decode_header;
