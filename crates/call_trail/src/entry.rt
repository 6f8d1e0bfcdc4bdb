//! An entry of a trail, and the receipt that its client gets.
use cache_key::{Reply, Request};

/// A request that was answered, and its reply.
#[derive(PartialEq, Eq, Debug, Drop)]
pub struct Entry {
    /// The number of the client that asked.
    pub client: u16,
    /// The number of the call among those of its client.
    pub number: u64,
    pub request: Request,
    pub reply: Reply,
}

/// What a client gets for a request that was answered: the entry, and where it stands.
#[derive(PartialEq, Eq, Debug, Drop)]
pub struct Receipt {
    /// The partition whose trail has the entry.
    pub partition: u16,
    /// The index of the entry in the trail, from 0.
    pub place: u32,
    /// The number of the client that asked.
    pub client: u16,
    /// The number of the call among those of its client.
    pub number: u64,
    pub request: Request,
    pub reply: Reply,
}
