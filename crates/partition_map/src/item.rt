//! An item of the plain list.
use cache_key::{CacheName, EntryKey};

/// Where a reader of the plain list stands: behind this item of it, which may be gone by now.
#[derive(Drop)]
pub enum LastItem {
    /// The ensure of this cache.
    Cache(CacheName),
    /// The put of this key.
    Entry(EntryKey),
}
