//! The trail of a partition.
ghost use Rattle.std.specs.Prelude.{◌≡◌, ◌≢◌, ℕ, ◌<◌, ◌≤◌, [], ◌∷◌, ◌++◌, length, slice_get, IsTrue, ◌↔◌, OnOk, OnErr};
ghost use Rattle.std.specs.Option.{option_copied};
ghost use Rattle.cache_model.specs.Reply.{reply_after};
ghost use Rattle.partition_map.specs.Extents.{caches_in};
ghost use Rattle.call_trail.specs.Trails.{IsLegal, trail_changes, most_entries};

use crate::entry::Entry;
use partition_map::PartitionMap;
use std::alloc::{AllocError, Global};
use std::marker::Model;

/// The most entries of a trail.
pub const MOST_ENTRIES: usize = 1_048_576;

/// What was asked of a partition since a base, and what it replied.
#[derive(Drop)]
pub struct Trail {
    base: PartitionMap,
    entries: Vec<Entry>,
}

impl Model for Trail {
    ghost use Rattle.std.specs.Prelude.{◌-◌, ◌≤◌, length, vec_len, vec_capacity};
    ghost use Rattle.partition_map.specs.Extents.{caches_in};
    ghost use Rattle.call_trail.specs.Trails.{Trail as TrailSeen, IsLegal, most_entries};

    ghost Value = { TrailSeen };

    ghost view = { λ t. record { base = caches_in t.base.extents; entries = t.entries.items; room = vec_capacity t.entries - vec_len t.entries } };

    ghost invariant = { λ t. IsLegal (caches_in t.base.extents) t.entries.items × (length t.entries.items ≤ most_entries) };
}

/// What has a trail of its own.
pub trait HasTrail {
    fn trail(&self) -> &Trail;
}

impl Trail {
    /// A trail without entries, over these contents. Takes no memory.
    pub fn begin(alloc: Global, base: PartitionMap) -> Trail
        ensures base { result.base ≡ caches_in base.extents }
        ensures none { result.entries ≡ [] }
    {
        Trail {
            base,
            entries: Vec::new(alloc),
        }
    }

    /// How many entries there are.
    pub fn len(&self) -> u32
        ensures many { result ≡ length self.now.entries }
        ensures most { result ≤ most_entries }
    {
        self.entries.len() as u32
    }

    /// Whether no entry can be added.
    pub fn is_full(&self) -> bool
        ensures full { IsTrue result ↔ (length self.now.entries ≡ most_entries) }
        ensures most { length self.now.entries ≤ most_entries }
    {
        self.entries.len() == MOST_ENTRIES
    }

    /// The entry at an index, from 0; `None` past the last.
    pub fn entry(&self, place: u32) -> Option<&Entry>
        ensures { option_copied result ≡ slice_get self.now.entries place }
    {
        self.entries.get(place as usize)
    }

    /// Makes room for one entry. Takes memory; after an error all is as before.
    pub fn reserve(&mut self) -> Result<(), AllocError>
        ensures room { OnOk result (0 < self.new.room) }
        ensures kept { (self.new.base ≡ self.old.base) × (self.new.entries ≡ self.old.entries) }
        ensures refused { OnErr result (self.new ≡ self.old) }
    {
        self.entries.reserve(1)
    }

    /// Adds an entry. Takes no memory.
    pub fn push(&mut self, entry: Entry)
        requires room { 0 < self.old.room }
        requires more { length self.old.entries < most_entries }
        requires right { entry.reply ≡ reply_after (trail_changes self.old.base self.old.entries) entry.request }
        ensures entries { self.new.entries ≡ self.old.entries ++ entry ∷ [] }
        ensures base { self.new.base ≡ self.old.base }
    {
        self.entries.push_reserved(entry);
    }
}
