//! The contents of a partition.
ghost use Rattle.std.specs.Prelude.{◌≡◌, ℕ, ◌+◌, ◌<◌, ◌^◌, List, [], ◌∷◌, ◌++◌, false, length, take, IfOk, IsOk, OnOk};
ghost use Rattle.std.specs.Option.{option_copied};
ghost use Rattle.cache_model.specs.Caches.{Caches};
ghost use Rattle.cache_model.specs.Change.{Change, change_of};
ghost use Rattle.cache_model.specs.Contents.{value_after, AreContentsAfter};
ghost use Rattle.cache_model.specs.PlainList.{live, growth_of};
ghost use Rattle.cache_model.specs.Reply.{reply_after};
ghost use Rattle.partition_map.specs.After.{AgreesWith, IsReadyFor};
ghost use Rattle.partition_map.specs.Extents.{caches_in, AreKept};
ghost use Rattle.partition_map.specs.Items.{items_after};
ghost use Rattle.partition_map.specs.Order.{brings, extent_number};

use crate::change::{change_extent, forget, makes_present, ready_extent, remove_absent, room_for};
use crate::copy::copy_extents;
use crate::count::count_after_item;
use crate::extent::Extent;
use crate::item::LastItem;
use crate::list::{add_after, copy_caches};
use crate::names::{copy_names, mark_name};
use crate::read::{count_of, value_of};
use crate::readied::Readied;
use cache_key::{CacheName, Key, Mutation, Reply, Request, Value};
use cache_model::Contents;
use indexmap::IndexMap;
use std::alloc::{AllocError, Global};
use std::collections::BTreeMap;
use std::marker::Model;

/// A store of the contents stays below this length.
const MOST_LIVE: u64 = 1 << 48;

/// The most caches that have a number.
const MOST_NAMES: usize = 1 << 32;

/// The length of a store without items.
const LEAST_STORE_LENGTH: u64 = 42;

/// What a record takes beside its mutations.
const RECORD_OVERHEAD: u64 = 6;

/// The most mutations of a record.
const MUTATIONS_IN_A_RECORD: u64 = 64;

/// The contents of a partition in maps.
#[derive(Drop)]
pub struct PartitionMap {
    extents: BTreeMap<CacheName, Extent>,
    names: IndexMap<CacheName, bool>,
    items: u64,
    bytes: u64,
    readied: Option<Readied>,
    alloc: Global,
}

impl Model for PartitionMap {
    ghost use Rattle.std.specs.Prelude.{◌≤◌, ◌^◌, length};
    ghost use Rattle.indexmap.specs.IndexMap.{keys, spare};
    ghost use Rattle.partition_map.specs.Extents.{Maps, AreKept};
    ghost use Rattle.partition_map.specs.Hidden.{AreHiddenBy};
    ghost use Rattle.partition_map.specs.Marks.{AreMarked};

    ghost Value = { Maps };

    ghost view = { λ m. record { extents = m.extents.entries; names = keys m.names; room = spare m.names } };

    ghost invariant = { λ m. AreKept m.extents.entries m.items m.bytes × (length (keys m.names) ≤ 2 ^ 32) × AreHiddenBy m.readied m.extents.entries × AreMarked m.names.entries m.extents.entries };
}

impl PartitionMap {
    /// A map of no contents. Takes no memory.
    pub fn empty(alloc: Global) -> Self
        ensures { AgreesWith [] result }
    {
        PartitionMap {
            extents: BTreeMap::new(alloc),
            names: IndexMap::new(alloc),
            items: 0,
            bytes: 0,
            readied: None,
            alloc,
        }
    }

    /// What the request is replied. Takes memory for a copy of the value in the reply.
    pub fn answer(&self, alloc: Global, request: &Request) -> Result<Reply, AllocError>
        ensures { IfOk result (λ reply. (changes : List Change) → AgreesWith changes self.now → reply ≡ reply_after changes request.now) }
    {
        match request {
            Request::Get(cache, key) => self.value_reply(cache, key),
            Request::Put(cache, key, _) => self.value_reply(cache, key),
            Request::Remove(cache, key) => self.value_reply(cache, key),
            Request::Size(cache) => Ok(Reply::Count(count_of(self.extents.get(cache)))),
            Request::Ensure(_) => Ok(Reply::Done),
            Request::Truncate(_) => Ok(Reply::Done),
            Request::Destroy(_) => Ok(Reply::Done),
            Request::PutAll(_, _) => Ok(Reply::Done),
        }
    }

    /// The contents in one order. Takes memory for a copy of every name, key and value.
    pub fn contents(&self, alloc: Global) -> Result<Contents, AllocError>
        ensures { IfOk result (λ contents. (changes : List Change) → AgreesWith changes self.now → AreContentsAfter changes contents) }
    {
        Ok(Contents::of(copy_caches(alloc, &self.extents)?))
    }

    /// A map of the same contents, with the same numbers. A change of one leaves the other.
    ///
    /// Takes memory for a copy of every name, key and value.
    pub fn copy(&self, alloc: Global) -> Result<Self, AllocError>
        ensures agrees { IfOk result (λ copied. (changes : List Change) → AgreesWith changes self.now → AgreesWith changes copied) }
        ensures contents { IfOk result (λ copied. caches_in copied.extents ≡ caches_in self.now.extents) }
        ensures numbers { IfOk result (λ copied. copied.names ≡ self.now.names) }
    {
        let mut extents = copy_extents(alloc, &self.extents)?;
        forget(&mut extents, &self.readied);
        Ok(PartitionMap {
            extents,
            names: copy_names(alloc, &self.names)?,
            items: self.items,
            bytes: self.bytes,
            readied: None,
            alloc,
        })
    }

    /// The next items of the plain list after an item, or from its begin; at most so many.
    ///
    /// Takes memory for a copy of every name, key and value in them.
    pub fn entries_from(
        &self,
        alloc: Global,
        after: Option<&LastItem>,
        most: u8,
    ) -> Result<Vec<Mutation>, AllocError>
        ensures { IfOk result (λ items. (changes : List Change) (caches : Caches) → AgreesWith changes self.now → AreContentsAfter changes caches → items.items ≡ take most (items_after (option_copied after.entry) caches)) }
    {
        let mut items = Vec::new(alloc);
        add_after(&mut items, &self.extents, after, most as usize)?;
        Ok(items)
    }

    /// How many items of the plain list stand after an item, or how many it has. Takes no memory.
    pub fn count_from(&self, after: Option<&LastItem>) -> u64
        ensures { (changes : List Change) (caches : Caches) → AgreesWith changes self.now → AreContentsAfter changes caches → result ≡ length (items_after (option_copied after.entry) caches) }
    {
        match after {
            Some(item) => count_after_item(&self.extents, item),
            None => self.items,
        }
    }

    /// The length of a store that holds the contents and nothing else, in bytes.
    pub fn live(&self) -> u64
        ensures live { (changes : List Change) (caches : Caches) → AgreesWith changes self.now → AreContentsAfter changes caches → result ≡ live caches }
        ensures most { result < 2 ^ 48 }
    {
        self.build_length()
    }

    /// Of a cache that is there, how many others were made present for the first time before it.
    pub fn extent(&self, cache: &CacheName) -> Option<u32>
        ensures { (changes : List Change) → AgreesWith changes self.now → result ≡ extent_number changes cache.now }
    {
        let (number, _, is_present) = self.names.get_full(cache)?;
        if *is_present {
            Some(number as u32)
        } else {
            None
        }
    }

    /// Makes ready for the mutation, so that `apply` takes no memory. The contents stay, also after an error.
    ///
    /// What an earlier call made ready and `apply` didn't use may be taken back: only the last call counts.
    pub fn ready(&mut self, mutation: &Mutation) -> Result<(), AllocError>
        ensures ready { OnOk result (IsReadyFor (change_of mutation.now) self.new) }
        ensures contents { (changes : List Change) → AgreesWith changes self.old → AgreesWith changes self.new }
        ensures fits { OnOk result ((changes : List Change) (caches : Caches) → AgreesWith changes self.old → AreContentsAfter changes caches → live caches + growth_of mutation.now < 2 ^ 48) }
        ensures no_memory_needed { brings (change_of mutation.now) ≡ false → IsOk result }
    {
        let live = self.build_length();
        if !makes_present(mutation) {
            return Ok(());
        }
        if room_for(mutation) >= MOST_LIVE - live || self.names.len() >= MOST_NAMES {
            return Err(AllocError);
        }
        self.names.reserve(1)?;
        let readied = Readied::of(self.alloc, mutation)?;
        forget(&mut self.extents, &self.readied);
        self.readied = Some(readied);
        ready_extent(self.alloc, &mut self.extents, mutation)
    }

    /// Makes the change of a mutation for which the map is ready. Takes no memory.
    pub fn apply(&mut self, mutation: Mutation)
        requires ready { IsReadyFor (change_of mutation) self.old }
        ensures { (changes : List Change) → AgreesWith changes self.old → AgreesWith (changes ++ change_of mutation ∷ []) self.new }
    {
        match change_extent(&mut self.extents, mutation) {
            Some(shift) => {
                self.items = self.items - shift.gone_items + shift.come_items;
                self.bytes = self.bytes - shift.gone_bytes + shift.come_bytes;
                remove_absent(&mut self.extents, &shift.cache, shift.is_present);
                mark_name(
                    &mut self.names,
                    shift.cache,
                    shift.was_present,
                    shift.is_present,
                );
            }
            None => (),
        }
    }

    /// Makes the change of the mutation. After an error the contents stay.
    pub fn change(&mut self, mutation: Mutation) -> Result<(), AllocError>
        ensures changed { OnOk result ((changes : List Change) → AgreesWith changes self.old → AgreesWith (changes ++ change_of mutation ∷ []) self.new) }
        ensures refused { (error : AllocError) → result ≡ Err error → (changes : List Change) → AgreesWith changes self.old → AgreesWith changes self.new }
    {
        self.ready(&mutation)?;
        self.apply(mutation);
        Ok(())
    }

    // The length of a store of what the extents show.
    fn build_length(&self) -> u64
        ensures kept { result ≡ live (caches_in self.now.extents) }
        ensures most { result < 2 ^ 48 }
    {
        let records = self.items.div_ceil(MUTATIONS_IN_A_RECORD);
        LEAST_STORE_LENGTH + self.bytes + RECORD_OVERHEAD * records
    }

    // The reply that has a copy of the value at the key.
    fn value_reply(&self, cache: &CacheName, key: &Key) -> Result<Reply, AllocError>
        ensures { IfOk result (λ reply. (changes : List Change) → AgreesWith changes self.now → reply ≡ Reply.Value (value_after changes cache.now key.now)) }
    {
        match value_of(self.extents.get(cache), key) {
            Some(value) => Ok(Reply::Value(Some(value.copy()?))),
            None => Ok(Reply::Value(None)),
        }
    }
}
