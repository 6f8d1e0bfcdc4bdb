//! The map and the plain program side by side.
use crate::chance::{Pools, cache, key};
use crate::items::expect_items_after;
use cache_key::{CacheName, EntryKey, Mutation, Request};
use cache_model::{as_mutation, collect_contents, is_present, live, plain_list, reply_to};
use partition_map::{LastItem, PartitionMap};
use std::alloc::Global;
use std::process::Abort;

/// The map; the mutations, the oldest first; and the caches that were present at some time, in the order of the first times.
#[derive(Drop)]
pub(crate) struct Both {
    pub(crate) map: PartitionMap,
    mutations: Vec<Mutation>,
    names: Vec<CacheName>,
    pools: Pools,
    alloc: Global,
}

impl Both {
    pub(crate) fn empty(alloc: Global, pools: Pools) -> Self {
        Both {
            map: PartitionMap::empty(alloc),
            mutations: Vec::new(alloc),
            names: Vec::new(alloc),
            pools,
            alloc,
        }
    }

    /// A copy of both.
    pub(crate) fn copy(&self, rt: &impl Abort) -> Self {
        let mut mutations = Vec::new(self.alloc);
        for mutation in &self.mutations {
            let copied = mutation.copy().expect(rt, "a copy");
            mutations.push(copied).expect(rt, "memory");
        }
        let mut names = Vec::new(self.alloc);
        for name in &self.names {
            let copied = name.copy().expect(rt, "a copy");
            names.push(copied).expect(rt, "memory");
        }
        Both {
            map: self.map.copy(self.alloc).expect(rt, "a copy"),
            mutations,
            names,
            pools: self.pools,
            alloc: self.alloc,
        }
    }

    /// Both carry the request out, and reply the same.
    pub(crate) fn run(&mut self, rt: &impl Abort, request: Request) {
        self.expect_reply(rt, &request);
        if let Some(mutation) = as_mutation(request) {
            let copied = mutation.copy().expect(rt, "a copy");
            self.mutations.push(copied).expect(rt, "memory");
            self.map.change(mutation).expect(rt, "a change");
            self.count(rt);
        }
    }

    // Gives a number to the cache that is present for the first time.
    fn count(&mut self, rt: &impl Abort) {
        for number in 0..self.pools.caches {
            let cache = cache(rt, self.alloc, number);
            if is_present(&self.mutations, &cache) && self.number(&cache).is_none() {
                self.names.push(cache).expect(rt, "memory");
            }
        }
    }

    // How many caches were present before this one.
    fn number(&self, cache: &CacheName) -> Option<usize> {
        for (number, name) in self.names.iter().enumerate() {
            if name == cache {
                return Some(number);
            }
        }
        None
    }

    fn expect_reply(&self, rt: &impl Abort, request: &Request) {
        let found = self.map.answer(self.alloc, request).expect(rt, "a reply");
        let want = reply_to(self.alloc, &self.mutations, request).expect(rt, "a reply");
        assert_eq!(rt; found, want, "{request:?}");
    }

    /// Both have the same contents, lengths, items and numbers, and reply the same to what only reads.
    pub(crate) fn expect_agree(&self, rt: &impl Abort) {
        let plain = collect_contents(self.alloc, &self.mutations).expect(rt, "contents");
        let found = self.map.contents(self.alloc).expect(rt, "contents");
        assert_eq!(rt; found.caches(), plain.caches());
        let length = live(self.alloc, &plain).expect(rt, "a length");
        assert_eq!(rt; self.map.live(), length);
        let items = plain_list(self.alloc, &plain).expect(rt, "a list");
        expect_items_after(rt, self.alloc, &self.map, &items, None);
        for number in 0..self.pools.caches {
            let name = cache(rt, self.alloc, number);
            self.expect_cache(rt, &items, &name);
            self.expect_keys(rt, &items, &name);
        }
    }

    // The map has the cache's number and size, and goes on well after it.
    fn expect_cache(&self, rt: &impl Abort, items: &[Mutation], cache: &CacheName) {
        let number = self.number(cache);
        let want = number.filter(|_| is_present(&self.mutations, cache));
        let found = self.map.extent(cache).map(|number| number as usize);
        assert_eq!(rt; found, want, "{cache:?}");
        let size = Request::Size(cache.copy().expect(rt, "a copy"));
        self.expect_reply(rt, &size);
        let after = LastItem::Cache(cache.copy().expect(rt, "a copy"));
        expect_items_after(rt, self.alloc, &self.map, items, Some(&after));
    }

    // The map reads each key of the cache as the plain program, and goes on well after it.
    fn expect_keys(&self, rt: &impl Abort, items: &[Mutation], cache: &CacheName) {
        for number in 0..self.pools.keys {
            let copied = cache.copy().expect(rt, "a copy");
            self.expect_reply(rt, &Request::Get(copied, key(rt, self.alloc, number)));
            let after = LastItem::Entry(EntryKey {
                cache: cache.copy().expect(rt, "a copy"),
                key: key(rt, self.alloc, number),
            });
            expect_items_after(rt, self.alloc, &self.map, items, Some(&after));
        }
    }
}
