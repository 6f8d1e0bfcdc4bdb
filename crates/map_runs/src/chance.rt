//! Requests by chance.
use cache_key::{CacheName, Key, Pairs, Request, Value};
use std::alloc::Global;
use std::process::Abort;

/// From how many caches and keys a request is drawn, and from how many kinds, of which each from 11 on is a put.
#[derive(Clone, Copy)]
pub(crate) struct Pools {
    pub(crate) caches: u64,
    pub(crate) keys: u64,
    pub(crate) kinds: u64,
}

/// Numbers that follow from the first one and look as if they came by chance, and what is drawn by them.
#[derive(Drop)]
pub(crate) struct Chance {
    state: u64,
    pools: Pools,
    alloc: Global,
}

impl Chance {
    pub(crate) fn new(alloc: Global, state: u64, pools: Pools) -> Self {
        Chance {
            state,
            pools,
            alloc,
        }
    }

    // A number below this one, or 0.
    fn below(&mut self, end: u64) -> u64 {
        self.state = self.state.wrapping_mul(6_364_136_223_846_793_005);
        self.state = self.state.wrapping_add(1_442_695_040_888_963_407);
        (self.state >> 33).checked_rem(end).unwrap_or(0)
    }

    /// A request of a cache and of keys from these pools.
    pub(crate) fn request(&mut self, rt: &impl Abort) -> Request {
        let cache = cache(rt, self.alloc, self.below(self.pools.caches));
        let first = key(rt, self.alloc, self.below(self.pools.keys));
        match self.below(self.pools.kinds) {
            0 => Request::Truncate(cache),
            1 => Request::Destroy(cache),
            2 => Request::Ensure(cache),
            3 => Request::Size(cache),
            4 | 5 => Request::Get(cache, first),
            6..=8 => Request::Remove(cache, first),
            9 | 10 => {
                let mut pairs = Pairs::new(self.alloc);
                pairs.push(first, self.value(rt)).expect(rt, "room");
                let second = key(rt, self.alloc, self.below(self.pools.keys));
                pairs.push(second, self.value(rt)).expect(rt, "room");
                Request::PutAll(cache, pairs)
            }
            _ => Request::Put(cache, first, self.value(rt)),
        }
    }

    // A value of one to four digits.
    fn value(&mut self, rt: &impl Abort) -> Value {
        let number = self.below(1_200);
        let text = format!(in self.alloc; "{number}").expect(rt, "memory");
        Value::of(self.alloc, text.as_str()).expect(rt, "a value")
    }
}

/// The name of the cache with this number.
pub(crate) fn cache(rt: &impl Abort, alloc: Global, number: u64) -> CacheName {
    let text = format!(in alloc; "c{number}").expect(rt, "memory");
    CacheName::of(alloc, text.as_str()).expect(rt, "a name")
}

/// The key with this number.
pub(crate) fn key(rt: &impl Abort, alloc: Global, number: u64) -> Key {
    let text = format!(in alloc; "k{number}").expect(rt, "memory");
    Key::of(alloc, text.as_str()).expect(rt, "a key")
}
