//! The requests of a client, the mutations that are kept of them, and the replies.
ghost use Rattle.std.specs.Prelude.{◌≡◌, IfOk};

use crate::keys::{Key, Value};
use crate::names::CacheName;
use crate::pairs::Pairs;
use std::alloc::AllocError;

/// A key with its cache. The order is by cache, then by key.
#[derive(PartialEq, Eq, PartialOrd, Ord, Debug, Drop)]
pub struct EntryKey {
    pub cache: CacheName,
    pub key: Key,
}

/// What a client asks of one cache.
#[derive(PartialEq, Eq, Debug, Drop)]
pub enum Request {
    /// Asks for the value of the key.
    Get(CacheName, Key),
    /// Writes the value, and asks for the previous one.
    Put(CacheName, Key, Value),
    /// Removes the value at the key, and asks for it.
    Remove(CacheName, Key),
    /// Makes the cache present.
    Ensure(CacheName),
    /// Removes every value of the cache.
    Truncate(CacheName),
    /// Makes the cache absent, with its values.
    Destroy(CacheName),
    /// Writes each pair. Of pairs with one key the last stays.
    PutAll(CacheName, Pairs),
    /// Asks how many keys of the cache have a value.
    Size(CacheName),
}

/// A change of one cache.
#[derive(PartialEq, Eq, Debug, Drop)]
pub enum Mutation {
    /// Writes the value at the key.
    Put(CacheName, Key, Value),
    /// Removes the value at the key.
    Remove(CacheName, Key),
    /// Makes the cache present.
    Ensure(CacheName),
    /// Removes every value of the cache.
    Truncate(CacheName),
    /// Makes the cache absent, with its values.
    Destroy(CacheName),
    /// Writes each pair. Of pairs with one key the last stays.
    Batch(CacheName, Pairs),
}

/// The reply to a request.
#[derive(PartialEq, Eq, Debug, Drop)]
pub enum Reply {
    /// The value at the key, if there is one.
    Value(Option<Value>),
    /// A number of things.
    Count(u64),
    /// The request is done, and there is nothing more to say.
    Done,
}

impl EntryKey {
    /// Makes an equal one. Takes memory.
    pub fn copy(&self) -> Result<Self, AllocError>
        ensures { IfOk result (λ copied. copied ≡ self.now) }
    {
        let cache = self.cache.copy()?;
        let key = self.key.copy()?;
        Ok(EntryKey { cache, key })
    }
}

impl Request {
    /// Makes an equal one. Takes memory.
    pub fn copy(&self) -> Result<Self, AllocError>
        ensures { IfOk result (λ copied. copied ≡ self.now) }
    {
        match self {
            Request::Get(cache, key) => Ok(Request::Get(cache.copy()?, key.copy()?)),
            Request::Put(cache, key, value) => {
                Ok(Request::Put(cache.copy()?, key.copy()?, value.copy()?))
            }
            Request::Remove(cache, key) => Ok(Request::Remove(cache.copy()?, key.copy()?)),
            Request::Ensure(cache) => Ok(Request::Ensure(cache.copy()?)),
            Request::Truncate(cache) => Ok(Request::Truncate(cache.copy()?)),
            Request::Destroy(cache) => Ok(Request::Destroy(cache.copy()?)),
            Request::PutAll(cache, pairs) => Ok(Request::PutAll(cache.copy()?, pairs.copy()?)),
            Request::Size(cache) => Ok(Request::Size(cache.copy()?)),
        }
    }
}

impl Mutation {
    /// Makes an equal one. Takes memory.
    pub fn copy(&self) -> Result<Self, AllocError>
        ensures { IfOk result (λ copied. copied ≡ self.now) }
    {
        match self {
            Mutation::Put(cache, key, value) => {
                Ok(Mutation::Put(cache.copy()?, key.copy()?, value.copy()?))
            }
            Mutation::Remove(cache, key) => Ok(Mutation::Remove(cache.copy()?, key.copy()?)),
            Mutation::Ensure(cache) => Ok(Mutation::Ensure(cache.copy()?)),
            Mutation::Truncate(cache) => Ok(Mutation::Truncate(cache.copy()?)),
            Mutation::Destroy(cache) => Ok(Mutation::Destroy(cache.copy()?)),
            Mutation::Batch(cache, pairs) => Ok(Mutation::Batch(cache.copy()?, pairs.copy()?)),
        }
    }
}

impl Reply {
    /// Makes an equal one. Takes memory for a value.
    pub fn copy(&self) -> Result<Self, AllocError>
        ensures { IfOk result (λ copied. copied ≡ self.now) }
    {
        match self {
            Reply::Value(Some(value)) => Ok(Reply::Value(Some(value.copy()?))),
            Reply::Value(None) => Ok(Reply::Value(None)),
            Reply::Count(count) => Ok(Reply::Count(*count)),
            Reply::Done => Ok(Reply::Done),
        }
    }
}
