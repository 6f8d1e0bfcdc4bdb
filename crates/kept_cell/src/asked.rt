//! The request that a mutation is of.
ghost use Rattle.std.specs.Prelude.{◌≡◌, IfOk};
ghost use Rattle.kept_cell.specs.KeptCells.{request_asking};

use cache_key::{Mutation, Request};
use std::alloc::AllocError;

/// The request whose mutation it is. Takes memory for a copy of its texts.
pub(crate) fn request_of(mutation: &Mutation) -> Result<Request, AllocError>
    ensures { IfOk result (λ request. request ≡ request_asking mutation.now) }
{
    match mutation {
        Mutation::Put(cache, key, value) => {
            Ok(Request::Put(cache.copy()?, key.copy()?, value.copy()?))
        }
        Mutation::Remove(cache, key) => Ok(Request::Remove(cache.copy()?, key.copy()?)),
        Mutation::Ensure(cache) => Ok(Request::Ensure(cache.copy()?)),
        Mutation::Truncate(cache) => Ok(Request::Truncate(cache.copy()?)),
        Mutation::Destroy(cache) => Ok(Request::Destroy(cache.copy()?)),
        Mutation::Batch(cache, pairs) => Ok(Request::PutAll(cache.copy()?, pairs.copy()?)),
    }
}
