//! The faults of a text, and of a list of pairs.
ghost use Rattle.std.specs.Prelude.{◌≡◌};
ghost use Rattle.cache_key.specs.declared.fault.NameFault.TheVariants.{NoMemory};

use std::alloc::AllocError;

/// Why a text is no name, key or value. They are judged in this order.
#[derive(Clone, Copy, Debug, PartialEq, Eq)]
pub enum NameFault {
    /// It has no byte.
    Empty,
    /// It has more bytes than the limit.
    Long,
    /// The byte at this offset, from 0, is the first one outside the alphabet.
    BadByte(u32),
    /// There was no memory for the copy.
    NoMemory,
}

impl From<AllocError> for NameFault {
    ghost from_gives = { λ _ fault. fault ≡ NoMemory };

    fn from(_: AllocError) -> Self {
        NameFault::NoMemory
    }
}

/// Why a pair isn't added.
#[derive(Clone, Copy, Debug, PartialEq, Eq)]
pub enum PairsFault {
    /// There are 64 pairs.
    Full,
    /// There was no memory.
    NoMemory,
}
