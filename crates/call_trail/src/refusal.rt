//! Why a call of a partition was refused.

/// Why a call was refused. Nothing was changed, and no entry was made.
///
/// After `Fault`, and where a disk ran out of memory within a commit, a stop may show the mutation or not.
#[derive(Clone, Copy, Debug, PartialEq, Eq, Drop)]
pub enum CallRefusal {
    /// The partition is suspended, by the suspension of this number.
    Suspended { number: u64 },
    /// The store moves to this host, and a mutation has to wait.
    Pinned { to: u16 },
    /// The trail has 1,048,576 entries.
    TrailFull,
    /// The mutation could lengthen a store of the contents past 67,108,864 bytes; it has this length now.
    StoreFull { live: u64 },
    /// The store has to be built anew, and no greater version is left.
    VersionEnd,
    /// The disk of this host failed.
    Fault { host: u16 },
    /// Out of memory.
    NoMemory,
}
