//! Counts of faults, by which a contract says that a fault came from outside.
//!
//! Seen as: a number below 2^64 that never falls; whether it rose (`Rose`, specs/Rose.antt), and the next one
//! (`one_more_than`, specs/OneMore.antt).
//! Keeps: the next count has risen. A disk, a source or a sink answers `Failed` only where its count rose in that call,
//! and code that is generic over it can't raise the count, so it can't make such a fault up.
//! Hides: nothing.
//! Not here: who keeps a count, and what failed (the traits of disks and streams).
#![tactic(auto)]

ghost use Rattle.std.specs.Prelude.{◌≡◌, ◌≤◌};
ghost use Rattle.fault_count.specs.Rose.{Rose};
ghost use Rattle.fault_count.specs.OneMore.{one_more_than};

/// The next count, which stays at 2^64 - 1.
pub fn one_more(count: u64) -> u64
    ensures exact { result ≡ one_more_than count }
    ensures later { count ≤ result }
    ensures rose { Rose count result }
{
    count.saturating_add(1)
}
