//! The verdict.
use cache_key::HostList;

/// What the rosters of the present hosts say of a recovery.
#[derive(Debug, Drop)]
pub enum Verdict {
    /// Every host of the chosen roster is back: its epoch, and its hosts in byte order.
    Met { epoch: u64, hosts: HostList },
    /// These hosts of the chosen roster aren't back, in byte order.
    Short { missing: HostList },
    /// No host that is present shows a roster.
    NotCreated,
}
