//! What several hosts show.
ghost use Rattle.std.specs.Prelude.{◌≡◌, ℕ, ◌<◌, length, Contains, IfOk, IfErr};
ghost use Rattle.store_journal.specs.Loading.{OnlyReads};
ghost use Rattle.newest_store.specs.Choice.{OnlyReadsLane};
ghost use Rattle.roster_book.specs.Rosters.{IsShownBy, IsFoundOn, AreFound, IsHostRefusal, IsRefusedOn, IsReadRefusal};
ghost use Rattle.roster_book.specs.declared.rosters.BookRefusal.TheVariants.{NoMemory};

use crate::fault::ShownFault;
use crate::found::Found;
use crate::read::shown_roster;
use disk_trait::Disk;
use std::alloc::{AllocError, AllocFailed, Global};

/// Why the rosters of several hosts weren't read.
#[derive(Clone, Copy, Debug, PartialEq, Eq, Drop)]
pub enum BookRefusal {
    /// The service disk of this host failed, and its count of faults rose in this call.
    Fault { host: u16 },
    /// This host's newest sealed file first leaves the form of a roster of such a site at this offset, from 0.
    DamagedRoster { host: u16, file: u8, at: u64 },
    /// Out of memory, here or at a disk.
    NoMemory,
}

impl From<AllocError> for BookRefusal {
    ghost from_gives = { λ _ refusal. refusal ≡ NoMemory };

    fn from(_: AllocError) -> Self {
        BookRefusal::NoMemory
    }
}

impl<T: Drop> From<AllocFailed<T>> for BookRefusal {
    ghost from_gives = { λ _ refusal. refusal ≡ NoMemory };

    fn from(_: AllocFailed<T>) -> Self {
        BookRefusal::NoMemory
    }
}

/// Reads what each of these hosts shows, where disk number `host` of `services` is that host's service disk.
///
/// The answer has one entry for each host, in the order of the list. A refusal is that of the first host in the list at which
/// one is met. Takes memory for what is found, and for one file at a time. Device calls: of each host two reads, and for the
/// newest file length and read.
pub fn read_rosters<D: Disk>(
    alloc: Global,
    services: &mut [D],
    hosts: &[u16],
    partitions: u16,
) -> Result<Vec<Found>, BookRefusal>
    requires services { (host : ℕ) → Contains hosts.now host → host < length services.old }
    ensures found { IfOk result (λ found. AreFound D.view services.old partitions hosts.now found.items) }
    ensures refused { IfErr result (IsReadRefusal D.view services.old services.new partitions hosts.now) }
    ensures reads_only { OnlyReadsLane D.view services.old services.new }
{
    let mut found = Vec::with_capacity(alloc, hosts.len())?;
    for host in hosts {
        let own = roster_of_host(alloc, services, *host, partitions)?;
        found.push(own)?;
    }
    Ok(found)
}

/// What this host shows.
fn roster_of_host<D: Disk>(
    alloc: Global,
    services: &mut [D],
    host: u16,
    partitions: u16,
) -> Result<Found, BookRefusal>
    requires service { host < length services.old }
    ensures host { IfOk result (λ found. found.host ≡ host) }
    ensures found { IfOk result (IsFoundOn D.view services.old partitions) }
    ensures refused { IfErr result (IsRefusedOn D.view services.old services.new partitions host) }
    ensures reads_only { OnlyReadsLane D.view services.old services.new }
{
    roster_on(alloc, &mut services[host as usize], host, partitions)
}

/// What this host shows, by its own service disk.
fn roster_on<D: Disk>(
    alloc: Global,
    disk: &mut D,
    host: u16,
    partitions: u16,
) -> Result<Found, BookRefusal>
    ensures found { IfOk result (λ found. (found.host ≡ host) × IsShownBy (D.view disk.old) partitions found.roster) }
    ensures refused { IfErr result (IsHostRefusal (D.view disk.old) (D.view disk.new) partitions host) }
    ensures reads_only { OnlyReads (D.view disk.old) (D.view disk.new) }
{
    match shown_roster(alloc, disk, partitions) {
        Ok(roster) => Ok(Found { host, roster }),
        Err(ShownFault::Failed) => Err(BookRefusal::Fault { host }),
        Err(ShownFault::Damaged { file, at }) => {
            Err(BookRefusal::DamagedRoster { host, file, at })
        }
        Err(ShownFault::NoMemory) => Err(BookRefusal::NoMemory),
    }
}
