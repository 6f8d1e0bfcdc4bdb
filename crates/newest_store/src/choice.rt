//! Which store counts among those of several hosts. Nothing is written here.
ghost use Rattle.std.specs.Prelude.{◌≡◌, true, false, ℕ, ◌<◌, ◌≤◌, List, [], ◌∷◌, ◌++◌, length, Contains, IfOk, IfErr};
ghost use Rattle.disk_lane.specs.Lanes.{LaneImage};
ghost use Rattle.disk_trait.specs.View.{Image, Tells};
ghost use Rattle.store_journal.specs.Loading.{IsIdentified, OnlyReads};
ghost use Rattle.newest_store.specs.Choice.{seen_on, AllTell, OnlyReadsLane, IsChosen, AreHeaded, IsOneOf, IsChoiceFault, Precedes, IsFileFault, IsHostFault, IsHostChoice};
ghost use Rattle.newest_store.specs.Newest.{IsHeaded};

use disk_trait::Disk;
use store_ident::StoreId;
use store_journal::{LoadFault, identify};

/// Which store of a partition counts, of those on several hosts.
#[derive(Clone, Copy, Debug, PartialEq, Eq, Drop)]
pub enum Choice {
    /// The store in this file, 0 or 1, of this host.
    One { host: u16, file: u8, id: StoreId },
    /// None of the files is sealed.
    NoStore,
}

/// Why no store was chosen.
#[derive(Clone, Copy, Debug, PartialEq, Eq, Drop)]
pub enum ChoiceFault {
    /// The disk of this host failed, and its count of faults rose in this call.
    Failed { host: u16 },
    /// This file of this host is sealed, and first leaves the form of a header at this offset, from 0.
    Damaged { host: u16, file: u8, at: u64 },
    /// A disk is out of memory.
    NoMemory,
}

/// By what stores are compared.
#[derive(Clone, Copy, Drop)]
struct Rank {
    version: u64,
    host: u16,
    file: u8,
}

/// Finds which store counts among files 0 and 1 of these hosts, where disk number `host` of the lane is that host's.
///
/// It is the sealed file of greatest version; of several with that version the one of the lowest host, and of one host's the
/// lower. The header of each is judged, in the order of the list. Takes no memory but what the disks take. Device calls: a
/// read of each file.
pub fn newest<D: Disk>(disks: &mut [D], hosts: &[u16]) -> Result<Choice, ChoiceFault>
    requires disks { (host : ℕ) → Contains hosts.now host → host < length disks.old }
    ensures chosen { IfOk result (λ choice. AllTell D.view disks.old hosts.now → IsChosen (seen_on D.view disks.old) hosts.now choice) }
    ensures headed { IfOk result (λ _. AllTell D.view disks.old hosts.now → AreHeaded (seen_on D.view disks.old) hosts.now) }
    ensures one_of { IfOk result (IsOneOf hosts.now) }
    ensures refused { IfErr result (IsChoiceFault D.view disks.old disks.new hosts.now) }
    ensures reads_only { OnlyReadsLane D.view disks.old disks.new }
{
    let mut best = Choice::NoStore;
    for host in hosts {
        let own = newest_of_host(disks, *host)?;
        best = chosen_of(best, own);
    }
    Ok(best)
}

/// Finds which of this host's two files counts.
fn newest_of_host<D: Disk>(disks: &mut [D], host: u16) -> Result<Choice, ChoiceFault>
    requires disk { host < length disks.old }
    ensures chosen { IfOk result (λ own. AllTell D.view disks.old (host ∷ []) → IsChosen (seen_on D.view disks.old) (host ∷ []) own) }
    ensures headed { IfOk result (λ _. AllTell D.view disks.old (host ∷ []) → AreHeaded (seen_on D.view disks.old) (host ∷ [])) }
    ensures one_of { IfOk result (IsOneOf (host ∷ [])) }
    ensures refused { IfErr result (IsChoiceFault D.view disks.old disks.new (host ∷ [])) }
    ensures reads_only { OnlyReadsLane D.view disks.old disks.new }
{
    newest_on(&mut disks[host as usize], host)
}

/// Finds it on the host's own disk.
#[tactic(auto, using(crate::proofs::ChoiceLemmas::first_file_fails, crate::proofs::ChoiceLemmas::second_file_fails, crate::proofs::SearchLemmas::both_headed))]
pub(crate) fn newest_on<D: Disk>(disk: &mut D, host: u16) -> Result<Choice, ChoiceFault>
    ensures chosen { IfOk result (λ own. Tells (D.view disk.old) → IsHostChoice (D.view disk.old).seen host own) }
    ensures headed { IfOk result (λ _. Tells (D.view disk.old) → (file : ℕ) → file ≤ 1 → IsHeaded ((D.view disk.old).seen file)) }
    ensures one_of { IfOk result (IsOneOf (host ∷ [])) }
    ensures refused { IfErr result (IsHostFault (D.view disk.old) (D.view disk.new) host) }
    ensures reads_only { OnlyReads (D.view disk.old) (D.view disk.new) }
{
    let first = identify_on(disk, host, 0)?;
    let second = identify_on(disk, host, 1)?;
    Ok(newer_of_two(host, first, second))
}

/// Finds which store stands in a file of this host.
fn identify_on<D: Disk>(disk: &mut D, host: u16, file: u8) -> Result<Option<StoreId>, ChoiceFault>
    requires file { file ≤ 1 }
    ensures told { IfOk result (λ found. Tells (D.view disk.old) → IsIdentified ((D.view disk.old).seen file) found) }
    ensures refused { IfErr result (IsFileFault (D.view disk.old) (D.view disk.new) host file) }
    ensures reads_only { OnlyReads (D.view disk.old) (D.view disk.new) }
{
    match identify(disk, file) {
        Ok(found) => Ok(found),
        Err(LoadFault::Failed) => Err(ChoiceFault::Failed { host }),
        Err(LoadFault::Damaged { at }) => Err(ChoiceFault::Damaged { host, file, at }),
        Err(LoadFault::NoMemory) => Err(ChoiceFault::NoMemory),
        Err(LoadFault::NotSealed) => Ok(None),
    }
}

/// The file of the greater version, and of the same version the lower.
#[tactic(auto, using(crate::proofs::NewestLemmas::first_newest, crate::proofs::NewestLemmas::second_newest, crate::proofs::NewestLemmas::first_alone, crate::proofs::NewestLemmas::second_alone, crate::proofs::NewestLemmas::none_newest))]
fn newer_of_two(host: u16, first: Option<StoreId>, second: Option<StoreId>) -> Choice
    ensures one_of { IsOneOf (host ∷ []) result }
    ensures newest { (m : Image) → IsIdentified (m 0) first → IsIdentified (m 1) second → IsHostChoice m host result }
{
    match (first, second) {
        (Some(id), Some(other)) => {
            if id.version < other.version {
                Choice::One {
                    host,
                    file: 1,
                    id: other,
                }
            } else {
                Choice::One { host, file: 0, id }
            }
        }
        (Some(id), None) => Choice::One { host, file: 0, id },
        (None, Some(id)) => Choice::One { host, file: 1, id },
        (None, None) => Choice::NoStore,
    }
}

/// Which of the two counts: what counts so far, or the next host's own.
#[tactic(auto, using(crate::proofs::ChoiceLemmas::own_alone, crate::proofs::ChoiceLemmas::best_alone, crate::proofs::ChoiceLemmas::own_chosen, crate::proofs::ChoiceLemmas::best_chosen))]
fn chosen_of(best: Choice, own: Choice) -> Choice
    ensures one_of { (hosts : List ℕ) (host : ℕ) → IsOneOf hosts best → IsOneOf (host ∷ []) own → IsOneOf (hosts ++ host ∷ []) result }
    ensures chosen { (ms : LaneImage) (hosts : List ℕ) (host : ℕ) → IsChosen ms hosts best → IsChosen ms (host ∷ []) own → IsChosen ms (hosts ++ host ∷ []) result }
{
    match (best, own) {
        (Choice::NoStore, _) => own,
        (_, Choice::NoStore) => best,
        (
            Choice::One { host, file, id },
            Choice::One {
                host: own_host,
                file: own_file,
                id: own_id,
            },
        ) => {
            let best_rank = Rank {
                version: id.version,
                host,
                file,
            };
            let own_rank = Rank {
                version: own_id.version,
                host: own_host,
                file: own_file,
            };
            if own_rank.comes_before(best_rank) {
                own
            } else {
                best
            }
        }
    }
}

impl Rank {
    /// Whether the store counts, and not the other; of two with one rank neither comes before the other.
    fn comes_before(self, other: Rank) -> bool
        ensures yes { result ≡ true → Precedes self.version self.host self.file other.version other.host other.file }
        ensures no { result ≡ false → Precedes other.version other.host other.file self.version self.host self.file }
    {
        if self.version != other.version {
            return other.version < self.version;
        }
        if self.host != other.host {
            return self.host < other.host;
        }
        self.file < other.file
    }
}
