// Which file is the newest, and what its store has. Nothing is written here.
ghost use Rattle.std.specs.Prelude.{◌≡◌, ℕ, ◌≤◌, IfOk, IfErr, MatchOption};
ghost use Rattle.disk_trait.specs.View.{Image, View, Tells};
ghost use Rattle.store_journal.specs.ContentsOf.{HasContentsOf};
ghost use Rattle.store_journal.specs.Created.{IsUnsealed};
ghost use Rattle.store_journal.specs.Loading.{IsIdentified, OnlyReads};
ghost use Rattle.newest_store.specs.Newest.{IsHeaded, IsNewest};
ghost use Rattle.newest_store.specs.Search.{newer_of, IsSearchFault, IsOpeningFault, IsNewestLoaded};

use crate::choice::{Choice, ChoiceFault, newest_on};
use crate::fault::{NewestFault, fault_in};
use disk_trait::Disk;
use std::alloc::Global;
use store_ident::StoreId;
use store_journal::{Loaded, Store};

/// Loads the store of the newest file.
#[tactic(auto, using(crate::proofs::SearchLemmas::search_fails))]
pub(crate) fn load_found<D: Disk>(
    alloc: Global,
    disk: &mut D,
    partition: u16,
    partitions: u16,
) -> Result<Loaded, NewestFault>
    ensures loaded { IfOk result (λ loaded. HasContentsOf (IsNewestLoaded (D.view disk.old) (D.view disk.new) partition partitions loaded.store) loaded.contents) }
    ensures refused { IfErr result (λ fault. IsOpeningFault (D.view disk.old) (D.view disk.new) partition partitions fault) }
    ensures reads_only { OnlyReads (D.view disk.old) (D.view disk.new) }
{
    let file = find_newest(disk)?;
    match Store::load(alloc, disk, file, partition, partitions) {
        Ok(loaded) => Ok(loaded),
        Err(fault) => Err(fault_in(file, fault)),
    }
}

/// Judges both headers, and finds which file is the newest.
fn find_newest<D: Disk>(disk: &mut D) -> Result<u8, NewestFault>
    ensures one_of_two { IfOk result (λ file. file ≤ 1) }
    ensures newest { IfOk result (λ file. Tells (D.view disk.old) → IsNewest (D.view disk.old).seen file) }
    ensures headed { IfOk result (λ _. Tells (D.view disk.old) → (f : ℕ) → f ≤ 1 → IsHeaded ((D.view disk.old).seen f)) }
    ensures refused { IfErr result (λ fault. IsSearchFault (D.view disk.old) (D.view disk.new) fault) }
    ensures reads_only { OnlyReads (D.view disk.old) (D.view disk.new) }
{
    match newest_on(disk, 0) {
        Ok(Choice::One { file, .. }) => Ok(file),
        Ok(Choice::NoStore) => Err(NewestFault::NoStore),
        Err(ChoiceFault::Failed { .. }) => Err(NewestFault::Failed),
        Err(ChoiceFault::Damaged { file, at, .. }) => Err(NewestFault::Damaged { file, at }),
        Err(ChoiceFault::NoMemory) => Err(NewestFault::NoMemory),
    }
}

/// The file of the greater version, and of the same version the lower.
#[tactic(auto, using(crate::proofs::NewestLemmas::first_alone, crate::proofs::NewestLemmas::second_alone, crate::proofs::NewestLemmas::none_newest))]
pub(crate) fn newer(first: Option<StoreId>, second: Option<StoreId>) -> Option<u8>
    ensures file { result ≡ newer_of first second }
    ensures newest { MatchOption result
        ((m : Image) → IsIdentified (m 0) first → IsIdentified (m 1) second → (file : ℕ) → file ≤ 1 → IsUnsealed (m file))
        (λ file. (file ≤ 1) × ((m : Image) → IsIdentified (m 0) first → IsIdentified (m 1) second → IsNewest m file)) }
{
    match (first, second) {
        (Some(first), Some(second)) => {
            if first.version < second.version {
                Some(1)
            } else {
                Some(0)
            }
        }
        (Some(_), None) => Some(0),
        (None, Some(_)) => Some(1),
        (None, None) => None,
    }
}
