//! Both files of a partition made free of a store, the newest store last.
ghost use Rattle.std.specs.Prelude.{◌≡◌, ◌⊎◌, ℕ, ◌≤◌, List, IfOk, OnOk, IsErrOf};
ghost use Rattle.cache_model.specs.Change.{Change};
ghost use Rattle.disk_trait.specs.View.{Image, View, Tells};
ghost use Rattle.disk_trait.specs.Calls.{Rose, Same};
ghost use Rattle.disk_trait.specs.Moments.{Now, After, Throughout, Onward};
ghost use Rattle.disk_trait.specs.declared.DiskRefusal.TheVariants.{Failed, NoMemory};
ghost use Rattle.seal_gate.specs.Seal.{IsSettled, Each};
ghost use Rattle.store_ident.specs.declared.ident.StoreId.{StoreId};
ghost use Rattle.store_journal.specs.Created.{IsUnsealed};
ghost use Rattle.store_journal.specs.Loading.{OnlyReads};
ghost use Rattle.newest_store.specs.Newest.{HasStore};
ghost use Rattle.newest_store.specs.Clearing.{IsNewestHeaded, IsNamedIn, ClearsOlderFirst};

use crate::search::newer;
use disk_trait::{Disk, DiskRefusal};
use store_ident::StoreId;
use store_journal::{LoadFault, clear, identify};

/// Erases what is sealed in files 0 and 1 of the disk, and the file of the newest store last.
///
/// So a stop between the two erasures leaves the newest store, and never the older one alone. A sealed file without a
/// header is no store, and is erased before one that is; of two stores with the same version that in file 0 counts as
/// newer. A refusal leaves files that a stop within the call may leave. Takes no memory but the disk's. Device calls: two
/// reads, and for each file those of `store_journal::clear`.
pub fn clear_stores<D: Disk>(disk: &mut D) -> Result<(), DiskRefusal>
    requires first { IsSettled (D.view disk.old) 0 }
    requires second { IsSettled (D.view disk.old) 1 }

    ensures cleared { OnOk result ((file : ℕ) → file ≤ 1 → Each (D.view disk.new) file IsUnsealed) }
    ensures settled { OnOk result ((file : ℕ) → file ≤ 1 → IsSettled (D.view disk.new) file) }

    // At every moment, and after a refusal, the newest store is as it was unless no other is left.
    ensures moments { Throughout (D.view disk.old) (D.view disk.new) (After (D.view disk.old) ClearsOlderFirst) }
    ensures survives { (partition partitions file : ℕ) (id : StoreId) (changes : List Change) → Now (D.view disk.old) (HasStore partition partitions file id changes)
        → Throughout (D.view disk.old) (D.view disk.new) (λ m. HasStore partition partitions file id changes m ⊎ ((f : ℕ) → f ≤ 1 → IsUnsealed (m f))) }

    ensures unsealed { Tells (D.view disk.old) → ((file : ℕ) → file ≤ 1 → IsUnsealed ((D.view disk.old).seen file)) → Same (D.view disk.old) (D.view disk.new) }

    ensures failed { IsErrOf result Failed → Rose (D.view disk.old).faults (D.view disk.new).faults }
    ensures no_memory { IsErrOf result NoMemory → (D.view disk.old).spares → ⊥ }
    ensures others { (f : ℕ) → 2 ≤ f → (D.view disk.new).seen f ≡ (D.view disk.old).seen f }
    ensures onward { Onward (D.view disk.old) (D.view disk.new) }
{
    let last = newest_file(disk)?;
    clear(disk, 1 - last)?;
    clear(disk, last)
}

/// The file of the newest store, and 0 where there is none.
fn newest_file<D: Disk>(disk: &mut D) -> Result<u8, DiskRefusal>
    ensures one_of_two { IfOk result (λ file. file ≤ 1) }
    ensures newest { IfOk result (λ file. Tells (D.view disk.old) → (other : ℕ) → IsNewestHeaded (D.view disk.old).seen other → other ≡ file) }
    ensures failed { IsErrOf result Failed → Rose (D.view disk.old).faults (D.view disk.new).faults }
    ensures no_memory { IsErrOf result NoMemory → (D.view disk.old).spares → ⊥ }
    ensures reads_only { OnlyReads (D.view disk.old) (D.view disk.new) }
{
    let first = store_in(disk, 0)?;
    let second = store_in(disk, 1)?;
    Ok(newer(first, second).unwrap_or(0))
}

/// The store that a file's header names, unless the file isn't sealed or has no header.
fn store_in<D: Disk>(disk: &mut D, file: u8) -> Result<Option<StoreId>, DiskRefusal>
    requires file { file ≤ 1 }
    ensures told { IfOk result (λ found. Tells (D.view disk.old) → IsNamedIn ((D.view disk.old).seen file) found) }
    ensures failed { IsErrOf result Failed → Rose (D.view disk.old).faults (D.view disk.new).faults }
    ensures no_memory { IsErrOf result NoMemory → (D.view disk.old).spares → ⊥ }
    ensures reads_only { OnlyReads (D.view disk.old) (D.view disk.new) }
{
    match identify(disk, file) {
        Ok(found) => Ok(found),
        Err(LoadFault::NotSealed) => Ok(None),
        Err(LoadFault::Damaged { .. }) => Ok(None),
        Err(LoadFault::Failed) => Err(DiskRefusal::Failed),
        Err(LoadFault::NoMemory) => Err(DiskRefusal::NoMemory),
    }
}
