// The newest store of a partition, opened.
ghost use Rattle.std.specs.Prelude.{◌≡◌, ◌≢◌, ◌⊎◌, ℕ, ◌≤◌, List, IfOk, IsErrOf};
ghost use Rattle.cache_model.specs.Change.{Change};
ghost use Rattle.disk_trait.specs.View.{Image, View, Tells};
ghost use Rattle.disk_trait.specs.Calls.{Rose, Same};
ghost use Rattle.disk_trait.specs.Moments.{Now, After, Throughout, Onward};
ghost use Rattle.seal_gate.specs.Seal.{IsSettled};
ghost use Rattle.store_ident.specs.declared.ident.StoreId.{StoreId};
ghost use Rattle.store_journal.specs.ContentsOf.{HasContentsOf};
ghost use Rattle.store_journal.specs.Created.{IsUnsealed};
ghost use Rattle.newest_store.specs.Newest.{HasStore, IsDamagedIn};
ghost use Rattle.newest_store.specs.NewestOpened.{IsNewestOpened};
ghost use Rattle.newest_store.specs.Clearing.{ErasesOlder};
ghost use Rattle.newest_store.specs.declared.fault.NewestFault.{NewestFault};
ghost use Rattle.newest_store.specs.declared.fault.NewestFault.TheVariants.{NoStore, Damaged, Failed, NoMemory};

use crate::fault::NewestFault;
use crate::search::load_found;
use disk_trait::Disk;
use std::alloc::Global;
use store_journal::{Loaded, clear};

/// Opens the newest store of a partition among files 0 and 1 of the disk, and erases the other file where it is sealed.
///
/// The newest is the sealed file of greatest version, and of two with the same version the lower. The headers of both files
/// are judged before the newest is read whole, and nothing is erased before that is whole. Takes memory for the whole file
/// and for the contents. Device calls: two reads, the load's, and for the other file those of `clear`.
pub fn load_newest<D: Disk>(
    alloc: Global,
    disk: &mut D,
    partition: u16,
    partitions: u16,
) -> Result<Loaded, NewestFault>
    requires first { IsSettled (D.view disk.old) 0 }
    requires second { IsSettled (D.view disk.old) 1 }

    // After Ok one store is left: the newest, with exactly what its file had, whatever the other file held.
    ensures opened { IfOk result (λ loaded. HasContentsOf (IsNewestOpened (D.view disk.old) (D.view disk.new) partition partitions loaded.store) loaded.contents) }

    // The refusals. Files that have a store are refused only where the device fails or memory runs out.
    ensures failed { IsErrOf result Failed → Rose (D.view disk.old).faults (D.view disk.new).faults }
    ensures none { IsErrOf result NoStore → Tells (D.view disk.old) → (file : ℕ) → file ≤ 1 → IsUnsealed ((D.view disk.old).seen file) }
    ensures damaged { (file at : ℕ) → IsErrOf result (Damaged file at) → Tells (D.view disk.old) → IsDamagedIn (D.view disk.old).seen partition partitions file at }
    ensures whole { (file : ℕ) (id : StoreId) (changes : List Change) (fault : NewestFault) → IsErrOf result fault → Now (D.view disk.old) (HasStore partition partitions file id changes) → Tells (D.view disk.old)
        → (fault ≡ Failed) ⊎ (fault ≡ NoMemory) }

    // At every moment, and after a refusal, the newest file is as it was: the files stand for what they stood for.
    ensures moments { Throughout (D.view disk.old) (D.view disk.new) (After (D.view disk.old) ErasesOlder) }
    ensures survives { (file : ℕ) (id : StoreId) (changes : List Change) → Now (D.view disk.old) (HasStore partition partitions file id changes)
        → Throughout (D.view disk.old) (D.view disk.new) (HasStore partition partitions file id changes) }

    // Nothing is erased before the newest is whole.
    ensures spoiled { (file at : ℕ) → Tells (D.view disk.old) → IsDamagedIn (D.view disk.old).seen partition partitions file at
        → Same (D.view disk.old) (D.view disk.new) × Throughout (D.view disk.old) (D.view disk.new) (D.view disk.old).images }
    ensures unsealed { (file : ℕ) → file ≤ 1 → Now (D.view disk.old) (λ m. IsUnsealed (m file)) → Throughout (D.view disk.old) (D.view disk.new) (λ m. IsUnsealed (m file)) }
    ensures as_before { (fault : NewestFault) → IsErrOf result fault → fault ≢ Failed → fault ≢ NoMemory → Same (D.view disk.old) (D.view disk.new) }
    ensures blank { Tells (D.view disk.old) → ((file : ℕ) → file ≤ 1 → IsUnsealed ((D.view disk.old).seen file)) → Same (D.view disk.old) (D.view disk.new) }
    ensures others { (f : ℕ) → 2 ≤ f → (D.view disk.new).seen f ≡ (D.view disk.old).seen f }
    ensures onward { Onward (D.view disk.old) (D.view disk.new) }
    ensures told { Tells (D.view disk.new) → Tells (D.view disk.old) }
{
    let loaded = load_found(alloc, disk, partition, partitions)?;
    clear(disk, 1 - loaded.store.file)?;
    Ok(loaded)
}
