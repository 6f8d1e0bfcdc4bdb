// A store from its file.
ghost use Rattle.std.specs.Prelude.{◌≡◌, ◌≢◌, ℕ, ◌<◌, ◌≤◌, List, IfOk, IsErrOf};
ghost use Rattle.cache_key.specs.declared.request.Mutation.{Mutation};
ghost use Rattle.disk_trait.specs.View.{Image, View, Tells};
ghost use Rattle.disk_trait.specs.Calls.{Rose};
ghost use Rattle.record_form.specs.declared.header.Header.{Header};
ghost use Rattle.store_journal.specs.ContentsOf.{HasContentsOf};
ghost use Rattle.store_journal.specs.Text.{IsText};
ghost use Rattle.store_journal.specs.Created.{IsUnsealed};
ghost use Rattle.store_journal.specs.Fault.{IsDamagedAt};
ghost use Rattle.store_journal.specs.declared.fault.LoadFault.{LoadFault};
ghost use Rattle.store_journal.specs.declared.fault.LoadFault.TheVariants.{NotSealed, Damaged, Failed, NoMemory};
ghost use Rattle.store_journal.specs.Loading.{IsLoaded, OnlyReads};

use crate::fault::LoadFault;
use crate::judge::judge;
use crate::read_all::read_all;
use crate::store::Store;
use disk_trait::Disk;
use partition_map::PartitionMap;
use std::alloc::Global;

/// A store and what it holds.
#[derive(Drop)]
pub struct Loaded {
    /// The store.
    pub store: Store,
    /// The contents after its mutations.
    pub contents: PartitionMap,
}

impl Store {
    /// Reads the file's store, as that of a partition in a site of so many partitions.
    ///
    /// The faults are judged in their order: `Failed` at a read, `NotSealed`, `Damaged`; `NoMemory` may come at any
    /// time. What is pending is read too. Takes memory for the whole file, for the mutations of one record, and for the
    /// contents. One device call for the length, and a read for each 65,536 bytes.
    pub fn load<D: Disk>(
        alloc: Global,
        disk: &mut D,
        file: u8,
        partition: u16,
        partitions: u16,
    ) -> Result<Loaded, LoadFault>
        requires file { file ≤ 10 }

        // After Ok the contents are those of the mutations that the file's bytes have, and the store rests where nothing was
        // pending.
        ensures loaded { IfOk result (λ loaded. HasContentsOf (IsLoaded (D.view disk.old) (D.view disk.new) partitions loaded.store) loaded.contents) }
        ensures store { IfOk result (λ loaded. (loaded.store.file ≡ file) × (loaded.store.id.partition ≡ partition)) }

        // The refusals, in the order in which they are judged.
        ensures failed { IsErrOf result Failed → Rose (D.view disk.old).faults (D.view disk.new).faults }
        ensures not_sealed { IsErrOf result NotSealed → Tells (D.view disk.old) → IsUnsealed ((D.view disk.old).seen file) }
        ensures damaged { (at : ℕ) → IsErrOf result (Damaged at) → Tells (D.view disk.old) → IsDamagedAt ((D.view disk.old).seen file) partition partitions at }
        ensures whole { (header : Header) (groups : List (List Mutation)) (fault : LoadFault) → IsErrOf result fault → fault ≢ Failed → Tells (D.view disk.old)
            → IsText header groups ((D.view disk.old).seen file) → header.id.partition ≡ partition → header.partitions ≡ partitions → fault ≡ NoMemory }

        ensures reads_only { OnlyReads (D.view disk.old) (D.view disk.new) }
    {
        let bytes = read_all(alloc, disk, file)?;
        let found = judge(alloc, bytes.as_slice(), partition, partitions)?;
        Ok(Loaded {
            store: Store {
                file,
                id: found.id,
                end: found.end,
            },
            contents: found.contents,
        })
    }
}
