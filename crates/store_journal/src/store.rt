// A store's file, and the offset of its closed gate.
ghost use Rattle.std.specs.Prelude.{◌≡◌, ◌≢◌, ℕ, ◌+◌, ◌<◌, ◌≤◌, ◌^◌, ◌++◌, ◌∷◌, [], List, length, OnOk, OnErr, IfOk};
ghost use Rattle.cache_key.specs.declared.request.Mutation.{Mutation};
ghost use Rattle.disk_trait.specs.View.{Image, View, Tells};
ghost use Rattle.disk_trait.specs.Calls.{Moved, Cause};
ghost use Rattle.disk_trait.specs.Moments.{After, Throughout};
ghost use Rattle.record_form.specs.HeaderText.{IsHeader};
ghost use Rattle.record_form.specs.GroupText.{IsGroup, tail_text};
ghost use Rattle.seal_gate.specs.Seal.{header_end, IsSettled, Each};
ghost use Rattle.store_journal.specs.Created.{IsBegun, empty_text};

use crate::create::lay;
use crate::free::free;
use crate::layout::FIRST_GATE;
use disk_trait::{Disk, DiskRefusal, write_synced};
use record_form::Header;
use seal_gate::seal;
use store_ident::StoreId;

/// What opens a gate.
const OPEN: u8 = 1;

/// A store that commits go to.
#[derive(Drop)]
pub struct Store {
    /// The number of its file on its disk.
    pub file: u8,
    /// Its identifier, as its header has it.
    pub id: StoreId,
    /// The offset of its closed gate, from 0.
    pub end: u64,
    ghost is_file: { file ≤ 10 },
    ghost below: { end < 2 ^ 63 },
}

impl Store {
    ghost use Rattle.store_journal.specs.AtRest.{AtRest, OldOrNew};

    /// Makes a store without a group in the file, whatever the file held.
    ///
    /// A refusal leaves the file not sealed, or as it was but for its first byte, or with the whole new store; what was
    /// written stays pending. Takes no memory but the disk's. At most three device calls that read; write and sync,
    /// unless the first byte is zero; then cut, write, write, sync, write, sync.
    pub fn create<D: Disk>(disk: &mut D, file: u8, header: Header) -> Result<Store, DiskRefusal>
        requires file { file ≤ 10 }
        requires header { IsHeader header }
        requires settled { IsSettled (D.view disk.old) file }

        // After Ok the store is durable: its file is the seal, the header and a closed gate.
        ensures created { IfOk result (λ store. AtRest (D.view disk.new) store header []) }
        ensures bytes { OnOk result (Each (D.view disk.new) file (λ bytes. bytes ≡ empty_text 1 header)) }
        ensures store { IfOk result (λ store. (store.file ≡ file) × (store.id ≡ header.id) × (store.end ≡ header_end)) }

        ensures moments { Throughout (D.view disk.old) (D.view disk.new) (After (D.view disk.old) (Moved file (IsBegun header))) }
        ensures cause { Cause (D.view disk.old) (D.view disk.new) result }

        ensures others { (f : ℕ) → f ≢ file → (D.view disk.new).seen f ≡ (D.view disk.old).seen f }
        ensures tells { Tells (D.view disk.old) → Tells (D.view disk.new) }
    {
        free(disk, file)?;
        lay(disk, file, &header)?;
        seal(disk, file)?;
        Ok(Store {
            file,
            id: header.id,
            end: FIRST_GATE as u64,
        })
    }

    /// Adds a group after the last record.
    ///
    /// `tail` is what stands after the gate of the group's record, up to the next closed gate. A refusal leaves the
    /// store, and puts the group in flight: a stop may show it whole or not at all, so no append may follow. Takes no
    /// memory but the disk's. Four device calls: write, sync, write, sync.
    pub fn append<D: Disk>(&mut self, disk: &mut D, tail: &[u8]) -> Result<(), DiskRefusal>
        requires at_rest { (header : Header) × (groups : List (List Mutation)) × AtRest (D.view disk.old) self.old header groups }
        requires tail { (group : List Mutation) × IsGroup group × (tail.now ≡ tail_text group) }

        // After Ok the group is durable.
        ensures appended { OnOk result ((header : Header) (groups : List (List Mutation)) (group : List Mutation) → IsGroup group → tail.now ≡ tail_text group
            → AtRest (D.view disk.old) self.old header groups → AtRest (D.view disk.new) self.new header (groups ++ group ∷ [])) }
        ensures settled { OnOk result (IsSettled (D.view disk.new) self.old.file) }
        ensures end { OnOk result (self.new.end ≡ self.old.end + length tail.now) }

        // At every moment each image has the old groups, or the old groups and the whole new one.
        ensures moments { (header : Header) (groups : List (List Mutation)) (group : List Mutation) → IsGroup group → tail.now ≡ tail_text group
            → AtRest (D.view disk.old) self.old header groups
            → Throughout (D.view disk.old) (D.view disk.new) (After (D.view disk.old) (Moved self.old.file (λ old new. OldOrNew header groups group new))) }
        ensures cause { Cause (D.view disk.old) (D.view disk.new) result }

        ensures refused { OnErr result (self.new ≡ self.old) }
        ensures file { self.new.file ≡ self.old.file }
        ensures id { self.new.id ≡ self.old.id }
        ensures others { (f : ℕ) → f ≢ self.old.file → (D.view disk.new).seen f ≡ (D.view disk.old).seen f }
        ensures tells { Tells (D.view disk.old) → Tells (D.view disk.new) }
    {
        write_synced(disk, self.file, self.end + 1, tail)?;
        write_synced(disk, self.file, self.end, &[OPEN])?;
        self.end += tail.len() as u64;
        Ok(())
    }
}
