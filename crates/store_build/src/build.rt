//! The header, the records and the closed gate, one after the other.
ghost use Rattle.std.specs.Prelude.{◌≡◌, ◌≢◌, ℕ, ◌+◌, ◌<◌, ◌≤◌, ◌^◌, List, length, drop, true, false, IfOk, OnOk, ◌↔◌, [], None, IsErrOf};
ghost use Rattle.cache_key.specs.declared.request.Mutation.{Mutation};
ghost use Rattle.cache_model.specs.Caches.{Caches};
ghost use Rattle.cache_model.specs.Change.{Change};
ghost use Rattle.cache_model.specs.Contents.{AreContentsAfter};
ghost use Rattle.disk_trait.specs.View.{Image, View, Tells};
ghost use Rattle.disk_trait.specs.Calls.{Moved, Cause};
ghost use Rattle.disk_trait.specs.Moments.{After, Throughout};
ghost use Rattle.partition_map.specs.After.{AgreesWith};
ghost use Rattle.partition_map.specs.Items.{items_after};
ghost use Rattle.record_form.specs.declared.header.Header.{Header};
ghost use Rattle.record_form.specs.HeaderText.{IsHeader};
ghost use Rattle.seal_gate.specs.Seal.{Each};
ghost use Rattle.store_build.specs.Batches.{batch_size};
ghost use Rattle.store_build.specs.OwnMemory.{OwnCause};
ghost use Rattle.store_journal.specs.Created.{IsBlank};

use crate::record::{NextRecord, next_record};
use disk_trait::{Disk, DiskRefusal};
use partition_map::{LastItem, PartitionMap};
use record_form::{CLOSED_GATE, Header, encode_header};
use std::alloc::Global;
use store_ident::StoreId;
use store_journal::Store;

/// Where the header begins, after the seal.
const HEADER: u64 = 1;

/// Where the first gate stands, after the header.
const FIRST_GATE: u64 = 41;

/// How far a build has come.
#[derive(Clone, Copy, Debug, PartialEq, Eq, Drop)]
pub enum Progress {
    /// A record was written.
    More,
    /// All records and the closed gate are written.
    Whole,
}

/// A store that is being built. After a refusal of one of its calls it is given up: nothing may be written to it then.
#[derive(Drop)]
pub struct Build {
    /// The number of its file on its disk.
    pub file: u8,
    /// The identifier in its header.
    pub id: StoreId,
    /// Where the next gate is written, from 0.
    pub end: u64,
    /// The last item that is written.
    pub last: Option<LastItem>,
    /// Whether the closed gate is written.
    pub whole: bool,
    ghost is_file: { file ≤ 10 },
    ghost below: { end < 2 ^ 63 },
    ghost some: { 41 ≤ end },
}

impl Build {
    ghost use Rattle.store_build.specs.Built.{IsBuilding};
    ghost use Rattle.store_build.specs.Next.{IsNextRecord};

    /// Begins a store after a first byte of zero.
    ///
    /// At each moment of the call, and after a refusal, the first byte of the file is zero and the others may be any. Takes no
    /// memory but the disk's. Two device calls: cut, write.
    pub fn begin<D: Disk>(disk: &mut D, file: u8, header: Header) -> Result<Build, DiskRefusal>
        requires file { file ≤ 10 }
        requires header { IsHeader header }
        requires blank { Each (D.view disk.old) file IsBlank }

        ensures begun { IfOk result (λ build. (caches : Caches) → IsBuilding (D.view disk.new) build header caches) }
        ensures build { IfOk result (λ build. (build.file ≡ file) × (build.id ≡ header.id) × (build.last ≡ None) × (build.whole ≡ false)) }

        ensures moments { Throughout (D.view disk.old) (D.view disk.new) (After (D.view disk.old) (Moved file (λ old new. IsBlank new))) }
        ensures cause { Cause (D.view disk.old) (D.view disk.new) result }
        ensures others { (f : ℕ) → f ≢ file → (D.view disk.new).seen f ≡ (D.view disk.old).seen f }
        ensures tells { Tells (D.view disk.old) → Tells (D.view disk.new) }
    {
        disk.cut(file, HEADER)?;
        disk.write_at(file, HEADER, &encode_header(&header))?;
        Ok(Build {
            file,
            id: header.id,
            end: FIRST_GATE,
            last: None,
            whole: false,
        })
    }

    /// Writes the next 64 items of the map's plain list as one record, or those that are left; then the closed gate.
    ///
    /// The map has the contents that it had at the calls before. Answers `More` while items were left, and then `Whole`, also
    /// where it is called again. At each moment of the call, and after a refusal, the first byte of the file is zero, the others
    /// may be any, and no other file changes. Takes memory for a batch of items and its record. One device call, a write; none
    /// once it is whole.
    pub fn next_batch<D: Disk>(
        &mut self,
        alloc: Global,
        disk: &mut D,
        map: &PartitionMap,
    ) -> Result<Progress, DiskRefusal>
        requires building { (header : Header) × (changes : List Change) × (caches : Caches) × AgreesWith changes map.now × AreContentsAfter changes caches
            × IsBuilding (D.view disk.old) self.old header caches }

        ensures built { OnOk result ((header : Header) (changes : List Change) (caches : Caches) → AgreesWith changes map.now → AreContentsAfter changes caches
            → IsBuilding (D.view disk.old) self.old header caches → IsBuilding (D.view disk.new) self.new header caches) }
        ensures progress { IfOk result (λ progress. (progress ≡ Progress.Whole) ↔ (self.new.whole ≡ true)) }
        ensures next { OnOk result ((changes : List Change) (caches : Caches) (header : Header) → AgreesWith changes map.now → AreContentsAfter changes caches
            → IsBuilding (D.view disk.old) self.old header caches
            → (items_after self.new.last caches ≡ drop batch_size (items_after self.old.last caches))
            × ((self.new.whole ≡ true) ↔ (items_after self.old.last caches ≡ []))) }
        ensures file { self.new.file ≡ self.old.file }
        ensures id { self.new.id ≡ self.old.id }

        ensures moments { Throughout (D.view disk.old) (D.view disk.new) (After (D.view disk.old) (Moved self.old.file (λ old new. IsBlank new))) }
        ensures cause { OwnCause (D.view disk.old) (D.view disk.new) result }
        ensures others { (f : ℕ) → f ≢ self.old.file → (D.view disk.new).seen f ≡ (D.view disk.old).seen f }
        ensures tells { Tells (D.view disk.old) → Tells (D.view disk.new) }
    {
        if self.whole {
            return Ok(Progress::Whole);
        }
        match next_record(alloc, map, self.last.as_ref())? {
            Some(NextRecord { bytes, last }) => {
                self.write_record(disk, &bytes, last)?;
                Ok(Progress::More)
            }
            None => {
                self.write_gate(disk)?;
                Ok(Progress::Whole)
            }
        }
    }

    /// Writes the record of the next batch.
    fn write_record<D: Disk>(
        &mut self,
        disk: &mut D,
        bytes: &[u8],
        last: LastItem,
    ) -> Result<(), DiskRefusal>
        requires building { (header : Header) × (caches : Caches) × IsBuilding (D.view disk.old) self.old header caches
            × IsNextRecord caches (items_after self.old.last caches) bytes.now last }
        requires open { self.old.whole ≡ false }
        ensures built { OnOk result ((header : Header) (caches : Caches) → IsBuilding (D.view disk.old) self.old header caches
            → IsNextRecord caches (items_after self.old.last caches) bytes.now last → IsBuilding (D.view disk.new) self.new header caches) }
        ensures last { OnOk result ((caches : Caches) → IsNextRecord caches (items_after self.old.last caches) bytes.now last
            → items_after self.new.last caches ≡ drop batch_size (items_after self.old.last caches)) }
        ensures open { self.new.whole ≡ false }
        ensures file { self.new.file ≡ self.old.file }
        ensures id { self.new.id ≡ self.old.id }
        ensures moments { Throughout (D.view disk.old) (D.view disk.new) (After (D.view disk.old) (Moved self.old.file (λ old new. IsBlank new))) }
        ensures cause { Cause (D.view disk.old) (D.view disk.new) result }
        ensures others { (f : ℕ) → f ≢ self.old.file → (D.view disk.new).seen f ≡ (D.view disk.old).seen f }
        ensures tells { Tells (D.view disk.old) → Tells (D.view disk.new) }
    {
        disk.write_at(self.file, self.end, bytes)?;
        self.end += bytes.len() as u64;
        self.last = Some(last);
        Ok(())
    }

    /// Writes the closed gate.
    fn write_gate<D: Disk>(&mut self, disk: &mut D) -> Result<(), DiskRefusal>
        requires building { (header : Header) × (caches : Caches) × IsBuilding (D.view disk.old) self.old header caches
            × (items_after self.old.last caches ≡ []) }
        requires open { self.old.whole ≡ false }
        ensures built { OnOk result ((header : Header) (caches : Caches) → IsBuilding (D.view disk.old) self.old header caches
            → items_after self.old.last caches ≡ [] → IsBuilding (D.view disk.new) self.new header caches) }
        ensures whole { OnOk result (self.new.whole ≡ true) }
        ensures last { self.new.last ≡ self.old.last }
        ensures file { self.new.file ≡ self.old.file }
        ensures id { self.new.id ≡ self.old.id }
        ensures moments { Throughout (D.view disk.old) (D.view disk.new) (After (D.view disk.old) (Moved self.old.file (λ old new. IsBlank new))) }
        ensures cause { Cause (D.view disk.old) (D.view disk.new) result }
        ensures others { (f : ℕ) → f ≢ self.old.file → (D.view disk.new).seen f ≡ (D.view disk.old).seen f }
        ensures tells { Tells (D.view disk.old) → Tells (D.view disk.new) }
    {
        disk.write_at(self.file, self.end, &[CLOSED_GATE])?;
        self.whole = true;
        Ok(())
    }

    /// How many items are still to be written. Looks at each of them, and takes no memory.
    ///
    /// The map has the contents that it had at the calls before.
    pub fn left(&self, map: &PartitionMap) -> u64
        ensures { (changes : List Change) (caches : Caches) → AgreesWith changes map.now → AreContentsAfter changes caches → result ≡ length (items_after self.now.last caches) }
    {
        map.count_from(self.last.as_ref())
    }

    /// The store, once it is whole. Nothing is written: it is still to be settled and sealed.
    pub fn finish(self) -> Store
        requires { self.whole ≡ true }
        ensures { (result.file ≡ self.file) × (result.id ≡ self.id) × (result.end ≡ self.end) }
    {
        Store {
            file: self.file,
            id: self.id,
            end: self.end,
        }
    }
}
