//! The identifier and its text.
ghost use Rattle.std.specs.Prelude.{◌≡◌, ◌↔◌, ℕ, IfOk, IsErrOf};
ghost use Rattle.std.specs.String.{string_bytes};

use crate::fault::IdFault;
use crate::fields::{last_field, next_field, within};
use std::alloc::{AllocError, Global};

/// The greatest version, and the greatest epoch.
const GREATEST: u64 = (1 << 58) - 1;

/// The greatest number of a partition, and of a host.
const MOST: u64 = 65_535;

/// The identifier of a store.
#[derive(Clone, Copy, Debug, PartialEq, Eq)]
pub struct StoreId {
    /// The partition that the store has the contents of.
    pub partition: u16,
    /// Counts the stores of the partition, from 1: a greater one is newer.
    pub version: u64,
    /// The epoch of the roster under which it was begun, from 1.
    pub epoch: u64,
    /// The number of the host on which it was begun, in the site of that time.
    pub host: u16,
}

impl StoreId {
    ghost use Rattle.store_ident.specs.Faults.{IsFormFault, IsRangeFault};
    ghost use Rattle.store_ident.specs.Ident.{ident_text, IsInRanges};
    ghost use Rattle.store_ident.specs.Reading.{IsReading};
    ghost use Rattle.store_ident.specs.declared.fault.IdFault.{IdFault};
    ghost use Rattle.store_ident.specs.declared.ident.StoreId.{StoreId};

    /// The identifier's text.
    pub fn text(&self, alloc: Global) -> Result<String, AllocError>
        ensures { IfOk result (λ text. string_bytes text ≡ ident_text self.now) }
    {
        format!(in alloc;
            "{}-{:x}-{:x}-{}",
            self.partition, self.version, self.epoch, self.host
        )
    }

    /// The bytes of the identifier's text.
    pub fn print(&self, alloc: Global) -> Result<Vec<u8>, AllocError>
        ensures text { IfOk result (λ text. text.items ≡ ident_text self.now) }
    {
        Ok(self.text(alloc)?.into_bytes())
    }

    /// Reads the text of an identifier.
    ///
    /// What `print` gives of an identifier in its ranges is read as this identifier: that is `value`, from right to left.
    /// Takes no memory.
    pub fn parse(text: &[u8]) -> Result<StoreId, IdFault>
        ensures value { (id : StoreId) → (result ≡ Ok id) ↔ ((text.now ≡ ident_text id) × IsInRanges id) }

        // the refusals, in the order in which they are judged
        ensures form { (at : ℕ) → IsErrOf result (IdFault.Form at) ↔ IsFormFault text.now at }
        ensures range { (at : ℕ) → IsErrOf result (IdFault.Range at) ↔ IsRangeFault text.now at }
    {
        StoreId::read(text)
    }

    /// Judges the whole text by its form before it judges a number by its range.
    fn read(text: &[u8]) -> Result<StoreId, IdFault>
        ensures { IsReading text.now result }
    {
        let partition = next_field(text, 0, 10)?;
        let version = next_field(text, partition.next, 16)?;
        let epoch = next_field(text, version.next, 16)?;
        let host = last_field(text, epoch.next, 10)?;
        let partition_number = within(partition, 0, MOST)?;
        let version_number = within(version, 1, GREATEST)?;
        let epoch_number = within(epoch, 1, GREATEST)?;
        let host_number = within(host, 0, MOST)?;
        Ok(StoreId {
            partition: partition_number as u16,
            version: version_number,
            epoch: epoch_number,
            host: host_number as u16,
        })
    }
}
