// Whether bytes are a store of a partition, and else the first offset at which they aren't.
ghost use Rattle.std.specs.Prelude.{◌↔◌, ◌<◌, length, MatchResult, IsTrue};
ghost use Rattle.seal_gate.specs.Seal.{IsSealed};
ghost use Rattle.store_journal.specs.ContentsOf.{HasContentsOf};
ghost use Rattle.store_journal.specs.Loading.{IsStoreEndingAt, IsStoreFault};

use crate::fault::LoadFault;
use crate::head::{header_fault_offset, id_of};
use crate::layout::FIRST_GATE;
use crate::records::records;
use partition_map::PartitionMap;
use std::alloc::Global;
use store_ident::StoreId;

/// What the bytes of a store have.
#[derive(Drop)]
pub(crate) struct Found {
    pub(crate) id: StoreId,
    pub(crate) contents: PartitionMap,
    pub(crate) end: u64,
}

/// Judges the seal, then the header, then record after record.
#[tactic(auto, using(crate::proofs::LoadLemmas::head_fails, crate::proofs::LoadLemmas::records_fail))]
pub(crate) fn judge(
    alloc: Global,
    bytes: &[u8],
    partition: u16,
    partitions: u16,
) -> Result<Found, LoadFault>
    ensures judged { MatchResult result
        (λ found. HasContentsOf (λ mutations. IsStoreEndingAt bytes.now partition partitions found.id mutations found.end) found.contents × (found.end < length bytes.now))
        (λ fault. IsStoreFault bytes.now partition partitions fault) }
{
    if !has_seal(bytes) {
        return Err(LoadFault::NotSealed);
    }
    if let Some(at) = header_fault_offset(bytes, partition, partitions) {
        return Err(LoadFault::Damaged { at });
    }
    let read = records(alloc, bytes)?;
    Ok(Found {
        id: id_of(bytes, partition, partitions),
        contents: read.contents,
        end: read.end as u64,
    })
}

/// Whether the bytes have a seal, and a header after it.
pub(crate) fn has_seal(bytes: &[u8]) -> bool
    ensures { IsTrue result ↔ IsSealed bytes.now }
{
    bytes.len() >= FIRST_GATE && bytes[0] != 0
}
