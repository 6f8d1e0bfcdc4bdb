// The header after a seal, as one of a partition.
ghost use Rattle.std.specs.Prelude.{◌≡◌, ◌+◌, ◌<◌, ◌≤◌, ◌^◌, length, None, Some, MatchResult};
ghost use Rattle.record_form.specs.HeaderText.{IsHeader, header_text};
ghost use Rattle.record_form.specs.HeaderFault.{header_fault};
ghost use Rattle.seal_gate.specs.Seal.{header_end};
ghost use Rattle.store_journal.specs.Text.{header_start, header_section};
ghost use Rattle.record_form.specs.FaultOffset.{offset_of};
ghost use Rattle.store_journal.specs.Fault.{offset_if_fault, shifted, ◌or_earlier◌, other_number, header_fault_offset};
ghost use Rattle.store_journal.specs.Loading.{HasHeaderOf};

use crate::layout::{FIRST_GATE, HEADER_START};
use byte_fields::u16_at;
use record_form::{
    HEADER_BYTES, Header, PARTITION_OFFSET, PARTITIONS_OFFSET, RecordFault, decode_header,
};
use store_ident::StoreId;

/// The first offset at which the header is none, or is that of another partition or of another number of partitions.
pub(crate) fn header_fault_offset(bytes: &[u8], partition: u16, partitions: u16) -> Option<u64>
    requires long { header_end ≤ length bytes.now }
    ensures offset { result ≡ header_fault_offset bytes.now partition partitions }
{
    let header = header_offset(bytes);
    let of_partition = other_number(bytes, HEADER_START + PARTITION_OFFSET, partition);
    let of_partitions = other_number(bytes, HEADER_START + PARTITIONS_OFFSET, partitions);
    earlier(earlier(header, of_partition), of_partitions)
}

/// The identifier in a header that has no fault.
#[tactic(auto, using(crate::proofs::LoadLemmas::no_head_fault, crate::proofs::LoadLemmas::named_as))]
pub(crate) fn id_of(bytes: &[u8], partition: u16, partitions: u16) -> StoreId
    requires long { header_end ≤ length bytes.now }
    requires none { header_fault_offset bytes.now partition partitions ≡ None }
    ensures named { HasHeaderOf bytes.now partition partitions result }
{
    match header_of(bytes) {
        Ok(header) => header.id,
        Err(_) => unreachable!(),
    }
}

/// The first offset at which the header is none.
#[tactic(auto, using(record_form::proofs::FaultBounds::header_fault_within))]
fn header_offset(bytes: &[u8]) -> Option<u64>
    requires { header_end ≤ length bytes.now }
    ensures { result ≡ shifted header_start (offset_if_fault (header_fault (header_section bytes.now))) }
{
    match header_of(bytes) {
        Ok(_) => None,
        Err(fault) => Some(HEADER_START as u64 + offset_of(fault)),
    }
}

/// The header after the seal.
pub(crate) fn header_of(bytes: &[u8]) -> Result<Header, RecordFault>
    requires { header_end ≤ length bytes.now }
    ensures { MatchResult result
        (λ header. (header_fault (header_section bytes.now) ≡ None) × IsHeader header × (header_section bytes.now ≡ header_text header))
        (λ fault. header_fault (header_section bytes.now) ≡ Some fault) }
{
    match <&[u8; HEADER_BYTES]>::try_from(&bytes[HEADER_START..FIRST_GATE]) {
        Ok(text) => decode_header(text),
        Err(_) => unreachable!(),
    }
}

/// Where a fault lies: 0 for a lack of memory, which lies in no byte.
pub(crate) fn offset_of(fault: RecordFault) -> u64
    ensures { result ≡ offset_of fault }
{
    match fault {
        RecordFault::Short(at) => at,
        RecordFault::Tag(at) => at,
        RecordFault::Range(at) => at,
        RecordFault::Name(at) => at,
        RecordFault::NoMemory => 0,
    }
}

/// The offset of a number of two bytes, unless it is this one.
fn other_number(bytes: &[u8], offset: usize, wanted: u16) -> Option<u64>
    requires { offset + 2 ≤ length bytes.now }
    ensures { result ≡ other_number bytes.now offset wanted }
{
    if u16_at(bytes, offset) == wanted {
        return None;
    }
    Some(offset as u64)
}

/// The lesser of two offsets, of which each may be missing.
fn earlier(first: Option<u64>, second: Option<u64>) -> Option<u64>
    ensures { result ≡ first or_earlier second }
{
    match (first, second) {
        (None, other) => other,
        (Some(offset), None) => Some(offset),
        (Some(offset), Some(other)) => Some(offset.min(other)),
    }
}
