// The records after a header, up to the closed gate.
ghost use Rattle.std.specs.Prelude.{◌≡◌, ◌≢◌, ◌+◌, ◌<◌, ◌≤◌, ◌^◌, [], ◌∷◌, ◌++◌, List, ℕ, length, take, drop, slice_index, None, Some, MatchResult, OnOk, IfErr};
ghost use Rattle.byte_fields.specs.Numbers.{number_in};
ghost use Rattle.record_form.specs.GroupText.{IsGroupText, closed_gate, most_group_bytes};
ghost use Rattle.record_form.specs.GroupFault.{group_fault};
ghost use Rattle.seal_gate.specs.Seal.{header_end};
ghost use Rattle.record_form.specs.FaultOffset.{offset_of};
ghost use Rattle.cache_model.specs.Change.{Change, changes_of};
ghost use Rattle.partition_map.specs.After.{AgreesWith};
ghost use Rattle.store_journal.specs.ContentsOf.{HasContentsOf};
ghost use Rattle.store_journal.specs.Fault.{offset_if_fault, shifted, payload_fault_offset, tail_fault_offset, record_fault_offset};
ghost use Rattle.store_journal.specs.Loading.{IsFaultAt, IsRecordsFault, IsRecordAt, AreBefore};

use crate::fault::LoadFault;
use crate::head::offset_of;
use crate::layout::FIRST_GATE;
use byte_fields::u32_at;
use cache_key::Mutation;
use partition_map::PartitionMap;
use record_form::{CLOSED_GATE, Group, MOST_GROUP_BYTES, RECORD_HEAD, RecordFault, decode_group};
use std::alloc::{AllocError, Global};

/// A record's mutations, and where the record ends.
#[derive(Drop)]
struct Record {
    mutations: Vec<Mutation>,
    end: usize,
}

/// The contents after the records, and the offset of the closed gate after them.
#[derive(Drop)]
pub(crate) struct ReadRecords {
    pub(crate) contents: PartitionMap,
    pub(crate) end: usize,
}

/// The contents after all records, and the offset of the closed gate.
#[tactic(auto, using(crate::proofs::RecordLemmas::none_before, crate::proofs::RecordLemmas::one_more, crate::proofs::RecordLemmas::closed_there, crate::proofs::RecordLemmas::record_fails, crate::proofs::RecordLemmas::ends_there))]
pub(crate) fn records(alloc: Global, bytes: &[u8]) -> Result<ReadRecords, LoadFault>
    requires { header_end ≤ length bytes.now }
    ensures records { MatchResult result
        (λ records. HasContentsOf (AreBefore bytes.now records.end) records.contents × (records.end < length bytes.now) × (drop records.end bytes.now ≡ closed_gate ∷ drop (records.end + 1) bytes.now))
        (λ fault. IsRecordsFault bytes.now fault) }
{
    let mut contents = PartitionMap::empty(alloc);
    let mut offset = FIRST_GATE;
    while offset < bytes.len() && bytes[offset] != CLOSED_GATE {
        let found = record_at(alloc, bytes, offset)?;
        change_all(&mut contents, found.mutations)?;
        offset = found.end;
    }
    if offset < bytes.len() {
        return Ok(ReadRecords {
            contents,
            end: offset,
        });
    }
    Err(LoadFault::Damaged { at: offset as u64 })
}

/// Makes the changes of these mutations, one after the other.
fn change_all(contents: &mut PartitionMap, mutations: Vec<Mutation>) -> Result<(), AllocError>
    ensures { OnOk result ((changes : List Change) → AgreesWith changes contents.old → AgreesWith (changes ++ changes_of mutations.items) contents.new) }
{
    for mutation in mutations {
        contents.change(mutation)?;
    }
    Ok(())
}

/// The record whose open gate stands at an offset.
#[tactic(auto, using(crate::proofs::RecordLemmas::record_of_tail, crate::proofs::RecordLemmas::record_of_payload, crate::proofs::RecordLemmas::record_there))]
fn record_at(alloc: Global, bytes: &[u8], offset: usize) -> Result<Record, LoadFault>
    requires within { offset < length bytes.now }
    requires gate { slice_index bytes.now offset ≢ closed_gate }
    ensures found { MatchResult result
        (λ found. IsRecordAt bytes.now offset found.mutations.items found.end)
        (λ fault. IsFaultAt (shifted offset (record_fault_offset (drop offset bytes.now))) fault) }
{
    let size = size_at(bytes, offset + 1)?;
    let group = group_at(alloc, bytes, offset + RECORD_HEAD, size)?;
    Ok(Record {
        mutations: group.into_mutations(),
        end: offset + RECORD_HEAD + size,
    })
}

/// The length of the payload, which stands at an offset.
#[tactic(auto, using(crate::proofs::RecordLemmas::tail_short, crate::proofs::RecordLemmas::tail_zero, crate::proofs::RecordLemmas::tail_many))]
fn size_at(bytes: &[u8], offset: usize) -> Result<usize, LoadFault>
    requires { offset ≤ length bytes.now }
    ensures size { MatchResult result
        (λ size. (offset + 4 ≤ length bytes.now) × (1 ≤ size) × (size ≤ most_group_bytes) × (size ≡ number_in bytes.now offset 4))
        (λ fault. IsFaultAt (shifted offset (tail_fault_offset (drop offset bytes.now))) fault) }
{
    if bytes.len() - offset < 4 {
        return Err(LoadFault::Damaged {
            at: bytes.len() as u64,
        });
    }
    let size = u32_at(bytes, offset) as usize;
    if size < 1 || size > MOST_GROUP_BYTES {
        return Err(LoadFault::Damaged { at: offset as u64 });
    }
    Ok(size)
}

/// The group of the payload of this size at an offset.
#[tactic(auto, using(crate::proofs::RecordLemmas::cut_fails, crate::proofs::RecordLemmas::cut_is_short, crate::proofs::RecordLemmas::whole_fails))]
fn group_at(alloc: Global, bytes: &[u8], offset: usize, size: usize) -> Result<Group, LoadFault>
    requires offset { offset ≤ length bytes.now }
    requires size { size ≤ most_group_bytes }
    ensures group { MatchResult result
        (λ group. IsGroupText (take size (drop offset bytes.now)) group × (offset + size ≤ length bytes.now))
        (λ fault. IsFaultAt (shifted offset (payload_fault_offset size (drop offset bytes.now))) fault) }
{
    let rest = &bytes[offset..];
    if rest.len() < size {
        // A fault before the end comes first.
        decoded(alloc, rest, offset)?;
        return Err(LoadFault::Damaged {
            at: bytes.len() as u64,
        });
    }
    decoded(alloc, &rest[..size], offset)
}

/// The group of a payload, whose bytes begin at an offset.
fn decoded(alloc: Global, payload: &[u8], offset: usize) -> Result<Group, LoadFault>
    requires offset { offset + length payload.now < 2 ^ 64 }
    requires size { length payload.now ≤ most_group_bytes }
    ensures group { MatchResult result
        (λ group. IsGroupText payload.now group)
        (λ fault. IsFaultAt (shifted offset (offset_if_fault (group_fault payload.now))) fault) }
{
    match decode_group(alloc, payload) {
        Ok(group) => Ok(group),
        Err(fault) => Err(damage(fault, offset as u64)),
    }
}

/// The fault of a payload, whose bytes begin at an offset.
fn damage(fault: RecordFault, offset: u64) -> LoadFault
    requires { offset + offset_of fault < 2 ^ 64 }
    ensures at { IsFaultAt (shifted offset (offset_if_fault (Some fault))) result }
    ensures no_memory { fault ≡ RecordFault.NoMemory → result ≡ LoadFault.NoMemory }
{
    match fault {
        RecordFault::NoMemory => LoadFault::NoMemory,
        _ => LoadFault::Damaged {
            at: offset + offset_of(fault),
        },
    }
}
