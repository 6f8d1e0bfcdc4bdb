//! Headers and groups as bytes.
ghost use Rattle.std.specs.Prelude.{◌≡◌, ◌++◌, IfOk, OnOk};
ghost use Rattle.std.specs.List.{flat_map};
ghost use Rattle.byte_fields.specs.Numbers.{bytes8};
ghost use Rattle.record_form.specs.HeaderText.{header_text};
ghost use Rattle.record_form.specs.GroupText.{IsGroup, name_form, key_form, pair_form, mutation_text, tail_text};

use crate::group::{
    BATCH_TAG, CLOSED_GATE, DESTROY_TAG, ENSURE_TAG, Group, PUT_TAG, RECORD_HEAD, REMOVE_TAG,
    TRUNCATE_TAG,
};
use crate::header::{FORMAT, HEADER_BYTES, Header, MAGIC};
use byte_fields::{push_bytes, push_u8, push_u16, push_u32};
use cache_key::{CacheName, Key, Mutation, Value};
use std::alloc::{AllocError, Global};

/// The bytes of a header.
#[tactic(auto, unfolding(byte_fields::specs::Numbers::bytes_of))]
pub fn encode_header(header: &Header) -> [u8; HEADER_BYTES]
    ensures text { result ≡ header_text header.now }
{
    let [m0, m1, m2, m3] = u32::to_be_bytes(MAGIC);
    let [f0, f1] = u16::to_be_bytes(FORMAT);
    let [p0, p1] = u16::to_be_bytes(header.id.partition);
    let [v0, v1, v2, v3, v4, v5, v6, v7] = u64::to_be_bytes(header.id.version);
    let [e0, e1, e2, e3, e4, e5, e6, e7] = u64::to_be_bytes(header.id.epoch);
    let [h0, h1] = u16::to_be_bytes(header.id.host);
    let [n0, n1] = u16::to_be_bytes(header.partitions);
    [
        m0, m1, m2, m3, f0, f1, p0, p1, v0, v1, v2, v3, v4, v5, v6, v7, e0, e1, e2, e3, e4, e5, e6,
        e7, h0, h1, n0, n1, 0, 0, 0, 0, 0, 0, 0, 0, 0, 0, 0, 0,
    ]
}

/// What stands after the open gate of a group's record: the length, the payload, and a closed gate.
///
/// Takes memory once, for all of it.
#[tactic(auto, using(crate::proofs::GroupLengthLemmas::tail_is))]
pub fn encode_tail(alloc: Global, group: &Group) -> Result<Vec<u8>, AllocError>
    ensures text { IfOk result (λ tail. tail.items ≡ tail_text group.now) }
    ensures limits { IsGroup group.now }
{
    let size = group.size();
    let mutations = group.mutations();
    // The closed gate takes the place of the gate that a record's head counts.
    let mut tail = Vec::with_capacity(alloc, size as usize + RECORD_HEAD)?;
    push_u32(&mut tail, size as u32)?;
    push_u8(&mut tail, mutations.len() as u8)?;
    push_mutations(&mut tail, mutations)?;
    push_u8(&mut tail, CLOSED_GATE)?;
    Ok(tail)
}

/// Adds the spelling of each mutation.
fn push_mutations(out: &mut Vec<u8>, mutations: &[Mutation]) -> Result<(), AllocError>
    ensures { OnOk result (out.new.items ≡ out.old.items ++ flat_map mutation_text mutations.now) }
{
    for mutation in mutations {
        push_mutation(out, mutation)?;
    }
    Ok(())
}

/// Adds a mutation's tag and fields.
fn push_mutation(out: &mut Vec<u8>, mutation: &Mutation) -> Result<(), AllocError>
    ensures { OnOk result (out.new.items ≡ out.old.items ++ mutation_text mutation.now) }
{
    match mutation {
        Mutation::Put(cache, key, value) => {
            push_cache(out, PUT_TAG, cache)?;
            push_pair(out, key, value)
        }
        Mutation::Remove(cache, key) => {
            push_cache(out, REMOVE_TAG, cache)?;
            push_key(out, key)
        }
        Mutation::Ensure(cache) => push_cache(out, ENSURE_TAG, cache),
        Mutation::Truncate(cache) => push_cache(out, TRUNCATE_TAG, cache),
        Mutation::Destroy(cache) => push_cache(out, DESTROY_TAG, cache),
        Mutation::Batch(cache, pairs) => {
            push_cache(out, BATCH_TAG, cache)?;
            push_u8(out, pairs.len() as u8)?;
            push_pairs(out, pairs.as_slice())
        }
    }
}

/// Adds a tag, and the name of a cache.
fn push_cache(out: &mut Vec<u8>, tag: u8, cache: &CacheName) -> Result<(), AllocError>
    ensures { OnOk result (out.new.items ≡ out.old.items ++ (bytes8 tag ++ name_form.text cache.now)) }
{
    let text = cache.text().as_bytes();
    push_u8(out, tag)?;
    push_u8(out, text.len() as u8)?;
    push_bytes(out, text)
}

fn push_key(out: &mut Vec<u8>, key: &Key) -> Result<(), AllocError>
    ensures { OnOk result (out.new.items ≡ out.old.items ++ key_form.text key.now) }
{
    let text = key.text().as_bytes();
    push_u16(out, text.len() as u16)?;
    push_bytes(out, text)
}

fn push_pair(out: &mut Vec<u8>, key: &Key, value: &Value) -> Result<(), AllocError>
    ensures { OnOk result (out.new.items ≡ out.old.items ++ pair_form.text (key.now, value.now)) }
{
    push_key(out, key)?;
    let text = value.text().as_bytes();
    push_u32(out, text.len() as u32)?;
    push_bytes(out, text)
}

/// Adds pairs, one after the other.
fn push_pairs(out: &mut Vec<u8>, pairs: &[(Key, Value)]) -> Result<(), AllocError>
    ensures { OnOk result (out.new.items ≡ out.old.items ++ flat_map pair_form.text pairs.now) }
{
    for (key, value) in pairs {
        push_pair(out, key, value)?;
    }
    Ok(())
}
