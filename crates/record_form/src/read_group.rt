//! A group from its bytes.
ghost use Rattle.std.specs.Prelude.{◌≡◌, ◌≢◌, ◌↔◌, ◌⊎◌, ◌≤◌, ◌∷◌, ◌++◌, [], List, length, None, Some, Ok, Err, IfOk, IfErr, OnOk, IsErrOf, MatchResult};
ghost use Rattle.cache_key.specs.Names.{most_pairs};
ghost use Rattle.cache_key.specs.declared.request.Mutation.{Mutation};
ghost use Rattle.record_form.specs.declared.fault.RecordFault.{RecordFault};
ghost use Rattle.record_form.specs.declared.fault.RecordFault.TheVariants.{NoMemory};
ghost use Rattle.record_form.specs.Form.{many};
ghost use Rattle.record_form.specs.Reads.{MakesField, Refuses};
ghost use Rattle.record_form.specs.GroupText.{name_form, key_form, value_form, pair_form, pairs_form, fields_of, mutation_form, group_form, most_group_bytes, IsGroupText};
ghost use Rattle.record_form.specs.GroupFault.{group_at, group_fault};

use crate::check_group::check_group;
use crate::fault::RecordFault;
use crate::group::{
    DESTROY_TAG, ENSURE_TAG, Group, MOST_MUTATIONS, PUT_TAG, REMOVE_TAG, TRUNCATE_TAG,
};
use crate::read_text::{count, key_text, name_text, tag, value_text};
use byte_fields::Cursor;
use cache_key::{CacheName, Key, MOST_PAIRS, Mutation, Pairs, Value};
use std::alloc::Global;

/// The group that these bytes spell, all of them, however many they are.
///
/// All bytes are judged before memory is taken for the mutations. No text is copied twice. Of a payload of more than 8,388,608
/// bytes no more are looked at, and its fault is `Range(8388608)` where there is none before.
pub fn decode_group(alloc: Global, payload: &[u8]) -> Result<Group, RecordFault>
    ensures text { IfOk result (λ group. IsGroupText payload.now group) }
    ensures value { (mutations : List Mutation) → IsGroupText payload.now mutations → (result ≡ Ok mutations) ⊎ (result ≡ Err NoMemory) }
    ensures fault_at { (fault : RecordFault) → fault ≢ NoMemory → (IsErrOf result fault ↔ (group_fault payload.now ≡ Some fault)) }
    ensures no_memory { IsErrOf result NoMemory → group_fault payload.now ≡ None }
{
    checked_group(alloc, payload)
}

fn checked_group(alloc: Global, payload: &[u8]) -> Result<Group, RecordFault>
    ensures decoded { MatchResult result
        (λ group. (group_at payload.now ≡ Ok group) × (length payload.now ≤ most_group_bytes))
        (λ fault. (group_fault payload.now ≡ Some fault) ⊎ ((group_fault payload.now ≡ None) × (fault ≡ NoMemory))) }
{
    check_group(payload)?;
    let mutations = whole(alloc, payload)?;
    Ok(Group::read(mutations, payload.len() as u64))
}

/// The mutations of all the bytes.
#[tactic(auto, unfolding(crate::specs::GroupFault::group_at))]
fn whole(alloc: Global, payload: &[u8]) -> Result<Vec<Mutation>, RecordFault>
    ensures { MatchResult result
        (λ mutations. group_at payload.now ≡ Ok mutations.items)
        (λ fault. Refuses fault payload.now (group_at payload.now)) }
{
    let mut cursor = Cursor::over(payload);
    let mutations = counted(alloc, &mut cursor)?;
    if !cursor.is_at_end() {
        return Err(RecordFault::Range(cursor.at()));
    }
    Ok(mutations)
}

/// The mutations after their count.
fn counted(alloc: Global, cursor: &mut Cursor<'_>) -> Result<Vec<Mutation>, RecordFault>
    ensures { MakesField group_form.read (λ mutations. mutations.items) cursor.old cursor.new result }
{
    let count = count(cursor, 1, 1, MOST_MUTATIONS)?;
    mutations(alloc, cursor, count)
}

/// So many mutations.
fn mutations(
    alloc: Global,
    cursor: &mut Cursor<'_>,
    count: usize,
) -> Result<Vec<Mutation>, RecordFault>
    ensures { MakesField (many mutation_form count).read (λ mutations. mutations.items) cursor.old cursor.new result }
{
    let mut mutations = Vec::new(alloc);
    for _ in 0..count {
        let mutation = mutation(alloc, cursor)?;
        add(&mut mutations, mutation)?;
    }
    Ok(mutations)
}

/// Adds a mutation at the end.
fn add(mutations: &mut Vec<Mutation>, mutation: Mutation) -> Result<(), RecordFault>
    ensures ok { OnOk result (mutations.new.items ≡ mutations.old.items ++ mutation ∷ []) }
    ensures no_memory { IfErr result (λ fault. fault ≡ NoMemory) }
{
    match mutations.push(mutation) {
        Ok(()) => Ok(()),
        Err(_) => Err(RecordFault::NoMemory),
    }
}

fn mutation(alloc: Global, cursor: &mut Cursor<'_>) -> Result<Mutation, RecordFault>
    ensures { MakesField mutation_form.read (λ mutation. mutation) cursor.old cursor.new result }
{
    let tag = tag(cursor)?;
    fields(alloc, cursor, tag)
}

/// The mutation of this tag, from its fields.
fn fields(alloc: Global, cursor: &mut Cursor<'_>, tag: u8) -> Result<Mutation, RecordFault>
    ensures { MakesField (fields_of tag).read (λ mutation. mutation) cursor.old cursor.new result }
{
    let cache = name(alloc, cursor)?;
    match tag {
        PUT_TAG => {
            let (key, value) = pair(alloc, cursor)?;
            Ok(Mutation::Put(cache, key, value))
        }
        REMOVE_TAG => {
            let key = key(alloc, cursor)?;
            Ok(Mutation::Remove(cache, key))
        }
        ENSURE_TAG => Ok(Mutation::Ensure(cache)),
        TRUNCATE_TAG => Ok(Mutation::Truncate(cache)),
        DESTROY_TAG => Ok(Mutation::Destroy(cache)),
        _ => {
            let pairs = pairs(alloc, cursor)?;
            Ok(Mutation::Batch(cache, pairs))
        }
    }
}

fn name(alloc: Global, cursor: &mut Cursor<'_>) -> Result<CacheName, RecordFault>
    ensures { MakesField name_form.read (λ name. name) cursor.old cursor.new result }
{
    let text = name_text(cursor)?;
    CacheName::of(alloc, text).map_err(|_| RecordFault::NoMemory)
}

fn key(alloc: Global, cursor: &mut Cursor<'_>) -> Result<Key, RecordFault>
    ensures { MakesField key_form.read (λ key. key) cursor.old cursor.new result }
{
    let text = key_text(cursor)?;
    Key::of(alloc, text).map_err(|_| RecordFault::NoMemory)
}

fn value(alloc: Global, cursor: &mut Cursor<'_>) -> Result<Value, RecordFault>
    ensures { MakesField value_form.read (λ value. value) cursor.old cursor.new result }
{
    let text = value_text(cursor)?;
    Value::of(alloc, text).map_err(|_| RecordFault::NoMemory)
}

/// A key and its value.
fn pair(alloc: Global, cursor: &mut Cursor<'_>) -> Result<(Key, Value), RecordFault>
    ensures { MakesField pair_form.read (λ pair. pair) cursor.old cursor.new result }
{
    let key = key(alloc, cursor)?;
    let value = value(alloc, cursor)?;
    Ok((key, value))
}

/// The pairs after their count.
fn pairs(alloc: Global, cursor: &mut Cursor<'_>) -> Result<Pairs, RecordFault>
    ensures { MakesField pairs_form.read (λ pairs. pairs) cursor.old cursor.new result }
{
    let count = count(cursor, 1, 1, MOST_PAIRS)?;
    each_pair(alloc, cursor, count)
}

/// So many pairs.
fn each_pair(alloc: Global, cursor: &mut Cursor<'_>, count: usize) -> Result<Pairs, RecordFault>
    requires { count ≤ most_pairs }
    ensures { MakesField (many pair_form count).read (λ pairs. pairs) cursor.old cursor.new result }
{
    let mut pairs = Pairs::new(alloc);
    for _ in 0..count {
        let (key, value) = pair(alloc, cursor)?;
        add_pair(&mut pairs, key, value)?;
    }
    Ok(pairs)
}

/// Adds a pair at the end.
fn add_pair(pairs: &mut Pairs, key: Key, value: Value) -> Result<(), RecordFault>
    ensures ok { OnOk result (pairs.new ≡ pairs.old ++ (key, value) ∷ []) }
    ensures no_memory { IfErr result (λ fault. fault ≡ NoMemory) }
{
    match pairs.push(key, value) {
        Ok(()) => Ok(()),
        // No more pairs are read than there is room for.
        Err(_) => Err(RecordFault::NoMemory),
    }
}
