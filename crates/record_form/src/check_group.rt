//! Whether bytes are a group. They are judged from left to right, and nothing is made of them.
ghost use Rattle.std.specs.Prelude.{◌≡◌, true, None, Some, MatchResult};
ghost use Rattle.record_form.specs.Form.{many};
ghost use Rattle.record_form.specs.Reads.{Skips};
ghost use Rattle.record_form.specs.GroupText.{key_form, pair_form, pairs_form, fields_of, mutation_form, group_form};
ghost use Rattle.record_form.specs.GroupFault.{bytes_fault, or_too_long, group_fault};

use crate::fault::RecordFault;
use crate::group::{
    DESTROY_TAG, ENSURE_TAG, MOST_GROUP_BYTES, MOST_MUTATIONS, PUT_TAG, REMOVE_TAG, TRUNCATE_TAG,
};
use crate::read_text::{count, key_text, name_text, prefix_of, tag, value_text};
use byte_fields::Cursor;
use cache_key::MOST_PAIRS;

/// Judges a payload of any length. No more bytes are looked at than a group may have.
#[tactic(auto, using(crate::proofs::GroupFaultLemmas::short_judged))]
pub(crate) fn check_group(payload: &[u8]) -> Result<(), RecordFault>
    ensures { MatchResult result (λ done. group_fault payload.now ≡ None) (λ fault. group_fault payload.now ≡ Some fault) }
{
    let found = check_bytes(prefix_of(payload, MOST_GROUP_BYTES));
    if payload.len() > MOST_GROUP_BYTES {
        return Err(fault_before_limit(found));
    }
    found
}

/// The fault of a payload that is too long, of whose bytes within the limit this was found.
fn fault_before_limit(found: Result<(), RecordFault>) -> RecordFault
    ensures { MatchResult found (λ done. Some result ≡ or_too_long true None) (λ fault. Some result ≡ or_too_long true (Some fault)) }
{
    match found {
        Ok(()) | Err(RecordFault::Short(_)) => RecordFault::Range(MOST_GROUP_BYTES as u64),
        Err(fault) => fault,
    }
}

/// Judges bytes that are no more than a group may have.
#[tactic(auto, using(crate::proofs::SkipLemmas::none_left))]
fn check_bytes(bytes: &[u8]) -> Result<(), RecordFault>
    ensures { MatchResult result (λ done. bytes_fault bytes.now ≡ None) (λ fault. bytes_fault bytes.now ≡ Some fault) }
{
    let mut cursor = Cursor::over(bytes);
    check_counted(&mut cursor)?;
    let end = cursor.at();
    if !cursor.is_at_end() {
        return Err(RecordFault::Range(end));
    }
    Ok(())
}

/// Judges the count of the mutations, and each of them.
fn check_counted(cursor: &mut Cursor<'_>) -> Result<(), RecordFault>
    ensures { Skips group_form.read cursor.old cursor.new result }
{
    let count = count(cursor, 1, 1, MOST_MUTATIONS)?;
    check_mutations(cursor, count)
}

/// Judges so many mutations.
fn check_mutations(cursor: &mut Cursor<'_>, count: usize) -> Result<(), RecordFault>
    ensures { Skips (many mutation_form count).read cursor.old cursor.new result }
{
    for _ in 0..count {
        check_mutation(cursor)?;
    }
    Ok(())
}

fn check_mutation(cursor: &mut Cursor<'_>) -> Result<(), RecordFault>
    ensures { Skips mutation_form.read cursor.old cursor.new result }
{
    let tag = tag(cursor)?;
    check_fields(cursor, tag)
}

/// Judges the fields of a mutation of this tag.
fn check_fields(cursor: &mut Cursor<'_>, tag: u8) -> Result<(), RecordFault>
    ensures { Skips (fields_of tag).read cursor.old cursor.new result }
{
    name_text(cursor)?;
    match tag {
        PUT_TAG => check_pair(cursor),
        REMOVE_TAG => check_key(cursor),
        ENSURE_TAG | TRUNCATE_TAG | DESTROY_TAG => Ok(()),
        _ => check_pairs(cursor),
    }
}

fn check_key(cursor: &mut Cursor<'_>) -> Result<(), RecordFault>
    ensures { Skips key_form.read cursor.old cursor.new result }
{
    key_text(cursor)?;
    Ok(())
}

fn check_pair(cursor: &mut Cursor<'_>) -> Result<(), RecordFault>
    ensures { Skips pair_form.read cursor.old cursor.new result }
{
    key_text(cursor)?;
    value_text(cursor)?;
    Ok(())
}

/// Judges the count of the pairs, and each of them.
fn check_pairs(cursor: &mut Cursor<'_>) -> Result<(), RecordFault>
    ensures { Skips pairs_form.read cursor.old cursor.new result }
{
    let count = count(cursor, 1, 1, MOST_PAIRS)?;
    check_each_pair(cursor, count)
}

/// Judges so many pairs.
fn check_each_pair(cursor: &mut Cursor<'_>, count: usize) -> Result<(), RecordFault>
    ensures { Skips (many pair_form count).read cursor.old cursor.new result }
{
    for _ in 0..count {
        check_pair(cursor)?;
    }
    Ok(())
}
