//! The tags, counts and texts of a group, at a cursor's offset.
ghost use Rattle.std.specs.Prelude.{◌≡◌, ◌-◌, ◌≤◌, take, drop, length, All, None, IfOk};
ghost use Rattle.byte_fields.specs.Reading.{rest_of};
ghost use Rattle.cache_key.specs.Names.{IsNameByte, most_value_bytes};
ghost use Rattle.std.specs.Str.{IsUtf8};
ghost use Rattle.std.specs.Str.Lossy.{utf8_valid_len};
ghost use Rattle.record_form.specs.Form.{OutOfRange, BadTag, NameText, Utf8Text, headed, characters_at, characters};
ghost use Rattle.record_form.specs.Characters.{name_prefix_length, first_bad_in_name, may_continue, completes, first_bad_in_utf8};
ghost use Rattle.record_form.specs.Reads.{ReadsField, head_at};
ghost use Rattle.record_form.specs.GroupText.{is_within, name_form, key_form, value_form};

use crate::fault::RecordFault;
use crate::group::{BATCH_TAG, PUT_TAG};
use byte_fields::Cursor;
use cache_key::{MOST_KEY_BYTES, MOST_NAME_BYTES, MOST_VALUE_BYTES, is_in_alphabet};

/// The name after its length.
pub(crate) fn name_text<'a>(cursor: &mut Cursor<'a>) -> Result<&'a str, RecordFault>
    ensures { ReadsField name_form.read (λ name. name.now) cursor.old cursor.new result }
{
    let count = count(cursor, 1, 1, MOST_NAME_BYTES)?;
    name_characters(cursor, count)
}

/// The key after its length.
pub(crate) fn key_text<'a>(cursor: &mut Cursor<'a>) -> Result<&'a str, RecordFault>
    ensures { ReadsField key_form.read (λ key. key.now) cursor.old cursor.new result }
{
    text(cursor, 2, 1, MOST_KEY_BYTES)
}

/// The value after its length.
pub(crate) fn value_text<'a>(cursor: &mut Cursor<'a>) -> Result<&'a str, RecordFault>
    ensures { ReadsField value_form.read (λ value. value.now) cursor.old cursor.new result }
{
    text(cursor, 4, 0, MOST_VALUE_BYTES)
}

/// A count or a length in so many bytes, within its limits.
pub(crate) fn count(
    cursor: &mut Cursor<'_>,
    size: usize,
    least: usize,
    most: usize,
) -> Result<usize, RecordFault>
    requires size { size ≤ 4 }
    requires most { most ≤ most_value_bytes }
    ensures count { ReadsField (head_at size OutOfRange (is_within least most)) (λ n. n) cursor.old cursor.new result }
    ensures limits { IfOk result (λ n. (least ≤ n) × (n ≤ most)) }
{
    let offset = cursor.at();
    match cursor.number(size) {
        Ok(number) => {
            if number < least as u64 || number > most as u64 {
                return Err(RecordFault::Range(offset));
            }
            Ok(number as usize)
        }
        Err(short) => Err(RecordFault::Short(short.at)),
    }
}

/// The tag of a mutation.
pub(crate) fn tag(cursor: &mut Cursor<'_>) -> Result<u8, RecordFault>
    ensures tag { ReadsField (head_at 1 BadTag (is_within 1 6)) (λ n. n) cursor.old cursor.new result }
    ensures limits { IfOk result (λ n. (1 ≤ n) × (n ≤ 6)) }
{
    let offset = cursor.at();
    match cursor.u8() {
        Ok(tag) => {
            if tag < PUT_TAG || tag > BATCH_TAG {
                return Err(RecordFault::Tag(offset));
            }
            Ok(tag)
        }
        Err(short) => Err(RecordFault::Short(short.at)),
    }
}

/// A text of UTF-8 after its length in so many bytes.
fn text<'a>(
    cursor: &mut Cursor<'a>,
    size: usize,
    least: usize,
    most: usize,
) -> Result<&'a str, RecordFault>
    requires size { size ≤ 4 }
    requires most { most ≤ most_value_bytes }
    ensures { ReadsField (headed size OutOfRange (is_within least most) length (characters Utf8Text IsUtf8 first_bad_in_utf8 4)).read (λ text. text.now) cursor.old cursor.new result }
{
    let count = count(cursor, size, least, most)?;
    utf8_characters(cursor, count)
}

/// So many bytes of the alphabet of names.
fn name_characters<'a>(cursor: &mut Cursor<'a>, count: usize) -> Result<&'a str, RecordFault>
    ensures { ReadsField (characters NameText (All IsNameByte) first_bad_in_name 1 count).read (λ text. text.now) cursor.old cursor.new result }
{
    let prefix = prefix_of(cursor.rest(), count);
    let good = name_prefix_length(prefix);
    if good < prefix.len() {
        return Err(RecordFault::Name(cursor.at() + good as u64));
    }
    pass_text(cursor, count)
}

/// So many bytes of UTF-8. What is there is judged even where there are too few.
fn utf8_characters<'a>(cursor: &mut Cursor<'a>, count: usize) -> Result<&'a str, RecordFault>
    ensures { ReadsField (characters Utf8Text IsUtf8 first_bad_in_utf8 4 count).read (λ text. text.now) cursor.old cursor.new result }
{
    let prefix = prefix_of(cursor.rest(), count);
    let valid = valid_length(prefix);
    if !may_continue(&prefix[valid..], count - valid) {
        return Err(RecordFault::Name(cursor.at() + valid as u64));
    }
    pass_text(cursor, count)
}

/// Passes so many bytes, which are UTF-8 where they are all there.
fn pass_text<'a>(cursor: &mut Cursor<'a>, count: usize) -> Result<&'a str, RecordFault>
    requires { count ≤ length (rest_of cursor.now) → IsUtf8 (take count (rest_of cursor.now)) }
    ensures { ReadsField (characters_at None 0 count) (λ text. text.now) cursor.old cursor.new result }
{
    let offset = cursor.at();
    match cursor.pass(count) {
        Ok(bytes) => match std::str::from_utf8(bytes) {
            Ok(text) => Ok(text),
            Err(_) => Err(RecordFault::Name(offset)),
        },
        Err(short) => Err(RecordFault::Short(short.at)),
    }
}

/// So many bytes from the beginning, or all there are.
pub(crate) fn prefix_of(bytes: &[u8], count: usize) -> &[u8]
    ensures { result.now ≡ take count bytes.now }
{
    if bytes.len() < count {
        return bytes;
    }
    &bytes[..count]
}

/// How many bytes of the alphabet of names stand at the beginning.
#[tactic(auto, using(crate::proofs::NameLemmas::prefix_more, crate::proofs::NameLemmas::prefix_stops, crate::proofs::NameLemmas::prefix_ends))]
fn name_prefix_length(bytes: &[u8]) -> usize
    ensures prefix { result ≡ name_prefix_length bytes.now }
{
    let mut count = 0;
    while count < bytes.len() && is_in_alphabet(bytes[count]) {
        count += 1;
    }
    count
}

/// How many bytes from the beginning are UTF-8.
#[tactic(auto, using(crate::proofs::Utf8Lemmas::valid_all))]
fn valid_length(bytes: &[u8]) -> usize
    ensures valid { result ≡ utf8_valid_len bytes.now }
    ensures within { result ≤ length bytes.now }
{
    match std::str::from_utf8(bytes) {
        Ok(_) => bytes.len(),
        Err(fault) => fault.valid_up_to(),
    }
}

/// Whether bytes that begin with no whole character may begin one that has room in so many bytes.
fn may_continue(bytes: &[u8], room: usize) -> bool
    ensures { result ≡ may_continue bytes.now room }
{
    match bytes {
        [] => true,
        [a] => {
            completes(&[*a, 128], room)
                || completes(&[*a, 128, 128], room)
                || completes(&[*a, 160, 128], room)
                || completes(&[*a, 128, 128, 128], room)
                || completes(&[*a, 144, 128, 128], room)
        }
        [a, b] => completes(&[*a, *b, 128], room) || completes(&[*a, *b, 128, 128], room),
        [a, b, c] => completes(&[*a, *b, *c, 128], room),
        _ => false,
    }
}

/// Whether these bytes are UTF-8, and there is room for them.
#[tactic(auto, using(crate::proofs::Utf8Lemmas::not_utf8, crate::proofs::Utf8Lemmas::are_utf8))]
fn completes(bytes: &[u8], room: usize) -> bool
    ensures { result ≡ completes bytes.now room }
{
    bytes.len() <= room && std::str::from_utf8(bytes).is_ok()
}
