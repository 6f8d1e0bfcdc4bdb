//! The names of a roster's file, judged.
ghost use Rattle.std.specs.Prelude.{◌≡◌, ◌≤◌, ◌<◌, ◌+◌, [], length, drop, None};
ghost use Rattle.cache_key.specs.Names.{most_name_bytes};
ghost use Rattle.record_form.specs.Characters.{name_prefix_length};
ghost use Rattle.seal_gate.specs.Seal.{header_end};
ghost use Rattle.roster_form.specs.RosterFault.{name_bytes_fault, name_fault, names_fault, first_name, after_name};

use crate::roster::NAMES_OFFSET;
use cache_key::{MOST_NAME_BYTES, is_in_alphabet};
use std::cmp::Ordering;

/// Where so many names are wrong, or a byte stands after them.
pub(crate) fn names_fault(text: &[u8], count: u8) -> Option<u64>
    requires { header_end ≤ length text.now }
    ensures { result ≡ names_fault count [] header_end (drop header_end text.now) }
{
    let mut at = NAMES_OFFSET;
    let mut earlier: &[u8] = &[];
    for _ in 0..count {
        let rest = &text[at..];
        if let Some(fault) = name_fault(earlier, rest) {
            return Some(at as u64 + u64::from(fault));
        }
        earlier = first_name(rest);
        at += 1 + earlier.len();
    }
    if at < text.len() {
        return Some(at as u64);
    }
    None
}

/// Where the first name of these bytes, after its length, is wrong. It has to stand after the earlier one in byte order.
fn name_fault(earlier: &[u8], bytes: &[u8]) -> Option<u8>
    ensures { result ≡ name_fault earlier.now bytes.now }
{
    match bytes {
        [] => Some(0),
        [count, after @ ..] => {
            let count = usize::from(*count);
            if count < 1 || count > MOST_NAME_BYTES {
                return Some(0);
            }
            name_bytes_fault(earlier, count, &after[..count.min(after.len())])
        }
    }
}

/// Where the bytes of a name are wrong, of which these are there.
fn name_bytes_fault(earlier: &[u8], count: usize, there: &[u8]) -> Option<u8>
    requires { length there.now ≤ most_name_bytes }
    ensures { result ≡ name_bytes_fault earlier.now count there.now }
{
    let good = name_prefix_length(there);
    if good < there.len() {
        return Some(1 + good as u8);
    }
    if there.len() < count {
        return Some(1 + there.len() as u8);
    }
    match earlier.cmp(there) {
        Ordering::Less => None,
        _ => Some(0),
    }
}

/// The first name of bytes that begin with one after its length.
fn first_name(bytes: &[u8]) -> &[u8]
    ensures { result.now ≡ first_name bytes.now }
{
    match bytes {
        [] => bytes,
        [count, after @ ..] => &after[..usize::from(*count).min(after.len())],
    }
}

/// How many bytes of the alphabet of names stand at the beginning.
#[tactic(auto, using(record_form::proofs::NameLemmas::prefix_more, record_form::proofs::NameLemmas::prefix_stops, record_form::proofs::NameLemmas::prefix_ends))]
fn name_prefix_length(bytes: &[u8]) -> usize
    ensures { result ≡ name_prefix_length bytes.now }
{
    let mut count = 0;
    while count < bytes.len() && is_in_alphabet(bytes[count]) {
        count += 1;
    }
    count
}
