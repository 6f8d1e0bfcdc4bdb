//! The fields of a roster's file up to the names.
ghost use Rattle.std.specs.Prelude.{◌≡◌, ◌≤◌, ◌&&◌, ◌||◌, nat_lt, nat_le, ◌==◌, ◌+◌, ◌<◌, take, drop};
ghost use Rattle.byte_fields.specs.Numbers.{number_in};
ghost use Rattle.roster_form.specs.RosterFault.{is_epoch, is_joining, is_host_count, are_zeros, head_fields, first_wrong_field};

use crate::roster::{FORMAT, MAGIC, NONE_JOINING};
use byte_fields::Cursor;

/// Epochs are below this.
const EPOCH_END: u64 = 1 << 58;

/// The most hosts of a roster.
const MOST_HOSTS: u64 = 16;

/// A field of so many bytes at an offset, and whether its value may stand there.
#[derive(Clone, Copy, Drop)]
pub(crate) struct HeadField {
    at: u8,
    size: u8,
    right: bool,
}

/// Where the first field that is wrong begins, or the length where the text ends within it.
pub(crate) fn head_fault(text: &[u8], partitions: u16) -> Option<u64>
    ensures { result ≡ first_wrong_field text.now (head_fields partitions text.now) }
{
    first_wrong_field(text, &head_fields(text, partitions))
}

fn first_wrong_field(text: &[u8], fields: &[HeadField]) -> Option<u64>
    ensures { result ≡ first_wrong_field text.now fields.now }
{
    for field in fields {
        if text.len() < usize::from(field.at) + usize::from(field.size) {
            return Some(text.len() as u64);
        }
        if !field.right {
            return Some(u64::from(field.at));
        }
    }
    None
}

/// The fields from the first to the last. Of a text that ends within a field, the number is that of the bytes that are there.
fn head_fields(text: &[u8], partitions: u16) -> [HeadField; 11]
    ensures { result ≡ head_fields partitions text.now }
{
    let epoch = number(text, 9, 8);
    let joining = number(text, 17, 1);
    [
        field(0, 1, number(text, 0, 1) > 0),
        field(1, 4, number(text, 1, 4) == u64::from(MAGIC)),
        field(5, 2, number(text, 5, 2) == u64::from(FORMAT)),
        field(7, 2, number(text, 7, 2) == u64::from(partitions)),
        field(9, 8, is_epoch(epoch)),
        field(17, 1, is_joining(epoch, joining)),
        field(18, 1, is_host_count(joining, number(text, 18, 1))),
        field(19, 6, are_zeros(text, 19, 4, 2)),
        field(25, 2, number(text, 25, 2) == 0),
        field(27, 2, number(text, 27, 2) == 0),
        field(29, 12, are_zeros(text, 29, 8, 4)),
    ]
}

fn field(at: u8, size: u8, right: bool) -> HeadField
    ensures { result ≡ record { at = at; size = size; right = right } }
{
    HeadField { at, size, right }
}

/// Whether it may be an epoch.
fn is_epoch(number: u64) -> bool
    ensures { result ≡ is_epoch number }
{
    number >= 1 && number < EPOCH_END
}

/// Whether it may stand for the joining host beside this epoch.
fn is_joining(epoch: u64, number: u64) -> bool
    ensures { result ≡ is_joining epoch number }
{
    number == u64::from(NONE_JOINING) || (number < MOST_HOSTS && epoch < EPOCH_END - 1)
}

/// Whether it may be the count of hosts beside this joining host.
fn is_host_count(joining: u64, number: u64) -> bool
    ensures { result ≡ is_host_count joining number }
{
    (number >= 1 && number <= MOST_HOSTS)
        && (joining == u64::from(NONE_JOINING) || joining < number)
}

/// Whether the number of so many bytes and that of so many more after it are zero.
fn are_zeros(text: &[u8], at: u8, size: u8, more: u8) -> bool
    requires size { size ≤ 8 }
    requires more { more ≤ 8 }
    requires at { at ≤ 41 }
    ensures { result ≡ are_zeros text.now at size more }
{
    number(text, at, size) == 0 && number(text, at + size, more) == 0
}

/// The number of so many bytes at an offset, or of those of them that are there.
fn number(text: &[u8], at: u8, size: u8) -> u64
    requires { size ≤ 8 }
    ensures { result ≡ number_in text.now at size }
{
    let bytes = part(text, usize::from(at), usize::from(size));
    match Cursor::over(bytes).number(bytes.len()) {
        Ok(number) => number,
        Err(_) => unreachable!(),
    }
}

/// So many bytes at an offset, or those of them that are there.
fn part(text: &[u8], at: usize, size: usize) -> &[u8]
    ensures { result.now ≡ take size (drop at text.now) }
{
    let rest = &text[at.min(text.len())..];
    &rest[..size.min(rest.len())]
}
