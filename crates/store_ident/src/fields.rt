//! The four numbers of a text, and the first offset at which it leaves the form.
ghost use Rattle.std.specs.Prelude.{◌≡◌, ℕ, ◌≤◌, ◌<◌, ◌^◌, length, MatchResult};
ghost use Rattle.store_ident.specs.Reading.{IsField, IsNoField, IsLastField, IsNoLastField, IsWithin, IsNotWithin};

use crate::fault::IdFault;
use crate::number::leading_number;

/// A number in a text.
#[derive(Clone, Copy)]
pub(crate) struct Field {
    /// The offset of its first digit.
    pub(crate) from: usize,
    /// The offset of what comes after it and its dash.
    pub(crate) next: usize,
    /// Its value. From 2^64 - 1 on it stays there.
    pub(crate) value: u64,
}

/// The number at an offset, with a dash after it.
pub(crate) fn next_field(text: &[u8], from: usize, base: u32) -> Result<Field, IdFault>
    requires within { from ≤ length text.now }
    requires least { 2 ≤ base }
    requires most { base ≤ 16 }
    ensures { MatchResult result (IsField base text.now from) (IsNoField base text.now from) }
{
    let rest = &text[from..];
    let number = leading_number(rest, base);
    let end = from + number.length;
    if number.length == 0 || end == text.len() || text[end] != b'-' {
        return Err(IdFault::Form { at: end as u64 });
    }
    Ok(Field {
        from,
        next: end + 1,
        value: number.value,
    })
}

/// The number at an offset, with which the text ends.
pub(crate) fn last_field(text: &[u8], from: usize, base: u32) -> Result<Field, IdFault>
    requires within { from ≤ length text.now }
    requires least { 2 ≤ base }
    requires most { base ≤ 16 }
    ensures { MatchResult result (IsLastField base text.now from) (IsNoLastField base text.now from) }
{
    let rest = &text[from..];
    let number = leading_number(rest, base);
    let end = from + number.length;
    if number.length == 0 || end < text.len() {
        return Err(IdFault::Form { at: end as u64 });
    }
    Ok(Field {
        from,
        next: end,
        value: number.value,
    })
}

/// The value of a number, if it is in this range.
pub(crate) fn within(field: Field, least: u64, most: u64) -> Result<u64, IdFault>
    ensures { MatchResult result (IsWithin field least most) (IsNotWithin field least most) }
{
    if field.value < least || field.value > most {
        return Err(IdFault::Range {
            at: field.from as u64,
        });
    }
    Ok(field.value)
}
