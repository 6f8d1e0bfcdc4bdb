//! The first sixteen bytes of a text, by which most texts are told apart.
ghost use Rattle.std.specs.Prelude.{◌≡◌, ℕ, ◌+◌, ◌<◌, ◌≤◌, ◌^◌, List, drop, slice_index_or};
ghost use Rattle.std.specs.Ordering.{nat_cmp};
ghost use Rattle.std.specs.Cmp.Lexicographic.{slice_cmp};
ghost use Rattle.std.specs.declared.cmp.Ordering.TheVariants.{Less, Greater};
ghost use Rattle.cache_key.specs.Leading.{spelt, IsLeadingOf};

use std::cmp::Ordering;

/// The first sixteen bytes as two numbers, the highest byte first. A byte past the end is 0.
#[derive(Clone, Copy)]
pub struct Leading {
    high: u64,
    low: u64,
}

impl Leading {
    /// That of these bytes.
    pub(crate) fn of(bytes: &[u8]) -> Self
        ensures { IsLeadingOf result bytes.now }
    {
        Leading {
            high: word_at(bytes, 0),
            low: word_at(bytes, 8),
        }
    }

    /// How texts compare that begin so, where these differ. Where they are equal, all bytes have to be compared.
    pub(crate) fn order(&self, other: &Leading) -> Ordering
        ensures less { result ≡ Less → (xs ys : List ℕ) → IsLeadingOf self.now xs → IsLeadingOf other.now ys → slice_cmp nat_cmp xs ys ≡ Less }
        ensures greater { result ≡ Greater → (xs ys : List ℕ) → IsLeadingOf self.now xs → IsLeadingOf other.now ys → slice_cmp nat_cmp xs ys ≡ Greater }
    {
        if self.high != other.high {
            return self.high.cmp(&other.high);
        }
        self.low.cmp(&other.low)
    }
}

// What eight bytes from an offset on spell.
fn word_at(bytes: &[u8], at: usize) -> u64
    requires { at ≤ 8 }
    ensures { result ≡ spelt 8 0 (drop at bytes.now) }
{
    half_at(bytes, at) * 0x1_0000_0000 + half_at(bytes, at + 4)
}

// What four bytes from an offset on spell.
fn half_at(bytes: &[u8], at: usize) -> u64
    requires { at ≤ 12 }
    ensures number { result ≡ spelt 4 0 (drop at bytes.now) }
    ensures below { result < 2 ^ 32 }
{
    let upper = byte_or_zero(bytes, at) * 256 + byte_or_zero(bytes, at + 1);
    let lower = byte_or_zero(bytes, at + 2) * 256 + byte_or_zero(bytes, at + 3);
    upper * 65_536 + lower
}

// The byte at an offset, and 0 past the end.
fn byte_or_zero(bytes: &[u8], at: usize) -> u64
    ensures byte { result ≡ slice_index_or bytes.now at 0 }
    ensures below { result < 256 }
{
    if at < bytes.len() {
        bytes[at] as u64
    } else {
        0
    }
}
