//! The number that a text begins with.
ghost use Rattle.std.specs.Prelude.{◌≡◌, ℕ, ◌≤◌, MatchOption};
ghost use Rattle.std.specs.Char.{digit_value};
ghost use Rattle.store_ident.specs.Numbers.{IsDigit};
ghost use Rattle.store_ident.specs.Reading.{IsLeading};

/// The digit that begins no number of several digits.
const ZERO: u8 = b'0';

/// The number that a text begins with, by its digits.
#[derive(Clone, Copy)]
pub(crate) struct Leading {
    /// How many bytes its text has, 0 if the text begins with no number.
    pub(crate) length: usize,
    /// Its value. From 2^64 - 1 on it stays there.
    pub(crate) value: u64,
}

/// The longest number that the text begins with.
pub(crate) fn leading_number(text: &[u8], base: u32) -> Leading
    requires least { 2 ≤ base }
    requires most { base ≤ 16 }
    ensures { IsLeading base text.now result }
{
    let mut value = 0u64;
    for (length, byte) in text.iter().enumerate() {
        let Some(digit) = digit_of(base, *byte) else {
            return Leading { length, value };
        };
        // a zero stands alone
        if length > 0 && text[0] == ZERO {
            return Leading { length, value };
        }
        value = value
            .saturating_mul(u64::from(base))
            .saturating_add(u64::from(digit));
    }
    Leading {
        length: text.len(),
        value,
    }
}

/// The value of a digit. Upper-case letters are no digits.
fn digit_of(base: u32, byte: u8) -> Option<u32>
    requires least { 2 ≤ base }
    requires most { base ≤ 16 }
    ensures { MatchOption result (IsDigit base byte → ⊥) (λ digit. IsDigit base byte × (digit ≡ digit_value byte)) }
{
    if byte.is_ascii_uppercase() {
        return None;
    }
    char::from(byte).to_digit(base)
}
