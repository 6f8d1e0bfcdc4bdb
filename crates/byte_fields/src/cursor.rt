//! A text and an offset in it, read field by field.
ghost use Rattle.std.specs.Prelude.{◌≡◌, ◌↔◌, ℕ, ◌<◌, ◌≤◌, ◌^◌, List, [], ◌++◌, length, IsTrue, IsOk, IfOk, IsOkAnd, IfErr, OnErr};
ghost use Rattle.byte_fields.specs.Counted.{counted_text, counted8_text, counted16_text, counted32_text, counted_length};
ghost use Rattle.byte_fields.specs.Numbers.{bytes_of, bytes8, bytes16, bytes32, bytes64};
ghost use Rattle.byte_fields.specs.Reading.{rest_of, Passes};

use crate::fault::Short;
use crate::numbers::number_of;
use std::marker::Model;

/// Reads the fields of a text one after the other.
///
/// A read that answers `Short` leaves the cursor where it was. No call takes memory.
#[derive(Drop)]
pub struct Cursor<'a> {
    text: &'a [u8],
    offset: usize,
}

impl<'a> Model for Cursor<'a> {
    ghost use Rattle.std.specs.Prelude.{◌≤◌, length};
    ghost use Rattle.byte_fields.specs.Reading.{Reading};

    ghost Value = { Reading };

    ghost view = { λ c. record { text = c.text.now; offset = c.offset } };

    ghost invariant = { λ c. c.offset ≤ length c.text.now };
}

impl<'a> Cursor<'a> {
    /// Stands at the first byte of a text, offset 0.
    pub fn over(text: &'a [u8]) -> Cursor<'a>
        ensures { result ≡ record { text = text.now; offset = 0 } }
    {
        Cursor { text, offset: 0 }
    }

    /// Its offset, from 0: how many bytes it has passed.
    pub fn at(&self) -> u64
        ensures offset { result ≡ self.now.offset }
        ensures within { self.now.offset ≤ length self.now.text }
    {
        self.offset as u64
    }

    /// Whether no byte is left.
    pub fn is_at_end(&self) -> bool
        ensures { IsTrue result ↔ (rest_of self.now ≡ []) }
    {
        self.text[self.offset..].is_empty()
    }

    /// What is left of the text. The cursor stays where it is.
    pub fn rest(&self) -> &'a [u8]
        ensures rest { result.now ≡ rest_of self.now }
        ensures fits { length self.now.text < 2 ^ 63 }
    {
        &self.text[self.offset..]
    }

    /// Reads a number of one byte.
    pub fn u8(&mut self) -> Result<u8, Short>
        ensures ok { IsOk result ↔ (1 ≤ length (rest_of self.old)) }
        ensures text { IfOk result (λ number.
            (number < 2 ^ 8) × Passes self.old self.new (bytes8 number)) }
        ensures value { (number : ℕ) (after : List ℕ) → number < 2 ^ 8
            → rest_of self.old ≡ bytes8 number ++ after
            → (result ≡ Ok number) × (rest_of self.new ≡ after) }
        ensures fault_at { IfErr result (λ short. short.at ≡ length self.old.text) }
        ensures unchanged { OnErr result (self.new ≡ self.old) }
    {
        Ok(self.number(1)? as u8)
    }

    /// Reads a number of two bytes, the highest first.
    pub fn u16(&mut self) -> Result<u16, Short>
        ensures ok { IsOk result ↔ (2 ≤ length (rest_of self.old)) }
        ensures text { IfOk result (λ number.
            (number < 2 ^ 16) × Passes self.old self.new (bytes16 number)) }
        ensures value { (number : ℕ) (after : List ℕ) → number < 2 ^ 16
            → rest_of self.old ≡ bytes16 number ++ after
            → (result ≡ Ok number) × (rest_of self.new ≡ after) }
        ensures fault_at { IfErr result (λ short. short.at ≡ length self.old.text) }
        ensures unchanged { OnErr result (self.new ≡ self.old) }
    {
        Ok(self.number(2)? as u16)
    }

    /// Reads a number of four bytes, the highest first.
    pub fn u32(&mut self) -> Result<u32, Short>
        ensures ok { IsOk result ↔ (4 ≤ length (rest_of self.old)) }
        ensures text { IfOk result (λ number.
            (number < 2 ^ 32) × Passes self.old self.new (bytes32 number)) }
        ensures value { (number : ℕ) (after : List ℕ) → number < 2 ^ 32
            → rest_of self.old ≡ bytes32 number ++ after
            → (result ≡ Ok number) × (rest_of self.new ≡ after) }
        ensures fault_at { IfErr result (λ short. short.at ≡ length self.old.text) }
        ensures unchanged { OnErr result (self.new ≡ self.old) }
    {
        Ok(self.number(4)? as u32)
    }

    /// Reads a number of eight bytes, the highest first.
    pub fn u64(&mut self) -> Result<u64, Short>
        ensures ok { IsOk result ↔ (8 ≤ length (rest_of self.old)) }
        ensures text { IfOk result (λ number.
            (number < 2 ^ 64) × Passes self.old self.new (bytes64 number)) }
        ensures value { (number : ℕ) (after : List ℕ) → number < 2 ^ 64
            → rest_of self.old ≡ bytes64 number ++ after
            → (result ≡ Ok number) × (rest_of self.new ≡ after) }
        ensures fault_at { IfErr result (λ short. short.at ≡ length self.old.text) }
        ensures unchanged { OnErr result (self.new ≡ self.old) }
    {
        self.number(8)
    }

    /// Reads a number of so many bytes, the highest first.
    pub fn number(&mut self, size: usize) -> Result<u64, Short>
        requires { size ≤ 8 }
        ensures ok { IsOk result ↔ (size ≤ length (rest_of self.old)) }
        ensures text { IfOk result (λ number.
            (number < 256 ^ size) × Passes self.old self.new (bytes_of size number)) }
        ensures value { (number : ℕ) (after : List ℕ) → number < 256 ^ size
            → rest_of self.old ≡ bytes_of size number ++ after
            → (result ≡ Ok number) × (rest_of self.new ≡ after) }
        ensures fault_at { IfErr result (λ short. short.at ≡ length self.old.text) }
        ensures unchanged { OnErr result (self.new ≡ self.old) }
    {
        let bytes = self.pass(size)?;
        Ok(number_of(bytes))
    }

    /// Reads a length of one byte and so many bytes, and answers these.
    pub fn counted8(&mut self) -> Result<&'a [u8], Short>
        ensures ok { IsOk result
            ↔ (counted_length 1 (rest_of self.old) ≤ length (rest_of self.old)) }
        ensures text { IfOk result (λ bytes.
            (length bytes.now < 2 ^ 8) × Passes self.old self.new (counted8_text bytes.now)) }
        ensures value { (bytes after : List ℕ) → length bytes < 2 ^ 8
            → rest_of self.old ≡ counted8_text bytes ++ after
            → IsOkAnd result (λ found. found.now ≡ bytes) × (rest_of self.new ≡ after) }
        ensures fault_at { IfErr result (λ short. short.at ≡ length self.old.text) }
        ensures unchanged { OnErr result (self.new ≡ self.old) }
    {
        self.counted(1)
    }

    /// Reads a length of two bytes, the highest first, and so many bytes, and answers these.
    pub fn counted16(&mut self) -> Result<&'a [u8], Short>
        ensures ok { IsOk result
            ↔ (counted_length 2 (rest_of self.old) ≤ length (rest_of self.old)) }
        ensures text { IfOk result (λ bytes.
            (length bytes.now < 2 ^ 16) × Passes self.old self.new (counted16_text bytes.now)) }
        ensures value { (bytes after : List ℕ) → length bytes < 2 ^ 16
            → rest_of self.old ≡ counted16_text bytes ++ after
            → IsOkAnd result (λ found. found.now ≡ bytes) × (rest_of self.new ≡ after) }
        ensures fault_at { IfErr result (λ short. short.at ≡ length self.old.text) }
        ensures unchanged { OnErr result (self.new ≡ self.old) }
    {
        self.counted(2)
    }

    /// Reads a length of four bytes, the highest first, and so many bytes, and answers these.
    pub fn counted32(&mut self) -> Result<&'a [u8], Short>
        ensures ok { IsOk result
            ↔ (counted_length 4 (rest_of self.old) ≤ length (rest_of self.old)) }
        ensures text { IfOk result (λ bytes.
            (length bytes.now < 2 ^ 32) × Passes self.old self.new (counted32_text bytes.now)) }
        ensures value { (bytes after : List ℕ) → length bytes < 2 ^ 32
            → rest_of self.old ≡ counted32_text bytes ++ after
            → IsOkAnd result (λ found. found.now ≡ bytes) × (rest_of self.new ≡ after) }
        ensures fault_at { IfErr result (λ short. short.at ≡ length self.old.text) }
        ensures unchanged { OnErr result (self.new ≡ self.old) }
    {
        self.counted(4)
    }

    /// Passes so many bytes, and answers them.
    pub fn pass(&mut self, count: usize) -> Result<&'a [u8], Short>
        ensures ok { IsOk result ↔ (count ≤ length (rest_of self.old)) }
        ensures text { IfOk result (λ bytes. Passes self.old self.new bytes.now) }
        ensures size { IfOk result (λ bytes. length bytes.now ≡ count) }
        ensures fault_at { IfErr result (λ short. short.at ≡ length self.old.text) }
        ensures unchanged { OnErr result (self.new ≡ self.old) }
    {
        let rest = &self.text[self.offset..];
        if rest.len() < count {
            return Err(Short {
                at: self.text.len() as u64,
            });
        }
        self.offset += count;
        Ok(&rest[..count])
    }

    /// Reads a length of so many bytes and as many bytes as it says.
    #[tactic(auto, using(crate::proofs::ReadingLemmas::counted_sizes))]
    fn counted(&mut self, size: usize) -> Result<&'a [u8], Short>
        requires { size ≤ 8 }
        ensures ok { IsOk result
            ↔ (counted_length size (rest_of self.old) ≤ length (rest_of self.old)) }
        ensures text { IfOk result (λ bytes.
            (length bytes.now < 256 ^ size) × Passes self.old self.new (counted_text size bytes.now)) }
        ensures value { (bytes after : List ℕ) → length bytes < 256 ^ size
            → rest_of self.old ≡ counted_text size bytes ++ after
            → IsOkAnd result (λ found. found.now ≡ bytes) × (rest_of self.new ≡ after) }
        ensures fault_at { IfErr result (λ short. short.at ≡ length self.old.text) }
        ensures unchanged { OnErr result (self.new ≡ self.old) }
    {
        // Where the bytes are too few, the length isn't passed either.
        let mut ahead = self.ahead();
        let count = ahead.number(size)?;
        let bytes = ahead.pass(count as usize)?;
        *self = ahead;
        Ok(bytes)
    }

    /// Another cursor at the same offset of the same text.
    fn ahead(&self) -> Cursor<'a>
        ensures { result ≡ self.now }
    {
        Cursor {
            text: self.text,
            offset: self.offset,
        }
    }
}
