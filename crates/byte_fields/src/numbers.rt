//! Numbers in the bytes of a text, the highest byte first.
ghost use Rattle.std.specs.Prelude.{◌≡◌, ◌+◌, ◌<◌, ◌≤◌, ◌^◌, length};
ghost use Rattle.byte_fields.specs.Numbers.{big_endian, bytes_of, number_in};

/// Reads the byte at an offset, from 0. Takes no memory.
pub fn u8_at(text: &[u8], offset: usize) -> u8
    requires { offset + 1 ≤ length text.now }
    ensures { result ≡ number_in text.now offset 1 }
{
    number_at(text, offset, 1) as u8
}

/// Reads the number of two bytes at an offset, from 0. Takes no memory.
pub fn u16_at(text: &[u8], offset: usize) -> u16
    requires { offset + 2 ≤ length text.now }
    ensures { result ≡ number_in text.now offset 2 }
{
    number_at(text, offset, 2) as u16
}

/// Reads the number of four bytes at an offset, from 0. Takes no memory.
pub fn u32_at(text: &[u8], offset: usize) -> u32
    requires { offset + 4 ≤ length text.now }
    ensures { result ≡ number_in text.now offset 4 }
{
    number_at(text, offset, 4) as u32
}

/// Reads the number of eight bytes at an offset, from 0. Takes no memory.
pub fn u64_at(text: &[u8], offset: usize) -> u64
    requires { offset + 8 ≤ length text.now }
    ensures { result ≡ number_in text.now offset 8 }
{
    number_at(text, offset, 8)
}

/// The number of so many bytes at an offset.
fn number_at(text: &[u8], offset: usize, size: usize) -> u64
    requires size { size ≤ 8 }
    requires within { offset + size ≤ length text.now }
    ensures value { result ≡ number_in text.now offset size }
    ensures below { result < 256 ^ size }
{
    let rest = &text[offset..];
    number_of(&rest[..size])
}

/// The number that bytes spell.
pub(crate) fn number_of(bytes: &[u8]) -> u64
    requires { length bytes.now ≤ 8 }
    ensures value { result ≡ big_endian bytes.now }
    ensures text { bytes_of (length bytes.now) result ≡ bytes.now }
    ensures below { result < 256 ^ length bytes.now }
{
    let mut number = 0;
    for byte in bytes {
        number = number * 256 + u64::from(*byte);
    }
    number
}
