//! The limits of names, keys, values and lists of pairs.
ghost use Rattle.std.specs.Prelude.{◌≡◌};
ghost use Rattle.cache_key.specs.Names.{is_name_byte};

/// The most bytes of the name of a cache, a host or a snapshot.
pub const MOST_NAME_BYTES: usize = 64;

/// The most bytes of a key.
pub const MOST_KEY_BYTES: usize = 1_024;

/// The most bytes of a value.
pub const MOST_VALUE_BYTES: usize = 65_536;

/// The most pairs of a list.
pub const MOST_PAIRS: usize = 64;

/// Whether a name may have this byte: an ASCII letter, a digit, `_`, `.` or `-`.
pub fn is_in_alphabet(byte: u8) -> bool
    ensures { result ≡ is_name_byte byte }
{
    byte.is_ascii_alphanumeric() || byte == b'_' || byte == b'.' || byte == b'-'
}
