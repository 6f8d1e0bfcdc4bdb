//! Keys and values: UTF-8 text with a limit.
ghost use Rattle.std.specs.Prelude.{◌≡◌, ◌≢◌, ℕ, ◌<◌, ◌≤◌, ◌↔◌, [], length, IfOk, OnOk, IsErrOf};
ghost use Rattle.std.specs.String.{string_bytes};
ghost use Rattle.cache_key.specs.Names.{most_key_bytes, most_value_bytes, IsKey, IsValue};

use crate::fault::NameFault;
use crate::limits::{MOST_KEY_BYTES, MOST_VALUE_BYTES};
use crate::text::{Limits, Text};
use std::alloc::Global;

/// The kind of the keys.
pub struct Keys;

/// The kind of the values.
pub struct Values;

/// A key of a cache.
pub type Key = Text<Keys>;

/// The value at a key.
pub type Value = Text<Values>;

impl Limits for Keys {
    ghost keeps_limits = { IsKey };
}

impl Limits for Values {
    ghost keeps_limits = { IsValue };
}

impl Text<Keys> {
    /// Makes a key of its text.
    ///
    /// Takes memory for the copy.
    pub fn of(alloc: Global, text: &str) -> Result<Self, NameFault>
        ensures ok { IfOk result (λ key. key ≡ text.now) }
        ensures limits { OnOk result (IsKey text.now) }

        // the refusals, in the order in which they are judged
        ensures empty { IsErrOf result NameFault.Empty ↔ (text.now ≡ []) }
        ensures long { IsErrOf result NameFault.Long ↔ (most_key_bytes < length text.now) }
        ensures no_bad_byte { (at : ℕ) → ¬ IsErrOf result (NameFault.BadByte at) }
    {
        if text.is_empty() {
            return Err(NameFault::Empty);
        }
        if text.len() > MOST_KEY_BYTES {
            return Err(NameFault::Long);
        }
        Ok(Text::over(String::from_str(alloc, text)?))
    }
}

impl Text<Values> {
    /// Makes a value of its text, which may be empty.
    ///
    /// Takes memory for the copy.
    pub fn of(alloc: Global, text: &str) -> Result<Self, NameFault>
        ensures ok { IfOk result (λ value. value ≡ text.now) }
        ensures limits { OnOk result (IsValue text.now) }
        ensures long { IsErrOf result NameFault.Long ↔ (most_value_bytes < length text.now) }
        ensures never_empty { ¬ IsErrOf result NameFault.Empty }
        ensures no_bad_byte { (at : ℕ) → ¬ IsErrOf result (NameFault.BadByte at) }
    {
        if text.len() > MOST_VALUE_BYTES {
            return Err(NameFault::Long);
        }
        Ok(Text::over(String::from_str(alloc, text)?))
    }

    /// Makes a value of its text, which it takes over. It may be empty.
    ///
    /// Takes no memory. A text that is refused is dropped.
    pub fn from_text(text: String) -> Result<Self, NameFault>
        ensures ok { IfOk result (λ value. value ≡ string_bytes text) }
        ensures limits { OnOk result (IsValue (string_bytes text)) }
        ensures long { IsErrOf result NameFault.Long ↔ (most_value_bytes < length (string_bytes text)) }
        ensures never_empty { ¬ IsErrOf result NameFault.Empty }
        ensures no_bad_byte { (at : ℕ) → ¬ IsErrOf result (NameFault.BadByte at) }
        ensures takes_no_memory { result ≢ Err NameFault.NoMemory }
    {
        if text.len() <= MOST_VALUE_BYTES {
            Ok(Text::over(text))
        } else {
            Err(NameFault::Long)
        }
    }
}
