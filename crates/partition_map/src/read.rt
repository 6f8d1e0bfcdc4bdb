//! What an extent has, if there is one.
ghost use Rattle.std.specs.Prelude.{◌≡◌, option_and_then};
ghost use Rattle.std.specs.Option.{option_copied, option_map_or};
ghost use Rattle.partition_map.specs.declared.extent.Extent.{Extent};
ghost use Rattle.partition_map.specs.Place.{value_at, value_count};

use crate::extent::Extent;
use cache_key::{Key, Value};

// The value at the key.
pub(crate) fn value_of<'a>(extent: Option<&'a Extent>, key: &Key) -> Option<&'a Value>
    ensures { option_copied result ≡ option_and_then (λ (e : Extent). value_at e.places key.now) (option_copied extent.entry) }
{
    match extent {
        Some(extent) => extent.value(key),
        None => None,
    }
}

// How many keys have a value.
pub(crate) fn count_of(extent: Option<&Extent>) -> u64
    ensures { result ≡ option_map_or (λ (e : Extent). value_count e.places) (option_copied extent.entry) 0 }
{
    match extent {
        Some(extent) => extent.count(),
        None => 0,
    }
}
