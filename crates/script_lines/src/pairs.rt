//! Reading the pairs of an event.
ghost use Rattle.serde_json.specs.View.{view, items_view};
ghost use Rattle.serde_json.specs.Data.{array};
ghost use Rattle.std.specs.Prelude.{◌≤◌, length};
ghost use Rattle.cache_key.specs.Names.{most_pairs};
ghost use Rattle.script_lines.specs.Reading.{Reads, IsPairOf, ArePairsOf};

use crate::fault::LineFault;
use crate::reason::{LineReason, Part};
use crate::texts::{key_of, value_of};
use cache_key::{Key, MOST_PAIRS, Pairs, Value};
use serde_json::Value as Json;
use std::alloc::Global;

/// The fewest pairs of an event.
const LEAST_PAIRS: usize = 1;

/// The pairs of a list, in their order. The event's number, from 1, is for the reason of a fault.
pub(crate) fn pairs_of(alloc: Global, value: Json, event: usize) -> Result<Pairs, LineFault>
    ensures { Reads (ArePairsOf (view value)) result }
{
    let Json::Array(items) = value else {
        return Err(LineFault::Form {
            reason: LineReason::NotList {
                part: Part::Pairs { event },
            },
        });
    };
    let count = items.len();
    if count < LEAST_PAIRS || count > MOST_PAIRS {
        return Err(LineFault::Form {
            reason: LineReason::PairCount { event, count },
        });
    }
    listed_pairs(alloc, items, event)
}

/// The pairs of the items of a list.
fn listed_pairs(alloc: Global, items: Vec<Json>, event: usize) -> Result<Pairs, LineFault>
    requires least { 1 ≤ length items.items }
    requires most { length items.items ≤ most_pairs }
    ensures { Reads (ArePairsOf (array (items_view items.items))) result }
{
    let mut pairs = Pairs::new(alloc);
    for item in items {
        let number = pairs.len() as usize + 1;
        let (key, value) = pair_of(alloc, item, event, number)?;
        // there is room: only memory can be missing
        let Ok(()) = pairs.push(key, value) else {
            return Err(LineFault::NoMemory);
        };
    }
    Ok(pairs)
}

/// The pair of a list. Its number and the event's, from 1, are for the reason of a fault.
fn pair_of(alloc: Global, value: Json, event: usize, pair: usize) -> Result<(Key, Value), LineFault>
    ensures { Reads (IsPairOf (view value)) result }
{
    let Json::Array(mut items) = value else {
        return Err(LineFault::Form {
            reason: LineReason::NotList {
                part: Part::Pair { event, pair },
            },
        });
    };
    let items = items.as_mut_slice();
    let [key, _] = &*items else {
        return Err(LineFault::Form {
            reason: LineReason::PairItemCount {
                event,
                pair,
                count: items.len(),
            },
        });
    };
    let key = key_of(alloc, key, Part::PairKey { event, pair })?;
    let value = value_of(items[1].take(), Part::PairValue { event, pair })?;
    Ok((key, value))
}
