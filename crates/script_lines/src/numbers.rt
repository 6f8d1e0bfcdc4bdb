//! Reading numbers.
ghost use Rattle.serde_json.specs.View.{view};
ghost use Rattle.script_lines.specs.Reading.{Reads, IsPartitionOf};

use crate::fault::LineFault;
use crate::reason::{LineReason, Part};
use serde_json::Value as Json;

/// The number of a partition. The part of the line that it stands in is for the reason of a fault. Takes no memory.
pub(crate) fn partition_of(value: &Json, part: Part) -> Result<u16, LineFault>
    ensures { Reads (IsPartitionOf (view value.now)) result }
{
    match value.as_u64() {
        Some(number) if number <= u16::MAX as u64 => Ok(number as u16),
        _ => Err(LineFault::Form {
            reason: LineReason::NotNumber { part },
        }),
    }
}
