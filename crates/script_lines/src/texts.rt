//! Reading names, keys and values.
ghost use Rattle.serde_json.specs.View.{view};
ghost use Rattle.cache_key.specs.Names.{IsName, IsKey, IsValue};
ghost use Rattle.script_lines.specs.Reading.{Reads, IsTextOf, IsOnlyHostOf};

use crate::explain::text_fault;
use crate::fault::LineFault;
use crate::reason::{LineReason, Part};
use cache_key::{
    CacheName, HostName, Key, MOST_KEY_BYTES, MOST_NAME_BYTES, MOST_VALUE_BYTES, Value,
};
use serde_json::Value as Json;
use std::alloc::Global;

/// The name of a host. The part of the line that it stands in is for the reason of a fault.
pub(crate) fn host_of(alloc: Global, value: &Json, part: Part) -> Result<HostName, LineFault>
    ensures { Reads (IsTextOf IsName (view value.now)) result }
{
    let Some(text) = value.as_str() else {
        return Err(LineFault::Form {
            reason: LineReason::NotText { part },
        });
    };
    match HostName::of(alloc, text) {
        Ok(made) => Ok(made),
        Err(fault) => Err(text_fault(fault, text, MOST_NAME_BYTES, part)),
    }
}

/// The name of the one host of a list.
pub(crate) fn only_host_of(alloc: Global, value: &Json) -> Result<HostName, LineFault>
    ensures { Reads (IsOnlyHostOf (view value.now)) result }
{
    let Some(hosts) = value.as_array() else {
        return Err(LineFault::Form {
            reason: LineReason::NotList { part: Part::Hosts },
        });
    };
    match hosts.as_slice() {
        [host] => host_of(alloc, host, Part::OnlyHost),
        _ => Err(LineFault::Form {
            reason: LineReason::HostCount { count: hosts.len() },
        }),
    }
}

/// The name of a cache.
pub(crate) fn cache_of(alloc: Global, value: &Json, part: Part) -> Result<CacheName, LineFault>
    ensures { Reads (IsTextOf IsName (view value.now)) result }
{
    let Some(text) = value.as_str() else {
        return Err(LineFault::Form {
            reason: LineReason::NotText { part },
        });
    };
    match CacheName::of(alloc, text) {
        Ok(made) => Ok(made),
        Err(fault) => Err(text_fault(fault, text, MOST_NAME_BYTES, part)),
    }
}

/// A key.
pub(crate) fn key_of(alloc: Global, value: &Json, part: Part) -> Result<Key, LineFault>
    ensures { Reads (IsTextOf IsKey (view value.now)) result }
{
    let Some(text) = value.as_str() else {
        return Err(LineFault::Form {
            reason: LineReason::NotText { part },
        });
    };
    match Key::of(alloc, text) {
        Ok(made) => Ok(made),
        Err(fault) => Err(text_fault(fault, text, MOST_KEY_BYTES, part)),
    }
}

/// A value, which takes the text over. Takes no memory.
pub(crate) fn value_of(value: Json, part: Part) -> Result<Value, LineFault>
    ensures { Reads (IsTextOf IsValue (view value)) result }
{
    let Json::String(text) = value else {
        return Err(LineFault::Form {
            reason: LineReason::NotText { part },
        });
    };
    match Value::from_text(text) {
        Ok(made) => Ok(made),
        // it is too long, and that reason shows nothing of the text
        Err(fault) => Err(text_fault(fault, "", MOST_VALUE_BYTES, part)),
    }
}
