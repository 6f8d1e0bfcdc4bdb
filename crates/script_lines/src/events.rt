//! Reading the events of a command.
ghost use Rattle.serde_json.specs.View.{view, items_view};
ghost use Rattle.serde_json.specs.Data.{array};
ghost use Rattle.script_lines.specs.Reading.{Reads, IsAsked, IsEventOf, AreEventsOf};

use crate::command::{Event, Events};
use crate::fault::LineFault;
use crate::reason::{EventName, LineReason, Part};
use crate::requests::{
    destroy_of, ensure_of, get_of, put_all_of, put_of, remove_of, renew_of, size_of, truncate_of,
};
use cache_key::Excerpt;
use serde_json::Value as Json;
use std::alloc::Global;

/// The events of a list.
pub(crate) fn events_of(alloc: Global, value: Json) -> Result<Events, LineFault>
    ensures { Reads (AreEventsOf (view value)) result }
{
    let Json::Array(items) = value else {
        return Err(LineFault::Form {
            reason: LineReason::NotList { part: Part::Events },
        });
    };
    listed_events(alloc, items)
}

/// The events of the items of a list.
fn listed_events(alloc: Global, items: Vec<Json>) -> Result<Events, LineFault>
    ensures { Reads (AreEventsOf (array (items_view items.items))) result }
{
    let mut events = Vec::new(alloc);
    for item in items {
        let number = events.len() + 1;
        events.push(event_of(alloc, item, number)?)?;
    }
    Ok(Events::of(events))
}

/// The event of a list: its name, and the items after it. Its number, from 1, is for the reason of a fault.
fn event_of(alloc: Global, value: Json, event: usize) -> Result<Event, LineFault>
    ensures { Reads (IsEventOf (view value)) result }
{
    let Json::Array(mut items) = value else {
        return Err(LineFault::Form {
            reason: LineReason::NotList {
                part: Part::Event { event },
            },
        });
    };
    let Some((name, others)) = items.split_first_mut() else {
        return Err(LineFault::Form {
            reason: LineReason::EmptyEvent { event },
        });
    };
    let Some(word) = name.as_str() else {
        return Err(LineFault::Form {
            reason: LineReason::NotText {
                part: Part::EventName { event },
            },
        });
    };
    let Some(name) = EventName::of(word) else {
        return Err(LineFault::Form {
            reason: LineReason::UnknownEvent {
                event,
                found: Excerpt::of(word),
            },
        });
    };
    asked(alloc, name, others, event)
}

/// The event of this name, by the items after the name.
fn asked(
    alloc: Global,
    name: EventName,
    others: &mut [Json],
    event: usize,
) -> Result<Event, LineFault>
    ensures { Reads (IsAsked name (items_view others.old)) result }
{
    match name {
        EventName::Get => get_of(alloc, others, event),
        EventName::Put => put_of(alloc, others, event),
        EventName::Remove => remove_of(alloc, others, event),
        EventName::Size => size_of(alloc, others, event),
        EventName::Ensure => ensure_of(alloc, others, event),
        EventName::Truncate => truncate_of(alloc, others, event),
        EventName::Destroy => destroy_of(alloc, others, event),
        EventName::PutAll => put_all_of(alloc, others, event),
        EventName::Renew => renew_of(others, event),
    }
}
