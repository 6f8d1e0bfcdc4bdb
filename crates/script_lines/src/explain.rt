//! Finds the reason for which a line is no command. No clause speaks of a reason: the callers' clauses say that the line
//! is no command.
ghost use Rattle.std.specs.Prelude.{◌≡◌};
ghost use Rattle.script_lines.specs.Faults.{IsFaultOf, IsFaultOfText, IsOfForm};

use crate::fault::LineFault;
use crate::reason::{CommandName, EventName, LineReason, MOST_DEPTH, Part};
use cache_key::{Excerpt, NameFault, TextReason};
use serde_json::Value as Json;

/// The fault of a line that is no JSON.
pub(crate) fn json_fault(line: &[u8], error: serde_json::Error) -> LineFault
    ensures { IsFaultOf error result }
{
    if error.is_memory() {
        return LineFault::NoMemory;
    }
    LineFault::Form {
        reason: json_reason(line, &error),
    }
}

/// The fault of a text, which may have `most` bytes.
pub(crate) fn text_fault(fault: NameFault, text: &str, most: usize, part: Part) -> LineFault
    ensures { IsFaultOfText fault result }
{
    match TextReason::of(fault, text, most) {
        Some(reason) => LineFault::Form {
            reason: LineReason::BadText { part, reason },
        },
        None => LineFault::NoMemory,
    }
}

/// Why a value that has no text `do` is no command.
pub(crate) fn unnamed_reason(value: &Json) -> LineReason {
    if !value.is_object() {
        return LineReason::NotObject;
    }
    match value.get("do") {
        Some(_) => LineReason::NotText { part: Part::Do },
        None => LineReason::Missing { part: Part::Do },
    }
}

/// Why an object with this `do` is no command, by this name or by its other members.
pub(crate) fn command_reason(name: &str, value: &Json) -> LineReason {
    let Some(command) = CommandName::of(name) else {
        return LineReason::UnknownCommand {
            found: Excerpt::of(name),
        };
    };
    let (member, part) = match command {
        CommandName::Create => ("host", Part::Host),
        CommandName::Recover => ("hosts", Part::Hosts),
        CommandName::Steps => ("events", Part::Events),
        // they have `do` alone
        CommandName::Dump | CommandName::Stop => ("do", Part::Do),
    };
    if value.get(member).is_none() {
        return LineReason::Missing { part };
    }
    LineReason::UnknownMember {
        command,
        found: unknown_member(value, member),
    }
}

/// The fault of an event that has another number of items after its name.
pub(crate) fn item_count(event: usize, name: EventName, others: &[Json]) -> LineFault
    ensures { IsOfForm result }
{
    LineFault::Form {
        reason: LineReason::ItemCount {
            event,
            name,
            count: others.len(),
        },
    }
}

/// The first member beside `do` and the wanted one.
fn unknown_member(value: &Json, wanted: &str) -> Excerpt {
    if let Some(members) = value.as_object() {
        for name in members.keys() {
            if name.as_str() != "do" && name.as_str() != wanted {
                return Excerpt::of(name.as_str());
            }
        }
    }
    Excerpt::of("")
}

/// Why the line is no JSON.
fn json_reason(line: &[u8], error: &serde_json::Error) -> LineReason {
    let text = line.trim_ascii_start();
    if line.starts_with(b"\xef\xbb\xbf") {
        return LineReason::ByteOrderMark;
    }
    if text.is_empty() {
        return LineReason::Blank;
    }
    if text.starts_with(b"#") || text.starts_with(b"//") {
        return LineReason::Comment;
    }
    if let Err(fault) = std::str::from_utf8(line) {
        return LineReason::NotUtf8 {
            column: fault.valid_up_to().saturating_add(1),
        };
    }
    let column = error.column();
    let nesting = nesting_up_to(line, column);
    if let Some(column) = nesting.too_deep_at {
        LineReason::TooDeep { column }
    } else if error.is_eof() {
        LineReason::CutShort
    } else if matches!(nesting.closed_at, Some(end) if end < column) {
        LineReason::Following { column }
    } else {
        LineReason::NotJson { column }
    }
}

/// How lists and objects nest in the first bytes of a line, by columns.
#[derive(Clone, Copy, Drop)]
struct Nesting {
    /// Where the first begins that nests deeper than is read.
    too_deep_at: Option<usize>,
    /// Where the outermost ends, the first if there are several.
    closed_at: Option<usize>,
}

/// How lists and objects nest up to the column.
fn nesting_up_to(line: &[u8], column: usize) -> Nesting {
    let mut nesting = Nesting {
        too_deep_at: None,
        closed_at: None,
    };
    let mut depth = 0u32;
    let mut in_text = false;
    let mut is_escaped = false;
    let prefix = &line[..column.min(line.len())];
    for (index, byte) in prefix.iter().enumerate() {
        match *byte {
            _ if is_escaped => is_escaped = false,
            b'\\' if in_text => is_escaped = true,
            b'"' => in_text = !in_text,
            b'[' | b'{' if !in_text => depth = depth.saturating_add(1),
            b']' | b'}' if !in_text => depth = depth.saturating_sub(1),
            _ => (),
        }
        if depth > MOST_DEPTH && nesting.too_deep_at.is_none() {
            nesting.too_deep_at = Some(index + 1);
        }
        if depth == 0 && nesting.closed_at.is_none() && matches!(*byte, b']' | b'}') {
            nesting.closed_at = Some(index + 1);
        }
    }
    nesting
}
