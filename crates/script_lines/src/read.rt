//! Reading a line.
ghost use Rattle.std.specs.Prelude.{◌≡◌, ℕ, List, Some, None, IfOk, IfErr, IsErrOf, codes};
ghost use Rattle.serde_json.specs.Data.{string};
ghost use Rattle.serde_json.specs.Find.{get};
ghost use Rattle.serde_json.specs.View.{view};
ghost use Rattle.script_lines.specs.Faults.{IsOfForm};
ghost use Rattle.script_lines.specs.Form.{IsLineOf, HasNoForm};
ghost use Rattle.script_lines.specs.Reading.{Reads, IsCommandOf, object_of_two, member_count_of, IsInOrder};
ghost use Rattle.script_lines.specs.declared.command.Command.{Command};
ghost use Rattle.script_lines.specs.declared.reason.LineReason.{LineReason};

use crate::command::Command;
use crate::events::events_of;
use crate::explain::{command_reason, json_fault, unnamed_reason};
use crate::fault::LineFault;
use crate::reason::Part;
use crate::texts::{host_of, only_host_of};
use serde_json::Value as Json;
use std::alloc::Global;

/// Reads a line of a script, without its line feed.
///
/// Takes memory for the line's JSON value and for the command, whose values keep the texts of the JSON value without a copy.
pub fn read_line(alloc: Global, line: &[u8]) -> Result<Command, LineFault>
    ensures ok { IfOk result (λ command. IsLineOf line.now command) }
    ensures form { (reason : LineReason) → IsErrOf result (LineFault.Form reason) → HasNoForm line.now }
{
    match Json::from_slice(alloc, line) {
        Ok(mut value) => command_of(alloc, &mut value),
        Err(error) => Err(json_fault(line, error)),
    }
}

/// The law of the one command: a line is at most one command. Does nothing.
pub fn one_command()
    ensures { (line : List ℕ) (a b : Command) → IsLineOf line a → IsLineOf line b → a ≡ b }
{}

/// The command of an object, from which it takes what it keeps.
fn command_of(alloc: Global, value: &mut Json) -> Result<Command, LineFault>
    ensures { Reads (IsCommandOf (view value.old)) result }
{
    let Some(name) = value.get("do").and_then(Json::as_str) else {
        return Err(LineFault::Form {
            reason: unnamed_reason(value),
        });
    };
    match (name, member_count(value)) {
        ("create", 2) => create_of(alloc, member(value, name, "host")?),
        ("dump", 1) => Ok(Command::Dump),
        ("steps", 2) => steps_of(alloc, taken(value, "steps", "events")?),
        ("stop", 1) => Ok(Command::Stop),
        ("recover", 2) => recover_of(alloc, member(value, name, "hosts")?),
        _ => Err(LineFault::Form {
            reason: command_reason(name, value),
        }),
    }
}

fn create_of(alloc: Global, host: &Json) -> Result<Command, LineFault>
    ensures { Reads (IsCommandOf (object_of_two (codes "do") (string (codes "create")) (codes "host") (view host.now))) result }
{
    Ok(Command::Create {
        host: host_of(alloc, host, Part::Host)?,
    })
}

fn steps_of(alloc: Global, events: Json) -> Result<Command, LineFault>
    ensures { Reads (IsCommandOf (object_of_two (codes "do") (string (codes "steps")) (codes "events") (view events))) result }
{
    Ok(Command::Steps {
        events: events_of(alloc, events)?,
    })
}

fn recover_of(alloc: Global, hosts: &Json) -> Result<Command, LineFault>
    ensures { Reads (IsCommandOf (object_of_two (codes "do") (string (codes "recover")) (codes "hosts") (view hosts.now))) result }
{
    Ok(Command::Recover {
        host: only_host_of(alloc, hosts)?,
    })
}

/// The value of a member of the command with this name.
fn member<'a>(value: &'a Json, command: &str, name: &str) -> Result<&'a Json, LineFault>
    ensures ok { IfOk result (λ found. get name.now (view value.now) ≡ Some (view found.now)) }
    ensures form { IfErr result (λ fault. IsOfForm fault × (get name.now (view value.now) ≡ None)) }
{
    match value.get(name) {
        Some(found) => Ok(found),
        None => Err(LineFault::Form {
            reason: command_reason(command, value),
        }),
    }
}

/// The same, taken out.
fn taken(value: &mut Json, command: &str, name: &str) -> Result<Json, LineFault>
    ensures ok { IfOk result (λ found. get name.now (view value.old) ≡ Some (view found)) }
    ensures form { IfErr result (λ fault. IsOfForm fault × (get name.now (view value.old) ≡ None)) }
{
    match value.get_mut(name) {
        Some(found) => Ok(found.take()),
        None => Err(LineFault::Form {
            reason: command_reason(command, value),
        }),
    }
}

/// The number of members of an object, 0 for another value.
fn member_count(value: &Json) -> usize
    ensures count { result ≡ member_count_of (view value.now) }
    ensures in_order { IsInOrder (view value.now) }
{
    match value.as_object() {
        Some(members) => members.len(),
        None => 0,
    }
}
