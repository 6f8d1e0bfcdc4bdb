//! The commands of a script, and the answers to them.
//!
//! Seen as: a line is the command whose JSON object it has (`IsLineOf`, specs/Form.antt), and at most one command.
//! Keeps: a line is refused by its form exactly if it is no command (`HasNoForm`), running out of memory aside. The
//!   reason of a refusal is for a person: no clause speaks of it.
//! Hides: how the members of an object are looked up.
//! Not here: what a command does (cluster_commands), how an answer is printed (report_lines).
//! Commands: docs/SCRIPT.md.
#![tactic(auto)]

mod answer;
mod command;
mod events;
mod explain;
mod fault;
mod numbers;
mod pairs;
mod read;
mod reason;
mod requests;
mod texts;

pub use answer::{Answer, Outcome, Outcomes, PartitionDump, PartitionDumps, Refusal};
pub use command::{Command, Event, Events};
pub use fault::LineFault;
pub use read::{one_command, read_line};
pub use reason::{CommandName, EventName, LineReason, Part};
