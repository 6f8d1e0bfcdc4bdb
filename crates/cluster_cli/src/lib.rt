//! The program as one call: from the arguments and the script's bytes to the report's bytes and a status.
//!
//! Seen as: a run of commands over the states of a cluster on its disk (`CommandStep` of cluster_commands).
//! Keeps: what each status says of the report and of the disk (`EndsReport` of script_loop, read over these states by
//!   `run_on`, specs/Sites.antt). However a run ends, each image that a stop may leave has what the last state says.
//! Hides: that a cluster with its disk is the loop's machine.
//! Not here: how a script is read and its report written (script_loop), what a command does (cluster_commands), what the
//!   arguments plan (plan_words), the disks that they plan (plan_site).
//! Arguments, commands and statuses: docs/SCRIPT.md.
#![tactic(auto)]

mod machine;
mod run;
mod site;

pub use byte_streams::{
    MemorySink, MemorySource, Sink, SinkRefusal, Source, SourceRefusal, StandardSink,
    StandardSource,
};
pub use plan_words::{Plan, WordFault, WordReason, site_plan};
pub use run::run_steps;
pub use site::{Ended, Lane, Reason, Site};
