//! A script from its bytes to the bytes of its report, over any machine that carries out commands.
//!
//! Seen as: a run, which is a chain of answers of the machine (`IsRun`, `Chain`, specs/Chain.antt); its report has a line for
//!   each (`IsReportOf`, specs/Report.antt).
//! Keeps: what each status says of the sink and of the source (`EndsReport`, specs/Ends.antt). However a run ends, it has
//!   added the report of a prefix of the script, all of it but perhaps a part of the last answer's line; or all of it and a
//!   prefix of a fault's line (`IsSurvived`).
//! Hides: that a script is read in pieces of 64 KiB, the buffer of a line that runs over a piece's end, that each line is
//!   written at once.
//! Not here: what a command does, and on what; what a line says (script_lines), how an answer is printed (report_lines).
//! Laws: EndsLemmas, RefinesLemmas, StatusLemmas. What each end leaves is an `IsSurvived`, what is known of a machine goes
//!   on with its run, and a status is known by its code.
#![tactic(auto)]

mod fault;
mod halt;
mod line;
mod machine;
mod reason;
mod run;
mod script;
mod session;
mod status;

pub use fault::report_fault;
pub use machine::Machine;
pub use reason::{FaultyLine, ScriptReason};
pub use run::{Finish, report_script};
pub use status::{Status, code};
