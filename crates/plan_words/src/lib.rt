//! What the command-line arguments plan: the hosts of a run, and how its disk fails.
//!
//! Seen as: arguments are lists of bytes. `PlanWords` (specs/Words.antt) writes out the arguments of a plan.
//! Keeps: arguments are refused exactly if they have no plan (`HasNoPlan`), running out of memory aside. The plan is the
//!   only one (`IsSiteOf`, clause `disk_alone`). The reason of a refusal is for a person: no clause speaks of it.
//! Hides: the order in which arguments are read, and how a number is read.
//! Not here: what a disk with a cut does (disk_memory), the disks of a plan (plan_site).
//! Arguments: docs/SCRIPT.md.
#![tactic(auto)]

mod explain;
mod reason;
mod words;

pub use reason::{Expected, WordReason};
pub use words::{Plan, WordFault, site_plan};
