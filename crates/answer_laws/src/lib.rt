//! What the answers of a run say of the store: the definitions, and two laws over the states of a run.
//!
//! Seen as: lists of changes. `changes_answered` (specs/Answered.antt) are the changes whose events were answered without a refusal, and
//!   `AnswersLeave` (specs/AnswersAllow.antt) are the changes that the answers allow the store to have.
//! Keeps: after a run whose disk tells, the files have changes that its answers allow (`answers_say_what_is_stored`).
//!   Where a create was answered and the disk's count of faults didn't rise in the run, they have exactly those that were
//!   answered (`answered_changes_are_stored`).
//! Hides: nothing; each law is the contract of a function that does nothing.
//! Not here: the states of a run, and what each command does to them (cluster_commands).
#![tactic(auto)]

mod laws;

pub use laws::{answered_changes_are_stored, answers_say_what_is_stored};
