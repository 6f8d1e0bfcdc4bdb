//! What each command of a whole cluster is going to do, and how a run follows that: definitions and their laws.
//!
//! Seen as: a plan is what is going to be done at a stage: its acts in their order, its answer, and where the run goes on, after
//! all of them and after a call that failed (`Plan`, specs/Plan.antt). It is a function of the stage and of the command, with
//! the refusals in their order (specs/PartPlans.antt, ChangePlans.antt, OpeningPlans.antt). A stage is a cluster that is open, or what
//! is known of the disks of none: what they keep, or each file as the run found it, or nothing (`RunStage`, specs/Stage.antt).
//! Keeps: one relation for every command and status (`FollowsPlan`, `BreaksPlan`, specs/Steps.antt): a plan is carried out; or a call
//! in one of its acts fails, with a rise of that disk's count in this command; or it is broken off between two acts or within one.
//! Where no call fails there is one way (`plan_laws`); every command but a stop has an answer where a cluster is open, and a fault its
//! rise in its own command (`answer_laws`). A run keeps the cluster, wherever it stops (`IsKeptStage`, specs/Kept.antt; `run_laws`, by
//! `closed_laws`, `change_laws` and `event_laws`). What disks keep at a stage (`IsStageOn`, specs/OnDisks.antt) survives every stop, and
//! a recovery keeps the site (`stage_laws`). Refusals of what was found are on the disks (`found_laws`); `contents_laws`.
//! Hides: nothing; no code stands here, and each law is the contract of a function that does nothing.
//! Not here: acts, and what disks keep and a restart picks (cluster_model); the code of commands. Worked runs: proofs/Rows.antt; what
//! can't come in one: proofs/RefusedRows.antt.
#![tactic(auto)]

pub mod answer_laws;
pub mod change_laws;
pub mod closed_laws;
pub mod contents_laws;
pub mod event_laws;
pub mod found_laws;
pub mod plan_laws;
pub mod run_laws;
pub mod site_laws;
pub mod stage_laws;
