//! Tests of rosters through their public calls: what no clause says.
//!
//! Seen as: tables of cases, one file a subject. Outside tests it has no function.
//! Keeps: the bytes of a worked example, the offset of each fault, what several service disks show, what a restart leaves of
//! a write that fails at any call, the places that a list of doubts names, and the verdict on hosts that show this or that.
//! Not here: what a clause says.
#![tactic(auto)]

#[cfg(test)]
mod books;
#[cfg(test)]
mod fixtures;
#[cfg(test)]
mod rosters;
#[cfg(test)]
mod services;
#[cfg(test)]
mod texts;
#[cfg(test)]
mod verdicts;
#[cfg(test)]
mod writes;
