//! Tests of the crates of lines and texts by their public calls alone: what no clause says of them.
//!
//! Seen as: nothing; it has tests alone.
//! Keeps: worked examples, printed texts, reasons, and that each call succeeds where memory is ample.
//! Hides: nothing.
//! Not here: tests of a single crate's private parts, runs of a whole script (cluster_runs).
#![tactic(auto)]

#[cfg(test)]
mod commands;
#[cfg(test)]
mod contents;
#[cfg(test)]
mod events;
#[cfg(test)]
mod fixtures;
#[cfg(test)]
mod line_reasons;
#[cfg(test)]
mod lists;
#[cfg(test)]
mod mutations;
#[cfg(test)]
mod names;
#[cfg(test)]
mod plan_reasons;
#[cfg(test)]
mod plans;
#[cfg(test)]
mod reports;
