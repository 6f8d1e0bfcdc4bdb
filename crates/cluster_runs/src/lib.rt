//! Whole runs through the top call, with values worked out by hand: tests alone, a file a subject.
//!
//! Seen as: arguments and a script, with the report and the status that they have.
//! Keeps: nothing; a crate with tests is proved twice, so these stand apart from what they test.
//! Hides: how a run is made of its parts (src/fixtures.rt).
//! Not here: tests of a lower crate alone (line_runs, disk_runs, store_runs).
#![tactic(auto)]

#[cfg(test)]
mod events;
#[cfg(test)]
mod files;
#[cfg(test)]
mod fixtures;
#[cfg(test)]
mod renewals;
#[cfg(test)]
mod reports;
#[cfg(test)]
mod script_ends;
#[cfg(test)]
mod stops;
#[cfg(test)]
mod words;
