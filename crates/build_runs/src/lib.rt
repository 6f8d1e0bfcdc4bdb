//! Tests of whole builds: what no clause says.
//!
//! Seen as: a table a subject, over a disk that keeps one file and the letters of its changing calls, or over a disk in memory
//! that fails at one of them.
//! Keeps: which device calls make a file of each kind free and build a store in it, and in which order; the form of a file by
//! its length and its first byte; that a build which was refused at any call leaves no sealed file or the whole store; the
//! bytes of a small one; the calls of a board. What a build of many items costs is measured by scripts/costs, and not in the
//! merge gate.
//! Not here: whole stores through their public calls, and the newest of several (store_runs).
#![tactic(auto)]

#[cfg(test)]
mod boards;
#[cfg(test)]
mod contents;
#[cfg(test)]
mod costs;
#[cfg(test)]
mod failures;
#[cfg(test)]
mod files;
#[cfg(test)]
mod fixtures;
#[cfg(test)]
mod whole;
