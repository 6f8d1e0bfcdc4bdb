//! Tests of the disks and the byte streams, through their public calls alone.
//!
//! Seen as: tables of cases, one file a subject. Outside tests it has no function.
//! Keeps: worked examples, and that each call answers Ok with ample memory, which no clause says.
//! Not here: what a clause says, and tests of the layers above.
#![tactic(auto)]

#[cfg(test)]
mod counts;
#[cfg(test)]
mod fixtures;
#[cfg(test)]
mod hosts;
#[cfg(test)]
mod memory_disks;
#[cfg(test)]
mod one_file;
#[cfg(test)]
mod seals;
#[cfg(test)]
mod streams;
