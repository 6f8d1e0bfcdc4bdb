//! Tests of the contents in maps against the plain program: both run the same requests.
//!
//! Seen as: nothing; it has tests alone.
//! Keeps: that replies, contents, lengths, items and numbers are the same, and that calls succeed where memory is ample.
//! Hides: nothing.
//! Not here: what the plain program answers (line_runs), contents that a store has (store_runs).
#![tactic(auto)]

#[cfg(test)]
mod both;
#[cfg(test)]
mod chance;
#[cfg(test)]
mod items;
#[cfg(test)]
mod scripts;
