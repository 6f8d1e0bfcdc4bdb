//! Tests of cells through their public calls, on disks in memory: what no clause says.
//!
//! Seen as: a table a subject: what is asked of a cell, and what it has when it is opened again after a restart.
//! Keeps: before which put a store is built anew, and its identifier and length then; the put that finds no room, the store of
//!   the last version, and the call that finds the trail full; what each changing call of the disk that fails, alone or with all
//!   later ones, leaves of puts that were answered and refused, and that the next put is answered; that each call succeeds where
//!   memory is ample.
//! Hides: nothing.
//! Not here: the calls of a board and of a build (build_runs), the bytes of a store (store_runs).
#![tactic(auto)]

#[cfg(test)]
mod fixtures;
#[cfg(test)]
mod full;
#[cfg(test)]
mod last_version;
#[cfg(test)]
mod renewals;
#[cfg(test)]
mod stops;
#[cfg(test)]
mod trail;
