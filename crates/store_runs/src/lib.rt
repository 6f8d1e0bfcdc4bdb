//! Tests of the formats and stores through their public calls: what no clause says.
//!
//! Seen as: a file a subject, from the fields of a text (byte_fields) to the newest of two stores (newest_store).
//! Keeps: the bytes and answers of worked examples, and which device calls are made in which order.
//! Not here: commands over a whole cluster (cluster_runs).
#![tactic(auto)]

#[cfg(test)]
mod clearing;
#[cfg(test)]
mod fields;
#[cfg(test)]
mod fixtures;
#[cfg(test)]
mod groups;
#[cfg(test)]
mod headers;
#[cfg(test)]
mod identifiers;
#[cfg(test)]
mod newest_of_two;
#[cfg(test)]
mod one_store;
#[cfg(test)]
mod several_hosts;
