//! Whether the hosts that are present may open the cluster.
//!
//! Seen as: the list of what was found at each present host (`sightings_of`, specs/Judged.antt), and the verdict on it
//! (`verdict_of`).
//! Keeps: the verdict is exact: met by the chosen roster, each of whose hosts is back; short by exactly its hosts that aren't;
//! not created where no present host shows a roster. The chosen roster is the best one that is shown (`IsBest`,
//! specs/Best.antt), and each of these is a law (`laws`).
//! Cost: one pass over the found rosters, and one for each host of the chosen roster.
//! Hides: how the chosen roster and the missing hosts are looked up.
//! Not here: which roster is chosen and who is back (roster_form), and reading the rosters (roster_book).
//! Laws: JudgedLemmas, BestLemmas; worked examples: Rows.
#![tactic(auto)]

mod judge;
pub mod laws;
mod verdict;

pub use judge::check;
pub use verdict::Verdict;
