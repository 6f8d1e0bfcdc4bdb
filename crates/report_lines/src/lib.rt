//! The lines of a report: one for each answer, and a last one if the run ends with a fault.
//!
//! Seen as: the bytes of a line (`answer_line`, `fault_line`, specs/Line.antt).
//! Keeps: a line is compact JSON, with the members of each object in byte order. Its only control byte is the line feed
//!   at the end (`lines_are_single`), so a report can be read line by line.
//! Hides: the JSON values that are built on the way.
//! Not here: the types of answers (script_lines), the writing of lines (script_loop).
#![tactic(auto)]

mod contents;
mod fault;
mod laws;
mod lines;
mod value;

pub use fault::Fault;
pub use laws::lines_are_single;
pub use lines::{print, print_fault};
