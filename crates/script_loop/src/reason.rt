//! Why a script ends at a faulty line, for a person to read.
use crate::session::{MOST_LINE_BYTES, MOST_LINES, MOST_SCRIPT_BYTES};
use script_lines::LineReason;
use std::fmt;

/// The first faulty line of a script.
#[derive(Clone, Copy, Debug, Drop)]
pub struct FaultyLine {
    /// Its number, from 1.
    pub line: u32,
    /// Why it is faulty.
    pub reason: ScriptReason,
}

/// Why a line is faulty.
#[derive(Clone, Copy, Debug, Drop)]
pub enum ScriptReason {
    /// It is no command, for this reason.
    NoCommand { reason: LineReason },
    /// It has too many bytes.
    LongLine,
    /// The script has too many lines, of which it is the first.
    ManyLines,
    /// With it the script has too many bytes.
    LongScript,
}

impl fmt::Display for FaultyLine {
    fn fmt<W: fmt::Write>(&self, f: &mut fmt::Formatter<W>) -> fmt::Result {
        write!(f, "line {}: {}", self.line, self.reason)
    }
}

impl fmt::Display for ScriptReason {
    fn fmt<W: fmt::Write>(&self, f: &mut fmt::Formatter<W>) -> fmt::Result {
        match self {
            ScriptReason::NoCommand { reason } => write!(f, "{reason}"),
            ScriptReason::LongLine => write!(f, "it has more than {MOST_LINE_BYTES} bytes"),
            ScriptReason::ManyLines => write!(f, "a script has at most {MOST_LINES} lines"),
            ScriptReason::LongScript => {
                write!(f, "a script has at most {MOST_SCRIPT_BYTES} bytes")
            }
        }
    }
}
