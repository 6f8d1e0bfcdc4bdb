//! The faults that end a run before its script ends.

/// What ends a run before its script ends. The last line of the report shows it.
#[derive(Clone, Copy, Debug, PartialEq, Eq)]
pub enum Fault {
    /// The command-line arguments plan no run.
    Words,
    /// This line of the script is no command, or is past a limit. Lines count from 1.
    Script { line: u32 },
    /// The script could not be read to its end.
    Read,
}
