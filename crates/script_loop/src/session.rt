//! How far a script has come, its limits, and what halts its run.
ghost use Rattle.std.specs.Prelude.{◌+◌, ◌<◌, ◌≤◌, vec_len};
ghost use Rattle.script_loop.specs.Script.{most_line_bytes, most_lines, most_script_bytes};

use crate::reason::ScriptReason;

/// The most bytes of a line, without its line feed.
pub const MOST_LINE_BYTES: u64 = 1_048_576;
/// The most lines of a script, the empty ones counted.
pub const MOST_LINES: u32 = 100_000;
/// The most bytes of a script.
pub const MOST_SCRIPT_BYTES: u64 = 67_108_864;

/// A run of a script under way.
#[derive(Drop)]
pub struct Session {
    /// What has come after the last line feed.
    pub partial: Vec<u8>,
    /// How many lines were ended.
    pub lines: u32,
    /// How many bytes these have, their line feeds counted.
    pub passed: u64,
    ghost short: { vec_len partial ≤ most_line_bytes },
    ghost few: { lines ≤ most_lines },
    ghost open: { 0 < vec_len partial → lines < most_lines },
    ghost small: { passed + vec_len partial ≤ most_script_bytes },
}

/// What ends a run before its script does.
#[derive(Clone, Copy, Debug, Drop)]
pub enum Halt {
    /// This line is no command, or is past a limit; lines are counted from 1.
    Faulty { line: u32, reason: ScriptReason },
    /// The source failed.
    ReadFault,
    /// The sink failed.
    WriteFault,
    /// Memory ran out.
    NoMemory,
}
