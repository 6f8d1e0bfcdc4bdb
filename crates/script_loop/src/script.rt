//! A script in pieces, and its lines.
ghost use Rattle.std.specs.Prelude.{◌≡◌, ℕ, ◌+◌, ◌<◌, ◌≤◌, List, [], ◌∷◌, ◌++◌, length, take, drop, OnOk, IfSome, IfNone, IsErrOf, IsSome};
ghost use Rattle.std.specs.Result.{IfErr};
ghost use Rattle.std.specs.declared.option.Option.{Option};
ghost use Rattle.fault_count.specs.Rose.{Rose};
ghost use Rattle.script_loop.specs.Script.{line_feed, ended, HasNoLineFeed, most_line_bytes, most_lines, most_script_bytes};
ghost use Rattle.script_loop.specs.Faults.{IsPastLimit};
ghost use Rattle.script_loop.specs.Halts.{HaltsWith};
ghost use Rattle.script_loop.specs.Progress.{Holds, HaltsHold, Reached, Advances, HaltsIn, IsFinished, taken_bytes};
ghost use Rattle.script_loop.specs.Chain.{between};

use crate::line::{answer_ended, answer_line};
use crate::machine::Machine;
use crate::reason::ScriptReason;
use crate::session::{Halt, MOST_LINE_BYTES, MOST_LINES, MOST_SCRIPT_BYTES, Session};
use byte_streams::Sink;
use std::alloc::Global;

/// A session that has nothing of its script yet.
pub fn begin(alloc: Global) -> Session
    ensures { (result.partial.items ≡ []) × (result.lines ≡ 0) × (result.passed ≡ 0) }
{
    Session {
        partial: Vec::new(alloc),
        lines: 0,
        passed: 0,
    }
}

// Where the first line feed stands.
fn find_line_feed(bytes: &[u8]) -> Option<usize>
    ensures found { IfSome result (λ at. HasNoLineFeed (take at bytes.now) × (bytes.now ≡ take at bytes.now ++ line_feed ∷ drop (at + 1) bytes.now)) }
    ensures within { IfSome result (λ at. at < length bytes.now) }
    ensures none { IfNone result (HasNoLineFeed bytes.now) }
{
    bytes.iter().position(|byte| *byte == b'\n')
}

// The first line, and what follows its line feed.
fn split_line(bytes: &[u8]) -> Option<(&[u8], &[u8])>
    ensures found { IfSome result (λ parts. HasNoLineFeed parts.0.now × (bytes.now ≡ parts.0.now ++ line_feed ∷ parts.1.now)) }
    ensures none { IfNone result (HasNoLineFeed bytes.now) }
{
    let at = find_line_feed(bytes)?;
    Some((&bytes[..at], &bytes[at + 1..]))
}

// The limit that the line under way is past, if any. It has so many bytes so far, and `feed` more for its line feed.
fn past_limit(session: &Session, length: u64, feed: u64) -> Option<ScriptReason>
    requires { feed ≤ 1 }
    ensures past { IsSome result → IsPastLimit session.now.lines session.now.passed length feed }
    ensures within { IfNone result ((length ≤ most_line_bytes) × (session.now.lines < most_lines) × (session.now.passed + (length + feed) ≤ most_script_bytes)) }
{
    if length > MOST_LINE_BYTES {
        return Some(ScriptReason::LongLine);
    }
    if session.lines >= MOST_LINES {
        return Some(ScriptReason::ManyLines);
    }
    if length + feed > MOST_SCRIPT_BYTES - session.passed {
        return Some(ScriptReason::LongScript);
    }
    None
}

// Adds what has come of the line under way, which is judged by the limits.
fn hold(session: &mut Session, more: &[u8]) -> Result<(), Halt>
    ensures held { OnOk result (Holds session.old session.new more.now) }
    ensures halts { IfErr result (HaltsHold session.old more.now) }
    ensures size { OnOk result (taken_bytes session.new ≡ taken_bytes session.old + length more.now) }
{
    if more.is_empty() {
        return Ok(());
    }
    let length = (session.partial.len() + more.len()) as u64;
    if let Some(reason) = past_limit(session, length, 0) {
        return Err(Halt::Faulty {
            line: session.lines + 1,
            reason,
        });
    }
    session.partial.extend_from_slice(more)?;
    Ok(())
}

// Answers the line under way, of which this is the rest and whose line feed has come.
fn end_line<K: Sink, M: Machine>(
    alloc: Global,
    sink: &mut K,
    machine: &mut M,
    session: &mut Session,
    rest: &[u8],
) -> Result<(), Halt>
    requires ready { M.is_ready machine.old }
    requires line { HasNoLineFeed rest.now }
    ensures told { OnOk result (Advances M.answers session.old machine.old (K.written sink.old) (ended rest.now) session.new machine.new (K.written sink.new)) }
    ensures halts { IfErr result (λ halt. HaltsIn M.answers M.breaks session.old machine.old (K.written sink.old) (ended rest.now) halt machine.new (K.written sink.new)) }
    ensures size { OnOk result (taken_bytes session.new ≡ taken_bytes session.old + (length rest.now + 1)) }
    ensures cause { IsErrOf result Halt.WriteFault → Rose (K.faults sink.old) (K.faults sink.new) }
    ensures later { K.faults sink.old ≤ K.faults sink.new }
    ensures ready { OnOk result (M.is_ready machine.new) }
{
    let length = (session.partial.len() + rest.len()) as u64;
    let number = session.lines + 1;
    if let Some(reason) = past_limit(session, length, 1) {
        return Err(Halt::Faulty {
            line: number,
            reason,
        });
    }
    answer_ended(alloc, sink, machine, &mut session.partial, rest, number)?;
    session.lines = number;
    session.passed += length + 1;
    Ok(())
}

/// Takes the next piece of the script, and answers each line that ends in it.
pub fn take_piece<K: Sink, M: Machine>(
    alloc: Global,
    sink: &mut K,
    machine: &mut M,
    session: &mut Session,
    piece: &[u8],
) -> Result<(), Halt>
    requires { M.is_ready machine.old }
    ensures told { OnOk result (Advances M.answers session.old machine.old (K.written sink.old) piece.now session.new machine.new (K.written sink.new)) }
    ensures halts { IfErr result (λ halt. HaltsIn M.answers M.breaks session.old machine.old (K.written sink.old) piece.now halt machine.new (K.written sink.new)) }
    ensures size { OnOk result (taken_bytes session.new ≡ taken_bytes session.old + length piece.now) }
    ensures cause { IsErrOf result Halt.WriteFault → Rose (K.faults sink.old) (K.faults sink.new) }
    ensures later { K.faults sink.old ≤ K.faults sink.new }
    ensures ready { OnOk result (M.is_ready machine.new) }
{
    let mut rest = piece;
    'lines: while let Some((line, after)) = split_line(rest) {
        end_line(alloc, sink, machine, session, line)?;
        rest = after;
    }
    hold(session, rest)
}

/// Answers the piece after the last line feed, which is a line unless it is empty.
pub fn finish<K: Sink, M: Machine>(
    alloc: Global,
    sink: &mut K,
    machine: &mut M,
    session: &Session,
) -> Result<(), Halt>
    requires { M.is_ready machine.old }
    ensures told { OnOk result ((first : M) (script : List ℕ) (old : Option (List ℕ)) → Reached M.answers first script old session.now machine.old (K.written sink.old) → IsFinished (between M.answers M.breaks first machine.new) script old (K.written sink.new)) }
    ensures halts { IfErr result (λ halt. (first : M) (script : List ℕ) (old : Option (List ℕ)) → Reached M.answers first script old session.now machine.old (K.written sink.old) → HaltsWith (between M.answers M.breaks first machine.new) script [] old halt (K.written sink.new)) }
    ensures cause { IsErrOf result Halt.WriteFault → Rose (K.faults sink.old) (K.faults sink.new) }
    ensures later { K.faults sink.old ≤ K.faults sink.new }
{
    answer_line(alloc, sink, machine, &session.partial, session.lines + 1)
}
