//! A script from its source to its end.
ghost use Rattle.std.specs.Prelude.{◌≡◌, ◌≢◌, ℕ, ◌<◌, ◌≤◌, List, IfOk, OnOk, IsErrOf, length, vec_len, Some};
ghost use Rattle.std.specs.Result.{IfErr};
ghost use Rattle.fault_count.specs.Rose.{Rose};
ghost use Rattle.script_lines.specs.declared.command.Command.{Command};
ghost use Rattle.script_loop.specs.Chain.{IsRun, between, unbroken};
ghost use Rattle.script_loop.specs.Ends.{EndsReport};
ghost use Rattle.script_loop.specs.Progress.{IsAllRead, IsDone, IsHalted};
ghost use Rattle.script_loop.specs.Script.{IsScriptOf};

use crate::fault::report_fault;
use crate::machine::Machine;
use crate::reason::FaultyLine;
use crate::script::{begin, finish, take_piece};
use crate::session::{Halt, Session};
use crate::status::Status;
use byte_streams::{Sink, Source};
use report_lines::Fault;
use std::alloc::{AllocError, Global};

/// How many bytes a read asks for.
const PIECE_BYTES: usize = 65_536;

/// How a run of a script ended.
#[derive(Clone, Copy, Debug, Drop)]
pub struct Finish {
    /// The way in which it ended.
    pub status: Status,
    /// The line that ended it, if it was faulty. It is here too where the line of the fault couldn't be written.
    pub faulty: Option<FaultyLine>,
}

/// Carries out the script of the source on the machine, and writes its report to the sink, with the last line of a run that
/// ends with a fault. Always returns: the limits end a script.
pub fn report_script<S: Source, K: Sink, M: Machine>(
    alloc: Global,
    source: &mut S,
    sink: &mut K,
    machine: &mut M,
) -> Finish
    requires { M.is_ready machine.old }

    // What was written and how far the source was read, by the way that the run ends.
    ensures ends { (script : List ℕ) → S.left source.old ≡ Some script → EndsReport (between M.answers M.breaks machine.old machine.new) script (Rose (S.faults source.old) (S.faults source.new)) (K.written sink.old) result.status (S.left source.new) (K.written sink.new) }

    // Whatever the source tells, some commands were answered. One was broken off only where memory ran out.
    ensures runs { IsRun (between M.answers M.breaks machine.old machine.new) }
    ensures unbroken { result.status ≢ Status.NoMemory → IsRun (unbroken (between M.answers M.breaks machine.old machine.new)) }

    // A script with no faulty line doesn't end with one.
    ensures complete { (script : List ℕ) (commands : List Command) → S.left source.old ≡ Some script → IsScriptOf script commands → result.status ≢ Status.ScriptFault }

    // Each end has its cause.
    ensures words { result.status ≢ Status.WordFault }
    ensures read { result.status ≡ Status.ReadFault → Rose (S.faults source.old) (S.faults source.new) }
    ensures write { result.status ≡ Status.WriteFault → Rose (K.faults sink.old) (K.faults sink.new) }
{
    match run_script(alloc, source, sink, machine) {
        Ok(()) => ended(Status::Done),
        Err(Halt::Faulty { line, reason }) => Finish {
            status: report_fault(alloc, sink, Fault::Script { line }),
            faulty: Some(FaultyLine { line, reason }),
        },
        Err(Halt::ReadFault) => ended(report_fault(alloc, sink, Fault::Read)),
        Err(Halt::WriteFault) => ended(Status::WriteFault),
        Err(Halt::NoMemory) => ended(Status::NoMemory),
    }
}

// A run that no line ended.
fn ended(status: Status) -> Finish
    ensures { result.status ≡ status }
{
    Finish {
        status,
        faulty: None,
    }
}

// Answers every line of the script.
fn run_script<S: Source, K: Sink, M: Machine>(
    alloc: Global,
    source: &mut S,
    sink: &mut K,
    machine: &mut M,
) -> Result<(), Halt>
    requires { M.is_ready machine.old }
    ensures told { OnOk result (IsDone (between M.answers M.breaks machine.old machine.new) (S.left source.old) (K.written sink.old) (S.left source.new) (K.written sink.new)) }
    ensures halts { IfErr result (λ halt. IsHalted (between M.answers M.breaks machine.old machine.new) (S.left source.old) (K.written sink.old) halt (S.left source.new) (K.written sink.new)) }
    ensures read { IsErrOf result Halt.ReadFault → Rose (S.faults source.old) (S.faults source.new) }
    ensures write { IsErrOf result Halt.WriteFault → Rose (K.faults sink.old) (K.faults sink.new) }
    ensures later { K.faults sink.old ≤ K.faults sink.new }
{
    let mut room = room_for(alloc, PIECE_BYTES)?;
    let session = answer_pieces(alloc, source, sink, machine, &mut room)?;
    finish(alloc, sink, machine, &session)
}

// Room for so many bytes.
fn room_for(alloc: Global, size: usize) -> Result<Vec<u8>, AllocError>
    ensures { IfOk result (λ room. vec_len room ≡ size) }
{
    let room = vec![in alloc; 0u8; size]?;
    Ok(room)
}

// Reads the script to its end, and answers each line that ends in it.
fn answer_pieces<S: Source, K: Sink, M: Machine>(
    alloc: Global,
    source: &mut S,
    sink: &mut K,
    machine: &mut M,
    room: &mut [u8],
) -> Result<Session, Halt>
    requires room { 0 < length room.old }
    requires ready { M.is_ready machine.old }
    ensures told { IfOk result (λ session. IsAllRead M.answers machine.old (S.left source.old) (K.written sink.old) session machine.new (S.left source.new) (K.written sink.new)) }
    ensures halts { IfErr result (λ halt. IsHalted (between M.answers M.breaks machine.old machine.new) (S.left source.old) (K.written sink.old) halt (S.left source.new) (K.written sink.new)) }
    ensures read { IsErrOf result Halt.ReadFault → Rose (S.faults source.old) (S.faults source.new) }
    ensures write { IsErrOf result Halt.WriteFault → Rose (K.faults sink.old) (K.faults sink.new) }
    ensures later { K.faults sink.old ≤ K.faults sink.new }
    ensures ready { OnOk result (M.is_ready machine.new) }
{
    let mut session = begin(alloc);
    'pieces: loop {
        let count = source.read(room)?;
        if count == 0 {
            return Ok(session);
        }
        take_piece(alloc, sink, machine, &mut session, &room[..count])?;
    }
}
