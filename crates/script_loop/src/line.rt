//! A line of a script and its answer.
ghost use Rattle.std.specs.Prelude.{◌≡◌, ◌≢◌, ℕ, ◌+◌, ◌≤◌, List, [], ◌++◌, length, vec_len, IfOk, OnOk, IsErrOf};
ghost use Rattle.std.specs.Result.{IfErr};
ghost use Rattle.std.specs.declared.option.Option.{Option};
ghost use Rattle.fault_count.specs.Rose.{Rose};
ghost use Rattle.script_loop.specs.Chain.{between};
ghost use Rattle.script_loop.specs.Lines.{AnswerStep, IsAnswered, HaltsInLine};

use crate::machine::Machine;
use crate::reason::ScriptReason;
use crate::session::Halt;
use byte_streams::{Sink, write_all};
use report_lines::print;
use script_lines::{LineFault, read_line};
use std::alloc::Global;

/// Answers the line that begins in the buffer and ends with `rest`; the buffer is then empty.
///
/// A line that lies whole in `rest` is answered from there. After an error the buffer may have the line.
pub fn answer_ended<K: Sink, M: Machine>(
    alloc: Global,
    sink: &mut K,
    machine: &mut M,
    partial: &mut Vec<u8>,
    rest: &[u8],
    number: u32,
) -> Result<(), Halt>
    requires { M.is_ready machine.old }
    ensures told { OnOk result (IsAnswered M.answers machine.old (partial.old.items ++ rest.now) (K.written sink.old) (K.written sink.new) machine.new) }
    ensures halts { IfErr result (λ halt. HaltsInLine (between M.answers M.breaks machine.old machine.new) (partial.old.items ++ rest.now) number (K.written sink.old) halt (K.written sink.new)) }
    ensures empty { OnOk result (partial.new.items ≡ []) }
    ensures size { vec_len partial.new ≤ vec_len partial.old + length rest.now }
    ensures cause { IsErrOf result Halt.WriteFault → Rose (K.faults sink.old) (K.faults sink.new) }
    ensures later { K.faults sink.old ≤ K.faults sink.new }
    ensures ready { OnOk result (M.is_ready machine.new) }
{
    if partial.is_empty() {
        return answer_line(alloc, sink, machine, rest, number);
    }
    partial.extend_from_slice(rest)?;
    answer_line(alloc, sink, machine, partial, number)?;
    partial.clear();
    Ok(())
}

/// Carries out the line of this number, if it isn't empty, and writes its answer.
pub fn answer_line<K: Sink, M: Machine>(
    alloc: Global,
    sink: &mut K,
    machine: &mut M,
    line: &[u8],
    number: u32,
) -> Result<(), Halt>
    requires { M.is_ready machine.old }
    ensures told { OnOk result (IsAnswered M.answers machine.old line.now (K.written sink.old) (K.written sink.new) machine.new) }
    ensures halts { IfErr result (λ halt. HaltsInLine (between M.answers M.breaks machine.old machine.new) line.now number (K.written sink.old) halt (K.written sink.new)) }
    ensures cause { IsErrOf result Halt.WriteFault → Rose (K.faults sink.old) (K.faults sink.new) }
    ensures later { K.faults sink.old ≤ K.faults sink.new }
    ensures ready { OnOk result (M.is_ready machine.new) }
{
    if line.is_empty() {
        return Ok(());
    }
    let text = reply_line(alloc, machine, line, number)?;
    write_all(sink, &text)?;
    Ok(())
}

// The line of the answer to a line that isn't empty.
fn reply_line<M: Machine>(
    alloc: Global,
    machine: &mut M,
    line: &[u8],
    number: u32,
) -> Result<Vec<u8>, Halt>
    requires ready { M.is_ready machine.old }
    requires some { line.now ≢ [] }
    ensures step { IfOk result (λ text. AnswerStep M.answers machine.old line.now text.items machine.new) }
    ensures halts { IfErr result (λ halt. (written : Option (List ℕ)) → HaltsInLine (between M.answers M.breaks machine.old machine.new) line.now number written halt written) }
    ensures no_write { result ≢ Err Halt.WriteFault }
    ensures ready { OnOk result (M.is_ready machine.new) }
{
    match read_line(alloc, line) {
        Ok(command) => {
            let answer = machine.command(alloc, command)?;
            let text = print(alloc, &answer)?;
            Ok(text)
        }
        Err(LineFault::Form { reason }) => Err(Halt::Faulty {
            line: number,
            reason: ScriptReason::NoCommand { reason },
        }),
        Err(LineFault::NoMemory) => Err(Halt::NoMemory),
    }
}
