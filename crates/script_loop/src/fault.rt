//! The last line of a run that ends with a fault.
ghost use Rattle.std.specs.Prelude.{◌≡◌, ◌≤◌};
ghost use Rattle.fault_count.specs.Rose.{Rose};
ghost use Rattle.script_loop.specs.Ends.{ReportsFault, status_of};

use crate::status::Status;
use byte_streams::{Sink, SinkRefusal, write_all};
use report_lines::{Fault, print_fault};
use std::alloc::Global;

/// Writes the last line of a run that ends with the fault.
///
/// The status is the fault's where the line was written whole. Else it is `WriteFault` or `NoMemory`, and a part of the line
/// may have been written.
pub fn report_fault<K: Sink>(alloc: Global, sink: &mut K, fault: Fault) -> Status
    ensures told { ReportsFault fault (K.written sink.old) result (K.written sink.new) }
    ensures cause { result ≡ Status.WriteFault → Rose (K.faults sink.old) (K.faults sink.new) }
    ensures later { K.faults sink.old ≤ K.faults sink.new }
{
    let Ok(line) = print_fault(alloc, fault) else {
        return Status::NoMemory;
    };
    match write_all(sink, &line) {
        Ok(()) => fault_status(fault),
        Err(SinkRefusal::Failed) => Status::WriteFault,
        Err(SinkRefusal::NoMemory) => Status::NoMemory,
    }
}

// The status of a run that the fault ends.
fn fault_status(fault: Fault) -> Status
    ensures { result ≡ status_of fault }
{
    match fault {
        Fault::Words => Status::WordFault,
        Fault::Script { line: _ } => Status::ScriptFault,
        Fault::Read => Status::ReadFault,
    }
}
