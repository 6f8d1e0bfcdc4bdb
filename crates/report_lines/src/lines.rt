//! Prints the line of an answer and of a fault.
ghost use Rattle.std.specs.Prelude.{◌≡◌, [], ◌∷◌, ◌++◌, false, IfOk};
ghost use Rattle.serde_json.specs.Written.{compact_text, has_float};
ghost use Rattle.serde_json.specs.View.{view};
ghost use Rattle.report_lines.specs.Line.{answer_line, fault_line};

use crate::fault::Fault;
use crate::value::{answer_value, fault_value};
use script_lines::Answer;
use serde_json::Value;
use std::alloc::{AllocError, Global};

/// The line of an answer.
///
/// Takes memory for the line, and while it is made.
pub fn print(alloc: Global, answer: &Answer) -> Result<Vec<u8>, AllocError>
    ensures { IfOk result (λ line. line.items ≡ answer_line answer.now) }
{
    let value = answer_value(alloc, answer)?;
    line_of(alloc, &value)
}

/// The last line of a report, if the run ends with the fault.
///
/// Takes memory for the line, and while it is made.
pub fn print_fault(alloc: Global, fault: Fault) -> Result<Vec<u8>, AllocError>
    ensures { IfOk result (λ line. line.items ≡ fault_line fault) }
{
    let value = fault_value(alloc, fault)?;
    line_of(alloc, &value)
}

/// The compact text of a value, and a line feed.
fn line_of(alloc: Global, value: &Value) -> Result<Vec<u8>, AllocError>
    requires { has_float (view value.now) ≡ false }
    ensures { IfOk result (λ line. line.items ≡ compact_text (view value.now) ++ 10 ∷ []) }
{
    let mut line = value.to_vec(alloc)?;
    line.push(b'\n')?;
    Ok(line)
}
