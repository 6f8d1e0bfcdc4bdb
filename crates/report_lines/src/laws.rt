//! Laws of the lines, for every answer and every fault.
ghost use Rattle.script_lines.specs.declared.answer.Answer.{Answer};
ghost use Rattle.report_lines.specs.declared.fault.Fault.{Fault};
ghost use Rattle.report_lines.specs.Line.{answer_line, fault_line};
ghost use Rattle.report_lines.specs.OneLine.{IsOneLine};

/// The law of the one line: the line feed at the end is the only control byte, whatever stands in names, keys and
/// values. Does nothing.
pub fn lines_are_single()
    ensures answers { (answer : Answer) → IsOneLine (answer_line answer) }
    ensures faults { (fault : Fault) → IsOneLine (fault_line fault) }
{}
