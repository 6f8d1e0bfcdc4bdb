//! What carries out the commands of a script.
ghost use Rattle.std.specs.Prelude.{IfOk, OnOk, OnErr};
ghost use Rattle.script_lines.specs.declared.command.Command.{Command};
ghost use Rattle.script_lines.specs.declared.answer.Answer.{Answer};

use script_lines::{Answer, Command};
use std::alloc::{AllocError, Global};

/// What carries out the commands of a script.
pub trait Machine {
    /// From the first state, the command is answered so and leaves the second.
    ghost answers: { Self → Command → Answer → Self → Type 0 };

    /// A command that is broken off when out of memory may leave the second state.
    ghost breaks: { Self → Command → Self → Type 0 };

    /// What holds between two commands.
    ghost is_ready: { Self → Type 0 };

    /// Carries out a command. The error is for memory alone, and ends the run: no command is asked after it.
    fn command(&mut self, alloc: Global, command: Command) -> Result<Answer, AllocError>
        requires { is_ready self.old }
        ensures answered { IfOk result (λ answer. answers self.old command answer self.new) }
        ensures broken { OnErr result (breaks self.old command self.new) }
        ensures ready { OnOk result (is_ready self.new) };
}
