//! Why a line is no command.
ghost use Rattle.std.specs.Prelude.{◌≡◌};
ghost use Rattle.script_lines.specs.declared.fault.LineFault.TheVariants.{NoMemory};

use crate::reason::LineReason;
use std::alloc::AllocFailed;

/// Why a line is no command.
#[derive(Clone, Copy, Debug, Drop, thiserror::Error)]
pub enum LineFault {
    /// It has no command's form. The reason is for a person.
    #[error("{reason}")]
    Form { reason: LineReason },
    /// There was no memory to read it.
    #[error("out of memory")]
    NoMemory,
}

impl<T: Drop> From<AllocFailed<T>> for LineFault {
    ghost from_gives = { λ _ fault. fault ≡ NoMemory };

    fn from(_: AllocFailed<T>) -> Self {
        LineFault::NoMemory
    }
}
