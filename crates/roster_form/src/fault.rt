//! Why bytes were not read as a roster.
ghost use Rattle.std.specs.Prelude.{◌≡◌};
ghost use Rattle.roster_form.specs.declared.fault.RosterFault.TheVariants.{NoMemory};

use std::alloc::AllocError;

/// Why bytes were not read as a roster.
#[derive(Clone, Copy, Debug, PartialEq, Eq, Drop)]
pub enum RosterFault {
    /// The bytes first leave the form of a roster's file at this offset, from 0.
    Form { at: u64 },
    /// Out of memory for the names.
    NoMemory,
}

impl From<AllocError> for RosterFault {
    ghost from_gives = { λ _ fault. fault ≡ NoMemory };

    fn from(_: AllocError) -> Self {
        RosterFault::NoMemory
    }
}
