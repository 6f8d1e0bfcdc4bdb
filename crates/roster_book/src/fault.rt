//! Why a host's roster wasn't read.
ghost use Rattle.std.specs.Prelude.{◌≡◌};
ghost use Rattle.roster_book.specs.declared.fault.ShownFault.TheVariants.{NoMemory};
ghost use Rattle.roster_book.specs.Reading.{shown_fault};

use disk_trait::DiskRefusal;
use std::alloc::AllocError;

/// Why it wasn't read what roster a host shows.
#[derive(Clone, Copy, Debug, PartialEq, Eq, Drop)]
pub enum ShownFault {
    /// The device failed, and the disk's count of faults rose in this call.
    Failed,
    /// Its newest sealed file first leaves the form of a roster of such a site at this offset, from 0.
    Damaged { file: u8, at: u64 },
    /// Out of memory, here or at the disk.
    NoMemory,
}

impl From<DiskRefusal> for ShownFault {
    ghost from_gives = { λ refusal fault. fault ≡ shown_fault refusal };

    fn from(refusal: DiskRefusal) -> Self {
        match refusal {
            DiskRefusal::Failed => ShownFault::Failed,
            DiskRefusal::NoMemory => ShownFault::NoMemory,
        }
    }
}

impl From<AllocError> for ShownFault {
    ghost from_gives = { λ _ fault. fault ≡ NoMemory };

    fn from(_: AllocError) -> Self {
        ShownFault::NoMemory
    }
}
