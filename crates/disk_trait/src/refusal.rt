// Out of memory, as a disk answers it.
ghost use Rattle.std.specs.Prelude.{◌≡◌};
ghost use Rattle.disk_trait.specs.declared.DiskRefusal.TheVariants.{NoMemory};

use crate::DiskRefusal;
use std::alloc::{AllocError, AllocFailed};

impl From<AllocError> for DiskRefusal {
    ghost from_gives = { λ _ e. e ≡ NoMemory };

    fn from(_: AllocError) -> Self {
        DiskRefusal::NoMemory
    }
}

impl<T: Drop> From<AllocFailed<T>> for DiskRefusal {
    ghost from_gives = { λ _ e. e ≡ NoMemory };

    fn from(_: AllocFailed<T>) -> Self {
        DiskRefusal::NoMemory
    }
}
