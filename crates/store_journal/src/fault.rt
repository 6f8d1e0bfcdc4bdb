// Why a file wasn't read as a store.
ghost use Rattle.std.specs.Prelude.{◌≡◌};
ghost use Rattle.store_journal.specs.declared.fault.LoadFault.TheVariants.{NoMemory};
ghost use Rattle.store_journal.specs.Loading.{load_fault};

use disk_trait::DiskRefusal;
use std::alloc::{AllocError, AllocFailed};

/// Why a file wasn't read as a store of a partition.
#[derive(Clone, Copy, Debug, PartialEq, Eq, Drop)]
pub enum LoadFault {
    /// The file isn't sealed.
    NotSealed,
    /// The file is sealed, and first leaves the form of a store of that partition at this offset, from 0.
    Damaged { at: u64 },
    /// The device failed, and the disk's count of faults rose in this call.
    Failed,
    /// Out of memory, here or at the disk.
    NoMemory,
}

impl From<DiskRefusal> for LoadFault {
    ghost from_gives = { λ refusal fault. fault ≡ load_fault refusal };

    fn from(refusal: DiskRefusal) -> Self {
        match refusal {
            DiskRefusal::Failed => LoadFault::Failed,
            DiskRefusal::NoMemory => LoadFault::NoMemory,
        }
    }
}

impl From<AllocError> for LoadFault {
    ghost from_gives = { λ _ fault. fault ≡ NoMemory };

    fn from(_: AllocError) -> Self {
        LoadFault::NoMemory
    }
}

impl<T: Drop> From<AllocFailed<T>> for LoadFault {
    ghost from_gives = { λ _ fault. fault ≡ NoMemory };

    fn from(_: AllocFailed<T>) -> Self {
        LoadFault::NoMemory
    }
}
