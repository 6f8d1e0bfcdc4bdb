// Why no store of a partition was opened.
ghost use Rattle.std.specs.Prelude.{◌≡◌};
ghost use Rattle.newest_store.specs.Search.{fault_in, disk_fault};

use disk_trait::DiskRefusal;
use store_journal::LoadFault;

/// Why no store of a partition was opened.
#[derive(Clone, Copy, Debug, PartialEq, Eq, Drop)]
pub enum NewestFault {
    /// Neither file is sealed.
    NoStore,
    /// This file is sealed, and first leaves the form of a store of the partition at this offset, from 0.
    Damaged { file: u8, at: u64 },
    /// The device failed, and the disk's count of faults rose in this call.
    Failed,
    /// Out of memory, here or at the disk.
    NoMemory,
}

/// The fault of a file, as one of the partition's files.
pub(crate) fn fault_in(file: u8, fault: LoadFault) -> NewestFault
    ensures { result ≡ fault_in file fault }
{
    match fault {
        LoadFault::NotSealed => NewestFault::NoStore,
        LoadFault::Damaged { at } => NewestFault::Damaged { file, at },
        LoadFault::Failed => NewestFault::Failed,
        LoadFault::NoMemory => NewestFault::NoMemory,
    }
}

impl From<DiskRefusal> for NewestFault {
    ghost from_gives = { λ refusal fault. fault ≡ disk_fault refusal };

    fn from(refusal: DiskRefusal) -> Self {
        match refusal {
            DiskRefusal::Failed => NewestFault::Failed,
            DiskRefusal::NoMemory => NewestFault::NoMemory,
        }
    }
}
