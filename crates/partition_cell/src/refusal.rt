//! Why a call of a cell was refused.
ghost use Rattle.std.specs.Prelude.{◌≡◌};
ghost use Rattle.partition_cell.specs.Refusals.{call_refusal, cell_refusal, move_refusal};

use call_trail::CallRefusal;
use disk_trait::DiskRefusal;

/// Why a cell couldn't be made.
#[derive(Clone, Copy, Debug, PartialEq, Eq, Drop)]
pub enum CellRefusal {
    /// The disk of this host failed.
    Fault { host: u16 },
    /// None of the files is sealed.
    NoStore,
    /// This file of this host is sealed, and first leaves the form of a store of the partition at this offset, from 0.
    Damaged { host: u16, file: u8, at: u64 },
    /// Out of memory.
    NoMemory,
}

/// Why a store couldn't be built anew.
#[derive(Clone, Copy, Debug, PartialEq, Eq, Drop)]
pub enum MoveRefusal {
    /// A store is being built on this host.
    Busy { to: u16 },
    /// No greater version is left.
    VersionEnd,
    /// The disk of this host failed.
    Fault { host: u16 },
    /// Out of memory.
    NoMemory,
}

pub(crate) fn refused_call(host: u16, refusal: DiskRefusal) -> CallRefusal
    ensures { result ≡ call_refusal host refusal }
{
    match refusal {
        DiskRefusal::Failed => CallRefusal::Fault { host },
        DiskRefusal::NoMemory => CallRefusal::NoMemory,
    }
}

pub(crate) fn refused_cell(host: u16, refusal: DiskRefusal) -> CellRefusal
    ensures { result ≡ cell_refusal host refusal }
{
    match refusal {
        DiskRefusal::Failed => CellRefusal::Fault { host },
        DiskRefusal::NoMemory => CellRefusal::NoMemory,
    }
}

pub(crate) fn refused_move(host: u16, refusal: DiskRefusal) -> MoveRefusal
    ensures { result ≡ move_refusal host refusal }
{
    match refusal {
        DiskRefusal::Failed => MoveRefusal::Fault { host },
        DiskRefusal::NoMemory => MoveRefusal::NoMemory,
    }
}
