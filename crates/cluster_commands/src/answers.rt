//! Answers of commands and outcomes of events that aren't done, and when they come.
ghost use Rattle.std.specs.Prelude.{◌≡◌, ◌≢◌, ◌↔◌, IsTrue, Contains, Some, None, IfOk, OnErr};
ghost use Rattle.partition_cell.specs.declared.refusal.MoveRefusal.TheVariants.{VersionEnd};
ghost use Rattle.cluster_commands.specs.Refusals.{opening_refusal, call_refusal_at, renewal_refusal, IsServedRefusal, IsServedMove};

use cache_key::HostName;
use call_trail::CallRefusal;
use partition_cell::{CellRefusal, MoveRefusal};
use script_lines::{Answer, Refusal};
use std::alloc::AllocError;

/// A command that isn't done for this.
pub fn refused(refusal: Refusal) -> Answer
    ensures { result ≡ Answer.Refused refusal }
{
    Answer::Refused { refusal }
}

/// Whether the site has this host.
pub fn is_member(hosts: &[HostName], host: &HostName) -> bool
    ensures { IsTrue result ↔ Contains hosts.now host.now }
{
    hosts.contains(host)
}

/// Why no cluster is made or recovered at this host; none when out of memory, which ends the run.
pub(crate) fn refused_opening(refusal: CellRefusal, host: HostName) -> Option<Refusal>
    ensures { result ≡ opening_refusal refusal host }
{
    match refusal {
        CellRefusal::NoStore => Some(Refusal::NotCreated),
        CellRefusal::Damaged { file, at, .. } => Some(Refusal::Damaged {
            host,
            partition: 0,
            file,
            at,
        }),
        CellRefusal::Fault { .. } => Some(Refusal::Fault { host }),
        CellRefusal::NoMemory => None,
    }
}

/// Why a call of the partition at this host isn't done. An error ends the run: memory ran out in the call, or for a copy of the
/// host's name.
pub(crate) fn refused_call(refusal: CallRefusal, host: &HostName) -> Result<Refusal, AllocError>
    requires served { IsServedRefusal refusal }
    ensures { IfOk result (λ shown. call_refusal_at refusal host.now ≡ Some shown) }
{
    match refusal {
        CallRefusal::TrailFull => Ok(Refusal::TrailFull),
        CallRefusal::StoreFull { live } => Ok(Refusal::StoreFull { live }),
        CallRefusal::VersionEnd => Ok(Refusal::VersionEnd),
        CallRefusal::Fault { .. } => Ok(Refusal::Fault { host: host.copy()? }),
        CallRefusal::NoMemory => Err(AllocError),
        CallRefusal::Suspended { .. } | CallRefusal::Pinned { .. } => unreachable!(),
    }
}

/// Why the store of the partition at this host isn't built anew. An error as above: never where no version was left.
pub(crate) fn refused_renewal(refusal: MoveRefusal, host: &HostName) -> Result<Refusal, AllocError>
    requires served { IsServedMove refusal }
    ensures shown { IfOk result (λ shown. renewal_refusal refusal host.now ≡ Some shown) }
    ensures memory { OnErr result (refusal ≢ VersionEnd) }
{
    match refusal {
        MoveRefusal::VersionEnd => Ok(Refusal::VersionEnd),
        MoveRefusal::Fault { .. } => Ok(Refusal::Fault { host: host.copy()? }),
        MoveRefusal::NoMemory => Err(AllocError),
        MoveRefusal::Busy { .. } => unreachable!(),
    }
}
