//! An empty cluster is made.
ghost use Rattle.std.specs.Prelude.{◌≡◌, length, IfOk, OnOk, OnErr};
ghost use Rattle.cluster_commands.specs.Breaks.{Carries, BreaksOff};
ghost use Rattle.cluster_commands.specs.OnDisk.{IsReady, lane_of};
ghost use Rattle.cluster_commands.specs.declared.cluster.Cluster.TheVariants.{Closed};
ghost use Rattle.script_lines.specs.declared.command.Command.TheVariants.{Create};

use crate::answers::{is_member, refused_opening};
use crate::cluster::{Cluster, Opened};
use crate::partition::make_partition;
use crate::restart::refused_with_restart;
use cache_key::HostName;
use disk_trait::Disk;
use script_lines::{Answer, Refusal};
use std::alloc::{AllocError, Global};

/// Makes an empty cluster on these disks, while none is open.
///
/// After a refusal the disk is restarted, so that nothing is pending on it.
pub fn create<D: Disk>(
    alloc: Global,
    hosts: &[HostName],
    mut disks: Vec<D>,
    host: HostName,
) -> (Cluster<D>, Result<Answer, AllocError>)
    requires ready { IsReady D.view (Closed disks) }
    ensures carried { IfOk result.1 (λ answer. Carries D.view hosts.now (Closed disks) (Create host) answer result.0) }
    ensures broken { OnErr result.1 (BreaksOff D.view hosts.now (Closed disks) (Create host) result.0) }
    ensures ready { OnOk result.1 (IsReady D.view result.0) }
    ensures one { length (lane_of result.0) ≡ 1 }
{
    if !is_member(hosts, &host) {
        let answer = refused_with_restart(disks.as_mut_slice(), Refusal::NotMember { host });
        return (Cluster::Closed { disks }, Ok(answer));
    }
    let member = match host.copy() {
        Ok(member) => member,
        Err(fault) => return (Cluster::Closed { disks }, Err(fault)),
    };
    match make_partition(alloc, disks) {
        Ok(kept) => {
            let cluster = Opened {
                host: member,
                kept,
                calls: 0,
            };
            cluster.is_stored();
            (Cluster::Open { cluster }, Ok(Answer::Created { host }))
        }
        Err((refusal, mut disks)) => {
            let Some(refusal) = refused_opening(refusal, host) else {
                return (Cluster::Closed { disks }, Err(AllocError));
            };
            let answer = refused_with_restart(disks.as_mut_slice(), refusal);
            (Cluster::Closed { disks }, Ok(answer))
        }
    }
}
