//! What each command does to a cluster, and what it is answered.
ghost use Rattle.std.specs.Prelude.{◌≡◌, length, List, IfOk, OnOk, OnErr};
ghost use Rattle.disk_trait.specs.Moments.{Onward};
ghost use Rattle.script_lines.specs.declared.answer.Answer.TheVariants.{Dumped};
ghost use Rattle.cluster_commands.specs.Breaks.{EventsBreak, Carries, BreaksOff};
ghost use Rattle.cluster_commands.specs.Commands.{IsStepped, IsDump, dump_of};
ghost use Rattle.cluster_commands.specs.OnDisk.{IsClosed, IsReady, IsServing, IsClusterOf, FilesHold, IsDiskRestarted, StateSteps, disks_in, lane_of, lane_view};
ghost use Rattle.cluster_commands.specs.State.{OpenCluster, known_of, store_in};
ghost use Rattle.cluster_commands.specs.declared.cluster.Cluster.TheVariants.{Closed, Open};

use crate::answers::refused;
use crate::cluster::{Cluster, Opened};
use crate::create::create;
use crate::events::run_events;
use crate::recover::recover;
use crate::restart::restart_lane;
use cache_key::HostName;
use cache_model::Contents;
use disk_trait::Disk;
use script_lines::{Answer, Command, Events, Outcomes, PartitionDump, PartitionDumps, Refusal};
use std::alloc::{AllocError, Global};

/// Carries out a command. After running out of memory a part of it may be done.
pub fn obey<D: Disk>(
    alloc: Global,
    hosts: &[HostName],
    cluster: Cluster<D>,
    command: Command,
) -> (Cluster<D>, Result<Answer, AllocError>)
    requires ready { IsReady D.view cluster }
    ensures carried { IfOk result.1 (λ answer. Carries D.view hosts.now cluster command answer result.0) }
    ensures broken { OnErr result.1 (BreaksOff D.view hosts.now cluster command result.0) }
    ensures ready { OnOk result.1 (IsReady D.view result.0) }
    ensures one { length (lane_of result.0) ≡ 1 }
{
    match cluster {
        Cluster::Closed { disks } => begin(alloc, hosts, disks, command),
        Cluster::Open { cluster } => serve(alloc, hosts, cluster, command),
    }
}

// Carries out a command while no cluster is open.
fn begin<D: Disk>(
    alloc: Global,
    hosts: &[HostName],
    disks: Vec<D>,
    command: Command,
) -> (Cluster<D>, Result<Answer, AllocError>)
    requires ready { IsReady D.view (Closed disks) }
    ensures carried { IfOk result.1 (λ answer. Carries D.view hosts.now (Closed disks) command answer result.0) }
    ensures broken { OnErr result.1 (BreaksOff D.view hosts.now (Closed disks) command result.0) }
    ensures ready { OnOk result.1 (IsReady D.view result.0) }
    ensures one { length (lane_of result.0) ≡ 1 }
{
    match command {
        Command::Create { host } => create(alloc, hosts, disks, host),
        Command::Recover { host } => recover(alloc, hosts, disks, host),
        Command::Stop | Command::Dump | Command::Steps { .. } => {
            (Cluster::Closed { disks }, Ok(refused(Refusal::Closed)))
        }
    }
}

// Carries out a command of an open cluster.
fn serve<D: Disk>(
    alloc: Global,
    _hosts: &[HostName],
    mut cluster: Opened<D>,
    command: Command,
) -> (Cluster<D>, Result<Answer, AllocError>)
    requires serving { IsServing cluster.kept }
    ensures carried { IfOk result.1 (λ answer. Carries D.view _hosts.now (Open cluster) command answer result.0) }
    ensures broken { OnErr result.1 (BreaksOff D.view _hosts.now (Open cluster) command result.0) }
    ensures ready { OnOk result.1 (IsReady D.view result.0) }
    ensures one { length (lane_of result.0) ≡ 1 }
{
    match command {
        Command::Create { .. } | Command::Recover { .. } => {
            (Cluster::Open { cluster }, Ok(refused(Refusal::Open)))
        }
        Command::Stop => (stop(cluster), Ok(Answer::Stopped)),
        Command::Dump => {
            let answer = dump(alloc, &cluster);
            (Cluster::Open { cluster }, answer)
        }
        Command::Steps { events } => {
            let answer = steps(alloc, &mut cluster, events);
            (Cluster::Open { cluster }, answer)
        }
    }
}

// Closes the cluster, and restarts its disk: what memory has of it is gone.
fn stop<D: Disk>(cluster: Opened<D>) -> Cluster<D>
    requires one { length (disks_in cluster) ≡ 1 }
    ensures closed { IsClosed result }
    ensures restarted { IsDiskRestarted (lane_view D.view (disks_in cluster)) (lane_view D.view (lane_of result)) }
    ensures one { length (lane_of result) ≡ 1 }
{
    let mut disks = cluster.kept.into_cell().into_lane();
    restart_lane(disks.as_mut_slice());
    Cluster::Closed { disks }
}

// The contents are shown.
fn dump<D: Disk>(alloc: Global, cluster: &Opened<D>) -> Result<Answer, AllocError>
    ensures { IfOk result (λ answer. (seen : OpenCluster) → IsClusterOf cluster.now seen → IsDump seen answer) }
{
    let caches = cluster.kept.cell().contents().contents(alloc)?;
    dump_with(alloc, cluster, caches)
}

// The contents are shown. A partition without a cache isn't.
fn dump_with<D: Disk>(
    alloc: Global,
    cluster: &Opened<D>,
    caches: Contents,
) -> Result<Answer, AllocError>
    ensures { IfOk result (λ answer. (seen : OpenCluster) → IsClusterOf cluster.now seen → answer ≡ Dumped (dump_of seen caches)) }
{
    let mut partitions = Vec::new(alloc);
    if !caches.caches().is_empty() {
        let host = cluster.host.copy()?;
        partitions.push(PartitionDump {
            caches,
            host,
            id: cluster.kept.cell().id(),
        })?;
    }
    Ok(Answer::Dumped {
        partitions: PartitionDumps::of(partitions),
    })
}

fn steps<D: Disk>(
    alloc: Global,
    cluster: &mut Opened<D>,
    events: Events,
) -> Result<Answer, AllocError>
    requires serving { IsServing cluster.old.kept }
    ensures step { IfOk result (λ answer. StateSteps D.view cluster.old cluster.new (λ before after. IsStepped before events answer after)) }
    ensures broken { OnErr result (StateSteps D.view cluster.old cluster.new (λ before after. EventsBreak before events after)) }
    ensures serving { IsServing cluster.new.kept }
    ensures stored { (seen : OpenCluster) → IsClusterOf cluster.new seen → FilesHold (store_in (known_of seen)) (lane_view D.view (disks_in cluster.new)) }
    ensures onward { Onward (lane_view D.view (disks_in cluster.old)) (lane_view D.view (disks_in cluster.new)) }
{
    let outcomes = run_events(alloc, cluster, events.into_vec());
    cluster.is_stored();
    Ok(Answer::Stepped {
        outcomes: Outcomes::of(outcomes?),
    })
}
