//! A cluster with its disks, as the machine of a script.
ghost use Rattle.std.specs.Prelude.{◌≡◌};
ghost use Rattle.cluster_commands.specs.Breaks.{Carries, BreaksOff};
ghost use Rattle.cluster_commands.specs.OnDisk.{IsReady};
ghost use Rattle.cluster_cli.specs.Sites.{IsThere, BothThere, HasOneDisk};

use cache_key::HostName;
use cluster_commands::{Cluster, obey};
use disk_trait::Disk;
use script_lines::{Answer, Command};
use script_loop::Machine;
use std::alloc::{AllocError, Global};

/// A cluster, if one is open, on the disks of its lane, with the hosts of its site.
#[derive(Drop)]
pub struct ClusterMachine<'a, D: Disk> {
    pub hosts: &'a [HostName],
    /// It is there between two commands.
    pub cluster: Option<Cluster<D>>,
}

impl<'a, D: Disk> Machine for ClusterMachine<'a, D> {
    ghost answers = { λ old command answer new. (new.hosts ≡ old.hosts) × BothThere old.cluster new.cluster (λ before after. Carries D.view old.hosts.now before command answer after × HasOneDisk after) };

    ghost breaks = { λ old command new. (new.hosts ≡ old.hosts) × BothThere old.cluster new.cluster (λ before after. BreaksOff D.view old.hosts.now before command after × HasOneDisk after) };

    ghost is_ready = { λ machine. IsThere machine.cluster (IsReady D.view) };

    fn command(&mut self, alloc: Global, command: Command) -> Result<Answer, AllocError> {
        let Some(cluster) = self.cluster.take() else {
            unreachable!()
        };
        let (cluster, answer) = obey(alloc, self.hosts, cluster, command);
        match self.cluster.replace(cluster) {
            None => answer,
            Some(_) => unreachable!(),
        }
    }
}
