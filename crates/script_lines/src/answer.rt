//! The answers to the commands of a script.
ghost use Rattle.std.specs.Prelude.{◌≡◌};

use cache_key::{HostName, Reply};
use cache_model::Contents;
use std::marker::Model;
use store_ident::StoreId;

/// The answer to a command.
#[derive(Drop)]
pub enum Answer {
    /// An empty cluster was made. The host is its one member.
    Created {
        host: HostName,
    },
    /// The contents of each partition that has a cache, in the order of their numbers.
    Dumped {
        partitions: PartitionDumps,
    },
    /// The outcome of each event, in their order.
    Stepped {
        outcomes: Outcomes,
    },
    /// The command was not carried out.
    Refused {
        refusal: Refusal,
    },
    /// The cluster was closed.
    Stopped,
    /// The cluster was opened at this epoch, with this one host. `opened` counts its partitions.
    Recovered {
        epoch: u64,
        host: HostName,
        opened: u16,
    },
}

/// The outcome of an event.
#[derive(Drop)]
pub enum Outcome {
    /// The cache replied.
    Replied { reply: Reply },
    /// The event was not carried out.
    Refused { refusal: Refusal },
    /// The store of the partition was built anew, with this identifier.
    Renewed { partition: u16, id: StoreId },
}

/// Why a command or an event was not carried out.
#[derive(Drop)]
pub enum Refusal {
    /// No cluster is open.
    Closed,
    /// A cluster is open already.
    Open,
    /// The host isn't one of the site.
    NotMember {
        host: HostName,
    },
    /// A disk of this host failed.
    Fault {
        host: HostName,
    },
    /// The disks have no cluster.
    NotCreated,
    /// The store of this partition, in this file of the host, has no store's form from this offset on. Offsets count
    /// bytes from 0.
    Damaged {
        host: HostName,
        partition: u16,
        file: u8,
        at: u64,
    },
    /// The cluster has no partition of this number.
    NoPartition {
        partition: u16,
    },
    /// The change could lengthen a store of the partition's contents past the limit. A store of what it has now is
    /// `live` bytes long.
    StoreFull {
        live: u64,
    },
    /// The history of the partition's calls has no room for one more.
    TrailFull,
    /// The store has to be built anew, and no greater version is left.
    VersionEnd,
}

/// The contents of one partition.
#[derive(Drop)]
pub struct PartitionDump {
    pub caches: Contents,
    /// The host of its newest store.
    pub host: HostName,
    /// The identifier of that store, with the partition's number.
    pub id: StoreId,
}

/// The dump of each partition that has a cache, in the order of their numbers.
#[derive(Drop)]
pub struct PartitionDumps {
    partitions: Vec<PartitionDump>,
}

impl Model for PartitionDumps {
    ghost use Rattle.std.specs.Prelude.{List};
    ghost use Rattle.script_lines.specs.declared.answer.PartitionDump.{PartitionDump};

    ghost Value = { List PartitionDump };

    ghost view = { λ list. list.partitions.items };
}

impl PartitionDumps {
    /// Takes the list as it is.
    pub fn of(partitions: Vec<PartitionDump>) -> Self
        ensures { result ≡ partitions.items }
    {
        PartitionDumps { partitions }
    }

    /// The partitions, in their order.
    pub fn as_slice(&self) -> &[PartitionDump]
        ensures { result.now ≡ self.now }
    {
        self.partitions.as_slice()
    }
}

/// The outcomes of the events of a command, in their order.
#[derive(Drop)]
pub struct Outcomes {
    outcomes: Vec<Outcome>,
}

impl Model for Outcomes {
    ghost use Rattle.std.specs.Prelude.{List};
    ghost use Rattle.script_lines.specs.declared.answer.Outcome.{Outcome};

    ghost Value = { List Outcome };

    ghost view = { λ list. list.outcomes.items };
}

impl Outcomes {
    /// Takes the list as it is.
    pub fn of(outcomes: Vec<Outcome>) -> Self
        ensures { result ≡ outcomes.items }
    {
        Outcomes { outcomes }
    }

    /// The outcomes, in their order.
    pub fn as_slice(&self) -> &[Outcome]
        ensures { result.now ≡ self.now }
    {
        self.outcomes.as_slice()
    }
}
