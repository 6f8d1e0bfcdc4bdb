//! The commands of a script.
ghost use Rattle.std.specs.Prelude.{◌≡◌, [], ◌∷◌, ◌++◌, OnOk, OnErr};

use cache_key::{HostName, Request};
use std::alloc::{AllocError, Global};
use std::marker::Model;

/// What a line of a script asks of the cluster.
#[derive(Drop)]
pub enum Command {
    /// Makes an empty cluster whose one member is the host.
    Create { host: HostName },
    /// Shows the contents of every partition.
    Dump,
    /// Carries out events, in their order.
    Steps { events: Events },
    /// Closes the cluster as the end of its process does: what stands in memory is lost.
    Stop,
    /// Opens the cluster that stands on the disks of the host.
    Recover { host: HostName },
}

/// One step of a script.
#[derive(Drop)]
pub enum Event {
    /// Asks a cache.
    Call { request: Request },
    /// Builds the store of a partition anew. The cluster may have no partition of this number.
    Renew { partition: u16 },
}

/// The events of a command, in their order.
#[derive(Drop)]
pub struct Events {
    events: Vec<Event>,
}

impl Model for Events {
    ghost use Rattle.std.specs.Prelude.{List};
    ghost use Rattle.script_lines.specs.declared.command.Event.{Event};

    ghost Value = { List Event };

    ghost view = { λ list. list.events.items };
}

impl Events {
    /// Takes the list as it is.
    pub fn of(events: Vec<Event>) -> Self
        ensures { result ≡ events.items }
    {
        Events { events }
    }

    /// Gives the list back.
    pub fn into_vec(self) -> Vec<Event>
        ensures { result.items ≡ self }
    {
        self.events
    }
}
