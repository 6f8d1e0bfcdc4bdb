//! What a member knows of its cluster's roster.
ghost use Rattle.std.specs.Prelude.{◌≡◌};
ghost use Rattle.std.specs.Option.{option_copied};
ghost use Rattle.roster_form.specs.Membership.{host_at};
ghost use Rattle.roster_book.specs.Standing.{hosts_but};

use cache_key::{HostList, HostName};
use roster_form::Roster;
use std::marker::Model;

/// The last roster that each of its hosts has, and the change that isn't finished.
#[derive(Debug, Drop)]
pub struct Book {
    epoch: u64,
    members: HostList,
    pending: Option<HostName>,
}

impl Model for Book {
    ghost use Rattle.roster_book.specs.Standing.{Standing};

    ghost Value = { Standing };

    ghost view = { λ book. record { epoch = book.epoch; members = book.members; pending = book.pending } };
}

impl Book {
    ghost use Rattle.roster_book.specs.Standing.{Standing, standing_of};

    /// The book of a roster that each of its hosts has. Takes no memory.
    ///
    /// A host that is joining in it is no member yet: its join is pending.
    pub fn of(roster: Roster) -> Book
        ensures { result ≡ standing_of roster }
    {
        let Roster {
            epoch,
            mut hosts,
            joining,
            partitions: _,
        } = roster;
        let pending = take_joining(&mut hosts, joining);
        Book {
            epoch,
            members: hosts,
            pending,
        }
    }

    /// The epoch of that roster, which new stores get.
    pub fn epoch(&self) -> u64
        ensures { result ≡ self.now.epoch }
    {
        self.epoch
    }

    /// The hosts that may own partitions, in byte order.
    pub fn members(&self) -> &HostList
        ensures { result.now ≡ self.now.members }
    {
        &self.members
    }

    /// The host whose join or leave isn't finished, if there is one.
    pub fn pending(&self) -> Option<&HostName>
        ensures { option_copied result ≡ self.now.pending }
    {
        self.pending.as_ref()
    }
}

// Takes the joining host out of the others.
fn take_joining(hosts: &mut HostList, joining: Option<u8>) -> Option<HostName>
    ensures host { result ≡ host_at hosts.old joining }
    ensures others { hosts.new ≡ hosts_but joining hosts.old }
{
    match joining {
        Some(index) => hosts.remove(u32::from(index)),
        None => None,
    }
}
