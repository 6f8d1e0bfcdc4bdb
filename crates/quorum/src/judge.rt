//! The verdict on the present hosts.
ghost use Rattle.std.specs.Prelude.{◌≡◌, ◌&&◌, ◌||◌, List, length, is_some, IfOk};
ghost use Rattle.std.specs.Option.{option_copied};
ghost use Rattle.cache_model.specs.Caches.{same};
ghost use Rattle.roster_form.specs.Membership.{Host, joining_host};
ghost use Rattle.roster_form.specs.Choice.{later_of, chosen_roster, is_host, is_back, missing_hosts};
ghost use Rattle.quorum.specs.Judged.{sightings_of, verdict_of, verdict_with};

use crate::verdict::Verdict;
use cache_key::{HostList, HostName};
use roster_book::Found;
use roster_form::Roster;
use std::alloc::{AllocError, Global};

/// Judges whether the present hosts may open the cluster.
///
/// `found` is what `read_rosters` found at the hosts of `present`, in their order: of two rosters of one epoch that of the host
/// that stands first counts, which is the lowest where the hosts stand in byte order. Takes memory for the names that are
/// answered.
pub fn check(alloc: Global, found: &[Found], present: &[HostName]) -> Result<Verdict, AllocError>
    requires { length found.now ≡ length present.now }
    ensures verdict { IfOk result (λ verdict. verdict ≡ verdict_of (sightings_of found.now present.now)) }
{
    match chosen(found) {
        None => Ok(Verdict::NotCreated),
        Some(roster) => verdict_by(alloc, roster, found, present),
    }
}

/// The chosen roster, if a present host shows one.
fn chosen(found: &[Found]) -> Option<&Roster>
    ensures { (hosts : List Host) → length found.now ≡ length hosts → option_copied result ≡ chosen_roster (sightings_of found.now hosts) }
{
    let mut chosen = None;
    for each in found {
        chosen = later(chosen, each.roster.as_ref());
    }
    chosen
}

/// Of two rosters the one of greater epoch, and of the same epoch the first.
fn later<'a>(first: Option<&'a Roster>, second: Option<&'a Roster>) -> Option<&'a Roster>
    ensures { option_copied result ≡ later_of (option_copied first.entry) (option_copied second.entry) }
{
    match (first, second) {
        (Some(one), Some(other)) => {
            if one.epoch < other.epoch {
                second
            } else {
                first
            }
        }
        (None, _) => second,
        (Some(_), None) => first,
    }
}

/// Whether each host of the roster is back.
fn verdict_by(
    alloc: Global,
    roster: &Roster,
    found: &[Found],
    present: &[HostName],
) -> Result<Verdict, AllocError>
    requires { length found.now ≡ length present.now }
    ensures { IfOk result (λ verdict.
        let sightings = sightings_of found.now present.now in
        verdict ≡ verdict_with roster.now (missing_hosts roster.now sightings roster.now.hosts)) }
{
    let missing = missing(alloc, roster, found, present)?;
    if missing.len() == 0 {
        return Ok(Verdict::Met {
            epoch: roster.epoch,
            hosts: roster.hosts.copy()?,
        });
    }
    Ok(Verdict::Short { missing })
}

/// The hosts of the roster that aren't back.
fn missing(
    alloc: Global,
    roster: &Roster,
    found: &[Found],
    present: &[HostName],
) -> Result<HostList, AllocError>
    requires { length found.now ≡ length present.now }
    ensures { IfOk result (λ missing. missing ≡ missing_hosts roster.now (sightings_of found.now present.now) roster.now.hosts) }
{
    let mut missing = HostList::new(alloc);
    for host in roster.hosts.as_slice() {
        if !is_back(roster, found, present, host) {
            missing.push(host.copy()?)?;
        }
    }
    Ok(missing)
}

/// Whether the host is present, and shows a roster or is the one that is joining.
fn is_back(roster: &Roster, found: &[Found], present: &[HostName], host: &HostName) -> bool
    requires { length found.now ≡ length present.now }
    ensures { result ≡ is_back roster.now (sightings_of found.now present.now) host.now }
{
    for index in 0..found.len() {
        if is_sighted(roster, &found[index], &present[index], host) {
            return true;
        }
    }
    false
}

/// Whether what was found under this name shows that the host is back.
fn is_sighted(roster: &Roster, found: &Found, name: &HostName, host: &HostName) -> bool
    ensures { result ≡ (same name.now host.now && (is_some found.now.roster || is_host (joining_host roster.now) host.now)) }
{
    name == host && (found.roster.is_some() || is_joining(roster, host))
}

/// Whether the host is the one that is joining.
fn is_joining(roster: &Roster, host: &HostName) -> bool
    ensures { result ≡ is_host (joining_host roster.now) host.now }
{
    match roster.joining {
        Some(index) => is_named(roster.hosts.get(u32::from(index)), host),
        None => false,
    }
}

/// Whether there is a name, and it is this one.
fn is_named(name: Option<&HostName>, host: &HostName) -> bool
    ensures { result ≡ is_host (option_copied name.entry) host.now }
{
    match name {
        Some(name) => name == host,
        None => false,
    }
}
