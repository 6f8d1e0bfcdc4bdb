//! A roster from its bytes.
ghost use Rattle.std.specs.Prelude.{◌≡◌, ◌⊎◌, ◌↔◌, ℕ, ◌<◌, ◌≤◌, ◌++◌, List, length, drop, All, None, Some, Ok, Err, IfOk, IsErrOf};
ghost use Rattle.byte_fields.specs.Counted.{counted8_text};
ghost use Rattle.byte_fields.specs.Numbers.{number_in};
ghost use Rattle.byte_fields.specs.Reading.{rest_of};
ghost use Rattle.cache_key.specs.Names.{IsName};
ghost use Rattle.roster_form.specs.Membership.{Host};
ghost use Rattle.roster_form.specs.RosterText.{names_text, IsRosterText};
ghost use Rattle.roster_form.specs.RosterFault.{roster_fault, HasNames, joining_in};
ghost use Rattle.roster_form.specs.declared.fault.RosterFault.TheVariants.{Form, NoMemory};
ghost use Rattle.roster_form.specs.declared.roster.Roster.{Roster};

use crate::fault::RosterFault;
use crate::head::head_fault;
use crate::names::names_fault;
use crate::roster::{NAMES_OFFSET, NONE_JOINING, Roster};
use byte_fields::{Cursor, u8_at, u64_at};
use cache_key::{HostList, HostName};
use std::alloc::{AllocError, Global};

/// The roster of a sealed file of a site with so many partitions.
///
/// A fault is at the first byte of the first field that is wrong, each judged by those before it; within a name at the first
/// byte that no name has; where a byte is missing, at the length; and else at the first byte too many. A name that doesn't
/// stand after the one before it is wrong at its length. All bytes are judged before memory is taken for the names.
pub fn decode_roster(alloc: Global, text: &[u8], partitions: u16) -> Result<Roster, RosterFault>
    ensures text { IfOk result (λ roster. IsRosterText roster text.now × (roster.partitions ≡ partitions)) }
    ensures value { (roster : Roster) → IsRosterText roster text.now → roster.partitions ≡ partitions → (result ≡ Ok roster) ⊎ (result ≡ Err NoMemory) }
    ensures fault_at { (at : ℕ) → IsErrOf result (Form at) ↔ (roster_fault partitions text.now ≡ Some at) }
    ensures no_memory { IsErrOf result NoMemory → roster_fault partitions text.now ≡ None }
{
    if let Some(at) = roster_fault(text, partitions) {
        return Err(RosterFault::Form { at });
    }
    Ok(read_roster(alloc, text, partitions)?)
}

/// The first fault of the bytes.
fn roster_fault(text: &[u8], partitions: u16) -> Option<u64>
    ensures { result ≡ roster_fault partitions text.now }
{
    match head_fault(text, partitions) {
        Some(at) => Some(at),
        None => names_fault(text, u8_at(text, 18)),
    }
}

/// The roster of bytes that have no fault.
fn read_roster(alloc: Global, text: &[u8], partitions: u16) -> Result<Roster, AllocError>
    requires { roster_fault partitions text.now ≡ None }
    ensures text { IfOk result (λ roster. IsRosterText roster text.now) }
    ensures partitions { IfOk result (λ roster. roster.partitions ≡ partitions) }
{
    let hosts = read_names(alloc, &text[NAMES_OFFSET..], u8_at(text, 18))?;
    Ok(Roster {
        epoch: u64_at(text, 9),
        hosts,
        joining: joining_in(u8_at(text, 17)),
        partitions,
    })
}

/// The index that a byte is, unless it stands for no joining host.
fn joining_in(byte: u8) -> Option<u8>
    ensures { result ≡ joining_in byte }
{
    if byte == NONE_JOINING {
        return None;
    }
    Some(byte)
}

/// The names of bytes that are so many names, each after its length.
fn read_names(alloc: Global, bytes: &[u8], count: u8) -> Result<HostList, AllocError>
    requires { HasNames count bytes.now }
    ensures text { IfOk result (λ hosts. (bytes.now ≡ names_text hosts) × (length hosts ≡ count)) }
    ensures limits { IfOk result (λ hosts. All IsName hosts) }
{
    let mut cursor = Cursor::over(bytes);
    let mut hosts = HostList::new(alloc);
    for _ in 0..count {
        hosts.push(next_name(alloc, &mut cursor)?)?;
    }
    Ok(hosts)
}

/// Reads the next name.
fn next_name(alloc: Global, cursor: &mut Cursor<'_>) -> Result<HostName, AllocError>
    requires { (host : Host) × (after : List ℕ) × IsName host × (rest_of cursor.now ≡ counted8_text host ++ after) }
    ensures { IfOk result (λ host. IsName host × (rest_of cursor.old ≡ counted8_text host ++ rest_of cursor.new)) }
{
    match cursor.counted8() {
        Ok(bytes) => name_of(alloc, bytes),
        Err(_) => unreachable!(),
    }
}

/// The name with these bytes.
fn name_of(alloc: Global, bytes: &[u8]) -> Result<HostName, AllocError>
    requires { IsName bytes.now }
    ensures { IfOk result (λ host. host ≡ bytes.now) }
{
    match std::str::from_utf8(bytes) {
        Ok(text) => HostName::of(alloc, text).map_err(|_| AllocError),
        Err(_) => unreachable!(),
    }
}
