//! A roster as bytes.
ghost use Rattle.std.specs.Prelude.{◌≡◌, ◌∷◌, ◌++◌, IfOk, OnOk};
ghost use Rattle.byte_fields.specs.Counted.{counted8_text};
ghost use Rattle.roster_form.specs.Membership.{IsRoster};
ghost use Rattle.roster_form.specs.RosterText.{joining_byte, roster_head, names_text, roster_file};

use crate::roster::{FORMAT, MAGIC, NAMES_OFFSET, NONE_JOINING, Roster};
use byte_fields::{push_bytes, push_u8};
use cache_key::HostName;
use std::alloc::{AllocError, Global};

/// The seal of a roster's file. Any byte but zero is one.
const SEAL: u8 = 1;

/// The bytes of a roster's file, with its seal.
///
/// Takes memory for them.
pub fn encode_roster(alloc: Global, roster: &Roster) -> Result<Vec<u8>, AllocError>
    requires { IsRoster roster.now }
    ensures { IfOk result (λ text. text.items ≡ roster_file 1 roster.now) }
{
    let mut text = Vec::new(alloc);
    push_bytes(&mut text, &head(roster))?;
    push_names(&mut text, roster.hosts.as_slice())?;
    Ok(text)
}

/// The seal and the head.
#[tactic(auto, unfolding(byte_fields::specs::Numbers::bytes_of))]
fn head(roster: &Roster) -> [u8; NAMES_OFFSET]
    requires { IsRoster roster.now }
    ensures { result ≡ 1 ∷ roster_head roster.now }
{
    let [m0, m1, m2, m3] = u32::to_be_bytes(MAGIC);
    let [f0, f1] = u16::to_be_bytes(FORMAT);
    let [p0, p1] = u16::to_be_bytes(roster.partitions);
    let [e0, e1, e2, e3, e4, e5, e6, e7] = u64::to_be_bytes(roster.epoch);
    let [j0] = u8::to_be_bytes(joining_byte(roster.joining));
    let [c0] = u8::to_be_bytes(roster.hosts.len() as u8);
    [
        SEAL, m0, m1, m2, m3, f0, f1, p0, p1, e0, e1, e2, e3, e4, e5, e6, e7, j0, c0, 0, 0, 0, 0,
        0, 0, 0, 0, 0, 0, 0, 0, 0, 0, 0, 0, 0, 0, 0, 0, 0, 0,
    ]
}

/// The index of the joining host, as a byte.
fn joining_byte(joining: Option<u8>) -> u8
    ensures { result ≡ joining_byte joining }
{
    match joining {
        Some(index) => index,
        None => NONE_JOINING,
    }
}

/// Adds each name after its length.
fn push_names(out: &mut Vec<u8>, hosts: &[HostName]) -> Result<(), AllocError>
    ensures { OnOk result (out.new.items ≡ out.old.items ++ names_text hosts.now) }
{
    for host in hosts {
        push_name(out, host)?;
    }
    Ok(())
}

/// Adds a name after its length.
fn push_name(out: &mut Vec<u8>, host: &HostName) -> Result<(), AllocError>
    ensures { OnOk result (out.new.items ≡ out.old.items ++ counted8_text host.now) }
{
    let text = host.text().as_bytes();
    push_u8(out, text.len() as u8)?;
    push_bytes(out, text)
}
