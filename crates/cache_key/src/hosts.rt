//! A list of names of hosts.
ghost use Rattle.std.specs.Prelude.{◌≡◌, ◌≤◌, ◌<◌, ◌^◌, ◌↔◌, ◌++◌, ◌∷◌, [], length, slice_get, All, IfOk, IsNone, OnOk, OnErr, nat_eq};
ghost use Rattle.std.specs.List.{remove};
ghost use Rattle.std.specs.Option.{option_copied};
ghost use Rattle.std.specs.Cmp.{partial_equiv_from_equiv};
ghost use Rattle.std.specs.Cmp.Lexicographic.{pointwise, nat_list_eq_equiv, lists_equiv};
ghost use Rattle.cache_key.specs.Names.{IsName};

use crate::names::HostName;
use std::alloc::{AllocError, Global};
use std::marker::Model;

/// Names of hosts, in their order. A name may stand in it several times.
#[derive(Debug, Drop)]
pub struct HostList {
    hosts: Vec<HostName>,
}

impl Model for HostList {
    ghost use Rattle.std.specs.Prelude.{ℕ, List, ◌<◌, ◌^◌, length, All};
    ghost use Rattle.cache_key.specs.Names.{IsName};

    ghost Value = { List (List ℕ) };

    ghost view = { λ list. list.hosts.items };

    ghost invariant = { λ list. (length list.hosts.items < 2 ^ 32) × All IsName list.hosts.items };
}

impl HostList {
    /// No hosts. Takes no memory.
    pub fn new(alloc: Global) -> HostList
        ensures { result ≡ [] }
    {
        HostList {
            hosts: Vec::new(alloc),
        }
    }

    /// How many there are.
    pub fn len(&self) -> u32
        ensures { result ≡ length self.now }
    {
        self.hosts.len() as u32
    }

    /// The host with this index, from 0, if there are so many.
    pub fn get(&self, index: u32) -> Option<&HostName>
        ensures host { option_copied result ≡ slice_get self.now index }
        ensures past_the_end { IsNone result ↔ (length self.now ≤ index) }
    {
        self.hosts.get(index as usize)
    }

    /// The hosts in their order.
    pub fn as_slice(&self) -> &[HostName]
        ensures hosts { result.now ≡ self.now }
        ensures limits { All IsName self.now }
    {
        self.hosts.as_slice()
    }

    /// Adds a host at the end. Takes memory; there is none where 2^32 - 1 hosts are there.
    pub fn push(&mut self, host: HostName) -> Result<(), AllocError>
        ensures ok { OnOk result (self.new ≡ self.old ++ host ∷ []) }
        ensures unchanged { OnErr result (self.new ≡ self.old) }
    {
        push_host(&mut self.hosts, host)
    }

    /// Takes out the host with this index, from 0, if there are so many; the others stay in their order. Takes no memory.
    pub fn remove(&mut self, index: u32) -> Option<HostName>
        ensures host { result ≡ slice_get self.old index }
        ensures others { self.new ≡ remove self.old index }
    {
        remove_host(&mut self.hosts, index)
    }

    /// Makes an equal one. Takes memory.
    pub fn copy(&self) -> Result<Self, AllocError>
        ensures { IfOk result (λ copied. copied ≡ self.now) }
    {
        let hosts = copy_hosts(*self.hosts.allocator(), self.hosts.as_slice())?;
        Ok(HostList { hosts })
    }
}

// Adds a host where a number of 32 bits still counts them.
fn push_host(hosts: &mut Vec<HostName>, host: HostName) -> Result<(), AllocError>
    requires most { length hosts.now.items < 2 ^ 32 }
    requires limits { All IsName hosts.now.items }
    ensures ok { OnOk result (hosts.new.items ≡ hosts.old.items ++ host ∷ []) }
    ensures unchanged { OnErr result (hosts.new.items ≡ hosts.old.items) }
    ensures most { length hosts.new.items < 2 ^ 32 }
    ensures limits { All IsName hosts.new.items }
{
    if hosts.len() >= u32::MAX as usize {
        return Err(AllocError);
    }
    let _host = host.text();
    hosts.push(host)?;
    Ok(())
}

// Takes out the host with this index, if there are so many.
fn remove_host(hosts: &mut Vec<HostName>, index: u32) -> Option<HostName>
    ensures host { result ≡ slice_get hosts.old.items index }
    ensures others { hosts.new.items ≡ remove hosts.old.items index }
    ensures fewer { length hosts.new.items ≤ length hosts.old.items }
    ensures limits { All IsName hosts.old.items → All IsName hosts.new.items }
{
    if index as usize >= hosts.len() {
        return None;
    }
    Some(hosts.remove(index as usize))
}

// The same hosts once more.
fn copy_hosts(alloc: Global, hosts: &[HostName]) -> Result<Vec<HostName>, AllocError>
    ensures { IfOk result (λ copied. copied.items ≡ hosts.now) }
{
    let mut copied = Vec::with_capacity(alloc, hosts.len())?;
    for host in hosts {
        copied.push(host.copy()?)?;
    }
    Ok(copied)
}

impl PartialEq for HostList {
    ghost eq = { pointwise (pointwise nat_eq) };

    ghost laws = { partial_equiv_from_equiv (lists_equiv nat_list_eq_equiv) };

    fn eq(&self, other: &Self) -> bool {
        self.as_slice() == other.as_slice()
    }
}

impl Eq for HostList {
    ghost laws = { lists_equiv nat_list_eq_equiv };
}
