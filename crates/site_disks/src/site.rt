//! The disks of a site, and what stands beside them.
use cache_key::HostName;

/// The disks of one partition, one for each host of the site.
#[derive(Drop)]
pub struct Lane<D> {
    pub disks: Vec<D>,
}

/// All disks of a cluster, and the vault of its archives.
#[derive(Drop)]
pub struct Site<D, V> {
    pub partitions: u16,
    /// In rising byte order; a host's number is its index here.
    pub hosts: Vec<HostName>,
    /// One for each partition.
    pub lanes: Vec<Lane<D>>,
    /// One disk for each host.
    pub services: Vec<D>,
    pub vault: V,
}
