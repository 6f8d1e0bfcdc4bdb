//! A roster.
use cache_key::HostList;

/// The byte that stands for no joining host.
pub(crate) const NONE_JOINING: u8 = 255;

/// `PRO1` in ASCII, as one number: the first field after the seal.
pub(crate) const MAGIC: u32 = 0x5052_4f31;

/// The format of a roster.
pub(crate) const FORMAT: u16 = 1;

/// Where the names begin.
pub(crate) const NAMES_OFFSET: usize = 41;

/// The hosts of a cluster from an epoch on.
#[derive(Debug, Drop)]
pub struct Roster {
    /// Counts the rosters of a cluster, from 1.
    pub epoch: u64,
    /// The hosts, 1 to 16 of them, rising in the byte order of their names.
    pub hosts: HostList,
    /// The index in `hosts`, from 0, of the one that is still joining.
    pub joining: Option<u8>,
    /// How many partitions the site has.
    pub partitions: u16,
}
