// Which calls of a disk fail, and what a restart takes.

/// What goes wrong on a [`MemoryDisk`](crate::MemoryDisk), by the numbers of its calls.
///
/// `write_at`, `cut` and `sync` are numbered from 1 over all files of the disk, `length` and `read` from 1 apart.
/// A call that is out of memory has no number.
#[derive(Drop)]
pub struct DiskPlan {
    /// The numbers of the changing calls that fail.
    pub fail: Vec<u64>,
    /// The numbers of the reading calls that fail.
    pub fail_reads: Vec<u64>,
    /// The number of the first changing call that fails with all later ones, until the next restart.
    pub fuse: Option<u64>,
    /// What a restart takes: 0 the contents of the last sync, 1 all that a read gives, 2 the same with FF
    /// for each pending byte, and else the synced contents with each pending cut done and the first half
    /// of each pending write.
    pub pick: u8,
}
