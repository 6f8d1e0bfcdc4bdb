//! What several tests use.
ghost use Rattle.disk_trait.specs.View.{Tells};
ghost use Rattle.disk_memory.specs.History.{view_of};

use cache_key::{HostList, HostName};
use disk_memory::{DiskPlan, MemoryDisk};
use disk_trait::write_synced;
use std::alloc::Global;
use std::fmt::Debug;
use std::process::Abort;

// What was found is what is wanted.
pub(crate) fn expect_same<T: PartialEq + Debug + Drop>(
    rt: &impl Abort,
    case: &str,
    found: T,
    want: T,
) {
    assert_eq!(rt; found, want, "{case}");
}

// Hosts of these names.
pub(crate) fn hosts(rt: &impl Abort, alloc: Global, names: &[&str]) -> HostList {
    let mut hosts = HostList::new(alloc);
    for name in names {
        let host = HostName::of(alloc, name).expect(rt, "a name");
        hosts.push(host).expect(rt, "a host");
    }
    hosts
}

// What files 0 and 1 of a service disk hold.
pub(crate) type Files = (&'static [u8], &'static [u8]);

// Of the changing calls after those that write the files this one fails, and of the reads this one, counted from 1; none where it
// is 0. And the pick of a restart.
pub(crate) type Plan = (u64, u64, u8);

// A list of this number, or of none where it is 0.
fn numbers(rt: &impl Abort, alloc: Global, number: u64) -> Vec<u64> {
    let mut numbers = Vec::new(alloc);
    if number > 0 {
        numbers.push(number).expect(rt, "a number");
    }
    numbers
}

// The first four changing calls write files 0 and 1.
fn plan_of(rt: &impl Abort, alloc: Global, plan: Plan) -> DiskPlan {
    let (change, read, pick) = plan;
    let change = if change > 0 {
        change.saturating_add(4)
    } else {
        0
    };
    DiskPlan {
        fail: numbers(rt, alloc, change),
        fail_reads: numbers(rt, alloc, read),
        fuse: None,
        pick,
    }
}

// A disk with these files, which goes on by this plan.
pub(crate) fn disk_of(rt: &impl Abort, alloc: Global, files: Files, plan: Plan) -> MemoryDisk
    ensures { Tells (view_of result) }
{
    let plan = plan_of(rt, alloc, plan);
    let mut disk = MemoryDisk::new(alloc, plan).expect(rt, "a disk");
    write_synced(&mut disk, 0, 0, files.0).expect(rt, "file 0");
    write_synced(&mut disk, 1, 0, files.1).expect(rt, "file 1");
    disk
}
