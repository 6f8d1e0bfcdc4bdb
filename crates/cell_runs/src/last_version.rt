//! A store of the last version, which is opened and never built anew.
ghost use Rattle.std.specs.Prelude.{◌≡◌, ℕ, ◌≤◌, length, slice_get, Some};
ghost use Rattle.disk_memory.specs.History.{view_of};
ghost use Rattle.seal_gate.specs.Seal.{IsSettled};

use crate::fixtures::{Failing, expect_same, mutate, plan_of, put, reopened};
use disk_memory::MemoryDisk;
use disk_trait::Disk;
use partition_cell::MoveRefusal;
use record_form::Header;
use std::alloc::Global;
use std::process::Abort;
use store_ident::StoreId;
use store_journal::Store;

// The first store of a partition, but of the last version.
const LAST: Header = Header {
    id: StoreId {
        partition: 0,
        version: (1 << 58) - 1,
        epoch: 1,
        host: 0,
    },
    partitions: 1,
};

// A lane of one disk, with that store in file 0.
fn lane_of_last(rt: &impl Abort, alloc: Global) -> Vec<MemoryDisk> {
    let plan = plan_of(rt, alloc, Failing::None, 0);
    let mut disk = MemoryDisk::new(alloc, plan).expect(rt, "a disk");
    disk.restart();
    Store::create(&mut disk, 0, LAST).expect(rt, "a store");
    let mut disks = Vec::new(alloc);
    disks.push(disk).expect(rt, "a lane");
    disks
}

#[test]
fn the_last_version_takes_puts_and_no_renewal(rt: HostRuntime) {
    let disks = lane_of_last(&rt, rt.alloc());
    let mut cell = reopened(&rt, rt.alloc(), "opened", disks).expect(&rt, "a store");
    for key in ["a", "b"] {
        let id = cell.id().text(rt.alloc()).expect(&rt, "a text");
        expect_same(&rt, key, id.as_str(), "0-3ffffffffffffff-1-0");
        let refusal = cell.renew(rt.alloc(), 1).err();
        expect_same(&rt, key, refusal, Some(MoveRefusal::VersionEnd));
        let mutation = put(&rt, rt.alloc(), key, "v");
        expect_same(&rt, key, mutate(rt.alloc(), &mut cell, mutation), Ok(()));
    }
    let left = reopened(&rt, rt.alloc(), "again", cell.into_lane()).expect(&rt, "a store");
    expect_same(&rt, "puts", left.contents().count_from(None), 2);
}
