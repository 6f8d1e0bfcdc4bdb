//! What is read from the service disks of several hosts.
ghost use Rattle.std.specs.Prelude.{◌<◌, All, IsTrue};

use crate::fixtures::{Files, disk_of, expect_same};
use crate::rosters::{ERASED, FIRST, NOTHING, OTHER_SITE, SECOND, SHORT, WORKED};
use disk_memory::MemoryDisk;
use disk_trait::{Disk, DiskRefusal};
use roster_book::{BookRefusal, Found, read_rosters};
use std::alloc::Global;
use std::process::Abort;
use untold_disk::{Host, UntoldDisk};

// Files 0 and 1 of a service disk, and which of its reads fails, counted from 1; none where it is 0.
type Service = (Files, u64);

// What is read: for each host of the list its index and the epoch of its roster, 0 for none.
type Read = Result<&'static [(u16, u64)], BookRefusal>;

const NEW: Service = ((WORKED, ERASED), 0);

const OLD: Service = ((FIRST, SECOND), 0);

const NONE: Service = ((NOTHING, SHORT), 0);

const FAILING: Service = ((WORKED, FIRST), 1);

const DAMAGED: Service = ((FIRST, OTHER_SITE), 0);

const CASES: &[(&str, &[Service], &[u16], Read)] = &[
    ("no host", &[NEW], &[], Ok(&[])),
    (
        "three hosts",
        &[NEW, OLD, NONE],
        &[0, 1, 2],
        Ok(&[(0, 3), (1, 2), (2, 0)]),
    ),
    (
        "two of them, in another order",
        &[NEW, OLD, NONE],
        &[2, 0],
        Ok(&[(2, 0), (0, 3)]),
    ),
    (
        "one host twice",
        &[NEW, OLD],
        &[1, 1],
        Ok(&[(1, 2), (1, 2)]),
    ),
    (
        "of one epoch file 0 counts",
        &[((WORKED, OTHER_SITE), 0)],
        &[0],
        Ok(&[(0, 3)]),
    ),
    (
        "the same, and it is damaged",
        &[((OTHER_SITE, WORKED), 0)],
        &[0],
        Err(BookRefusal::DamagedRoster {
            host: 0,
            file: 0,
            at: 7,
        }),
    ),
    (
        "the first file's head isn't read",
        &[NEW, FAILING],
        &[0, 1],
        Err(BookRefusal::Fault { host: 1 }),
    ),
    (
        "the second file's head isn't read",
        &[((NOTHING, NOTHING), 2)],
        &[0],
        Err(BookRefusal::Fault { host: 0 }),
    ),
    (
        "the newest file's length isn't read",
        &[NEW, NONE, ((FIRST, SECOND), 3)],
        &[0, 1, 2],
        Err(BookRefusal::Fault { host: 2 }),
    ),
    (
        "the newest file isn't read",
        &[((FIRST, SECOND), 4)],
        &[0],
        Err(BookRefusal::Fault { host: 0 }),
    ),
    (
        "no file is sealed, and nothing else is read",
        &[((NOTHING, ERASED), 3)],
        &[0],
        Ok(&[(0, 0)]),
    ),
    (
        "a host that isn't in the list",
        &[FAILING, NEW, DAMAGED],
        &[1],
        Ok(&[(1, 3)]),
    ),
    (
        "the first of two is damaged",
        &[DAMAGED, FAILING],
        &[0, 1],
        Err(BookRefusal::DamagedRoster {
            host: 0,
            file: 1,
            at: 7,
        }),
    ),
    (
        "the first of two fails",
        &[DAMAGED, FAILING],
        &[1, 0],
        Err(BookRefusal::Fault { host: 1 }),
    ),
];

// Whether each is below this.
fn are_below(numbers: &[u16], end: usize) -> bool
    ensures { IsTrue result → All (λ number. number < end) numbers.now }
{
    for number in numbers {
        if *number as usize >= end {
            return false;
        }
    }
    true
}

fn disks(rt: &impl Abort, alloc: Global, services: &[Service]) -> Vec<MemoryDisk> {
    let mut disks = Vec::new(alloc);
    for (files, read) in services {
        let disk = disk_of(rt, alloc, *files, (0, *read, 0));
        disks.push(disk).expect(rt, "a disk");
    }
    disks
}

fn told(rt: &impl Abort, alloc: Global, found: &[Found]) -> Vec<(u16, u64)> {
    let mut told = Vec::new(alloc);
    for each in found {
        let epoch = match &each.roster {
            Some(roster) => roster.epoch,
            None => 0,
        };
        told.push((each.host, epoch)).expect(rt, "an epoch");
    }
    told
}

fn read_on<D: Disk>(
    rt: &impl Abort,
    alloc: Global,
    services: &mut [D],
    hosts: &[u16],
) -> Result<Vec<(u16, u64)>, BookRefusal> {
    assert!(rt; are_below(hosts, services.len()), "each host has a disk");
    let found = read_rosters(alloc, services, hosts, 2)?;
    Ok(told(rt, alloc, found.as_slice()))
}

fn expect_read(
    rt: &impl Abort,
    case: &str,
    found: Result<Vec<(u16, u64)>, BookRefusal>,
    want: Read,
) {
    match (found, want) {
        (Ok(found), Ok(want)) => expect_same(rt, case, found.as_slice(), want),
        (Err(found), Err(want)) => expect_same(rt, case, found, want),
        (Ok(_), Err(_)) => assert!(rt; false, "{case}: it isn't refused"),
        (Err(found), Ok(_)) => assert!(rt; false, "{case}: {found:?}"),
    }
}

#[test]
fn each_host_of_the_list_shows_its_roster(rt: HostRuntime) {
    let alloc = rt.alloc();
    for (case, services, hosts, want) in CASES {
        let mut disks = disks(&rt, alloc, services);
        let found = read_on(&rt, alloc, disks.as_mut_slice(), hosts);
        expect_read(&rt, case, found, *want);
    }
}

// A host whose calls have no memory.
#[derive(Drop)]
struct NoRoom;

impl Host for NoRoom {
    fn length(&mut self, _: u8) -> Result<u64, DiskRefusal> {
        Err(DiskRefusal::NoMemory)
    }

    fn read(&mut self, _: u8, _: u64, _: &mut [u8]) -> Result<usize, DiskRefusal> {
        Err(DiskRefusal::NoMemory)
    }

    fn write_at(&mut self, _: u8, _: u64, _: &[u8]) -> Result<(), DiskRefusal> {
        Err(DiskRefusal::NoMemory)
    }

    fn cut(&mut self, _: u8, _: u64) -> Result<(), DiskRefusal> {
        Err(DiskRefusal::NoMemory)
    }

    fn sync(&mut self, _: u8) -> Result<(), DiskRefusal> {
        Err(DiskRefusal::NoMemory)
    }
}

#[test]
fn a_disk_that_is_out_of_memory_is_no_fault(rt: HostRuntime) {
    let mut services = [UntoldDisk::over(NoRoom)];
    let found = read_on(&rt, rt.alloc(), &mut services, &[0]);
    expect_read(&rt, "no memory", found, Err(BookRefusal::NoMemory));
}
