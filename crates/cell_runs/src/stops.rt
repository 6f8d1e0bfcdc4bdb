//! A cell whose disk fails at one changing call, or at all from one on, and the cell that is then opened after a restart.
ghost use Rattle.cache_model.specs.PlainList.{HasPairs};

use crate::fixtures::{Failing, create, expect_same, mutate, plan_of, put, reopened};
use cache_key::Mutation;
use call_trail::CallRefusal;
use disk_memory::MemoryDisk;
use partition_cell::{Cell, CellRefusal, MoveRefusal};
use partition_map::PartitionMap;
use std::alloc::Global;
use std::process::Abort;

// The put of this number, of one digit.
fn numbered(rt: &impl Abort, alloc: Global, number: u8) -> Mutation
    ensures { HasPairs result }
{
    let key = format!(in alloc; "{number}").expect(rt, "a key");
    let value = format!(in alloc; "v{number}").expect(rt, "a value");
    put(rt, alloc, key.as_str(), value.as_str())
}

// The put of this number is refused by the fault of the cell's disk. Else it is answered.
fn is_put_refused(
    rt: &impl Abort,
    alloc: Global,
    case: &str,
    cell: &mut Cell<MemoryDisk>,
    number: u8,
) -> bool {
    let mutation = numbered(rt, alloc, number);
    let refusal = mutate(alloc, cell, mutation).err();
    if refusal.is_some() {
        let fault = CallRefusal::Fault { host: 0 };
        expect_same(rt, case, refusal, Some(fault));
    }
    refusal.is_some()
}

// The renewal is refused by the fault of the cell's disk. Else it is done.
fn is_renewal_refused(
    rt: &impl Abort,
    alloc: Global,
    case: &str,
    cell: &mut Cell<MemoryDisk>,
) -> bool {
    let refusal = cell.renew(alloc, 1).err();
    if refusal.is_some() {
        let fault = MoveRefusal::Fault { host: 0 };
        expect_same(rt, case, refusal, Some(fault));
    }
    refusal.is_some()
}

// The number of a put, or 0 for a renewal; and its first and its last changing call, where none fails.
type Step = (u8, u64, u64);

const STEPS: &[Step] = &[
    (1, 9, 12),
    (2, 13, 16),
    (3, 17, 20),
    (0, 21, 29),
    (4, 30, 33),
    (5, 34, 37),
];

// The last call of the creation.
const CREATED: u64 = 8;

// The step is refused in which the failing call falls; and those after it where all later calls fail.
fn refuses(failing: Failing, first: u64, last: u64) -> bool {
    match failing {
        Failing::None => false,
        Failing::One(call) => first <= call && call <= last,
        Failing::From(call) => call <= last,
    }
}

// Takes each step, which is answered or refused.
fn run_steps(
    rt: &impl Abort,
    alloc: Global,
    case: &str,
    cell: &mut Cell<MemoryDisk>,
    failing: Failing,
) {
    for (number, first, last) in STEPS {
        let is_refused = if *number == 0 {
            is_renewal_refused(rt, alloc, case, cell)
        } else {
            is_put_refused(rt, alloc, case, cell, *number)
        };
        let want = refuses(failing, *first, *last);
        expect_same(
            rt,
            case,
            (failing, *number, is_refused),
            (failing, *number, want),
        );
    }
}

// The cell that is opened after a restart, after all steps or a creation that was refused.
fn left_after(
    rt: &impl Abort,
    alloc: Global,
    case: &str,
    failing: Failing,
    pick: u8,
) -> Option<Cell<MemoryDisk>> {
    let plan = plan_of(rt, alloc, failing, pick);
    let created = create(rt, alloc, plan);
    let want = refuses(failing, 1, CREATED);
    expect_same(rt, case, (failing, created.is_err()), (failing, want));
    let disks = match created {
        Ok(mut cell) => {
            run_steps(rt, alloc, case, &mut cell, failing);
            cell.into_lane()
        }
        Err((refusal, disks)) => {
            expect_same(rt, case, refusal, CellRefusal::Fault { host: 0 });
            disks
        }
    };
    reopened(rt, alloc, case, disks)
}

// The contents are those of the puts of these numbers.
fn expect_puts(
    rt: &impl Abort,
    alloc: Global,
    case: &str,
    contents: &PartitionMap,
    numbers: &[u8],
) {
    let found = contents.entries_from(alloc, None, 10).expect(rt, case);
    expect_same(rt, case, found.len(), numbers.len());
    for (mutation, number) in found.iter().zip(numbers) {
        let want = numbered(rt, alloc, *number);
        expect_same(rt, case, mutation, &want);
    }
}

// The version of a store, 0 for none, and the numbers of its puts.
type Left = (u64, &'static [u8]);

const NONE: Left = (0, &[]);

// What fails; the numbers of calls; and what a restart leaves that takes what was synced alone, or the first half of each
// write, that takes all, and that takes FF for each pending byte.
type Row = (&'static str, &'static [u64], Left, Left, Left);

// What the row says of this pick.
fn left_in(row: &Row, pick: u8) -> Left {
    match pick {
        1 => row.3,
        2 => row.4,
        _ => row.2,
    }
}

// The number of the put that is asked of the cell that was opened again.
const PUT_AFTER: u8 = 9;

// The cell has what the row says, and takes a put more.
fn expect_opened(
    rt: &impl Abort,
    alloc: Global,
    case: &str,
    cell: &mut Cell<MemoryDisk>,
    numbers: &[u8],
) {
    expect_puts(rt, alloc, case, cell.contents(), numbers);
    let mutation = numbered(rt, alloc, PUT_AFTER);
    expect_same(rt, case, mutate(alloc, cell, mutation), Ok(()));
    let entries = cell.contents().entries_from(alloc, None, 10);
    expect_same(rt, case, entries.expect(rt, case).len(), numbers.len() + 1);
}

// After a restart that takes this pick the cell has what the row says.
fn expect_left(rt: &impl Abort, alloc: Global, row: &Row, failing: Failing, pick: u8) {
    let case = row.0;
    let (version, numbers) = left_in(row, pick);
    match left_after(rt, alloc, case, failing, pick) {
        Some(mut cell) => {
            let found = cell.id().version;
            expect_same(rt, case, (failing, pick, found), (failing, pick, version));
            expect_opened(rt, alloc, case, &mut cell, numbers);
        }
        None => expect_same(rt, case, (failing, pick, 0), (failing, pick, version)),
    }
}

// Each restart leaves what the row says.
fn expect_restarts(rt: &impl Abort, alloc: Global, row: &Row, failing: Failing) {
    for pick in 0..4 {
        expect_left(rt, alloc, row, failing, pick);
    }
}

// Each of the row's calls fails, alone or with all later ones.
fn expect_row(rt: &impl Abort, alloc: Global, row: &Row, lasts: bool) {
    for call in row.1 {
        let failing = if lasts {
            Failing::From(*call)
        } else {
            Failing::One(*call)
        };
        expect_restarts(rt, alloc, row, failing);
    }
}

fn expect_rows(rt: &impl Abort, alloc: Global, rows: &[Row], lasts: bool) {
    for row in rows {
        expect_row(rt, alloc, row, lasts);
    }
}

// One call fails, or all from it on: no step is answered after it.
const EITHER: &[Row] = &[
    ("the first store", &[1, 2, 3, 4, 5, 6], NONE, NONE, NONE),
    ("its seal", &[7, 8], NONE, (1, &[]), (1, &[])),
    (
        "put 5",
        &[34, 35],
        (2, &[1, 2, 3, 4]),
        (2, &[1, 2, 3, 4]),
        (2, &[1, 2, 3, 4]),
    ),
    (
        "the gate of put 5",
        &[36, 37],
        (2, &[1, 2, 3, 4]),
        (2, &[1, 2, 3, 4, 5]),
        (2, &[1, 2, 3, 4, 5]),
    ),
    (
        "no call",
        &[90],
        (2, &[1, 2, 3, 4, 5]),
        (2, &[1, 2, 3, 4, 5]),
        (2, &[1, 2, 3, 4, 5]),
    ),
];

// All calls from one on fail: what was answered before it is left, and perhaps the put that was in flight.
const FROM: &[Row] = &[
    ("put 1", &[9, 10], (1, &[]), (1, &[]), (1, &[])),
    (
        "the gate of put 1",
        &[11, 12],
        (1, &[]),
        (1, &[1]),
        (1, &[1]),
    ),
    ("put 2", &[13, 14], (1, &[1]), (1, &[1]), (1, &[1])),
    (
        "the gate of put 2",
        &[15, 16],
        (1, &[1]),
        (1, &[1, 2]),
        (1, &[1, 2]),
    ),
    ("put 3", &[17, 18], (1, &[1, 2]), (1, &[1, 2]), (1, &[1, 2])),
    (
        "the gate of put 3",
        &[19, 20],
        (1, &[1, 2]),
        (1, &[1, 2, 3]),
        (1, &[1, 2, 3]),
    ),
    (
        "the renewal",
        &[21, 22, 23, 24, 25, 26, 27],
        (1, &[1, 2, 3]),
        (1, &[1, 2, 3]),
        (1, &[1, 2, 3]),
    ),
    // Put 4 then begins to erase the file in doubt: where all is taken, so is the byte of zero.
    (
        "the seal of the renewal",
        &[28, 29],
        (1, &[1, 2, 3]),
        (1, &[1, 2, 3]),
        (2, &[1, 2, 3]),
    ),
    (
        "put 4",
        &[30, 31],
        (2, &[1, 2, 3]),
        (2, &[1, 2, 3]),
        (2, &[1, 2, 3]),
    ),
    (
        "the gate of put 4",
        &[32, 33],
        (2, &[1, 2, 3]),
        (2, &[1, 2, 3, 4]),
        (2, &[1, 2, 3, 4]),
    ),
];

// One call fails: the put after it builds the store anew where a put was in flight or a seal in doubt, and the former is gone.
const ONCE: &[Row] = &[
    (
        "put 1",
        &[9, 10, 11, 12],
        (3, &[2, 3, 4, 5]),
        (3, &[2, 3, 4, 5]),
        (3, &[2, 3, 4, 5]),
    ),
    (
        "put 2",
        &[13, 14, 15, 16],
        (3, &[1, 3, 4, 5]),
        (3, &[1, 3, 4, 5]),
        (3, &[1, 3, 4, 5]),
    ),
    (
        "put 3",
        &[17, 18, 19, 20],
        (2, &[1, 2, 4, 5]),
        (2, &[1, 2, 4, 5]),
        (2, &[1, 2, 4, 5]),
    ),
    (
        "the renewal",
        &[21, 22, 23, 24, 25, 26, 27],
        (1, &[1, 2, 3, 4, 5]),
        (1, &[1, 2, 3, 4, 5]),
        (1, &[1, 2, 3, 4, 5]),
    ),
    (
        "the seal of the renewal",
        &[28, 29],
        (3, &[1, 2, 3, 4, 5]),
        (3, &[1, 2, 3, 4, 5]),
        (3, &[1, 2, 3, 4, 5]),
    ),
    (
        "put 4",
        &[30, 31, 32, 33],
        (3, &[1, 2, 3, 5]),
        (3, &[1, 2, 3, 5]),
        (3, &[1, 2, 3, 5]),
    ),
];

#[test]
fn a_disk_that_fails_from_a_call_on_leaves_what_was_answered(rt: HostRuntime) {
    expect_rows(&rt, rt.alloc(), EITHER, true);
    expect_rows(&rt, rt.alloc(), FROM, true);
}

#[test]
fn a_disk_that_fails_once_leaves_what_was_answered(rt: HostRuntime) {
    expect_rows(&rt, rt.alloc(), EITHER, false);
    expect_rows(&rt, rt.alloc(), ONCE, false);
}
