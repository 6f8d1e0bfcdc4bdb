//! A board of the files of several hosts, each of its calls with ample memory.
ghost use Rattle.std.specs.Prelude.{◌≡◌};
ghost use Rattle.slot_board.specs.Slots.{hosts_of};

use crate::fixtures::expect_same;
use slot_board::{Board, Slot, SlotKind};
use std::alloc::Global;
use std::process::Abort;

// A board of two hosts, of which nothing is known.
fn board_of_two(rt: &impl Abort, alloc: Global) -> Board
    ensures { hosts_of result ≡ 2 }
{
    Board::of(alloc, 2).expect(rt, "a board")
}

// The kinds of a host's two files, and the one in which a store is to be built.
const TARGETS: &[(&str, SlotKind, SlotKind, u8)] = &[
    ("both free", SlotKind::Empty, SlotKind::Blank, 0),
    ("both free, swapped", SlotKind::Blank, SlotKind::Empty, 0),
    (
        "free beside the current",
        SlotKind::Current,
        SlotKind::Blank,
        1,
    ),
    (
        "free beside a stale one",
        SlotKind::Stale,
        SlotKind::Empty,
        1,
    ),
    ("neither free", SlotKind::Stale, SlotKind::Doubt, 0),
    (
        "stale beside the current",
        SlotKind::Current,
        SlotKind::Stale,
        1,
    ),
    (
        "in doubt before the current",
        SlotKind::Doubt,
        SlotKind::Current,
        0,
    ),
    ("nothing known", SlotKind::Unknown, SlotKind::Unknown, 0),
];

#[test]
fn a_free_file_is_the_target_or_one_that_is_not_current(rt: HostRuntime) {
    for (case, first, second, target) in TARGETS {
        let mut board = board_of_two(&rt, rt.alloc());
        board.set(1, 0, *first, 3);
        board.set(1, 1, *second, 4);
        expect_same(&rt, case, board.choose_target(1), *target);
    }
}

#[test]
fn a_version_is_told_once(rt: HostRuntime) {
    let mut board = board_of_two(&rt, rt.alloc());
    expect_same(&rt, "none told", board.next_version(), Some(1));
    board.set(0, 1, SlotKind::Doubt, 7);
    board.set(0, 1, SlotKind::Blank, 0);
    expect_same(
        &rt,
        "told of a file that is blank now",
        board.next_version(),
        Some(8),
    );
    board.set(1, 0, SlotKind::Current, (1 << 58) - 1);
    expect_same(&rt, "the last one told", board.next_version(), None);
}

fn stale(version: u64) -> Slot {
    Slot {
        kind: SlotKind::Stale,
        version,
    }
}

#[test]
fn a_newer_store_makes_the_others_stale(rt: HostRuntime) {
    let mut board = board_of_two(&rt, rt.alloc());
    board.set(0, 0, SlotKind::Current, 3);
    board.set(1, 1, SlotKind::Doubt, 4);
    expect_same(&rt, "a doubt", board.has_doubt(), true);
    board.supersede();
    expect_same(&rt, "the current one", board.slot(0, 0), stale(3));
    expect_same(&rt, "the one in doubt", board.slot(1, 1), stale(4));
    expect_same(&rt, "no doubt", board.has_doubt(), false);
    expect_same(&rt, "another", board.kind(1, 0), SlotKind::Unknown);
    expect_same(&rt, "as many hosts", board.hosts(), 2);
}
