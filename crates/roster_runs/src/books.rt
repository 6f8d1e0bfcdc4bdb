//! What a member knows: the book of a roster, and the files that are in doubt.
use crate::fixtures::{expect_same, hosts};
use crate::rosters::{FIRST, SECOND, WORKED};
use roster_book::{Book, Doubts, Place};
use roster_form::decode_roster;
use std::alloc::Global;
use std::process::Abort;

// The bytes of a roster, and its book: the epoch, the members and the pending host.
const BOOKS: &[(&str, &[u8], u64, &[&str], Option<&str>)] = &[
    ("one host", FIRST, 1, &["a"], None),
    ("the second is joining", SECOND, 2, &["a"], Some("b")),
    ("both have joined", WORKED, 3, &["a", "b"], None),
];

#[test]
fn a_joining_host_is_pending_and_no_member(rt: HostRuntime) {
    let alloc = rt.alloc();
    for (case, text, epoch, members, pending) in BOOKS {
        let book = Book::of(decode_roster(alloc, text, 2).expect(&rt, case));
        expect_same(&rt, case, book.epoch(), *epoch);
        let members = hosts(&rt, alloc, members);
        expect_same(&rt, case, book.members().as_slice(), members.as_slice());
        expect_same(&rt, case, book.pending().map(|host| host.text()), *pending);
    }
}

// A file, by its host and its number.
type Listed = (u16, u8);

// A file that is added, or else removed, and the files that are listed then.
const STEPS: &[(&str, bool, Listed, &[Listed])] = &[
    ("none is there", false, (0, 0), &[]),
    ("the first", true, (1, 0), &[(1, 0)]),
    ("another file of the host", true, (1, 1), &[(1, 0), (1, 1)]),
    ("the same again", true, (1, 0), &[(1, 0), (1, 1)]),
    (
        "the same file of a lower host",
        true,
        (0, 1),
        &[(1, 0), (1, 1), (0, 1)],
    ),
    (
        "one that isn't there",
        false,
        (0, 0),
        &[(1, 0), (1, 1), (0, 1)],
    ),
    ("the one between", false, (1, 1), &[(1, 0), (0, 1)]),
    (
        "it is added at the end",
        true,
        (1, 1),
        &[(1, 0), (0, 1), (1, 1)],
    ),
    ("the last", false, (1, 1), &[(1, 0), (0, 1)]),
];

fn listed(rt: &impl Abort, alloc: Global, doubts: &Doubts) -> Vec<Listed> {
    let mut listed = Vec::new(alloc);
    for place in doubts.as_slice() {
        listed.push((place.host, place.file)).expect(rt, "a file");
    }
    listed
}

fn change(rt: &impl Abort, doubts: &mut Doubts, is_added: bool, place: Place) {
    if is_added {
        doubts.add(place).expect(rt, "a file");
    } else {
        doubts.remove(place);
    }
}

#[test]
fn each_file_in_doubt_is_listed_once(rt: HostRuntime) {
    let alloc = rt.alloc();
    let mut doubts = Doubts::new(alloc);
    for (case, is_added, (host, file), want) in STEPS {
        let place = Place {
            host: *host,
            file: *file,
        };
        change(&rt, &mut doubts, *is_added, place);
        expect_same(&rt, case, doubts.contains(place), *is_added);
        let found = listed(&rt, alloc, &doubts);
        expect_same(&rt, case, found.as_slice(), want);
    }
}
