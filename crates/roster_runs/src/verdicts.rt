//! The verdict on the hosts that are present.
use crate::fixtures::{expect_same, hosts};
use cache_key::{HostList, HostName};
use quorum::{Verdict, check};
use roster_book::Found;
use roster_form::Roster;
use std::alloc::Global;
use std::process::Abort;

// A roster: its epoch, its hosts, and the index of the one that is joining.
type Written = (u64, &'static [&'static str], Option<u8>);

// A host that is present, and the roster that it shows.
type Present = (&'static str, Option<Written>);

const A_ALONE: Option<Written> = Some((1, &["a"], None));

const B_ALONE: Option<Written> = Some((1, &["b"], None));

const B_JOINS: Option<Written> = Some((2, &["a", "b"], Some(1)));

const BOTH: Option<Written> = Some((3, &["a", "b"], None));

const ALL_THREE: Option<Written> = Some((5, &["a", "b", "c"], None));

const C_HAS_LEFT: Option<Written> = Some((6, &["a", "b"], None));

// The hosts that are present, and the verdict on them: what it is, its epoch, and its hosts or the missing ones.
const VERDICTS: &[(&str, &[Present], &str, u64, &[&str])] = &[
    ("nobody", &[], "not created", 0, &[]),
    (
        "no roster",
        &[("a", None), ("b", None)],
        "not created",
        0,
        &[],
    ),
    ("one host", &[("a", A_ALONE)], "met", 1, &["a"]),
    (
        "one that isn't recorded",
        &[("a", A_ALONE), ("b", None)],
        "met",
        1,
        &["a"],
    ),
    ("both", &[("a", BOTH), ("b", BOTH)], "met", 3, &["a", "b"]),
    (
        "two of three",
        &[("a", ALL_THREE), ("b", ALL_THREE)],
        "short",
        0,
        &["c"],
    ),
    ("one of three", &[("b", ALL_THREE)], "short", 0, &["a", "c"]),
    (
        "two epochs, the later last",
        &[("a", A_ALONE), ("b", ALL_THREE)],
        "short",
        0,
        &["c"],
    ),
    (
        "two epochs, the later first",
        &[("a", BOTH), ("b", B_JOINS)],
        "met",
        3,
        &["a", "b"],
    ),
    (
        "the joining host is absent",
        &[("a", B_JOINS)],
        "short",
        0,
        &["b"],
    ),
    (
        "the joining host shows none",
        &[("a", B_JOINS), ("b", None)],
        "met",
        2,
        &["a", "b"],
    ),
    (
        "the joining host shows it",
        &[("a", B_JOINS), ("b", B_JOINS)],
        "met",
        2,
        &["a", "b"],
    ),
    (
        "a recorded host shows none",
        &[("a", BOTH), ("b", None)],
        "short",
        0,
        &["b"],
    ),
    (
        "a host that left",
        &[("a", C_HAS_LEFT), ("b", C_HAS_LEFT), ("c", ALL_THREE)],
        "met",
        6,
        &["a", "b"],
    ),
    (
        "the one that left alone",
        &[("c", ALL_THREE)],
        "short",
        0,
        &["a", "b"],
    ),
    (
        "two rosters of one epoch",
        &[("a", A_ALONE), ("b", B_ALONE)],
        "met",
        1,
        &["a"],
    ),
    (
        "the same, the other host first",
        &[("b", B_ALONE), ("a", A_ALONE)],
        "met",
        1,
        &["b"],
    ),
    (
        "three epochs, the latest between",
        &[("c", A_ALONE), ("b", BOTH), ("a", B_JOINS)],
        "met",
        3,
        &["a", "b"],
    ),
];

fn found_on(rt: &impl Abort, alloc: Global, host: u16, shown: &Option<Written>) -> Found {
    let roster = match shown {
        Some((epoch, names, joining)) => Some(Roster {
            epoch: *epoch,
            hosts: hosts(rt, alloc, names),
            joining: *joining,
            partitions: 2,
        }),
        None => None,
    };
    Found { host, roster }
}

fn verdict_on(rt: &impl Abort, alloc: Global, hosts: &[Present]) -> Verdict {
    let mut found = Vec::new(alloc);
    let mut present = HostList::new(alloc);
    let mut number: u16 = 0;
    for (name, shown) in hosts {
        let host = HostName::of(alloc, name).expect(rt, "a name");
        present.push(host).expect(rt, "a host");
        let own = found_on(rt, alloc, number, shown);
        found.push(own).expect(rt, "what it shows");
        number = number.saturating_add(1);
    }
    judged(rt, alloc, found.as_slice(), present.as_slice())
}

fn judged(rt: &impl Abort, alloc: Global, found: &[Found], present: &[HostName]) -> Verdict {
    assert!(rt; found.len() == present.len(), "one is found for each host");
    check(alloc, found, present).expect(rt, "a verdict")
}

fn told(alloc: Global, verdict: Verdict) -> (&'static str, u64, HostList) {
    match verdict {
        Verdict::Met { epoch, hosts } => ("met", epoch, hosts),
        Verdict::Short { missing } => ("short", 0, missing),
        Verdict::NotCreated => ("not created", 0, HostList::new(alloc)),
    }
}

#[test]
fn the_hosts_that_are_present_are_judged(rt: HostRuntime) {
    let alloc = rt.alloc();
    for (case, present, kind, epoch, names) in VERDICTS {
        let (found, number, listed) = told(alloc, verdict_on(&rt, alloc, present));
        expect_same(&rt, case, found, *kind);
        expect_same(&rt, case, number, *epoch);
        expect_same(&rt, case, listed, hosts(&rt, alloc, names));
    }
}
