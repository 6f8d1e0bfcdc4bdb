//! Lists of pairs and of hosts.
use crate::fixtures::{expect_same, key, value};
use cache_key::{HostList, HostName, Pairs, PairsFault};
use std::alloc::Global;
use std::process::Abort;

// Adds a pair, which has room.
fn push(rt: &impl Abort, alloc: Global, pairs: &mut Pairs, texts: (&str, &str)) {
    let value = value(rt, alloc, texts.1);
    pairs
        .push(key(rt, alloc, texts.0), value)
        .expect(rt, "room");
}

// The pair with this index has these texts.
fn expect_pair(rt: &impl Abort, pairs: &Pairs, index: u32, want: (&str, &str)) {
    let (key, value) = pairs.get(index).expect(rt, want.0);
    expect_same(rt, want.0, (key.text(), value.text()), want);
}

#[test]
fn pairs_keep_their_order(rt: HostRuntime) {
    let mut pairs = Pairs::new(rt.alloc());
    expect_same(&rt, "no pairs", pairs.len(), 0);
    for texts in [("b", "1"), ("a", ""), ("b", "2")] {
        push(&rt, rt.alloc(), &mut pairs, texts);
    }
    expect_same(&rt, "three pairs", pairs.len(), 3);
    expect_pair(&rt, &pairs, 0, ("b", "1"));
    expect_pair(&rt, &pairs, 1, ("a", ""));
    expect_pair(&rt, &pairs, 2, ("b", "2"));
    expect_same(&rt, "no fourth", pairs.get(3).is_none(), true);
    let copied = pairs.copy().expect(&rt, "a copy");
    expect_same(&rt, "a copy", copied, pairs);
}

#[test]
fn other_pairs_are_not_equal(rt: HostRuntime) {
    let mut pairs = Pairs::new(rt.alloc());
    push(&rt, rt.alloc(), &mut pairs, ("a", "1"));
    for texts in [("a", "2"), ("b", "1")] {
        let mut other = Pairs::new(rt.alloc());
        expect_same(&rt, "fewer", other == pairs, false);
        push(&rt, rt.alloc(), &mut other, texts);
        expect_same(&rt, texts.0, other == pairs, false);
    }
}

#[test]
fn the_65th_pair_is_refused(rt: HostRuntime) {
    let mut pairs = Pairs::new(rt.alloc());
    for _ in 0..64 {
        push(&rt, rt.alloc(), &mut pairs, ("a", "1"));
    }
    let value = value(&rt, rt.alloc(), "2");
    let refused = pairs.push(key(&rt, rt.alloc(), "a"), value);
    expect_same(&rt, "the 65th", refused, Err(PairsFault::Full));
    expect_same(&rt, "their number", pairs.len(), 64);
    expect_pair(&rt, &pairs, 63, ("a", "1"));
}

#[test]
fn hosts_keep_their_order(rt: HostRuntime) {
    let mut hosts = HostList::new(rt.alloc());
    expect_same(&rt, "no hosts", hosts.len(), 0);
    for text in ["b", "a", "b"] {
        let host = HostName::of(rt.alloc(), text).expect(&rt, text);
        hosts.push(host).expect(&rt, text);
    }
    expect_same(&rt, "three hosts", hosts.len(), 3);
    for (index, want) in [(0, "b"), (1, "a"), (2, "b")] {
        let host = hosts.get(index).expect(&rt, want);
        expect_same(&rt, want, host.text(), want);
    }
    expect_same(&rt, "no fourth", hosts.get(3).is_none(), true);
    let copied = hosts.copy().expect(&rt, "a copy");
    expect_same(&rt, "a copy", copied, hosts);
}
