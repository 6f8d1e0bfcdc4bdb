//! The contents after lists of mutations.
use crate::fixtures::{Put, add, cache, expect_same, key, put, puts, value};
use cache_key::{Key, Mutation, Reply, Request, Value};
use cache_model::{as_mutation, collect_contents, find_value, is_mutation, is_present, reply_to};
use std::alloc::Global;
use std::collections::BTreeMap;
use std::process::Abort;

// The value that the mutations leave at a key, or none.
fn expect_found(rt: &impl Abort, alloc: Global, mutations: &[Mutation], put: Put<'_>) {
    let cache = cache(rt, alloc, put.0);
    let key = key(rt, alloc, put.1);
    let found = match find_value(mutations, &cache, &key) {
        Some(value) => value.text(),
        None => "none",
    };
    expect_same(rt, put.1, found, put.2);
}

// Puts of one list, in their order.
const PUTS: &[Put<'_>] = &[
    ("c", "a", "1"),
    ("d", "a", "2"),
    ("c", "b", "3"),
    ("c", "a", "4"),
    ("c", "b", ""),
];

// The values that they leave.
const LEFT: &[Put<'_>] = &[
    ("c", "a", "4"),
    ("d", "a", "2"),
    ("c", "b", ""),
    ("d", "b", "none"),
    ("C", "a", "none"),
];

#[test]
fn the_last_put_of_a_key_decides(rt: HostRuntime) {
    let mutations = puts(&rt, rt.alloc(), PUTS);
    for left in LEFT {
        expect_found(&rt, rt.alloc(), mutations.as_slice(), *left);
    }
}

#[test]
fn a_put_makes_its_cache_present(rt: HostRuntime) {
    let mutations = puts(&rt, rt.alloc(), &[("c", "a", "1")]);
    for (name, want) in [("c", true), ("d", false)] {
        let name = cache(&rt, rt.alloc(), name);
        let found = is_present(mutations.as_slice(), &name);
        expect_same(&rt, name.text(), found, want);
    }
}

// The put of 2 at key a of cache c, as a client asks for it.
fn request(rt: &impl Abort, alloc: Global) -> Request {
    Request::Put(
        cache(rt, alloc, "c"),
        key(rt, alloc, "a"),
        value(rt, alloc, "2"),
    )
}

#[test]
fn a_put_replies_the_value_before(rt: HostRuntime) {
    let mutations = puts(&rt, rt.alloc(), &[("c", "a", "1")]);
    let request = request(&rt, rt.alloc());
    let reply = reply_to(rt.alloc(), mutations.as_slice(), &request).expect(&rt, "a reply");
    let want = Reply::Value(Some(value(&rt, rt.alloc(), "1")));
    expect_same(&rt, "the reply", reply, want);
}

#[test]
fn a_put_is_a_mutation(rt: HostRuntime) {
    let request = request(&rt, rt.alloc());
    expect_same(&rt, "is one", is_mutation(&request), true);
    let want = put(&rt, rt.alloc(), ("c", "a", "2"));
    expect_same(&rt, "as one", as_mutation(request), Some(want));
}

// Puts whose contents stand in another order.
const UNSORTED: &[Put<'_>] = &[
    ("b", "k", "1"),
    ("a", "9", "2"),
    ("B", "\u{1F600}", "3"),
    ("B", "\u{FF5A}", "4"),
    ("a", "10", ""),
    ("B", "\u{E9}", "5"),
    ("B", "z", "6"),
    ("b", "k", "7"),
];

fn show(rt: &impl Abort, text: &mut String, pairs: &BTreeMap<Key, Value>) {
    for (key, value) in pairs {
        add(rt, text, &[" ", key.text(), "=", value.text()]);
    }
}

#[test]
fn contents_stand_in_byte_order(rt: HostRuntime) {
    let mutations = puts(&rt, rt.alloc(), UNSORTED);
    let contents = collect_contents(rt.alloc(), mutations.as_slice()).expect(&rt, "contents");
    let mut text = String::new(rt.alloc());
    for (cache, pairs) in contents.caches() {
        add(&rt, &mut text, &[cache.text()]);
        show(&rt, &mut text, pairs);
        add(&rt, &mut text, &[";"]);
    }
    let want = "B z=6 \u{E9}=5 \u{FF5A}=4 \u{1F600}=3;a 10= 9=2;b k=7;";
    expect_same(&rt, "the contents", text.as_str(), want);
}
