//! Arguments by hand, and the plan of each.
use crate::fixtures::{add, words_of_line};
use plan_words::{Plan, WordFault, site_plan};
use std::alloc::Global;
use std::process::Abort;

const NONE: &str = "none";

// The plan in words: hosts, partitions, cut, pick.
fn plan_text(rt: &impl Abort, alloc: Global, plan: Result<Plan, WordFault>) -> String {
    let mut text = String::new(alloc);
    match plan {
        Ok(plan) => add_plan(rt, alloc, &mut text, &plan),
        Err(WordFault::Words { .. }) => add(rt, &mut text, &[NONE]),
        Err(WordFault::NoMemory) => add(rt, &mut text, &["no memory"]),
    }
    text
}

fn add_plan(rt: &impl Abort, alloc: Global, text: &mut String, plan: &Plan) {
    for host in &plan.hosts {
        add(rt, text, &[host.text(), " "]);
    }
    let numbers = format!(in alloc; "{} {:?} {}", plan.partitions, plan.cut, plan.pick);
    add(rt, text, &[numbers.expect(rt, "memory").as_str()]);
}

// The arguments of the line have this plan.
fn expect_plan(rt: &impl Abort, alloc: Global, words: &[String], want: &str) {
    let text = plan_text(rt, alloc, site_plan(alloc, words));
    assert_eq!(rt; text.as_str(), want, "{words:?}");
}

// Arguments, and the plan that they have.
const PLANS: &[(&str, &str)] = &[
    // a site alone
    ("steps --hosts a --partitions 1", "a 1 None 0"),
    ("steps --hosts A-b_c.9 --partitions 1", "A-b_c.9 1 None 0"),
    ("", NONE),
    ("steps --hosts a", NONE),
    ("steps --hosts a --partitions", NONE),
    ("steps --hosts a --partitions 2", NONE),
    ("steps --hosts a --partitions 01", NONE),
    ("steps --hosts a,b --partitions 1", NONE),
    ("steps --hosts  --partitions 1", NONE),
    ("steps --hosts -a --partitions 1", NONE),
    ("steps --hosts a/0 --partitions 1", NONE),
    ("run --hosts a --partitions 1", NONE),
    ("steps --partitions 1 --hosts a", NONE),
    ("steps --hosts a --partitions 1 more", NONE),
    // a cut
    (
        "steps --hosts a --partitions 1 --cut a/0/1",
        "a 1 Some(1) 0",
    ),
    (
        "steps --hosts b.c --partitions 1 --cut b.c/0/30",
        "b.c 1 Some(30) 0",
    ),
    (
        "steps --hosts a --partitions 1 --cut a/0/18446744073709551615",
        "a 1 Some(18446744073709551615) 0",
    ),
    (
        "steps --hosts a --partitions 1 --cut a/0/18446744073709551616",
        NONE,
    ),
    ("steps --hosts a --partitions 1 --cut a/0/0", NONE),
    ("steps --hosts a --partitions 1 --cut a/0/01", NONE),
    ("steps --hosts a --partitions 1 --cut a/0/+1", NONE),
    ("steps --hosts a --partitions 1 --cut a/0/1x", NONE),
    ("steps --hosts a --partitions 1 --cut a/0/", NONE),
    ("steps --hosts a --partitions 1 --cut b/0/1", NONE),
    ("steps --hosts a --partitions 1 --cut aa/0/1", NONE),
    ("steps --hosts a --partitions 1 --cut a/1/1", NONE),
    ("steps --hosts a --partitions 1 --cut a/service/1", NONE),
    ("steps --hosts a --partitions 1 --cut=a/0/1", NONE),
    ("steps --hosts a --partitions 1 --cut", NONE),
    ("steps --cut a/0/1 --hosts a --partitions 1", NONE),
    (
        "steps --hosts a --partitions 1 --cut a/0/1 --cut a/0/2",
        NONE,
    ),
    ("steps --hosts a/0/1 --partitions 1 --cut a/0/1/0/1", NONE),
    // a pick
    ("steps --hosts a --partitions 1 --pick 0", "a 1 None 0"),
    ("steps --hosts a --partitions 1 --pick 1", "a 1 None 1"),
    ("steps --hosts a --partitions 1 --pick 2", "a 1 None 2"),
    ("steps --hosts a --partitions 1 --pick 3", "a 1 None 3"),
    ("steps --hosts a --partitions 1 --pick 4", NONE),
    ("steps --hosts a --partitions 1 --pick 01", NONE),
    ("steps --hosts a --partitions 1 --pick -1", NONE),
    ("steps --hosts a --partitions 1 --pick ", NONE),
    ("steps --hosts a --partitions 1 --pick 1 --pick 1", NONE),
    // both
    (
        "steps --hosts a --partitions 1 --cut a/0/7 --pick 3",
        "a 1 Some(7) 3",
    ),
    ("steps --hosts a --partitions 1 --pick 3 --cut a/0/7", NONE),
    (
        "steps --hosts a --partitions 1 --cut a/0/7 --pick 3 more",
        NONE,
    ),
];

#[test]
fn words_have_one_plan_or_none(rt: HostRuntime) {
    for (line, want) in PLANS {
        let words = words_of_line(&rt, rt.alloc(), line);
        expect_plan(&rt, rt.alloc(), words.as_slice(), want);
    }
    expect_plan(&rt, rt.alloc(), &[], NONE);
}
