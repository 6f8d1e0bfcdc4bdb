//! Arguments that plan no run, and the reason of each.
use crate::fixtures::{add, expect_same, words_of_line};
use plan_words::site_plan;
use std::alloc::Global;
use std::process::Abort;

/// What a person reads of the arguments is this reason.
fn expect_reason(rt: &impl Abort, alloc: Global, words: &[String], want: &str) {
    let text = match site_plan(alloc, words) {
        Ok(_) => String::from_str(alloc, "a plan"),
        Err(fault) => format!(in alloc; "{fault}"),
    };
    let text = text.expect(rt, want);
    expect_same(rt, want, text.as_str(), want);
}

/// Arguments with a fault before the options, and the reason.
const BEFORE_THE_OPTIONS: &[(&str, &str)] = &[
    ("run --hosts a", "argument 1 is \"run\"; expected steps"),
    ("", "argument 1 is \"\"; expected steps"),
    ("steps", "argument 2 is missing; expected --hosts"),
    (
        "steps --partitions 1 --hosts a",
        "argument 2 is \"--partitions\"; expected --hosts",
    ),
    (
        "steps --hosts",
        "argument 3 is missing; expected the name of a host, which does not begin with -",
    ),
    (
        "steps --hosts -a --partitions 1",
        "argument 3 is \"-a\"; expected the name of a host, which does not begin with -",
    ),
    (
        "steps --hosts  --partitions 1",
        "argument 3, the host's name, is empty",
    ),
    (
        "steps --hosts a,b --partitions 1",
        "argument 3, the host's name, has the byte 0x2c at offset 1 (a name has A-Z a-z 0-9 _ . - alone)",
    ),
    (
        "steps --hosts aaaaaaaaaaaaaaaabbbbbbbbbbbbbbbbccccccccccccccccddddddddddddddddx --partitions 1",
        "argument 3, the host's name, is longer than 64 bytes",
    ),
    (
        "steps --hosts a",
        "argument 4 is missing; expected --partitions",
    ),
    (
        "steps --hosts a --partition 1",
        "argument 4 is \"--partition\"; expected --partitions",
    ),
    (
        "steps --hosts a --partitions",
        "argument 5 is missing; expected 1",
    ),
    (
        "steps --hosts a --partitions 01",
        "argument 5 is \"01\"; expected 1",
    ),
    (
        "steps --hosts a --partitions 1 more",
        "argument 6 is \"more\"; expected --cut, --pick or nothing more",
    ),
];

/// Options after the arguments of host a with one partition, and the reason.
const OPTIONS: &[(&str, &str)] = &[
    (
        "--cut=a/0/1",
        "argument 6 is \"--cut=a/0/1\"; expected --cut, --pick or nothing more",
    ),
    (
        "--cut",
        "argument 7 is missing; expected NAME/0/CALL with the name of the host",
    ),
    (
        "--cut b/0/1",
        "argument 7 is \"b/0/1\"; expected NAME/0/CALL with the name of the host",
    ),
    (
        "--cut a/1/1",
        "argument 7 is \"a/1/1\"; expected NAME/0/CALL with the name of the host",
    ),
    (
        "--cut a/0/0",
        "argument 7 is \"a/0/0\"; expected NAME/0/CALL with a call from 1 to 18446744073709551615, without a leading zero",
    ),
    (
        "--cut a/0/01",
        "argument 7 is \"a/0/01\"; expected NAME/0/CALL with a call from 1 to 18446744073709551615, without a leading zero",
    ),
    (
        "--cut a/0/18446744073709551616",
        "argument 7 is \"a/0/18446744073709551616\"; expected NAME/0/CALL with a call from 1 to 18446744073709551615, without a leading zero",
    ),
    (
        "--cut a/0/1 --cut a/0/2",
        "argument 8 is \"--cut\"; expected --pick or nothing more",
    ),
    (
        "--cut a/0/1 --pick",
        "argument 9 is missing; expected a number from 0 to 3",
    ),
    (
        "--cut a/0/1 --pick 4",
        "argument 9 is \"4\"; expected a number from 0 to 3",
    ),
    (
        "--cut a/0/7 --pick 3 more",
        "argument 10 is \"more\"; expected nothing more",
    ),
    (
        "--pick",
        "argument 7 is missing; expected a number from 0 to 3",
    ),
    (
        "--pick -1",
        "argument 7 is \"-1\"; expected a number from 0 to 3",
    ),
    (
        "--pick ",
        "argument 7 is \"\"; expected a number from 0 to 3",
    ),
    (
        "--pick 1 --pick 1",
        "argument 8 is \"--pick\"; expected nothing more",
    ),
    (
        "--pick 3 --cut a/0/7",
        "argument 8 is \"--cut\"; expected nothing more",
    ),
];

#[test]
fn arguments_before_the_options_have_their_reason(rt: HostRuntime) {
    for (line, want) in BEFORE_THE_OPTIONS {
        let words = words_of_line(&rt, rt.alloc(), line);
        expect_reason(&rt, rt.alloc(), words.as_slice(), want);
    }
    let want = "argument 1 is missing; expected steps";
    expect_reason(&rt, rt.alloc(), &[], want);
}

#[test]
fn options_have_their_reason(rt: HostRuntime) {
    for (options, want) in OPTIONS {
        let mut line = String::new(rt.alloc());
        add(
            &rt,
            &mut line,
            &["steps --hosts a --partitions 1 ", options],
        );
        let words = words_of_line(&rt, rt.alloc(), line.as_str());
        expect_reason(&rt, rt.alloc(), words.as_slice(), want);
    }
}
