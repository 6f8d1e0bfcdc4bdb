//! Words of the command line that have a run, and words that have none.
use crate::fixtures::{CLOSED, DUMP, WHOLE, expect_same, run};

// Words of a plan.
const PLANNED: &[&str] = &[
    "steps --hosts A-b_c.9 --partitions 1",
    "steps --hosts a --partitions 1 --cut a/0/1",
    "steps --hosts a --partitions 1 --pick 3",
    "steps --hosts a --partitions 1 --cut a/0/1 --pick 3",
];

// Words of none.
const NO_PLANS: &[&str] = &[
    "steps --hosts a --partitions 2",
    "steps --hosts a --partitions 1 --cut b/0/1",
    "steps --hosts a --partitions 1 --pick 4",
    "",
];

#[test]
fn words_of_a_plan_have_a_run(rt: HostRuntime) {
    for line in PLANNED {
        let (status, report) = run(&rt, rt.alloc(), line, DUMP.as_bytes(), WHOLE);
        expect_same(&rt, line, report.as_slice(), CLOSED.as_bytes());
        expect_same(&rt, line, status, 0);
    }
}

#[test]
fn other_words_have_none(rt: HostRuntime) {
    let want = b"{\"fault\":\"words\"}\n".as_slice();
    for line in NO_PLANS {
        let (status, report) = run(&rt, rt.alloc(), line, DUMP.as_bytes(), WHOLE);
        expect_same(&rt, line, report.as_slice(), want);
        expect_same(&rt, line, status, 1);
    }
}
