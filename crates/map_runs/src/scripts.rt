//! Scripts of requests by chance, copies, and the number that a cache keeps.
use crate::both::Both;
use crate::chance::{Chance, Pools, cache};
use cache_key::Mutation;
use cache_model::as_mutation;
use partition_map::PartitionMap;
use std::process::Abort;

// Few caches and keys, so that each is changed often.
const FEW: Pools = Pools {
    caches: 4,
    keys: 4,
    kinds: 16,
};

// Mostly puts, so that there are more items than one step gives.
const MANY: Pools = Pools {
    caches: 3,
    keys: 60,
    kinds: 300,
};

// Both carry out so many requests.
fn run(rt: &impl Abort, both: &mut Both, chance: &mut Chance, requests: u32) {
    for _ in 0..requests {
        both.run(rt, chance.request(rt));
    }
}

// Makes the map ready for what so many requests change, and doesn't change it.
fn make_ready(rt: &impl Abort, map: &mut PartitionMap, chance: &mut Chance, requests: u32) {
    for _ in 0..requests {
        if let Some(mutation) = as_mutation(chance.request(rt)) {
            map.ready(&mutation).expect(rt, "room");
        }
    }
}

#[test]
fn few_keys_are_kept_as_in_a_list(rt: HostRuntime) {
    let mut chance = Chance::new(rt.alloc(), 1, FEW);
    for _ in 0..4 {
        let mut both = Both::empty(rt.alloc(), FEW);
        for _ in 0..30 {
            run(&rt, &mut both, &mut chance, 4);
            make_ready(&rt, &mut both.map, &mut chance, 1);
            both.expect_agree(&rt);
        }
    }
}

#[test]
fn many_keys_are_kept_as_in_a_list(rt: HostRuntime) {
    let mut both = Both::empty(rt.alloc(), MANY);
    let mut chance = Chance::new(rt.alloc(), 2, MANY);
    run(&rt, &mut both, &mut chance, 250);
    both.expect_agree(&rt);
    let found = both.map.entries_from(rt.alloc(), None, 255);
    let count = found.expect(&rt, "items").len();
    assert!(rt; count > 64, "{count} items");
}

#[test]
fn what_was_made_ready_shows_nowhere(rt: HostRuntime) {
    let mut both = Both::empty(rt.alloc(), FEW);
    let mut chance = Chance::new(rt.alloc(), 3, FEW);
    make_ready(&rt, &mut both.map, &mut chance, 100);
    assert_eq!(rt; both.map.live(), 42);
    both.expect_agree(&rt);
}

#[test]
fn a_copy_goes_its_own_way(rt: HostRuntime) {
    let mut both = Both::empty(rt.alloc(), FEW);
    let mut chance = Chance::new(rt.alloc(), 4, FEW);
    for _ in 0..8 {
        run(&rt, &mut both, &mut chance, 10);
        make_ready(&rt, &mut both.map, &mut chance, 2);
        let mut copied = both.copy(&rt);
        copied.expect_agree(&rt);
        run(&rt, &mut both, &mut chance, 5);
        copied.expect_agree(&rt);
        run(&rt, &mut copied, &mut chance, 5);
        both.expect_agree(&rt);
        both = copied;
    }
}

// The caches that are ensured or destroyed, and the numbers of the first two then.
const NUMBERS: &[(&[(bool, u64)], [Option<u32>; 2])] = &[
    (&[(true, 0), (true, 1), (false, 0)], [None, Some(1)]),
    (
        &[(true, 0), (true, 1), (false, 0), (true, 0)],
        [Some(0), Some(1)],
    ),
];

#[test]
fn a_cache_keeps_its_number(rt: HostRuntime) {
    let (first, second) = (cache(&rt, rt.alloc(), 0), cache(&rt, rt.alloc(), 1));
    for (steps, want) in NUMBERS {
        let mut map = PartitionMap::empty(rt.alloc());
        for (is_ensured, number) in *steps {
            let name = cache(&rt, rt.alloc(), *number);
            let mutation = if *is_ensured {
                Mutation::Ensure(name)
            } else {
                Mutation::Destroy(name)
            };
            map.change(mutation).expect(&rt, "a change");
        }
        assert_eq!(rt; [map.extent(&first), map.extent(&second)], *want);
    }
}
