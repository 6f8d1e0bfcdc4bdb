// How a count of faults rises.
use fault_count::one_more;

#[test]
fn a_count_rises_by_one_and_stays_at_its_end(rt: HostRuntime) {
    for (count, want) in [
        (0, 1),
        (7, 8),
        (u64::MAX - 1, u64::MAX),
        (u64::MAX, u64::MAX),
    ] {
        assert_eq!(rt; one_more(count), want, "after {count}");
    }
}
