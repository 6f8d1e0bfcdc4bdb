//! The call that finds the trail full: it has 1,048,576 entries then.
ghost use Rattle.kept_cell.specs.KeptCells.{IsAskable};

use crate::fixtures::{cell_of, expect_same};
use cache_key::{CacheName, Key, Request};
use call_trail::{CallRefusal, HasTrail};
use disk_memory::MemoryDisk;
use kept_cell::Kept;
use std::alloc::Global;
use std::process::Abort;

// How many calls a trail takes.
const MOST_CALLS: u64 = 1_048_576;

fn get(rt: &impl Abort, alloc: Global) -> Request
    ensures { IsAskable result }
{
    let cache = CacheName::of(alloc, "c").expect(rt, "a name");
    let key = Key::of(alloc, "k").expect(rt, "a key");
    Request::Get(cache, key)
}

// What the call of this number comes to, if it is refused.
fn refusal_of(
    rt: &impl Abort,
    alloc: Global,
    kept: &mut Kept<MemoryDisk>,
    number: u64,
) -> Option<CallRefusal> {
    let request = get(rt, alloc);
    kept.call(alloc, 1, 0, number, request).err()
}

#[test]
fn a_trail_takes_this_many_calls(rt: HostRuntime) {
    let Ok(mut kept) = Kept::begin(rt.alloc(), cell_of(&rt, rt.alloc())) else {
        panic!(&rt; "no memory");
    };
    for number in 0..MOST_CALLS {
        let refusal = refusal_of(&rt, rt.alloc(), &mut kept, number);
        expect_same(&rt, "room", (number, refusal), (number, None));
    }
    for number in 0..2 {
        let refusal = refusal_of(&rt, rt.alloc(), &mut kept, number);
        expect_same(&rt, "no room", refusal, Some(CallRefusal::TrailFull));
    }
    expect_same(&rt, "entries", kept.trail().len() as u64, MOST_CALLS);
}
