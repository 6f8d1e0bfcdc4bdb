//! Laws of events in a lane, each the contract of a function that does nothing.
ghost use Rattle.std.specs.Prelude.{◌≡◌, ◌≢◌, ℕ, ◌<◌, List, length};
ghost use Rattle.disk_lane.specs.Lanes.{LaneImage, IsLaneImage, LaneEvent, HasFailedOn};

use disk_trait::Disk;

/// What is said of all files of a lane. The laws hold of every such property.
pub trait LaneProperty {
    /// What it says of an image of the lane.
    ghost holds: { Self → LaneImage → Type 0 };
}

/// Where no call was made, whatever holds in every image of the lane holds at every moment of an event.
#[tactic(auto, using(crate::proofs::LaneLemmas::no_event))]
pub fn nothing_is_an_event<D: Disk, P: LaneProperty>(disks: &[D], property: &P)
    ensures { (host : ℕ) → host < length disks.now
        → ((ms : LaneImage) → IsLaneImage D.view disks.now ms → P.holds property.now ms)
        → LaneEvent D.view host disks.now disks.now (P.holds property.now) }
{}

/// Two events on the disk of one host, one after the other, are one event.
pub fn events_of_a_host_are_one<D: Disk, P: LaneProperty>(
    before: &[D],
    between: &[D],
    after: &[D],
    property: &P,
)
    ensures { (host : ℕ) → LaneEvent D.view host before.now between.now (P.holds property.now)
        → LaneEvent D.view host between.now after.now (P.holds property.now)
        → LaneEvent D.view host before.now after.now (P.holds property.now) }
{}

/// What holds at every moment of an event holds in every image of the lane after it.
pub fn an_event_ends_so<D: Disk, P: LaneProperty>(before: &[D], after: &[D], property: &P)
    ensures { (host : ℕ) → LaneEvent D.view host before.now after.now (P.holds property.now)
        → (ms : LaneImage) → IsLaneImage D.view after.now ms → P.holds property.now ms }
{}

/// A host's disk that has failed has still failed after a further event of the lane, and one that fails in a further
/// event has failed since before the first.
#[tactic(auto, using(crate::proofs::LaneLemmas::failure_stays, crate::proofs::LaneLemmas::failure_later))]
pub fn a_failure_stays<D: Disk, P: LaneProperty>(
    before: &[D],
    between: &[D],
    after: &[D],
    property: &P,
)
    ensures earlier { (host other : ℕ) → HasFailedOn D.view host before.now between.now
        → LaneEvent D.view other between.now after.now (P.holds property.now)
        → HasFailedOn D.view host before.now after.now }
    ensures later { (host other : ℕ) → LaneEvent D.view other before.now between.now (P.holds property.now)
        → HasFailedOn D.view host between.now after.now
        → HasFailedOn D.view host before.now after.now }
{}
