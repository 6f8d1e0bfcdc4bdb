//! The first store of each partition.
ghost use Rattle.std.specs.Prelude.{◌≡◌, ℕ, ◌<◌, ◌≤◌, ◌^◌, List, length, slice_get, Some, IfOk, IfErr};
ghost use Rattle.open_lanes.specs.Opened.{AreMade, IsFirstKept, MakesLane, MakesLanes, IsMakingRefusal, lanes_opened};
ghost use Rattle.partition_cell.specs.Made.{IsMakingFault};
ghost use Rattle.seal_gate.specs.Seal.{IsSettled};
ghost use Rattle.site_disks.specs.SiteDisks.{disks_in_lanes};

use crate::opened::{NotOpened, Opened, give_back};
use disk_trait::Disk;
use kept_cell::Kept;
use partition_cell::{Cell, CellRefusal};
use site_disks::Lane;
use std::alloc::Global;

/// Makes the first store of each partition on this host, by partition from 0, and begins their trails. Nothing may be pending
/// in files 0 and 1 of the host's disks.
///
/// A refusal is that of the first partition that has one. Takes memory for each partition. At most eleven device calls a
/// partition, on the host's disk.
pub fn create_lanes<D: Disk>(
    alloc: Global,
    mut lanes: Vec<Lane<D>>,
    partitions: u16,
    host: u16,
) -> Result<Opened<D>, NotOpened<D>>
    requires number { length lanes.items ≡ partitions }
    requires most { partitions ≤ 257 }
    requires disks { (p : ℕ) (lane : List D) → slice_get (disks_in_lanes lanes.items) p ≡ Some lane → (host < length lane) × (length lane < 2 ^ 16) }
    requires settled { (p : ℕ) (lane : List D) (disk : D) → slice_get (disks_in_lanes lanes.items) p ≡ Some lane → slice_get lane host ≡ Some disk → (f : ℕ) → f ≤ 1 → IsSettled (D.view disk) f }

    // After Ok each partition has its first store.
    ensures made { IfOk result (AreMade D.view partitions host) }
    ensures lanes { IfOk result (λ opened. MakesLanes D.view partitions host (disks_in_lanes lanes.items) (lanes_opened opened)) }

    // After a refusal each lane is given back, whether its store was made or not.
    ensures back { IfErr result (λ refused. MakesLanes D.view partitions host (disks_in_lanes lanes.items) (disks_in_lanes refused.lanes.items)) }
    ensures refused { IfErr result (λ refused. IsMakingRefusal D.view host (disks_in_lanes lanes.items) (disks_in_lanes refused.lanes.items) refused.partition refused.refusal) }
{
    let mut kept = match Vec::with_capacity(alloc, lanes.len()) {
        Ok(kept) => kept,
        Err(_) => {
            return Err(NotOpened {
                partition: 0,
                refusal: CellRefusal::NoMemory,
                lanes,
            });
        }
    };
    // The first one is taken first.
    lanes.reverse();
    while let Some(Lane { disks }) = lanes.pop() {
        let partition = kept.len() as u16;
        match create_lane(alloc, disks, partition, partitions, host) {
            Ok(cell) => kept.push_reserved(cell),
            Err((refusal, disks)) => {
                return Err(NotOpened {
                    partition,
                    refusal,
                    lanes: give_back(lanes, disks, kept),
                });
            }
        }
    }
    Ok(Opened { kept, lanes })
}

/// Makes the first store of one partition, and begins its trail. A refusal gives the disks back.
fn create_lane<D: Disk>(
    alloc: Global,
    disks: Vec<D>,
    partition: u16,
    partitions: u16,
    host: u16,
) -> Result<Kept<D>, (CellRefusal, Vec<D>)>
    requires least { partition < partitions }
    requires most { partitions ≤ 257 }
    requires host { host < length disks.items }
    requires few { length disks.items < 2 ^ 16 }
    requires settled { (disk : D) → slice_get disks.items host ≡ Some disk → (f : ℕ) → f ≤ 1 → IsSettled (D.view disk) f }
    ensures made { IfOk result (IsFirstKept D.view host partition partitions) }
    ensures event { IfOk result (λ kept. MakesLane D.view partitions host partition disks.items kept.cell.disks) }
    ensures back { IfErr result (λ refused. MakesLane D.view partitions host partition disks.items refused.1.items) }
    ensures fault { IfErr result (λ refused. IsMakingFault D.view host disks.items refused.1.items refused.0) }
{
    match Cell::create(alloc, disks, partition, partitions, host) {
        Ok(cell) => match Kept::begin(alloc, cell) {
            Ok(kept) => {
                kept.cell().survives();
                Ok(kept)
            }
            Err(cell) => Err((CellRefusal::NoMemory, cell.into_lane())),
        },
        Err(refused) => Err(refused),
    }
}
