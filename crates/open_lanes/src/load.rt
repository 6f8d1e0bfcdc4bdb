//! The newest store of each partition.
ghost use Rattle.std.specs.Prelude.{◌≡◌, ℕ, ◌<◌, ◌≤◌, ◌^◌, List, length, slice_get, Some, Contains, IfOk, IfErr};
ghost use Rattle.file_kinds.specs.Kinds.{PartitionNumber};
ghost use Rattle.open_lanes.specs.Opened.{AreLoaded, IsLoadedKept, KeepNewest, StandInAll, AreLoadedBefore, IsLoadingRefusal, lanes_opened};
ghost use Rattle.partition_cell.specs.Loaded.{IsLoadRefusal, KeepsNewest, StandsThroughout, ErasesBesideNewest};
ghost use Rattle.seal_gate.specs.Seal.{IsSettled};
ghost use Rattle.site_disks.specs.SiteDisks.{disks_in_lanes};

use crate::opened::{NotOpened, Opened, give_back};
use disk_trait::Disk;
use kept_cell::Kept;
use partition_cell::{Cell, CellRefusal};
use site_disks::Lane;
use std::alloc::Global;

/// Loads the newest store of each partition among these hosts, by partition from 0, erases their older ones, and begins the
/// trails. Nothing may be pending in files 0 and 1 of these hosts' disks.
///
/// A refusal is that of the first partition that has one. Takes memory for each partition and its contents. Device calls: those
/// of `Cell::load_newest`, for each partition.
pub fn load_lanes<D: Disk>(
    alloc: Global,
    mut lanes: Vec<Lane<D>>,
    partitions: u16,
    hosts: &[u16],
) -> Result<Opened<D>, NotOpened<D>>
    requires number { length lanes.items ≡ partitions }
    requires most { partitions ≤ 257 }
    requires disks { (p : ℕ) (lane : List D) → slice_get (disks_in_lanes lanes.items) p ≡ Some lane → ((h : ℕ) → Contains hosts.now h → h < length lane) × (length lane < 2 ^ 16) }
    requires settled { (p h : ℕ) (lane : List D) (disk : D) → slice_get (disks_in_lanes lanes.items) p ≡ Some lane → Contains hosts.now h → slice_get lane h ≡ Some disk → (f : ℕ) → f ≤ 1 → IsSettled (D.view disk) f }

    // After Ok each partition has the newest store of its lane, whole, and no other is left.
    ensures loaded { IfOk result (AreLoaded D.view hosts.now partitions (disks_in_lanes lanes.items)) }

    // At every moment, and after a refusal too, the newest store of each is as it was, and what the files stood for they stand for.
    ensures kept { IfOk result (λ opened. KeepNewest D.view hosts.now partitions (disks_in_lanes lanes.items) (lanes_opened opened)) }
    ensures back { IfErr result (λ refused. KeepNewest D.view hosts.now partitions (disks_in_lanes lanes.items) (disks_in_lanes refused.lanes.items)) }
    ensures stands { IfErr result (λ refused. StandInAll D.view hosts.now partitions (disks_in_lanes lanes.items) (disks_in_lanes refused.lanes.items)) }

    // A refusal is that of the first partition that wasn't loaded.
    ensures refused { IfErr result (λ refused. IsLoadingRefusal D.view hosts.now partitions (disks_in_lanes lanes.items) (disks_in_lanes refused.lanes.items) refused.partition refused.refusal) }
    ensures before { IfErr result (λ refused. AreLoadedBefore D.view hosts.now partitions refused.partition (disks_in_lanes lanes.items) (disks_in_lanes refused.lanes.items)) }
{
    let mut kept = match Vec::with_capacity(alloc, lanes.len()) {
        Ok(kept) => kept,
        Err(_) => {
            return Err(NotOpened {
                partition: 0,
                refusal: CellRefusal::NoMemory,
                lanes,
            });
        }
    };
    // The first one is taken first.
    lanes.reverse();
    while let Some(Lane { disks }) = lanes.pop() {
        let partition = kept.len() as u16;
        match load_lane(alloc, disks, partition, partitions, hosts) {
            Ok(cell) => kept.push_reserved(cell),
            Err((refusal, disks)) => {
                return Err(NotOpened {
                    partition,
                    refusal,
                    lanes: give_back(lanes, disks, kept),
                });
            }
        }
    }
    Ok(Opened { kept, lanes })
}

/// Loads the newest store of one partition, and begins its trail. A refusal gives the disks back.
fn load_lane<D: Disk>(
    alloc: Global,
    disks: Vec<D>,
    partition: u16,
    partitions: u16,
    hosts: &[u16],
) -> Result<Kept<D>, (CellRefusal, Vec<D>)>
    requires least { partition < partitions }
    requires most { partitions ≤ 257 }
    requires hosts { (h : ℕ) → Contains hosts.now h → h < length disks.items }
    requires few { length disks.items < 2 ^ 16 }
    requires settled { (h f : ℕ) (disk : D) → Contains hosts.now h → f ≤ 1 → slice_get disks.items h ≡ Some disk → IsSettled (D.view disk) f }
    ensures loaded { IfOk result (IsLoadedKept D.view hosts.now (record { partition = partition; partitions = partitions }) disks.items) }
    ensures beside { IfOk result (λ kept. ErasesBesideNewest D.view hosts.now (record { partition = partition; partitions = partitions }) disks.items kept.cell.disks) }
    ensures refused { IfErr result (λ refused. IsLoadRefusal D.view hosts.now (record { partition = partition; partitions = partitions }) disks.items refused.1.items refused.0) }
    ensures kept { IfErr result (λ refused. KeepsNewest D.view hosts.now (record { partition = partition; partitions = partitions }) disks.items refused.1.items) }
    ensures stands { IfErr result (λ refused. StandsThroughout D.view hosts.now (record { partition = partition; partitions = partitions }) disks.items refused.1.items) }
{
    match Cell::load_newest(alloc, disks, partition, partitions, hosts) {
        Ok(cell) => match Kept::begin(alloc, cell) {
            Ok(kept) => Ok(kept),
            Err(cell) => Err((CellRefusal::NoMemory, cell.into_lane())),
        },
        Err(refused) => Err(refused),
    }
}
