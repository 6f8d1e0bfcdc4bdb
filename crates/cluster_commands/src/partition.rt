//! The one partition: made, or loaded from its disk.
ghost use Rattle.std.specs.Prelude.{◌≡◌, ℕ, [], ◌∷◌, length, IfOk, IfErr};
ghost use Rattle.disk_trait.specs.Moments.{Onward};
ghost use Rattle.seal_gate.specs.Seal.{IsSettled};
ghost use Rattle.partition_cell.specs.Loaded.{IsLoadedCell, IsLoadRefusal};
ghost use Rattle.partition_cell.specs.Made.{IsFirst, IsMakingFault};
ghost use Rattle.partition_cell.specs.Standing.{IsLone};
ghost use Rattle.partition_cell.specs.declared.refusal.CellRefusal.TheVariants.{NoMemory};
ghost use Rattle.cluster_commands.specs.OnDisk.{FilesHold, lane_view};
ghost use Rattle.cluster_commands.specs.State.{KnownFiles};

use disk_trait::Disk;
use kept_cell::Kept;
use partition_cell::{Cell, CellRefusal};
use std::alloc::Global;

/// How many partitions there are.
pub(crate) const PARTITIONS: u16 = 1;

/// The number of the one partition.
const PARTITION: u16 = 0;

/// The number of the one host.
const HOST: u16 = 0;

/// Makes the first store of the partition, with a trail that begins then. A refusal gives the disks back.
pub(crate) fn make_partition<D: Disk>(
    alloc: Global,
    disks: Vec<D>,
) -> Result<Kept<D>, (CellRefusal, Vec<D>)>
    requires one { length disks.items ≡ 1 }
    requires settled { IsSettled (lane_view D.view disks.items) 0 × IsSettled (lane_view D.view disks.items) 1 }
    ensures made { IfOk result (λ kept. IsFirst kept.cell 0 0 1 × (kept.trail.entries ≡ [])) }
    ensures lone_store { IfOk result (λ kept. IsLone kept.cell) }
    ensures lane { IfOk result (λ kept. (length kept.cell.disks ≡ 1) × Onward (lane_view D.view disks.items) (lane_view D.view kept.cell.disks)) }
    ensures refused { IfErr result (λ refused. IsMakingFault D.view 0 disks.items refused.1.items refused.0) }
    ensures back { IfErr result (λ refused. (length refused.1.items ≡ 1) × Onward (lane_view D.view disks.items) (lane_view D.view refused.1.items)) }
{
    match Cell::create(alloc, disks, PARTITION, PARTITIONS, HOST) {
        Ok(cell) => begin_trail(alloc, cell),
        Err(refused) => Err(refused),
    }
}

/// Loads the newest store of the partition, with a trail that begins then. A refusal gives the disks back, and their files hold
/// what was known of them.
pub(crate) fn load_partition<D: Disk>(
    alloc: Global,
    disks: Vec<D>,
) -> Result<Kept<D>, (CellRefusal, Vec<D>)>
    requires one { length disks.items ≡ 1 }
    requires settled { IsSettled (lane_view D.view disks.items) 0 × IsSettled (lane_view D.view disks.items) 1 }
    ensures loaded { IfOk result (λ kept. IsLoadedCell D.view (0 ∷ []) (record { partition = 0; partitions = 1 }) disks.items kept.cell × (kept.trail.entries ≡ [])) }
    ensures lane { IfOk result (λ kept. (length kept.cell.disks ≡ 1) × Onward (lane_view D.view disks.items) (lane_view D.view kept.cell.disks)) }
    ensures refused { IfErr result (λ refused. IsLoadRefusal D.view (0 ∷ []) (record { partition = 0; partitions = 1 }) disks.items refused.1.items refused.0) }
    ensures known { IfErr result (λ refused. (files : KnownFiles) → FilesHold files (lane_view D.view disks.items) → FilesHold files (lane_view D.view refused.1.items)) }
    ensures back { IfErr result (λ refused. (length refused.1.items ≡ 1) × Onward (lane_view D.view disks.items) (lane_view D.view refused.1.items)) }
{
    match Cell::load_newest(alloc, disks, PARTITION, PARTITIONS, &[HOST]) {
        Ok(cell) => begin_trail(alloc, cell),
        Err(refused) => Err(refused),
    }
}

/// A trail of the cell, that begins now. A refusal is for memory alone, and gives the disks back.
fn begin_trail<D: Disk>(alloc: Global, cell: Cell<D>) -> Result<Kept<D>, (CellRefusal, Vec<D>)>
    ensures begun { IfOk result (λ kept. (kept.cell ≡ cell) × (kept.trail.entries ≡ [])) }
    ensures back { IfErr result (λ refused. (refused.0 ≡ NoMemory) × (refused.1.items ≡ cell.disks)) }
{
    match Kept::begin(alloc, cell) {
        Ok(kept) => Ok(kept),
        Err(cell) => Err((CellRefusal::NoMemory, cell.into_lane())),
    }
}
