//! What becomes of the lanes of a site.
ghost use Rattle.std.specs.Prelude.{◌≡◌, ◌≤◌, ◌+◌, ◌++◌, ◌∷◌, length, reverse, vec_capacity};
ghost use Rattle.open_lanes.specs.Opened.{lanes_of_kept};
ghost use Rattle.site_disks.specs.SiteDisks.{disks_in_lanes};

use disk_trait::Disk;
use kept_cell::Kept;
use partition_cell::CellRefusal;
use site_disks::Lane;

/// The partitions of a cluster, each with the disks of its lane.
#[derive(Drop)]
pub struct Opened<D: Disk> {
    /// By partition, from 0.
    pub kept: Vec<Kept<D>>,
    /// The emptied list of lanes, with room for as many: so that they are given back without memory.
    pub lanes: Vec<Lane<D>>,
}

/// Why the partitions weren't opened: that of the first one that was refused.
#[derive(Drop)]
pub struct NotOpened<D> {
    /// From 0.
    pub partition: u16,
    pub refusal: CellRefusal,
    /// All lanes, each at its place.
    pub lanes: Vec<Lane<D>>,
}

/// Gives all lanes back at their places: those of the cells, then this one, and then those that are left, of which the last one
/// stands first.
pub(crate) fn give_back<D: Disk>(
    mut lanes: Vec<Lane<D>>,
    disks: Vec<D>,
    mut kept: Vec<Kept<D>>,
) -> Vec<Lane<D>>
    requires room { length kept.items + 1 + length lanes.items ≤ vec_capacity lanes }
    ensures { disks_in_lanes result.items ≡ lanes_of_kept kept.items ++ disks.items ∷ reverse (disks_in_lanes lanes.items) }
{
    lanes.push_reserved(Lane { disks });
    while let Some(last) = kept.pop() {
        lanes.push_reserved(Lane {
            disks: last.into_cell().into_lane(),
        });
    }
    kept.destroy_empty();
    lanes.reverse();
    lanes
}
