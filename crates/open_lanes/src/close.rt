//! A cluster is closed.
ghost use Rattle.std.specs.Prelude.{◌≡◌, ◌≤◌, [], length, vec_capacity};
ghost use Rattle.open_lanes.specs.Opened.{lanes_opened};
ghost use Rattle.site_disks.specs.SiteDisks.{disks_in_lanes};

use crate::opened::Opened;
use disk_trait::Disk;
use site_disks::Lane;

/// Gives all lanes back, each at its place. Takes no memory, and calls no disk.
pub fn close_lanes<D: Disk>(opened: Opened<D>) -> Vec<Lane<D>>
    requires emptied { opened.lanes.items ≡ [] }
    requires room { length opened.kept.items ≤ vec_capacity opened.lanes }
    ensures { disks_in_lanes result.items ≡ lanes_opened opened }
{
    let Opened {
        mut kept,
        mut lanes,
    } = opened;
    while let Some(last) = kept.pop() {
        lanes.push_reserved(Lane {
            disks: last.into_cell().into_lane(),
        });
    }
    kept.destroy_empty();
    lanes.reverse();
    lanes
}
