//! Restarts of the disk, with the answers that come with one.
ghost use Rattle.std.specs.Prelude.{◌≡◌, length};
ghost use Rattle.cluster_commands.specs.OnDisk.{lane_view, IsDiskRestarted};

use crate::answers::refused;
use disk_trait::Disk;
use script_lines::{Answer, Refusal};

/// Restarts the disk of a lane: it holds one of its images then, and nothing is pending on it.
pub fn restart_lane<D: Disk>(disks: &mut [D])
    requires one { length disks.old ≡ 1 }
    ensures restarted { IsDiskRestarted (lane_view D.view disks.old) (lane_view D.view disks.new) }
    ensures one { length disks.new ≡ 1 }
{
    disks[0].restart();
}

/// Refuses a command, and restarts the disk, so that nothing of its calls stays pending: the next command may judge files by
/// what a read gives.
pub(crate) fn refused_with_restart<D: Disk>(disks: &mut [D], refusal: Refusal) -> Answer
    requires one { length disks.old ≡ 1 }
    ensures answer { result ≡ Answer.Refused refusal }
    ensures restarted { IsDiskRestarted (lane_view D.view disks.old) (lane_view D.view disks.new) }
    ensures one { length disks.new ≡ 1 }
{
    restart_lane(disks);
    refused(refusal)
}
