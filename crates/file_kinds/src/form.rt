//! What the bytes of a settled file are.
ghost use Rattle.std.specs.Prelude.{◌≡◌, ℕ, ◌≤◌, IfOk};
ghost use Rattle.disk_trait.specs.View.{Image, View, Tells};
ghost use Rattle.disk_trait.specs.Calls.{Same, Cause};
ghost use Rattle.disk_trait.specs.Moments.{Throughout};
ghost use Rattle.seal_gate.specs.Seal.{IsSettled, Each};
ghost use Rattle.file_kinds.specs.Freeing.{HasFileForm};

use disk_trait::{Disk, DiskRefusal};
use seal_gate::HEADER_END;

/// What the bytes of a file are. Each file is one of these.
#[derive(Clone, Copy, Debug, PartialEq, Eq, Drop)]
pub enum FileForm {
    /// The first byte is there, and it is zero.
    Blank,
    /// The first byte isn't there, or it isn't zero, and there are fewer than 41 bytes.
    Short,
    /// The first byte isn't zero, and there are at least 41 bytes.
    Sealed,
}

/// Says which of the three a settled file is, in every image.
///
/// Takes no memory but the disk's. Device calls: a read, and the length where the first byte isn't zero.
pub fn file_form<D: Disk>(disk: &mut D, file: u8) -> Result<FileForm, DiskRefusal>
    requires file { file ≤ 10 }
    requires settled { IsSettled (D.view disk.old) file }

    ensures form { IfOk result (λ form. Each (D.view disk.new) file (HasFileForm form)) }

    ensures moments { Throughout (D.view disk.old) (D.view disk.new) (D.view disk.old).images }
    ensures cause { Cause (D.view disk.old) (D.view disk.new) result }
    ensures reads_only { Same (D.view disk.old) (D.view disk.new) }
{
    let mut first = [1];
    let count = disk.read(file, 0, &mut first)?;
    if count == 1 && first[0] == 0 {
        return Ok(FileForm::Blank);
    }
    if disk.length(file)? < HEADER_END {
        Ok(FileForm::Short)
    } else {
        Ok(FileForm::Sealed)
    }
}
