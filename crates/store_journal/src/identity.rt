// Which store stands in a file.
ghost use Rattle.std.specs.Prelude.{◌≡◌, ℕ, ◌≤◌, length, Some, IfOk, IsErrOf, MatchResult};
ghost use Rattle.disk_trait.specs.View.{View, Tells};
ghost use Rattle.disk_trait.specs.Calls.{Rose};
ghost use Rattle.seal_gate.specs.Seal.{IsSealed};
ghost use Rattle.store_journal.specs.declared.fault.LoadFault.TheVariants.{NotSealed, Damaged, Failed, NoMemory};
ghost use Rattle.store_journal.specs.Loading.{IsIdentified, IsUnidentifiedAt, IsHeaderFault, OnlyReads};

use crate::fault::LoadFault;
use crate::head::{header_of, offset_of};
use crate::judge::has_seal;
use crate::layout::{FIRST_GATE, HEADER_START};
use disk_trait::Disk;
use store_ident::StoreId;

/// Finds which store stands in a file: none where the file isn't sealed.
///
/// Only the header is judged, and that of any partition will do. Takes no memory but the disk's. One device call: read.
pub fn identify<D: Disk>(disk: &mut D, file: u8) -> Result<Option<StoreId>, LoadFault>
    requires file { file ≤ 10 }

    ensures told { IfOk result (λ found. Tells (D.view disk.old) → IsIdentified ((D.view disk.old).seen file) found) }

    ensures failed { IsErrOf result Failed → Rose (D.view disk.old).faults (D.view disk.new).faults }
    ensures damaged { (at : ℕ) → IsErrOf result (Damaged at) → Tells (D.view disk.old) → IsUnidentifiedAt ((D.view disk.old).seen file) at }
    ensures no_memory { IsErrOf result NoMemory → (D.view disk.old).spares → ⊥ }
    ensures no_other { IsErrOf result NotSealed → ⊥ }

    ensures reads_only { OnlyReads (D.view disk.old) (D.view disk.new) }
{
    let mut prefix = [0; FIRST_GATE];
    let count = disk.read(file, 0, &mut prefix)?;
    identified(&prefix[..count])
}

/// Finds it in the file's first bytes.
fn identified(prefix: &[u8]) -> Result<Option<StoreId>, LoadFault>
    ensures { MatchResult result (λ found. IsIdentified prefix.now found) (λ fault. IsHeaderFault prefix.now fault) }
{
    if !has_seal(prefix) {
        return Ok(None);
    }
    match header_of(prefix) {
        Ok(header) => Ok(Some(header.id)),
        Err(fault) => Err(LoadFault::Damaged {
            at: HEADER_START as u64 + offset_of(fault),
        }),
    }
}
