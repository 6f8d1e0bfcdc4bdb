// A whole file in memory.
ghost use Rattle.std.specs.Prelude.{◌≡◌, ◌+◌, ◌<◌, ◌≤◌, length, take, IfOk, IfErr};
ghost use Rattle.disk_trait.specs.View.{Image, View, Tells};
ghost use Rattle.disk_trait.specs.Calls.{Same, Cause};
ghost use Rattle.disk_trait.specs.Moments.{Throughout};
ghost use Rattle.store_journal.specs.Loading.{IsReadFault, OnlyReads};

use crate::fault::LoadFault;
use disk_trait::{Disk, DiskRefusal};
use std::alloc::Global;

/// The most bytes of one read.
const PIECE: usize = 65_536;

/// Reads the file whole, in pieces.
#[tactic(auto, using(crate::proofs::ReadLemmas::reads_one, crate::proofs::ReadLemmas::reads_on, crate::proofs::ReadLemmas::read_fails, crate::proofs::ReadLemmas::later_fails, crate::proofs::ReadLemmas::memory_fails, crate::proofs::ReadLemmas::piece_more, crate::proofs::ReadLemmas::all_read, crate::proofs::ReadLemmas::none_told))]
pub(crate) fn read_all<D: Disk>(alloc: Global, disk: &mut D, file: u8) -> Result<Vec<u8>, LoadFault>
    requires file { file ≤ 10 }
    ensures told { IfOk result (λ bytes. Tells (D.view disk.old) → bytes.items ≡ (D.view disk.old).seen file) }
    ensures fault { IfErr result (λ fault. IsReadFault (D.view disk.old) (D.view disk.new) fault) }
    ensures reads_only { OnlyReads (D.view disk.old) (D.view disk.new) }
{
    let length = disk.length(file)? as usize;
    let mut bytes = vec![in alloc; 0; length]?;
    let mut offset = 0;
    while offset < length {
        let count = read_piece(disk, file, bytes.as_mut_slice(), offset)?;
        if count == 0 {
            // Fewer bytes are there than the disk said.
            bytes.truncate(offset);
            return Ok(bytes);
        }
        offset += count;
    }
    Ok(bytes)
}

/// Reads the next piece of a file to its offset in the file's bytes, and answers how long it is.
fn read_piece<D: Disk>(
    disk: &mut D,
    file: u8,
    bytes: &mut [u8],
    offset: usize,
) -> Result<usize, DiskRefusal>
    requires file { file ≤ 10 }
    requires offset { offset < length bytes.old }
    ensures long { length bytes.new ≡ length bytes.old }
    ensures within { IfOk result (λ count. offset + count ≤ length bytes.old) }
    ensures some { IfOk result (λ count. Tells (D.view disk.old) → length bytes.old ≡ length ((D.view disk.old).seen file) → 1 ≤ count) }
    ensures told { IfOk result (λ count. Tells (D.view disk.old) → take offset bytes.old ≡ take offset ((D.view disk.old).seen file)
        → take (offset + count) bytes.new ≡ take (offset + count) ((D.view disk.old).seen file)) }
    ensures moments { Throughout (D.view disk.old) (D.view disk.new) (D.view disk.old).images }
    ensures cause { Cause (D.view disk.old) (D.view disk.new) result }
    ensures reads_only { Same (D.view disk.old) (D.view disk.new) }
{
    let end = offset + PIECE.min(bytes.len() - offset);
    disk.read(file, offset as u64, &mut bytes[offset..end])
}
