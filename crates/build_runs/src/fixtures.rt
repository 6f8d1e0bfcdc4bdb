//! A disk that keeps one file, and how what was found is compared.
ghost use Rattle.std.specs.Prelude.{◌≤◌};

use disk_trait::{Disk, DiskRefusal};
use record_form::Header;
use std::alloc::Global;
use std::fmt::Debug;
use std::process::Abort;
use store_ident::StoreId;
use untold_disk::{Host, UntoldDisk};

/// Version 3 of partition 2 of 4, begun in epoch 5 on host 1.
pub(crate) const HEADER: Header = Header {
    id: StoreId {
        partition: 2,
        version: 3,
        epoch: 5,
        host: 1,
    },
    partitions: 4,
};

/// A first byte of zero, and that header.
pub(crate) const BEGUN: &[u8] =
    b"\x00PST1\x00\x01\x00\x02\x00\x00\x00\x00\x00\x00\x00\x03\x00\x00\x00\x00\x00\x00\x00\x05\
\x00\x01\x00\x04\x00\x00\x00\x00\x00\x00\x00\x00\x00\x00\x00\x00";

/// The same where the first byte is a seal.
pub(crate) const SEALED: &[u8] =
    b"\x01PST1\x00\x01\x00\x02\x00\x00\x00\x00\x00\x00\x00\x03\x00\x00\x00\x00\x00\x00\x00\x05\
\x00\x01\x00\x04\x00\x00\x00\x00\x00\x00\x00\x00\x00\x00\x00\x00";

/// What was found is what is wanted.
pub(crate) fn expect_same<T: PartialEq + Debug + Drop>(
    rt: &impl Abort,
    case: &str,
    found: T,
    want: T,
) {
    assert_eq!(rt; found, want, "{case}");
}

/// One file, which stands for each number but 1. Of file 1 a read gives the changing calls so far, a letter each.
#[derive(Drop)]
pub(crate) struct OneFile {
    bytes: Vec<u8>,
    calls: Vec<u8>,
}

impl OneFile {
    fn shown(&self, file: u8) -> &[u8] {
        if file == 1 {
            self.calls.as_slice()
        } else {
            self.bytes.as_slice()
        }
    }
}

impl Host for OneFile {
    fn length(&mut self, file: u8) -> Result<u64, DiskRefusal> {
        Ok(self.shown(file).len() as u64)
    }

    fn read(&mut self, file: u8, at: u64, into: &mut [u8]) -> Result<usize, DiskRefusal> {
        let shown = self.shown(file);
        let offset = (at as usize).min(shown.len());
        let count = into.len().min(shown.len() - offset);
        for (byte, there) in into.iter_mut().zip(&shown[offset..]) {
            *byte = *there;
        }
        Ok(count)
    }

    fn write_at(&mut self, _file: u8, at: u64, bytes: &[u8]) -> Result<(), DiskRefusal> {
        self.calls.push(b'w')?;
        for (offset, byte) in bytes.iter().enumerate() {
            match self.bytes.get_mut((at as usize).saturating_add(offset)) {
                Some(there) => *there = *byte,
                None => self.bytes.push(*byte)?,
            }
        }
        Ok(())
    }

    fn cut(&mut self, _file: u8, to: u64) -> Result<(), DiskRefusal> {
        self.calls.push(b'c')?;
        self.bytes.truncate(to as usize);
        Ok(())
    }

    fn sync(&mut self, _file: u8) -> Result<(), DiskRefusal> {
        self.calls.push(b's')?;
        Ok(())
    }
}

pub(crate) type OneDisk = UntoldDisk<OneFile>;

/// A disk whose file has these bytes.
pub(crate) fn disk_of(rt: &impl Abort, alloc: Global, file: &[u8]) -> OneDisk {
    let mut bytes = Vec::new(alloc);
    bytes.extend_from_slice(file).expect(rt, "bytes");
    UntoldDisk::over(OneFile {
        bytes,
        calls: Vec::new(alloc),
    })
}

/// All that a read of this file gives: the bytes, or of file 1 the calls.
pub(crate) fn expect_shown(rt: &impl Abort, case: &str, disk: &mut OneDisk, file: u8, want: &[u8])
    requires file { file ≤ 10 }
{
    let mut found = [0; 64];
    expect_same(rt, case, disk.length(file), Ok(want.len() as u64));
    let count = disk.read(file, 0, &mut found).expect(rt, case);
    expect_same(rt, case, found.get(..count), Some(want));
}
