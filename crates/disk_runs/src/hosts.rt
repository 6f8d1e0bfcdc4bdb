// A disk over a host that keeps one file in memory and may fail.
use crate::fixtures::expect_same;
use crate::one_file::OneFile;
use disk_trait::{Disk, DiskRefusal, write_synced};
use untold_disk::UntoldDisk;

// Through the bound alone: what was written is read, and the call that fails is answered.
fn run<D: Disk>(disk: &mut D, read: &mut [u8; 3]) -> Result<usize, DiskRefusal> {
    write_synced(disk, 0, 0, b"abcd")?;
    disk.cut(0, 3)?;
    disk.sync(0)?;
    disk.length(0)?;
    let count = disk.read(0, 0, read)?;
    disk.restart();
    Ok(count)
}

const FAILED: Result<usize, DiskRefusal> = Err(DiskRefusal::Failed);

// Which call fails, what the calls answer, and what was read.
const FAILING: &[(&str, u64, Result<usize, DiskRefusal>, [u8; 3])] = &[
    ("no call fails", 0, Ok(3), *b"abc"),
    ("the write fails", 1, FAILED, *b"\0\0\0"),
    ("the first sync fails", 2, FAILED, *b"\0\0\0"),
    ("the cut fails", 3, FAILED, *b"\0\0\0"),
    ("the second sync fails", 4, FAILED, *b"\0\0\0"),
    ("the length fails", 5, FAILED, *b"\0\0\0"),
    ("the read fails", 6, FAILED, *b"\0\0\0"),
    ("a call that is never made fails", 7, Ok(3), *b"abc"),
];

#[test]
fn hands_on_the_host_s_answers(rt: HostRuntime) {
    for (case, failing, want, bytes) in FAILING {
        let mut disk = UntoldDisk::over(OneFile::holding(Vec::new(rt.alloc()), *failing));
        let mut read = [0; 3];
        expect_same(&rt, case, run(&mut disk, &mut read), *want);
        expect_same(&rt, case, read, *bytes);
    }
}
