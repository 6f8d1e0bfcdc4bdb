// A host that keeps one file in memory and may fail.
use disk_trait::DiskRefusal;
use untold_disk::Host;

/// One file. The call with the number `failing`, from 1, fails.
#[derive(Drop)]
pub struct OneFile {
    bytes: Vec<u8>,
    calls: u64,
    failing: u64,
}

impl OneFile {
    pub fn holding(bytes: Vec<u8>, failing: u64) -> Self {
        OneFile {
            bytes,
            calls: 0,
            failing,
        }
    }

    fn call(&mut self) -> Result<(), DiskRefusal> {
        self.calls = self.calls.saturating_add(1);
        if self.calls == self.failing {
            Err(DiskRefusal::Failed)
        } else {
            Ok(())
        }
    }
}

impl Host for OneFile {
    fn length(&mut self, _file: u8) -> Result<u64, DiskRefusal> {
        self.call()?;
        Ok(self.bytes.len() as u64)
    }

    fn read(&mut self, _file: u8, at: u64, into: &mut [u8]) -> Result<usize, DiskRefusal> {
        self.call()?;
        let mut count = 0;
        for (offset, byte) in into.iter_mut().enumerate() {
            if let Some(there) = self.bytes.get((at as usize).saturating_add(offset)) {
                *byte = *there;
                count = offset + 1;
            }
        }
        Ok(count)
    }

    fn write_at(&mut self, _file: u8, at: u64, bytes: &[u8]) -> Result<(), DiskRefusal> {
        self.call()?;
        for (offset, byte) in bytes.iter().enumerate() {
            match self.bytes.get_mut((at as usize).saturating_add(offset)) {
                Some(there) => *there = *byte,
                None => self.bytes.push(*byte)?,
            }
        }
        Ok(())
    }

    fn cut(&mut self, _file: u8, to: u64) -> Result<(), DiskRefusal> {
        self.call()?;
        self.bytes.truncate(to as usize);
        Ok(())
    }

    fn sync(&mut self, _file: u8) -> Result<(), DiskRefusal> {
        self.call()
    }
}
