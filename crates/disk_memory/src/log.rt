// The changing calls of a disk, in order.
ghost use Rattle.std.specs.Prelude.{◌≡◌, ◌+◌, ◌≤◌, ◌++◌, ◌∷◌, [], OnOk, true, vec_len};
ghost use Rattle.std.specs.Vec.{vec_capacity};

use std::alloc::{AllocError, Global};

#[derive(Drop)]
pub enum Call {
    Write { file: u8, at: u64, bytes: Vec<u8> },
    Cut { file: u8, to: u64 },
    Sync { file: u8 },
    Restart,
}

// The calls, and whether a restart came after them. So a restart takes no memory.
#[derive(Drop)]
pub struct Log {
    pub calls: Vec<Call>,
    pub restarted: bool,
}

impl Log {
    ghost use Rattle.disk_memory.specs.Logged.{call_of, logged};
    ghost use Rattle.disk_memory.specs.DiskCall.{RestartCall};

    pub fn empty(alloc: Global) -> Self
        ensures { logged result ≡ [] }
    {
        Log {
            calls: Vec::new(alloc),
            restarted: false,
        }
    }

    // Takes the room for one call more.
    pub fn make_room(&mut self) -> Result<(), AllocError>
        ensures unchanged { logged self.new ≡ logged self.old }
        ensures room { OnOk result (vec_len self.new.calls + 2 ≤ vec_capacity self.new.calls) }
    {
        self.calls.reserve(2)?;
        Ok(())
    }

    // A restart that came before the call is written down with it.
    pub fn add(&mut self, call: Call)
        requires { vec_len self.old.calls + 2 ≤ vec_capacity self.old.calls }
        ensures { logged self.new ≡ logged self.old ++ call_of call ∷ [] }
    {
        if self.restarted {
            let _ = self.calls.push(Call::Restart);
            self.restarted = false;
        }
        let _ = self.calls.push(call);
    }

    // Takes no memory. A second restart in a row changes nothing.
    pub fn restart(&mut self)
        ensures calls { self.new.calls ≡ self.old.calls }
        ensures restarted { self.new.restarted ≡ true }
    {
        self.restarted = true;
    }
}
