// One file in memory: what a read gives and what a restart takes, as plain bytes.
ghost use Rattle.std.specs.Prelude.{◌≡◌, ◌+◌, ◌-◌, ◌<◌, ◌≤◌, ◌^◌, min, max, ℕ, List, [], length, take, OnOk, OnErr, false};
ghost use Rattle.std.specs.Vec.{vec_capacity};

use crate::bytes::{align, cut_picked, lay, lay_picked, make_room};
use std::alloc::{AllocError, Global};

// Outside the range from `from` to before `to` both are the same bytes, so a sync copies that range alone.
#[derive(Drop)]
pub struct FileBytes {
    pub seen: Vec<u8>,
    pub left: Vec<u8>,
    pub from: usize,
    pub to: usize,
    // A restart came, and `seen` is not brought up to date yet.
    pub taken: bool,
}

impl FileBytes {
    ghost use Rattle.disk_memory.specs.Replay.{FileState, clean, after_write, after_cut};
    ghost use Rattle.disk_memory.specs.Mirrored.{Agrees, Mirrors, visible};

    pub fn empty(alloc: Global) -> Self
        ensures { Mirrors result (clean []) }
    {
        FileBytes {
            seen: Vec::new(alloc),
            left: Vec::new(alloc),
            from: usize::MAX,
            to: 0,
            taken: false,
        }
    }

    // What a read gives.
    pub fn bytes(&self) -> &[u8]
        ensures { result.now ≡ visible self.now }
    {
        if self.taken { &self.left } else { &self.seen }
    }

    // Both are the same bytes.
    fn settle(&mut self)
        ensures seen { self.new.seen ≡ self.old.seen }
        ensures left { self.new.left ≡ self.old.left }
        ensures from { self.new.from ≡ 2 ^ 64 - 1 }
        ensures to { self.new.to ≡ 0 }
        ensures taken { self.new.taken ≡ false }
    {
        self.from = usize::MAX;
        self.to = 0;
        self.taken = false;
    }

    // Brings `seen` up to date after a restart.
    fn refresh(&mut self) -> Result<(), AllocError>
        ensures mirrors { (state : FileState) → Mirrors self.old state → Mirrors self.new state }
        ensures ok { OnOk result (self.new.taken ≡ false) }
    {
        if self.taken {
            make_room(&mut self.seen, self.left.len())?;
            align(&mut self.seen, &self.left, self.from, self.to);
            self.settle();
        }
        Ok(())
    }

    // The bytes of this range are pending.
    fn widen(&mut self, from: usize, to: usize)
        ensures seen { self.new.seen ≡ self.old.seen }
        ensures left { self.new.left ≡ self.old.left }
        ensures from { self.new.from ≡ min self.old.from from }
        ensures to { self.new.to ≡ max self.old.to to }
        ensures taken { self.new.taken ≡ self.old.taken }
    {
        self.from = self.from.min(from);
        self.to = self.to.max(to);
    }

    // Takes the room for a write that ends there.
    fn make_room(&mut self, end: usize) -> Result<(), AllocError>
        ensures mirrors { (state : FileState) → Mirrors self.old state → Mirrors self.new state }
        ensures taken { self.new.taken ≡ self.old.taken }
        ensures seen { OnOk result (end ≤ vec_capacity self.new.seen) }
        ensures left { OnOk result (end ≤ vec_capacity self.new.left) }
    {
        make_room(&mut self.seen, end)?;
        make_room(&mut self.left, end)?;
        Ok(())
    }

    fn put(&mut self, pick: u8, at: usize, bytes: &[u8])
        requires fits { at + length bytes.now < 2 ^ 63 }
        requires seen { at + length bytes.now ≤ vec_capacity self.old.seen }
        requires left { at + length bytes.now ≤ vec_capacity self.old.left }
        requires fresh { self.old.taken ≡ false }
        ensures { (state : FileState) → at ≤ length state.seen → Mirrors self.old state → Mirrors self.new (after_write pick at bytes.now state) }
    {
        lay(&mut self.seen, at, bytes);
        lay_picked(&mut self.left, pick, at, bytes);
        self.widen(at, at + bytes.len());
    }

    pub fn write(&mut self, pick: u8, at: usize, bytes: &[u8]) -> Result<(), AllocError>
        requires { at + length bytes.now < 2 ^ 63 }
        ensures ok { OnOk result ((state : FileState) → at ≤ length state.seen → Mirrors self.old state → Mirrors self.new (after_write pick at bytes.now state)) }
        ensures err { OnErr result ((state : FileState) → Mirrors self.old state → Mirrors self.new state) }
    {
        self.refresh()?;
        self.make_room(at + bytes.len())?;
        self.put(pick, at, bytes);
        Ok(())
    }

    // What is cut off is pending.
    fn widen_by_cut(&mut self, to: usize)
        ensures seen { self.new.seen ≡ self.old.seen }
        ensures left { self.new.left ≡ self.old.left }
        ensures taken { self.new.taken ≡ self.old.taken }
        ensures both { (ys : List ℕ) → Agrees self.old.from self.old.to self.old.seen.items ys → Agrees self.new.from self.new.to (take to self.old.seen.items) (take to ys) }
        ensures first { (ys : List ℕ) → Agrees self.old.from self.old.to self.old.seen.items ys → Agrees self.new.from self.new.to (take to self.old.seen.items) ys }
    {
        let length = self.seen.len();
        if to < length {
            self.widen(to, length);
        }
    }

    fn shorten(&mut self, pick: u8, to: usize)
        requires { self.old.taken ≡ false }
        ensures { (state : FileState) → Mirrors self.old state → Mirrors self.new (after_cut pick to state) }
    {
        self.widen_by_cut(to);
        self.seen.truncate(to);
        cut_picked(&mut self.left, pick, to);
    }

    pub fn cut(&mut self, pick: u8, to: usize) -> Result<(), AllocError>
        ensures ok { OnOk result ((state : FileState) → Mirrors self.old state → Mirrors self.new (after_cut pick to state)) }
        ensures err { OnErr result ((state : FileState) → Mirrors self.old state → Mirrors self.new state) }
    {
        self.refresh()?;
        self.shorten(pick, to);
        Ok(())
    }

    // A restart takes from now on what a read gives.
    pub fn sync(&mut self) -> Result<(), AllocError>
        ensures ok { OnOk result ((state : FileState) → Mirrors self.old state → Mirrors self.new (clean state.seen)) }
        ensures err { OnErr result ((state : FileState) → Mirrors self.old state → Mirrors self.new state) }
    {
        if !self.taken {
            make_room(&mut self.left, self.seen.len())?;
            align(&mut self.left, &self.seen, self.from, self.to);
            self.settle();
        }
        Ok(())
    }

    // A read gives from now on what a restart takes. The bytes are brought up to date at the next change.
    pub fn restart(&mut self)
        ensures { (state : FileState) → Mirrors self.old state → Mirrors self.new (clean state.left) }
    {
        self.taken = true;
    }
}
