// The disk itself: what it holds, its plan and its counts.
ghost use Rattle.std.specs.Prelude.{◌≡◌, ◌≢◌, ◌⊎◌, ℕ, ◌+◌, ◌-◌, ◌<◌, ◌≤◌, ◌^◌, ◌↔◌, IfOk, OnOk, OnErr, IsErrOf, IsTrue, min, length, take, drop, [], ◌∷◌, ◌++◌, Ok, Err, if◌then◌else◌, nat_lt};
ghost use Rattle.std.specs.List.{Contains};
ghost use Rattle.fault_count.specs.OneMore.{one_more_than};
ghost use Rattle.fault_count.specs.OneMore.{IsOneMore};
ghost use Rattle.disk_trait.specs.declared.DiskRefusal.TheVariants.{Failed, NoMemory};
ghost use Rattle.disk_trait.specs.View.{Image, Tells};
ghost use Rattle.disk_trait.specs.Calls.{written, Torn, Shorn, Moved, Follows, TimePasses, Fewer, Same, Cause, KeepsOthers};
ghost use Rattle.disk_memory.specs.DiskCall.{WriteCall, CutCall, SyncCall};
ghost use Rattle.disk_memory.specs.MemoryView.{taken_by};
ghost use Rattle.disk_memory.specs.History.{history_of, view_of, planned, IsMet, NextFails, NextReadFails, FailsBy, ReadFailsBy, after_read, AddsCalls, IsRestarted};

use crate::medium::Medium;
use crate::plan::DiskPlan;
use disk_trait::{Disk, DiskRefusal};
use fault_count::one_more;
use std::alloc::{AllocError, Global};

// No file reaches so many bytes.
const LIMIT: u64 = 1 << 63;

/// A disk of eleven files in memory, which are empty at first.
#[derive(Drop)]
pub struct MemoryDisk {
    medium: Medium,
    fail: Vec<u64>,
    fail_reads: Vec<u64>,
    fuse: Option<u64>,
    made: u64,
    read: u64,
    faults: u64,
    restarts: u64,
}

fn contains(numbers: &[u64], number: u64) -> bool
    ensures { IsTrue result ↔ Contains numbers.now number }
{
    numbers.contains(&number)
}

// The fuse is met by so many calls.
fn is_met(fuse: Option<u64>, count: u64) -> bool
    ensures { IsTrue result ↔ IsMet fuse count }
{
    match fuse {
        Some(first) => first <= count,
        None => false,
    }
}

// The fuse, if it wasn't met.
fn unmet(fuse: Option<u64>, count: u64) -> Option<u64>
    ensures met { IsMet fuse count → result ≡ None }
    ensures unmet { ¬ IsMet fuse count → result ≡ fuse }
{
    if is_met(fuse, count) { None } else { fuse }
}

fn is_too_long(at: u64, length: usize) -> bool
    ensures { IsTrue result ↔ (2 ^ 63 ≤ at + length) }
{
    at >= LIMIT || length as u64 >= LIMIT - at
}

// Counts a changing call, and answers it.
fn answered(made: &mut u64, faults: &mut u64, fails: bool) -> Result<(), DiskRefusal>
    ensures answer { result ≡ (if fails then Err Failed else Ok tt) }
    ensures made { made.new ≡ one_more_than made.old }
    ensures faults { faults.new ≡ (if fails then one_more_than faults.old else faults.old) }
{
    *made = one_more(*made);
    if fails {
        *faults = one_more(*faults);
        return Err(DiskRefusal::Failed);
    }
    Ok(())
}

impl MemoryDisk {
    /// AddsCalls a disk of empty files, whose calls go by a plan.
    ///
    /// Takes the memory for eleven empty files. A file takes memory with its first write.
    pub fn new(alloc: Global, plan: DiskPlan) -> Result<Self, AllocError>
        ensures tells { IfOk result (λ disk. Tells (view_of disk)) }
        ensures empty { IfOk result (λ disk. (m : Image) → (view_of disk).images m → (f : ℕ) → m f ≡ []) }
        ensures history { IfOk result (λ disk. history_of disk ≡ planned plan) }
    {
        Ok(MemoryDisk {
            medium: Medium::new(alloc, plan.pick)?,
            fail: plan.fail,
            fail_reads: plan.fail_reads,
            fuse: plan.fuse,
            made: 0,
            read: 0,
            faults: 0,
            restarts: 0,
        })
    }

    // The next changing call fails by the plan.
    fn next_fails(&self) -> bool
        ensures { IsTrue result ↔ NextFails (history_of self.now) }
    {
        let number = one_more(self.made);
        contains(&self.fail, number) || is_met(self.fuse, number)
    }
}

// Copies from an offset on, at most the slice's length.
fn copied(seen: &[u8], at: u64, into: &mut [u8]) -> usize
    ensures count { result ≡ min (length into.old) (length seen.now - at) }
    ensures bytes { take result into.new ≡ take result (drop at seen.now) }
{
    let offset = at as usize;
    if offset >= seen.len() {
        return 0;
    }
    let count = into.len().min(seen.len() - offset);
    into[..count].copy_from_slice(&seen[offset..offset + count]);
    count
}

impl Disk for MemoryDisk {
    ghost view = { λ disk. view_of disk };

    fn length(&mut self, file: u8) -> Result<u64, DiskRefusal>
        requires { file ≤ 10 }
        ensures told { IfOk result (λ n. Tells (view_of self.old) → n ≡ length ((view_of self.old).seen file)) }
        ensures below { IfOk result (λ n. n < 2 ^ 63) }
        ensures same { Same (view_of self.old) (view_of self.new) }
        ensures time { TimePasses (view_of self.old) (view_of self.new) }
        ensures cause { Cause (view_of self.old) (view_of self.new) result }
        ensures fails { ReadFailsBy (NextReadFails (history_of self.old)) result }
        ensures history { history_of self.new ≡ after_read (history_of self.old) result }
    {
        self.read = one_more(self.read);
        if contains(&self.fail_reads, self.read) {
            self.faults = one_more(self.faults);
            return Err(DiskRefusal::Failed);
        }
        Ok(self.medium.bytes(file).len() as u64)
    }

    fn read(&mut self, file: u8, at: u64, into: &mut [u8]) -> Result<usize, DiskRefusal>
        requires { file ≤ 10 }
        ensures within { IfOk result (λ n. n ≤ length into.old) }
        ensures told { IfOk result (λ n. Tells (view_of self.old) → n ≡ min (length into.old) (length ((view_of self.old).seen file) - at)) }
        ensures bytes { IfOk result (λ n. Tells (view_of self.old) → take n into.new ≡ take n (drop at ((view_of self.old).seen file))) }
        ensures same { Same (view_of self.old) (view_of self.new) }
        ensures time { TimePasses (view_of self.old) (view_of self.new) }
        ensures cause { Cause (view_of self.old) (view_of self.new) result }
        ensures fails { ReadFailsBy (NextReadFails (history_of self.old)) result }
        ensures history { history_of self.new ≡ after_read (history_of self.old) result }
    {
        self.read = one_more(self.read);
        if contains(&self.fail_reads, self.read) {
            self.faults = one_more(self.faults);
            return Err(DiskRefusal::Failed);
        }
        Ok(copied(self.medium.bytes(file), at, into))
    }

    fn write_at(&mut self, file: u8, at: u64, bytes: &[u8]) -> Result<(), DiskRefusal>
        requires file { file ≤ 10 }
        requires offset { Tells (view_of self.old) → at ≤ length ((view_of self.old).seen file) }
        ensures written { OnOk result (Tells (view_of self.old) → (view_of self.new).seen file ≡ written ((view_of self.old).seen file) at bytes.now) }
        ensures below { OnOk result (at + length bytes.now < 2 ^ 63) }
        ensures others { (f : ℕ) → f ≢ file → (view_of self.new).seen f ≡ (view_of self.old).seen f }
        ensures images { Follows (Moved file (Torn at (length bytes.now))) (view_of self.old) (view_of self.new) }
        ensures others_stay { KeepsOthers file (view_of self.old) (view_of self.new) }
        ensures tells { Tells (view_of self.old) → Tells (view_of self.new) }
        ensures time { TimePasses (view_of self.old) (view_of self.new) }
        ensures as_before { IsErrOf result NoMemory → Same (view_of self.old) (view_of self.new) }
        ensures cause { Cause (view_of self.old) (view_of self.new) result }
        ensures fails { FailsBy (NextFails (history_of self.old) ⊎ (2 ^ 63 ≤ at + length bytes.now)) result }
        ensures history { AddsCalls (WriteCall file at bytes.now ∷ []) (if nat_lt (at + length bytes.now) (2 ^ 63) then WriteCall file at bytes.now ∷ [] else []) result (history_of self.old) (history_of self.new) }
    {
        if is_too_long(at, bytes.len()) {
            return answered(&mut self.made, &mut self.faults, true);
        }
        let fails = self.next_fails();
        self.medium.write(file, at, bytes)?;
        answered(&mut self.made, &mut self.faults, fails)
    }

    fn cut(&mut self, file: u8, to: u64) -> Result<(), DiskRefusal>
        requires { file ≤ 10 }
        ensures cut { OnOk result (Tells (view_of self.old) → (view_of self.new).seen file ≡ take to ((view_of self.old).seen file)) }
        ensures others { (f : ℕ) → f ≢ file → (view_of self.new).seen f ≡ (view_of self.old).seen f }
        ensures images { Follows (Moved file (Shorn to)) (view_of self.old) (view_of self.new) }
        ensures others_stay { KeepsOthers file (view_of self.old) (view_of self.new) }
        ensures tells { Tells (view_of self.old) → Tells (view_of self.new) }
        ensures time { TimePasses (view_of self.old) (view_of self.new) }
        ensures as_before { IsErrOf result NoMemory → Same (view_of self.old) (view_of self.new) }
        ensures cause { Cause (view_of self.old) (view_of self.new) result }
        ensures fails { FailsBy (NextFails (history_of self.old)) result }
        ensures history { AddsCalls (CutCall file to ∷ []) (CutCall file to ∷ []) result (history_of self.old) (history_of self.new) }
    {
        let fails = self.next_fails();
        self.medium.cut(file, to)?;
        answered(&mut self.made, &mut self.faults, fails)
    }

    fn sync(&mut self, file: u8) -> Result<(), DiskRefusal>
        requires { file ≤ 10 }
        ensures durable { OnOk result ((m : Image) → (view_of self.new).images m → m file ≡ (view_of self.old).seen file) }
        ensures seen { (f : ℕ) → (view_of self.new).seen f ≡ (view_of self.old).seen f }
        ensures images { Fewer (view_of self.old) (view_of self.new) }
        ensures others_stay { KeepsOthers file (view_of self.old) (view_of self.new) }
        ensures refused { OnErr result (Same (view_of self.old) (view_of self.new)) }
        ensures tells { Tells (view_of self.old) → Tells (view_of self.new) }
        ensures time { TimePasses (view_of self.old) (view_of self.new) }
        ensures cause { Cause (view_of self.old) (view_of self.new) result }
        ensures fails { FailsBy (NextFails (history_of self.old)) result }
        ensures history { AddsCalls (SyncCall file ∷ []) [] result (history_of self.old) (history_of self.new) }
    {
        if self.next_fails() {
            return answered(&mut self.made, &mut self.faults, true);
        }
        self.medium.sync(file)?;
        answered(&mut self.made, &mut self.faults, false)
    }

    fn restart(&mut self)
        ensures images { Fewer (view_of self.old) (view_of self.new) }
        ensures durable { (m : Image) → (view_of self.new).images m → (f : ℕ) → m f ≡ (view_of self.new).seen f }
        ensures tells { Tells (view_of self.old) → Tells (view_of self.new) }
        ensures time { TimePasses (view_of self.old) (view_of self.new) }
        ensures faults { (view_of self.old).faults ≤ (view_of self.new).faults }
        ensures counted { IsOneMore (view_of self.old).restarts (view_of self.new).restarts }
        ensures no_less { (view_of self.old).restarts ≤ (view_of self.new).restarts }
        ensures spares { (view_of self.old).spares → (view_of self.new).spares }
        ensures taken { (f : ℕ) → (view_of self.new).seen f ≡ taken_by (history_of self.old).pick (history_of self.old).changes f }
        ensures history { IsRestarted (history_of self.old) (history_of self.new) }
    {
        self.restarts = one_more(self.restarts);
        self.fuse = unmet(self.fuse, self.made);
        self.medium.restart();
    }
}
