// What a disk holds: its history, and its files as plain bytes.
ghost use Rattle.std.specs.Prelude.{◌≡◌, ◌≢◌, ℕ, ◌+◌, ◌<◌, ◌≤◌, ◌^◌, ◌++◌, ◌∷◌, List, [], length, IfOk, OnOk, OnErr, slice_index_or};
ghost use Rattle.disk_memory.specs.DiskCall.{DiskCall, WriteCall, CutCall, SyncCall};
ghost use Rattle.disk_memory.specs.Replay.{FileState, clean, after_write, after_cut};
ghost use Rattle.disk_memory.specs.MemoryView.{AfterChanges, seen_by};
ghost use Rattle.disk_memory.specs.Logged.{logged};
ghost use Rattle.disk_memory.specs.Mirrored.{AllMirror, Mirrors};
ghost use Rattle.disk_memory.specs.Restarts.{Restarts};

use crate::file::FileBytes;
use crate::log::{Call, Log};
use std::alloc::{AllocError, Global};

const FILES: u8 = 11;

#[derive(Drop)]
pub struct Medium {
    alloc: Global,
    pick: u8,
    log: Log,
    files: Vec<FileBytes>,
    ghost eleven: { length files.items ≡ 11 },
    ghost mirrors: { AllMirror pick (logged log) files.items },
    ghost seen_is_image: { AfterChanges pick (logged log) (seen_by pick (logged log)) },
}

fn empty_files(alloc: Global) -> Result<Vec<FileBytes>, AllocError>
    ensures count { IfOk result (λ v. length v.items ≡ 11) }
    ensures empty { IfOk result (λ v. (f : ℕ) (d : FileBytes) → f < length v.items → Mirrors (slice_index_or v.items f d) (clean [])) }
{
    let mut files = Vec::new(alloc);
    for _ in 0..FILES {
        files.push(FileBytes::empty(alloc))?;
    }
    Ok(files)
}

fn write_one(
    files: &mut Vec<FileBytes>,
    pick: u8,
    file: u8,
    at: u64,
    bytes: &[u8],
) -> Result<(), AllocError>
    requires file { file < length files.old.items }
    requires fits { at + length bytes.now < 2 ^ 63 }
    ensures count { length files.new.items ≡ length files.old.items }
    ensures ok { OnOk result ((old new : List DiskCall) → new ≡ old ++ WriteCall file at bytes.now ∷ [] → at ≤ length (seen_by pick old file) → AllMirror pick old files.old.items → AllMirror pick new files.new.items) }
    ensures err { OnErr result ((old : List DiskCall) → AllMirror pick old files.old.items → AllMirror pick old files.new.items) }
{
    let chosen = &mut files[file as usize];
    chosen.write(pick, at as usize, bytes)
}

fn cut_one(files: &mut Vec<FileBytes>, pick: u8, file: u8, to: u64) -> Result<(), AllocError>
    requires { file < length files.old.items }
    ensures count { length files.new.items ≡ length files.old.items }
    ensures ok { OnOk result ((old new : List DiskCall) → new ≡ old ++ CutCall file to ∷ [] → AllMirror pick old files.old.items → AllMirror pick new files.new.items) }
    ensures err { OnErr result ((old : List DiskCall) → AllMirror pick old files.old.items → AllMirror pick old files.new.items) }
{
    let chosen = &mut files[file as usize];
    chosen.cut(pick, to as usize)
}

fn sync_one(files: &mut Vec<FileBytes>, file: u8) -> Result<(), AllocError>
    requires { file < length files.old.items }
    ensures count { length files.new.items ≡ length files.old.items }
    ensures ok { OnOk result ((pick : ℕ) (old new : List DiskCall) → new ≡ old ++ SyncCall file ∷ [] → AllMirror pick old files.old.items → AllMirror pick new files.new.items) }
    ensures err { OnErr result ((pick : ℕ) (old : List DiskCall) → AllMirror pick old files.old.items → AllMirror pick old files.new.items) }
{
    let chosen = &mut files[file as usize];
    chosen.sync()
}

fn restart_all(files: &mut Vec<FileBytes>)
    ensures count { length files.new.items ≡ length files.old.items }
    ensures each { (f : ℕ) (d : FileBytes) (state : FileState) → f < length files.old.items → Mirrors (slice_index_or files.old.items f d) state → Mirrors (slice_index_or files.new.items f d) (clean state.left) }
{
    for i in 0..files.len() {
        let file = &mut files[i];
        file.restart();
    }
}

impl Medium {
    pub fn new(alloc: Global, pick: u8) -> Result<Medium, AllocError>
        ensures pick { IfOk result (λ medium. medium.pick ≡ pick) }
        ensures empty { IfOk result (λ medium. logged medium.log ≡ []) }
    {
        Ok(Medium {
            alloc,
            pick,
            log: Log::empty(alloc),
            files: empty_files(alloc)?,
        })
    }

    /// What a read gives.
    pub fn bytes(&self, file: u8) -> &[u8]
        requires { file ≤ 10 }
        ensures { result.now ≡ seen_by self.now.pick (logged self.now.log) file }
    {
        let bytes = &self.files[file as usize];
        bytes.bytes()
    }

    pub fn write(&mut self, file: u8, at: u64, bytes: &[u8]) -> Result<(), AllocError>
        requires file { file ≤ 10 }
        requires offset { at ≤ length (seen_by self.old.pick (logged self.old.log) file) }
        requires fits { at + length bytes.now < 2 ^ 63 }
        ensures pick { self.new.pick ≡ self.old.pick }
        ensures ok { OnOk result (logged self.new.log ≡ logged self.old.log ++ WriteCall file at bytes.now ∷ []) }
        ensures err { OnErr result (logged self.new.log ≡ logged self.old.log) }
    {
        let kept = bytes.to_vec(self.alloc)?;
        self.log.make_room()?;
        write_one(&mut self.files, self.pick, file, at, bytes)?;
        self.log.add(Call::Write {
            file,
            at,
            bytes: kept,
        });
        Ok(())
    }

    pub fn cut(&mut self, file: u8, to: u64) -> Result<(), AllocError>
        requires { file ≤ 10 }
        ensures pick { self.new.pick ≡ self.old.pick }
        ensures ok { OnOk result (logged self.new.log ≡ logged self.old.log ++ CutCall file to ∷ []) }
        ensures err { OnErr result (logged self.new.log ≡ logged self.old.log) }
    {
        self.log.make_room()?;
        cut_one(&mut self.files, self.pick, file, to)?;
        self.log.add(Call::Cut { file, to });
        Ok(())
    }

    pub fn sync(&mut self, file: u8) -> Result<(), AllocError>
        requires { file ≤ 10 }
        ensures pick { self.new.pick ≡ self.old.pick }
        ensures ok { OnOk result (logged self.new.log ≡ logged self.old.log ++ SyncCall file ∷ []) }
        ensures err { OnErr result (logged self.new.log ≡ logged self.old.log) }
    {
        self.log.make_room()?;
        sync_one(&mut self.files, file)?;
        self.log.add(Call::Sync { file });
        Ok(())
    }

    /// Each file holds what a restart takes. Takes no memory.
    pub fn restart(&mut self)
        ensures pick { self.new.pick ≡ self.old.pick }
        ensures restarts { Restarts (logged self.old.log) (logged self.new.log) }
    {
        restart_all(&mut self.files);
        self.log.restart();
    }
}
