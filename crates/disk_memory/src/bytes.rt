// Bytes that are changed in place, in room that was taken before.
ghost use Rattle.std.specs.Prelude.{◌≡◌, ◌+◌, ◌-◌, ◌/◌, ◌<◌, ◌≤◌, ◌^◌, ◌++◌, length, take, replicate, if◌then◌else◌, ◌==◌, OnOk};
ghost use Rattle.std.specs.Vec.{vec_capacity};
ghost use Rattle.disk_trait.specs.Calls.{written};
ghost use Rattle.disk_memory.specs.Replay.{laid, laid_if_any, picked_bytes};
ghost use Rattle.disk_memory.specs.Mirrored.{Agrees};

use std::alloc::AllocError;

// Takes room for so many bytes in all.
pub fn make_room(bytes: &mut Vec<u8>, count: usize) -> Result<(), AllocError>
    ensures unchanged { bytes.new.items ≡ bytes.old.items }
    ensures room { OnOk result (count ≤ vec_capacity bytes.new) }
{
    bytes.reserve(count.saturating_sub(bytes.len()))?;
    Ok(())
}

// Fills up with zeros to a length.
fn lengthen(bytes: &mut Vec<u8>, end: usize)
    requires { end ≤ vec_capacity bytes.old }
    ensures { bytes.new.items ≡ bytes.old.items ++ replicate (end - length bytes.old.items) 0 }
{
    if bytes.len() < end {
        let _ = bytes.resize(end, 0);
    }
}

fn overwrite(bytes: &mut [u8], at: usize, more: &[u8])
    requires { at + length more.now ≤ length bytes.old }
    ensures { bytes.new ≡ written bytes.old at more.now }
{
    bytes[at..at + more.len()].copy_from_slice(more);
}

fn mark(bytes: &mut [u8], at: usize, count: usize)
    requires { at + count ≤ length bytes.old }
    ensures { bytes.new ≡ written bytes.old at (replicate count 255) }
{
    bytes[at..at + count].fill(255);
}

// Writes over what is there, and past the end.
pub fn lay(bytes: &mut Vec<u8>, at: usize, more: &[u8])
    requires fits { at + length more.now < 2 ^ 63 }
    requires room { at + length more.now ≤ vec_capacity bytes.old }
    ensures { bytes.new.items ≡ laid bytes.old.items at more.now }
{
    lengthen(bytes, at + more.len());
    overwrite(bytes, at, more);
}

// The same, but no bytes change nothing.
fn lay_any(bytes: &mut Vec<u8>, at: usize, more: &[u8])
    requires fits { at + length more.now < 2 ^ 63 }
    requires room { at + length more.now ≤ vec_capacity bytes.old }
    ensures { bytes.new.items ≡ laid_if_any bytes.old.items at more.now }
{
    if more.len() > 0 {
        lay(bytes, at, more);
    }
}

// Writes so many bytes of FF.
fn lay_marks(bytes: &mut Vec<u8>, at: usize, count: usize)
    requires fits { at + count < 2 ^ 63 }
    requires room { at + count ≤ vec_capacity bytes.old }
    ensures { bytes.new.items ≡ laid bytes.old.items at (replicate count 255) }
{
    lengthen(bytes, at + count);
    mark(bytes, at, count);
}

// Writes all, as many bytes of FF, or the first half.
fn lay_part(bytes: &mut Vec<u8>, pick: u8, at: usize, more: &[u8])
    requires fits { at + length more.now < 2 ^ 63 }
    requires room { at + length more.now ≤ vec_capacity bytes.old }
    ensures { bytes.new.items ≡ laid_if_any bytes.old.items at (picked_bytes pick more.now) }
{
    match pick {
        1 => lay_any(bytes, at, more),
        2 => {
            if more.len() > 0 {
                lay_marks(bytes, at, more.len());
            }
        }
        _ => lay_any(bytes, at, &more[..more.len() / 2]),
    }
}

// Writes what a restart takes of a pending write.
pub fn lay_picked(bytes: &mut Vec<u8>, pick: u8, at: usize, more: &[u8])
    requires fits { at + length more.now < 2 ^ 63 }
    requires room { at + length more.now ≤ vec_capacity bytes.old }
    ensures { bytes.new.items ≡ (if pick == 0 then bytes.old.items else laid_if_any bytes.old.items at (picked_bytes pick more.now)) }
{
    if pick != 0 {
        lay_part(bytes, pick, at, more);
    }
}

// Cuts what a restart takes of a file.
pub fn cut_picked(bytes: &mut Vec<u8>, pick: u8, to: usize)
    ensures { bytes.new.items ≡ (if pick == 0 then bytes.old.items else take to bytes.old.items) }
{
    if pick != 0 {
        bytes.truncate(to);
    }
}

fn copy_range(bytes: &mut [u8], like: &[u8], from: usize, end: usize)
    requires same_length { length bytes.old ≡ length like.now }
    requires within { end ≤ length like.now }
    ensures { Agrees from end bytes.old like.now → bytes.new ≡ like.now }
{
    if from < end {
        overwrite(bytes, from, &like[from..end]);
    }
}

// Makes bytes like others that agree with them outside a range.
pub fn align(bytes: &mut Vec<u8>, like: &[u8], from: usize, to: usize)
    requires { length like.now ≤ vec_capacity bytes.old }
    ensures { Agrees from to bytes.old.items like.now → bytes.new.items ≡ like.now }
{
    bytes.truncate(like.len());
    lengthen(bytes, like.len());
    copy_range(bytes, like, from, to.min(like.len()));
}
