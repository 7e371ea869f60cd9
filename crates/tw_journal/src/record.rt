// Finding and reading a record whose number is known.
ghost use Rattle.std.specs.Prelude.{◌≡◌, ◌<◌, ◌≤◌, ◌+◌, ◌^◌, List, ℕ, true, false, length, take, drop, IfOk, IfErr, IsErrOf};
ghost use Rattle.tw_world.specs.Disk.{Tells, Rose, Untouched};
ghost use Rattle.tw_journal.specs.Record.{rows, AreOffsets};
ghost use Rattle.tw_journal.specs.Window.{IsWindowOn};
ghost use Rattle.tw_journal.specs.Reading.{known_number, known_offset, LeadsTo, OnRows, IsSizeAt, SizeRefused, FindRefused};

use crate::error::OpenError;
use crate::find::{Head, read_head};
use crate::window::Window;
use std::alloc::Global;
use tw_world::{Disk, DiskError};

/// The offset of a record, and how many come before it.
#[derive(Clone, Copy, Drop)]
struct Known {
    at: u64,
    number: u64,
}

// The last known record that is not after the one with number `n`. If none is known it is the first one.
fn nearest(offsets: &[u64], start: u64, n: u64) -> Known
    ensures inside { result.number ≤ n }
    ensures offset { (all : List (List ℕ)) → AreOffsets start all offsets.now → result.at ≡ start + length (rows (take result.number all)) }
    ensures number { result.number ≡ known_number offsets.now n }
    ensures at { result.at ≡ known_offset start offsets.now n }
{
    let known = offsets.len() as u64;
    if known == 0 {
        return Known {
            at: start,
            number: 0,
        };
    }
    let number = n.min(known - 1);
    Known {
        at: offsets[number as usize],
        number,
    }
}

/// The offset of the record with number `n`: a known one, or found by reading on from the nearest.
pub fn find_offset<D: Disk>(
    window: &mut Window,
    disk: &mut D,
    offsets: &[u64],
    start: u64,
    n: u64,
    len: u64,
) -> Result<u64, OpenError>
    requires window { IsWindowOn D.model disk.old window.old }
    requires len { D.model.len disk.old ≡ len }
    requires below { len < 2 ^ 56 }

    ensures offset { IfOk result (λ at. OnRows D.model disk.old start offsets.now n (λ all. at ≡ start + length (rows (take n all)))) }
    ensures way { IfOk result (λ at. Tells D.model disk.old → LeadsTo start offsets.now n (D.model.seen disk.old) n at) }
    ensures refused { IfErr result (λ e. FindRefused D.model disk.old disk.new start offsets.now n e) }
    ensures window { IsWindowOn D.model disk.new window.new }
    ensures untouched { Untouched D.model disk.old disk.new }
{
    let near = nearest(offsets, start, n);
    let mut at = near.at;
    let mut number = near.number;
    while number < n {
        at += 5 + read_size(window, disk, at, len)?;
        number += 1;
    }
    Ok(at)
}

/// The length of the body of the record at this offset.
pub fn read_size<D: Disk>(
    window: &mut Window,
    disk: &mut D,
    at: u64,
    len: u64,
) -> Result<u64, OpenError>
    requires window { IsWindowOn D.model disk.old window.old }
    requires len { D.model.len disk.old ≡ len }
    requires below { len < 2 ^ 56 }

    ensures size { IfOk result (λ size. Tells D.model disk.old → IsSizeAt (drop at (D.model.seen disk.old)) size) }
    ensures inside { IfOk result (λ size. (at + 5 + size ≤ len) × (size < 2 ^ 32)) }
    ensures refused { IfErr result (λ e. SizeRefused D.model disk.old disk.new at e) }
    ensures window { IsWindowOn D.model disk.new window.new }
    ensures untouched { Untouched D.model disk.old disk.new }
{
    if at >= len {
        return Err(OpenError::Damaged { offset: at });
    }
    match read_head(window, disk, at, len)? {
        Head::Shut => Err(OpenError::Damaged { offset: at }),
        Head::Whole(size) => Ok(size),
    }
}

/// So many bytes from this offset on.
pub fn read_body<D: Disk>(
    alloc: Global,
    window: &mut Window,
    disk: &mut D,
    at: u64,
    len: u64,
    size: u64,
) -> Result<Vec<u8>, DiskError>
    requires window { IsWindowOn D.model disk.old window.old }
    requires len { D.model.len disk.old ≡ len }
    requires below { len < 2 ^ 56 }
    requires inside { at + size ≤ len }
    requires small { size < 2 ^ 32 }

    ensures body { IfOk result (λ body. Tells D.model disk.old → body.items ≡ take size (drop at (D.model.seen disk.old))) }
    ensures long { IfOk result (λ body. length body.items ≡ size) }
    ensures failed { IsErrOf result DiskError.Failed → Rose (D.model.faults disk.old) (D.model.faults disk.new) }
    ensures window { IsWindowOn D.model disk.new window.new }
    ensures untouched { Untouched D.model disk.old disk.new }
{
    let Ok(mut body) = vec![in alloc; 0u8; size as usize] else {
        return Err(DiskError::Memory);
    };
    window.read_at(disk, at, len, &mut body)?;
    Ok(body)
}

/// Whether so many bytes from one on lie in a body of this size.
pub fn is_inside(from: u64, len: u64, size: u64) -> bool
    ensures inside { result ≡ true → from + len ≤ size }
    ensures outside { result ≡ false → size < from + len }
{
    if from > size {
        return false;
    }
    len <= size - from
}
