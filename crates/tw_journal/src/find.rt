// Finding the records of a file at its opening.
ghost use Rattle.std.specs.Prelude.{◌≡◌, ◌<◌, ◌≤◌, ◌+◌, ◌^◌, ◌++◌, [], ◌∷◌, List, ℕ, length, take, drop, IfOk, IfErr, OnOk, IsErrOf};
ghost use Rattle.std.specs.Int.{to_be_bytes, from_be_bytes, w32};
ghost use Rattle.tw_world.specs.Disk.{Tells, Rose, Untouched};
ghost use Rattle.tw_journal.specs.Record.{first_in};
ghost use Rattle.tw_journal.specs.Window.{IsWindowOn};
ghost use Rattle.tw_journal.specs.Open.{HeadIs, HeadInside, HeadRefused, SearchRefused, Found};

use crate::error::OpenError;
use crate::window::Window;
use std::alloc::Global;
use tw_world::{Disk, DiskError};

/// What is at an offset in the file: a closed gate, or a whole record with a body of so many bytes.
#[derive(Clone, Copy, Drop)]
pub enum Head {
    Shut,
    Whole(u64),
}

// The number that four bytes say, the highest first.
pub fn number_of(bytes: &[u8; 4]) -> u32
    ensures value { result ≡ from_be_bytes w32 bytes.now }
    ensures back { to_be_bytes w32 result ≡ bytes.now }
{
    u32::from_be_bytes(*bytes)
}

// What is at an offset where a record has no room: a closed gate, or else damage.
fn read_gate<D: Disk>(
    window: &mut Window,
    disk: &mut D,
    at: u64,
    len: u64,
) -> Result<Head, OpenError>
    requires window { IsWindowOn D.model disk.old window.old }
    requires len { D.model.len disk.old ≡ len }
    requires inside { at < len }
    requires below { len < 2 ^ 56 }
    requires short { len < at + 5 }

    ensures found { IfOk result (λ head. Tells D.model disk.old → HeadIs (drop at (D.model.seen disk.old)) head) }
    ensures inside { IfOk result (λ head. HeadInside at len head) }
    ensures refused { IfErr result (λ e. HeadRefused D.model disk.old disk.new at e) }
    ensures window { IsWindowOn D.model disk.new window.new }
    ensures untouched { Untouched D.model disk.old disk.new }
{
    let mut gate = [0; 1];
    window.read_at(disk, at, len, &mut gate)?;
    if gate[0] == 0 {
        return Ok(Head::Shut);
    }
    Err(OpenError::Damaged { offset: at })
}

/// Reads the gate and the length at an offset in the file.
pub fn read_head<D: Disk>(
    window: &mut Window,
    disk: &mut D,
    at: u64,
    len: u64,
) -> Result<Head, OpenError>
    requires window { IsWindowOn D.model disk.old window.old }
    requires len { D.model.len disk.old ≡ len }
    requires inside { at < len }
    requires below { len < 2 ^ 56 }

    ensures found { IfOk result (λ head. Tells D.model disk.old → HeadIs (drop at (D.model.seen disk.old)) head) }
    ensures inside { IfOk result (λ head. HeadInside at len head) }
    ensures refused { IfErr result (λ e. HeadRefused D.model disk.old disk.new at e) }
    ensures window { IsWindowOn D.model disk.new window.new }
    ensures untouched { Untouched D.model disk.old disk.new }
{
    if len - at < 5 {
        return read_gate(window, disk, at, len);
    }
    let mut head = [0; 5];
    window.read_at(disk, at, len, &mut head)?;
    if head[0] == 0 {
        return Ok(Head::Shut);
    }
    if head[0] > 1 {
        return Err(OpenError::Damaged { offset: at });
    }
    let mut bytes = [0; 4];
    bytes.copy_from_slice(&head[1..]);
    let size = number_of(&bytes) as u64;
    if len - at - 5 < size {
        return Err(OpenError::Damaged { offset: at });
    }
    Ok(Head::Whole(size))
}

/// So many records were found, up to this end, with their offsets and the first bytes of their bodies.
#[derive(Drop)]
pub struct Scan {
    pub end: u64,
    pub count: u64,
    pub offsets: Vec<u64>,
    pub firsts: Vec<u8>,
}

/// Reads the heads of the records of a file, from `start` on, up to the file's end or a closed gate.
pub fn find_records<D: Disk>(
    alloc: Global,
    disk: &mut D,
    start: u64,
    len: u64,
) -> Result<Scan, OpenError>
    requires len { D.model.len disk.old ≡ len }
    requires below { len < 2 ^ 56 }
    requires inside { start ≤ len }

    ensures found { IfOk result (λ s. Tells D.model disk.old → Found (D.model.seen disk.old) start s.end s.count s.offsets.items s.firsts.items) }
    ensures inside { IfOk result (λ s. (s.end ≤ len) × (s.count + start ≤ s.end) × (length s.offsets.items ≡ s.count) × (length s.firsts.items ≡ s.count)) }
    ensures refused { (magic : List ℕ) → IfErr result (λ e. SearchRefused D.model disk.old disk.new magic start e) }
    ensures untouched { Untouched D.model disk.old disk.new }
{
    let mut window = Window::on(alloc, &*disk);
    let mut at = start;
    let mut count = 0;
    let mut offsets = Vec::new(alloc);
    let mut firsts = Vec::new(alloc);
    while at < len {
        match read_head(&mut window, disk, at, len)? {
            Head::Shut => {
                return Ok(Scan {
                    end: at,
                    count,
                    offsets,
                    firsts,
                });
            }
            Head::Whole(size) => {
                let first = read_first(&mut window, disk, at + 5, len, size)?;
                add_found(&mut offsets, &mut firsts, at, first)?;
                at += 5 + size;
                count += 1;
            }
        }
    }
    Ok(Scan {
        end: at,
        count,
        offsets,
        firsts,
    })
}

// The first byte of a body of so many bytes at this offset, or 0 if it has none.
fn read_first<D: Disk>(
    window: &mut Window,
    disk: &mut D,
    at: u64,
    len: u64,
    size: u64,
) -> Result<u8, DiskError>
    requires window { IsWindowOn D.model disk.old window.old }
    requires len { D.model.len disk.old ≡ len }
    requires below { len < 2 ^ 56 }
    requires inside { at + size ≤ len }

    ensures first { IfOk result (λ first. Tells D.model disk.old → first ≡ first_in (take size (drop at (D.model.seen disk.old)))) }
    ensures window { IsWindowOn D.model disk.new window.new }
    ensures untouched { Untouched D.model disk.old disk.new }
    ensures failed { IsErrOf result DiskError.Failed → Rose (D.model.faults disk.old) (D.model.faults disk.new) }
{
    if size == 0 {
        return Ok(0);
    }
    let mut first = [0; 1];
    window.read_at(disk, at, len, &mut first)?;
    Ok(first[0])
}

// Adds the offset of a record, and the first byte of its body.
fn add_found(
    offsets: &mut Vec<u64>,
    firsts: &mut Vec<u8>,
    at: u64,
    first: u8,
) -> Result<(), OpenError>
    ensures offsets { OnOk result (offsets.new.items ≡ offsets.old.items ++ at ∷ []) }
    ensures firsts { OnOk result (firsts.new.items ≡ firsts.old.items ++ first ∷ []) }
    ensures refused { IfErr result (λ e. e ≡ OpenError.Memory) }
{
    let Ok(()) = offsets.push(at) else {
        return Err(OpenError::Memory);
    };
    let Ok(()) = firsts.push(first) else {
        return Err(OpenError::Memory);
    };
    Ok(())
}
