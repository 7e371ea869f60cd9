// Where in a file its records begin.
ghost use Rattle.std.specs.Prelude.{◌≡◌, ◌<◌, ◌≤◌, ◌+◌, ◌^◌, List, ℕ, [], true, false, length, take, drop, Option, Some, None, IfOk, IfErr, IfSome, IsErrOf};
ghost use Rattle.std.specs.Int.{from_be_bytes, w64};
ghost use Rattle.tw_world.specs.Disk.{Tells, Rose, Untouched};
ghost use Rattle.tw_journal.specs.Record.{behind_gate, IsTail};
ghost use Rattle.tw_journal.specs.Form.{has_magic, if_inside, is_alone, last_in, slot_in, start_by, takes_version};
ghost use Rattle.tw_journal.specs.Open.{FormIs, FormInside, OnFront, FormRefused, IsFormOf, behind_selector};

use crate::error::OpenError;
use crate::find::number_of;
use crate::window::read_piece;
use std::alloc::Global;
use tw_world::{Disk, DiskError};

/// Where the version is, the last byte of the magic.
pub const VERSION: u64 = 12;

/// Where the first slot is, right after the magic. The records of a row begin there.
pub const SLOT_A: u64 = 13;

/// Where the second slot is.
pub const SLOT_B: u64 = 21;

/// How many bytes come before the first area: it begins right after the slots.
pub const FRONT: u64 = 29;

/// Where the records of a file begin, its version, and its first byte: 1 if it is a row of records, 2 or 3 if the first or the
/// second of its slots holds that offset, and 4 if its last eight bytes do, in an upgrade that was cut off.
#[derive(Clone, Copy, Drop)]
pub struct Form {
    pub selector: u8,
    pub start: u64,
    pub version: u8,
}

// The magic's length and its text, without the last byte, which is its version.
fn text_of(magic: &[u8; 8]) -> [u8; 11]
    ensures { result ≡ take 11 (behind_gate magic.now) }
{
    [
        0, 0, 0, 8, magic[0], magic[1], magic[2], magic[3], magic[4], magic[5], magic[6],
    ]
}

/// What comes after the first byte of a new file: the magic's length and text, and the two slots, of which the first holds
/// the offset right after them.
pub fn behind_selector(magic: &[u8; 8]) -> [u8; 28]
    ensures { result ≡ behind_selector magic.now }
{
    [
        0, 0, 0, 8, magic[0], magic[1], magic[2], magic[3], magic[4], magic[5], magic[6], magic[7],
        0, 0, 0, 0, 0, 0, 0, 29, 0, 0, 0, 0, 0, 0, 0, 0,
    ]
}

// Whether the first bytes of a file are none, or begin with 0.
fn has_no_record(front: &[u8]) -> bool
    ensures none { result ≡ true → IsTail front.now }
    ensures some { result ≡ false → IsTail front.now → ⊥ }
{
    match front {
        [] => true,
        [first, ..] => *first == 0,
    }
}

// Whether a magic takes a version: its own, or if that is 2 the one before it.
fn takes_version(magic: &[u8; 8], version: u8) -> bool
    ensures { result ≡ takes_version magic.now version }
{
    version == magic[7] || (magic[7] == 50 && version == 49)
}

// Whether these first bytes of a file have the magic's length and text after the first one, with a version that it takes.
fn has_magic(front: &[u8], magic: &[u8; 8]) -> bool
    ensures has { result ≡ has_magic magic.now front.now }
    ensures long { result ≡ true → 13 ≤ length front.now }
{
    if (front.len() as u64) < SLOT_A {
        return false;
    }
    let expected = text_of(magic);
    let text = &front[1..VERSION as usize];
    if text != expected.as_slice() {
        return false;
    }
    takes_version(magic, front[VERSION as usize])
}

// The number that a slot holds.
fn slot_in(front: &[u8], at: u64) -> u64
    requires { at + 8 ≤ length front.now }
    ensures { result ≡ slot_in at front.now }
{
    let from = at as usize;
    let mut bytes = [0; 8];
    bytes.copy_from_slice(&front[from..from + 8]);
    u64::from_be_bytes(bytes)
}

// Where an area begins, by a slot, if that is after the slots and in the file, which has `len` bytes and begins with these.
fn area_in(front: &[u8], at: u64, len: u64) -> Option<u64>
    requires { at ≤ 21 }
    ensures area { (file : List ℕ) → length file ≡ len → front.now ≡ take 29 file → result ≡ if_inside 29 (slot_in at file) file }
    ensures inside { IfSome result (λ start. (29 ≤ start) × (start ≤ len)) }
{
    if (front.len() as u64) < FRONT {
        return None;
    }
    let start = slot_in(front, at);
    if start < FRONT {
        return None;
    }
    if start > len {
        return None;
    }
    Some(start)
}

// Where the records of a file begin that has the magic, by its first byte, which is not 4.
fn start_by(selector: u8, front: &[u8], len: u64) -> Option<u64>
    requires long { 13 ≤ len }
    requires other { selector ≡ 4 → ⊥ }

    ensures start { (file : List ℕ) → length file ≡ len → front.now ≡ take 29 file → result ≡ start_by selector file }
    ensures inside { IfSome result (λ start. (start ≤ len) × (13 ≤ start) × (selector < 4) × (2 ≤ selector → 29 ≤ start)) }
{
    match selector {
        1 => Some(SLOT_A),
        2 => area_in(front, SLOT_A, len),
        3 => area_in(front, SLOT_B, len),
        _ => None,
    }
}

// The number that the last eight bytes of a file hold.
fn read_last<D: Disk>(disk: &mut D, len: u64) -> Result<u64, DiskError>
    requires len { D.model.len disk.old ≡ len }
    requires long { 13 ≤ len }

    ensures last { IfOk result (λ at. Tells D.model disk.old → at ≡ last_in (D.model.seen disk.old)) }
    ensures untouched { Untouched D.model disk.old disk.new }
    ensures failed { IsErrOf result DiskError.Failed → Rose (D.model.faults disk.old) (D.model.faults disk.new) }
{
    let mut bytes = [0; 8];
    disk.read_at(len - 8, &mut bytes)?;
    Ok(u64::from_be_bytes(bytes))
}

// Whether from an offset on there is one open record, and then eight bytes.
fn is_alone<D: Disk>(disk: &mut D, at: u64, len: u64) -> Result<bool, DiskError>
    requires len { D.model.len disk.old ≡ len }
    requires below { len < 2 ^ 56 }
    requires inside { at + 13 ≤ len }

    ensures alone { IfOk result (λ alone. Tells D.model disk.old → alone ≡ is_alone (drop at (D.model.seen disk.old))) }
    ensures untouched { Untouched D.model disk.old disk.new }
    ensures failed { IsErrOf result DiskError.Failed → Rose (D.model.faults disk.old) (D.model.faults disk.new) }
{
    let mut head = [0; 5];
    disk.read_at(at, &mut head)?;
    if head[0] != 1 {
        return Ok(false);
    }
    let mut bytes = [0; 4];
    bytes.copy_from_slice(&head[1..]);
    let size = number_of(&bytes) as u64;
    Ok(13 + size == len - at)
}

// Where the record begins that an upgrade wrote apart from a row.
fn find_alone<D: Disk>(disk: &mut D, len: u64) -> Result<Option<u64>, DiskError>
    requires len { D.model.len disk.old ≡ len }
    requires below { len < 2 ^ 56 }
    requires long { 13 ≤ len }

    ensures start { IfOk result (λ start. Tells D.model disk.old → start ≡ start_by 4 (D.model.seen disk.old)) }
    ensures inside { IfOk result (λ start. IfSome start (λ at. (29 ≤ at) × (at ≤ len))) }
    ensures untouched { Untouched D.model disk.old disk.new }
    ensures failed { IsErrOf result DiskError.Failed → Rose (D.model.faults disk.old) (D.model.faults disk.new) }
{
    let at = read_last(disk, len)?;
    if at < FRONT {
        return Ok(None);
    }
    if len - 13 < at {
        return Ok(None);
    }
    let alone = is_alone(disk, at, len)?;
    if alone {
        return Ok(Some(at));
    }
    Ok(None)
}

// Where the records of a file of `len` bytes begin that begins with these, and has the magic.
fn find_start<D: Disk>(
    disk: &mut D,
    selector: u8,
    front: &[u8],
    len: u64,
) -> Result<Option<u64>, DiskError>
    requires len { D.model.len disk.old ≡ len }
    requires below { len < 2 ^ 56 }
    requires long { 13 ≤ len }

    ensures start { IfOk result (λ start. OnFront D.model disk.old front.now (λ file. start ≡ start_by selector file)) }
    ensures inside { IfOk result (λ start. IfSome start (λ at. (at ≤ len) × (13 ≤ at) × (selector < 5) × (2 ≤ selector → 29 ≤ at))) }
    ensures untouched { Untouched D.model disk.old disk.new }
    ensures failed { IsErrOf result DiskError.Failed → Rose (D.model.faults disk.old) (D.model.faults disk.new) }
{
    if selector == 4 {
        return find_alone(disk, len);
    }
    Ok(start_by(selector, front, len))
}

// The form of a file of `len` bytes that begins with these, if it is one of this magic.
fn form_of<D: Disk>(
    disk: &mut D,
    front: &[u8],
    len: u64,
    magic: &[u8; 8],
) -> Result<Option<Form>, DiskError>
    requires len { D.model.len disk.old ≡ len }
    requires below { len < 2 ^ 56 }

    ensures form { IfOk result (λ form. OnFront D.model disk.old front.now (λ file. IsFormOf magic.now file form)) }
    ensures inside { IfOk result (λ form. FormInside len form) }
    ensures untouched { Untouched D.model disk.old disk.new }
    ensures failed { IsErrOf result DiskError.Failed → Rose (D.model.faults disk.old) (D.model.faults disk.new) }
{
    if !has_magic(front, magic) {
        return Ok(None);
    }
    if len < SLOT_A {
        return Ok(None);
    }
    let selector = front[0];
    let version = front[VERSION as usize];
    match find_start(disk, selector, front, len)? {
        Some(start) => Ok(Some(Form {
            selector,
            start,
            version,
        })),
        None => Ok(None),
    }
}

/// Reads where the records of a file of `len` bytes begin: nowhere if it has no record yet.
pub fn find_form<D: Disk>(
    alloc: Global,
    disk: &mut D,
    len: u64,
    magic: &[u8; 8],
) -> Result<Option<Form>, OpenError>
    requires len { D.model.len disk.old ≡ len }
    requires below { len < 2 ^ 56 }

    ensures found { IfOk result (λ form. Tells D.model disk.old → FormIs magic.now (D.model.seen disk.old) form) }
    ensures inside { IfOk result (λ form. FormInside len form) }
    ensures refused { IfErr result (λ e. FormRefused D.model disk.old disk.new magic.now e) }
    ensures untouched { Untouched D.model disk.old disk.new }
{
    let front = read_piece(alloc, disk, 0, len.min(FRONT))?;
    if has_no_record(&front) {
        return Ok(None);
    }
    match form_of(disk, &front, len, magic)? {
        Some(form) => Ok(Some(form)),
        None => Err(OpenError::Damaged { offset: 0 }),
    }
}
