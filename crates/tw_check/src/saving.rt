// What is whole of a damaged journal.
ghost use Rattle.std.specs.Prelude.{◌≡◌, ◌≤◌, length, take, IfOk, option_map};
ghost use Rattle.tw_check.specs.Rescue.{IsFront, IsFrontOrNone, IsRescue, other_selector_of, turned};

use crate::kind::Kind;
use crate::opening::{damage, record_count};
use std::alloc::Global;
use tw_world::Memory;

/// What a damaged journal is replaced by.
#[derive(Drop)]
pub struct Rescued {
    /// A journal that opens.
    pub bytes: Vec<u8>,
    /// How many records it has, at least one.
    pub records: u64,
    /// Whether it has the records from before the last checkpoint, since none after it is whole.
    pub is_older: bool,
}

// The front of a file, with a record.
#[derive(Drop)]
struct Front {
    bytes: Vec<u8>,
    records: u64,
}

/// The longest front of whole records that opens. If no record is in it and the file has two slots, that by the other slot, whose
/// records are older. `None` if no record is in this one either. It takes at least three times the bytes in memory.
pub fn rescue(alloc: Global, kind: Kind, file: &[u8]) -> Result<Option<Rescued>, Memory>
    ensures { IfOk result (IsRescue kind file.now) }
{
    if let Some(Front { bytes, records }) = front_of(alloc, kind, file)? {
        return Ok(Some(Rescued {
            bytes,
            records,
            is_older: false,
        }));
    }
    let Some(other) = other_slot(alloc, file)? else {
        return Ok(None);
    };
    match front_of(alloc, kind, &other)? {
        Some(Front { bytes, records }) => Ok(Some(Rescued {
            bytes,
            records,
            is_older: true,
        })),
        None => Ok(None),
    }
}

// The front that opens, if it has a record.
fn front_of(alloc: Global, kind: Kind, file: &[u8]) -> Result<Option<Front>, Memory>
    ensures { IfOk result (IsFrontOrNone kind file.now) }
{
    let end = front_end(alloc, kind, file)?;
    let records = record_count(alloc, kind, &file[..end])?;
    if records < 1 {
        return Ok(None);
    }
    Ok(Some(Front {
        bytes: file[..end].to_vec(alloc)?,
        records,
    }))
}

// The length of the longest front that opens.
fn front_end(alloc: Global, kind: Kind, file: &[u8]) -> Result<usize, Memory>
    ensures inside { IfOk result (λ end. end ≤ length file.now) }
    ensures front { IfOk result (λ end. IsFront kind file.now (take end file.now)) }
{
    let mut end = file.len();
    'cuts: loop {
        match damage(alloc, kind, &file[..end])? {
            None => return Ok(end),
            Some(offset) => end = offset,
        }
    }
}

// The file whose other slot counts, if it has two.
fn other_slot(alloc: Global, file: &[u8]) -> Result<Option<Vec<u8>>, Memory>
    ensures { IfOk result (λ other. option_map (λ v. v.items) other ≡ turned file.now) }
{
    let Some(other) = other_selector(file) else {
        return Ok(None);
    };
    let mut bytes = file.to_vec(alloc)?;
    bytes[0] = other;
    Ok(Some(bytes))
}

// The first byte by which the other slot counts.
fn other_selector(file: &[u8]) -> Option<u8>
    ensures { result ≡ other_selector_of file.now }
{
    match file {
        [2, ..] => Some(3),
        [3, ..] => Some(2),
        _ => None,
    }
}
