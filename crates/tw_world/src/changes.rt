// The changes of a disk in memory, and what they make of its bytes.
ghost use Rattle.std.specs.Prelude.{◌≡◌, ◌≤◌, ◌+◌, ◌⊎◌, ◌++◌, ◌∷◌, [], length, OnOk, IfErr, vec_capacity};
ghost use Rattle.tw_world.specs.Disk.{overwritten, resized};
ghost use Rattle.tw_world.specs.Replay.{changed, picked, IsFit, NextImage};

use crate::{DiskError, Memory};
use std::alloc::Global;

/// What a call did to the disk.
pub enum Change {
    Write(u64, Vec<u8>),
    Resize(u64),
    Sync,
}

// It is written out, so that a caller does not prove again how each part is dropped.
impl Drop for Change {
    fn drop(self) {
        match self {
            Change::Write(_a, _b) => {}
            Change::Resize(_a) => {}
            Change::Sync => {}
        }
    }
}

/// A change, and the number of the call that made it.
pub struct Entry {
    pub call: u64,
    pub change: Change,
}

// It is written out, so that a caller does not prove again how each part is dropped.
impl Drop for Entry {
    fn drop(self) {
        let Entry { call: _, change: _ } = self;
    }
}

// Adds a change to the log, or nothing if there is no room.
pub fn put(log: &mut Vec<Entry>, call: u64, change: Change) -> Result<(), DiskError>
    ensures added { OnOk result (log.new.items ≡ log.old.items ++ (record { call = call; change = change }) ∷ []) }
    ensures same { IfErr result (λ e. (e ≡ DiskError.Failed) × (log.new.items ≡ log.old.items)) }
{
    match log.push(Entry { call, change }) {
        Ok(()) => Ok(()),
        Err(_) => Err(DiskError::Failed),
    }
}

// The image after one change more, and what is read then.
pub fn next_image(
    alloc: Global,
    change: &Change,
    seen: &mut Vec<u8>,
    image: &mut Vec<u8>,
    pick: u8,
) -> Result<(), Memory>
    requires fit { IsFit change.now seen.old.items }
    requires same { pick ≡ 0 ⊎ (length image.old.items ≡ length seen.old.items) }
    ensures same { OnOk result (pick ≡ 0 ⊎ (length image.new.items ≡ length seen.new.items)) }
    ensures seen { OnOk result (seen.new.items ≡ changed change.now seen.old.items) }
    ensures image { OnOk result (NextImage change.now seen.old.items image.old.items image.new.items) }
    ensures picked { OnOk result (image.new.items ≡ picked pick change.now seen.old.items image.old.items) }
{
    match change {
        Change::Write(at, bytes) => {
            let from = *at as usize;
            if pick == 1 || (pick == 2 && bytes.len() == 1) {
                overwrite(image, from, bytes);
            } else if pick > 1 && bytes.len() != 1 {
                let torn = vec![in alloc; 255u8; bytes.len()]?;
                overwrite(image, from, &torn);
            }
            overwrite(seen, from, bytes);
        }
        Change::Resize(len) => {
            if pick > 0 {
                image.resize(*len as usize, 0)?;
            }
            seen.resize(*len as usize, 0)?;
        }
        Change::Sync => *image = seen.to_vec(alloc)?,
    }
    Ok(())
}

// Makes room for so many bytes.
pub fn make_room(bytes: &mut Vec<u8>, len: usize) -> Result<(), DiskError>
    ensures room { OnOk result (len ≤ vec_capacity bytes.new) }
    ensures same { bytes.new.items ≡ bytes.old.items }
    ensures failed { IfErr result (λ e. e ≡ DiskError.Failed) }
{
    if len > bytes.len() {
        match bytes.reserve(len - bytes.len()) {
            Ok(()) => Ok(()),
            Err(_) => Err(DiskError::Failed),
        }
    } else {
        Ok(())
    }
}

// Cuts the bytes, or adds zeros for which there is room.
pub fn resize(bytes: &mut Vec<u8>, len: usize)
    requires { len ≤ vec_capacity bytes.old }
    ensures { bytes.new.items ≡ resized len bytes.old.items }
{
    let _ = bytes.resize(len, 0);
}

// Writes over a part.
pub fn overwrite(bytes: &mut Vec<u8>, at: usize, part: &[u8])
    requires { at + length part.now ≤ length bytes.old.items }
    ensures { bytes.new.items ≡ overwritten at part.now bytes.old.items }
{
    bytes[at..at + part.len()].copy_from_slice(part);
}
