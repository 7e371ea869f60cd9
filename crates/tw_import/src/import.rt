// The whole text of an import.
ghost use Rattle.std.specs.Prelude.{◌≡◌, Err, IfOk, IfErr};
ghost use Rattle.tw_import.specs.Import.{import_of};
ghost use Rattle.tw_import.specs.Whole.{IsImported, import_of_text};
ghost use Rattle.tw_import.specs.Elements.{found_in};
ghost use Rattle.tw_import.specs.declared.import.ImportError.TheVariants.{NotJson};

use crate::elements::{Found, read_elements};
use crate::front::{Front, take_front};
use crate::halt::Halt;
use json::{Reader, Scratch};
use std::alloc::Global;
use tw_model::TaskMap;
use tw_world::{Moment, Text};
use uuid::Uuid;

/// A task that was read.
#[derive(Drop)]
pub struct Imported {
    /// Its uuid, if the element has one.
    pub uuid: Option<Uuid>,
    /// Its properties, as they are stored.
    pub map: TaskMap,
}

/// Why a text has no tasks.
#[derive(Debug, Drop)]
pub enum ImportError {
    /// The bytes are no JSON array (RFC 8259), or nest more than 127 deep.
    NotJson,
    /// The bytes are an array, and this element is the first that is no task. Elements are counted from 0.
    /// The name is its first offending key in byte order, `description` if that is missing, or empty if the element is no object.
    Task { index: u64, name: Text },
    /// There was no memory.
    Memory,
}

// Arrays and objects that are in one another.
const MAX_DEPTH: usize = 127;

fn read_text(alloc: Global, text: &str, now: u64) -> Result<Found, Halt>
    ensures ok { IfOk result (λ f. found_in f ≡ import_of_text text.now now) }
    ensures err { IfErr result (λ h. h ≡ Halt.NotJson → import_of_text text.now now ≡ Err NotJson) }
{
    let mut scratch = Scratch::new(alloc);
    let Ok(mut reader) = Reader::new(text, &mut scratch) else {
        return Err(Halt::Memory);
    };
    match take_front(&mut reader, MAX_DEPTH) {
        Ok(Front::Array) => {}
        _ => return Err(Halt::NotJson),
    }
    let found = match read_elements(alloc, &mut reader, MAX_DEPTH - 1, now) {
        Ok(found) => found,
        Err(halt) => return Err(halt),
    };
    if reader.next().is_some() {
        return Err(Halt::NotJson);
    }
    Ok(found)
}

fn read_bytes(alloc: Global, bytes: &[u8], now: u64) -> Result<Found, Halt>
    ensures ok { IfOk result (λ f. found_in f ≡ import_of bytes.now now) }
    ensures err { IfErr result (λ h. h ≡ Halt.NotJson → import_of bytes.now now ≡ Err NotJson) }
{
    match std::str::from_utf8(bytes) {
        Ok(text) => read_text(alloc, text, now),
        Err(_) => Err(Halt::NotJson),
    }
}

/// The tasks of a JSON array, in its order (task(1), under "import").
/// A task needs a `description`. If they are missing, its `status` is pending, and its `entry` and `modified` are now. Moments are
/// basic texts as `20231114T221320Z`. `tags`, `depends` and `annotations` become properties of their own, other values are texts or
/// whole numbers below 2^64, and null is as missing. `id` and `urgency` are passed over.
/// It reads an element at a time: beside the bytes and the tasks it holds no more than the largest element. After a bad element the
/// rest is read and not kept.
pub fn read_import(alloc: Global, bytes: &[u8], now: Moment) -> Result<Vec<Imported>, ImportError>
    ensures { IsImported result (import_of bytes.now now.seconds) }
{
    match read_bytes(alloc, bytes, now.seconds) {
        Ok(found) => found.into_tasks(),
        Err(Halt::NotJson) => Err(ImportError::NotJson),
        Err(Halt::Memory) => Err(ImportError::Memory),
    }
}
