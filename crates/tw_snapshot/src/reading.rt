// Snapshots as they are read.
ghost use Rattle.std.specs.Prelude.{◌≡◌, true, false, None, Some, IfOk, MatchOption, option_and_then};
ghost use Rattle.uuid.specs.Text.{parsed_hyphenated};
ghost use Rattle.json.specs.Json.{document};
ghost use Rattle.tw_snapshot.specs.Snapshot.{tasks_of, snapshot_of};
ghost use Rattle.tw_snapshot.specs.Reading.{with_rest, opened, text_at, property_at, task_at, properties_at, tasks_at};

use crate::MAX_LEN;
use json::{Reader, Scratch, Token};
use std::alloc::Global;
use tw_model::{TaskDraft, TaskMap, Tasks};
use tw_world::Memory;
use uuid::Uuid;
use uuid::fmt::Hyphenated;

/// The tasks of a snapshot, or `None` if the bytes are none. A snapshot is a JSON object of at most 16,777,216 bytes, from hyphenated
/// UUIDs to objects of texts. No UUID is there twice, in any spelling; of properties with one name the last counts.
/// Reading ends at the first token that no snapshot has there. Beside the bytes and the tasks it takes room for the texts with escapes,
/// at most as long as the bytes, and for the largest task once more.
pub fn read_snapshot(alloc: Global, bytes: &[u8]) -> Result<Option<Tasks>, Memory>
    ensures { IfOk result (λ tasks. tasks ≡ snapshot_of bytes.now) }
{
    if bytes.len() > MAX_LEN {
        return Ok(None);
    }
    match std::str::from_utf8(bytes) {
        Ok(text) => read_text(alloc, text),
        Err(_) => Ok(None),
    }
}

fn read_text(alloc: Global, text: &str) -> Result<Option<Tasks>, Memory>
    ensures { IfOk result (λ tasks. tasks ≡ option_and_then tasks_of (document text.now)) }
{
    let mut scratch = Scratch::new(alloc);
    let Ok(mut reader) = Reader::new(text, &mut scratch) else {
        return Err(Memory);
    };
    if !take_object(&mut reader) {
        return Ok(None);
    }
    let Some(tasks) = read_tasks(alloc, &mut reader)? else {
        return Ok(None);
    };
    match reader.next() {
        Some(_) => Ok(None),
        None => Ok(Some(tasks)),
    }
}

// The tasks up to the brace that closes the whole.
fn read_tasks(alloc: Global, reader: &mut Reader<'_>) -> Result<Option<Tasks>, Memory>
    ensures { IfOk result (λ tasks. with_rest reader.new tasks ≡ tasks_at reader.old) }
{
    let mut tasks = Tasks::new(alloc);
    'tasks: loop {
        match reader.next_key() {
            Ok(Some(name)) => {
                if !read_task(alloc, reader, &mut tasks, name)? {
                    return Ok(None);
                }
            }
            Ok(None) => return Ok(Some(tasks)),
            Err(_) => return Ok(None),
        }
    }
}

// Inserts the task at the front under its name, and answers whether it could.
fn read_task(
    alloc: Global,
    reader: &mut Reader<'_>,
    tasks: &mut Tasks,
    name: &str,
) -> Result<bool, Memory>
    ensures put { IfOk result (λ is. is ≡ true → task_at tasks.old name.now reader.old ≡ Some (tasks.new, reader.new)) }
    ensures refused { IfOk result (λ is. is ≡ false → task_at tasks.old name.now reader.old ≡ None) }
{
    let Some(uuid) = read_uuid(name) else {
        return Ok(false);
    };
    if !take_object(reader) {
        return Ok(false);
    }
    let Some(task) = read_properties(alloc, reader)? else {
        return Ok(false);
    };
    tasks.insert(uuid, task)
}

// The task up to the brace that closes its object.
fn read_properties(alloc: Global, reader: &mut Reader<'_>) -> Result<Option<TaskMap>, Memory>
    ensures { IfOk result (λ task. with_rest reader.new task ≡ properties_at reader.old) }
{
    let mut draft = TaskDraft::new(alloc);
    'properties: loop {
        match reader.next_key() {
            Ok(Some(name)) => {
                if !read_property(alloc, reader, &mut draft, name)? {
                    return Ok(None);
                }
            }
            Ok(None) => return Ok(Some(draft.into_task(alloc)?)),
            Err(_) => return Ok(None),
        }
    }
}

// Sets the property at the front under its name, and answers whether it could.
fn read_property(
    alloc: Global,
    reader: &mut Reader<'_>,
    draft: &mut TaskDraft,
    name: &str,
) -> Result<bool, Memory>
    ensures put { IfOk result (λ is. is ≡ true → property_at draft.old name.now reader.old ≡ Some (draft.new, reader.new)) }
    ensures refused { IfOk result (λ is. is ≡ false → property_at draft.old name.now reader.old ≡ None) }
{
    let Some(value) = take_text(reader) else {
        return Ok(false);
    };
    draft.put(alloc, name, value)?;
    Ok(true)
}

// Takes the brace that opens an object.
fn take_object(reader: &mut Reader<'_>) -> bool
    ensures opened { result ≡ true → opened reader.old ≡ Some reader.new }
    ensures other { result ≡ false → opened reader.old ≡ None }
{
    match reader.next() {
        Some(Token::BeginObject) => true,
        _ => false,
    }
}

// Takes a text.
fn take_text<'a>(reader: &mut Reader<'a>) -> Option<&'a str>
    ensures { MatchOption result (text_at reader.old ≡ None) (λ s. text_at reader.old ≡ Some (s.now, reader.new)) }
{
    match reader.next() {
        Some(Token::String(text)) => Some(text),
        _ => None,
    }
}

// A UUID of 36 characters, in either case.
#[tactic(auto, using(crate::proofs::Options::none_unless))]
fn read_uuid(text: &str) -> Option<Uuid>
    ensures { result ≡ parsed_hyphenated text.now }
{
    match text.parse::<Hyphenated>() {
        Ok(form) => Some(form.into_uuid()),
        Err(_) => None,
    }
}
