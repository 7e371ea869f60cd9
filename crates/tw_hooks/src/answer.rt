// What a hook is given, and what it answers.
ghost use Rattle.std.specs.Prelude.{◌≡◌, ◌++◌, ◌∷◌, [], Ok, IfOk};
ghost use Rattle.tw_hooks.specs.Answer.{line_of, given, first_line, only_of, answered};

use crate::event::Event;
use std::alloc::Global;
use tw_export::task_text;
use tw_import::{ImportError, Imported, read_import};
use tw_model::TaskMap;
use tw_world::{Memory, Moment};
use uuid::Uuid;

/// Most bytes that a hook may write.
const OUTPUT_LIMIT: usize = 16_777_216;

fn line_of(alloc: Global, uuid: Uuid, task: &TaskMap, now: Moment) -> Result<Vec<u8>, Memory>
    ensures { IfOk result (λ line. line.items ≡ line_of uuid now.seconds task.now) }
{
    let mut line = task_text(alloc, uuid, task, now)?;
    line.push(b'\n')?;
    Ok(line)
}

/// What a hook is given: a line of the task as it is so far, and before that, if it is changed, one of the task before.
pub(crate) fn given(
    alloc: Global,
    event: Event,
    uuid: Uuid,
    before: &TaskMap,
    so_far: &TaskMap,
    now: Moment,
) -> Result<Vec<u8>, Memory>
    ensures { IfOk result (λ input. input.items ≡ given event uuid now.seconds before.now so_far.now) }
{
    match event {
        Event::Add => line_of(alloc, uuid, so_far, now),
        Event::Modify => {
            let mut input = line_of(alloc, uuid, before, now)?;
            let line = line_of(alloc, uuid, so_far, now)?;
            input.extend_from_slice(line.as_slice())?;
            Ok(input)
        }
    }
}

// The bytes up to the first newline, or all.
fn first_line(bytes: &[u8]) -> &[u8]
    ensures { result.now ≡ first_line bytes.now }
{
    let mut end = 0;
    for byte in bytes {
        if *byte == b'\n' {
            return &bytes[..end];
        }
        end += 1;
    }
    bytes
}

fn as_list(alloc: Global, line: &[u8]) -> Result<Vec<u8>, Memory>
    ensures { IfOk result (λ list. list.items ≡ 91 ∷ line.now ++ 93 ∷ []) }
{
    let mut list = Vec::new(alloc);
    list.push(b'[')?;
    list.extend_from_slice(line)?;
    list.push(b']')?;
    Ok(list)
}

// The one task that was read, if it has the uuid.
fn only_of(uuid: Uuid, tasks: Vec<Imported>) -> Option<TaskMap>
    ensures { result ≡ only_of uuid (Ok tasks.items) }
{
    let mut tasks = tasks;
    let last = tasks.pop()?;
    if tasks.len() > 0 || last.uuid != Some(uuid) {
        return None;
    }
    Some(last.map)
}

/// The task that an output answers: its first line, read as the one element of an import, if that has the uuid and the output is
/// within its limit.
pub(crate) fn answered(
    alloc: Global,
    uuid: Uuid,
    output: &[u8],
    now: Moment,
) -> Result<Option<TaskMap>, Memory>
    ensures { IfOk result (λ task. task ≡ answered uuid now.seconds output.now) }
{
    if output.len() > OUTPUT_LIMIT {
        return Ok(None);
    }
    let list = as_list(alloc, first_line(output))?;
    match read_import(alloc, list.as_slice(), now) {
        Ok(tasks) => Ok(only_of(uuid, tasks)),
        Err(ImportError::Memory) => Err(Memory),
        Err(ImportError::NotJson | ImportError::Task { .. }) => Ok(None),
    }
}
