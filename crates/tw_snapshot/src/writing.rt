// Snapshots as they are written.
ghost use Rattle.std.specs.Prelude.{◌≡◌, ◌++◌, ◌∷◌, [], cond, Some, IfOk, IfSome, OnOk, option_map};
ghost use Rattle.std.specs.Str.{IsUtf8};
ghost use Rattle.uuid.specs.Text.{hyphenated_text, lower};
ghost use Rattle.json.specs.Token.{key};
ghost use Rattle.tw_snapshot.specs.Snapshot.{text_within, snapshot_of};
ghost use Rattle.tw_snapshot.specs.Writing.{IsSpelled, entry_text, task_tokens};

use crate::MAX_LEN;
use json::Writer;
use std::alloc::Global;
use tw_model::{TaskMap, Tasks};
use tw_world::Memory;
use uuid::Uuid;

/// The one text of tasks: a JSON object from UUID to the object of the task's properties, keys in byte order and no spaces.
/// `None` if it is longer than 16,777,216 bytes; no more than these and one task are written then.
pub fn write_snapshot(alloc: Global, tasks: &Tasks) -> Result<Option<Vec<u8>>, Memory>
    ensures text { IfOk result (λ text. option_map (λ v. v.items) text ≡ text_within tasks.now) }
    ensures back { IfOk result (λ text. IfSome text (λ v. snapshot_of v.items ≡ Some tasks.now)) }
{
    let mut text = Vec::new(alloc);
    text.push(b'{')?;
    let mut is_first = true;
    for (uuid, task) in tasks.iter() {
        text = with_task(text, is_first, *uuid, task)?;
        if text.len() > MAX_LEN {
            return Ok(None);
        }
        is_first = false;
    }
    text.push(b'}')?;
    if text.len() > MAX_LEN {
        return Ok(None);
    }
    Ok(Some(text))
}

// The text with a task's member after it.
fn with_task(text: Vec<u8>, is_first: bool, uuid: Uuid, task: &TaskMap) -> Result<Vec<u8>, Memory>
    ensures text { IfOk result (λ longer. longer.items ≡ text.items ++ entry_text is_first uuid task.now) }
    ensures utf8 { IfOk result (λ longer. IsUtf8 text.items → IsUtf8 longer.items) }
    ensures back { OnOk result (IsSpelled uuid) }
{
    let mut writer = Writer::new(parted(text, is_first)?);
    put_uuid(&mut writer, uuid)?;
    put_task(&mut writer, task)?;
    Ok(writer.into_inner())
}

// The text with a comma after it, unless what follows is the first.
fn parted(text: Vec<u8>, is_first: bool) -> Result<Vec<u8>, Memory>
    ensures text { IfOk result (λ longer. longer.items ≡ text.items ++ cond is_first [] (44 ∷ [])) }
{
    let mut text = text;
    if !is_first {
        text.push(b',')?;
    }
    Ok(text)
}

fn put_uuid(writer: &mut Writer, uuid: Uuid) -> Result<(), Memory>
    ensures written { OnOk result (writer.new.tokens ≡ writer.old.tokens ++ key (hyphenated_text lower uuid) ∷ []) }
    ensures before { writer.new.before ≡ writer.old.before }
    ensures back { OnOk result (IsSpelled uuid) }
{
    let mut buffer = Uuid::encode_buffer();
    writer.key(uuid.hyphenated().encode_lower(&mut buffer))?;
    Ok(())
}

fn put_task(writer: &mut Writer, task: &TaskMap) -> Result<(), Memory>
    ensures written { OnOk result (writer.new.tokens ≡ writer.old.tokens ++ task_tokens task.now) }
    ensures before { writer.new.before ≡ writer.old.before }
{
    writer.begin_object()?;
    for n in 0..task.len() {
        writer.key(task.key(n))?;
        writer.string(task.value(n))?;
    }
    writer.end_object()?;
    Ok(())
}
