// What commands print.
ghost use Rattle.std.specs.Prelude.{◌≡◌, IfOk};
ghost use Rattle.std.specs.FinMap.{get};
ghost use Rattle.tw_model.specs.Places.{id_of};
ghost use Rattle.tw_commands.specs.Texts as spec;

use crate::plan::Deed;
use std::alloc::Global;
use tw_changes::recurs;
use tw_model::{Tasks, id_of};
use tw_world::Memory;
use uuid::Uuid;

// A number between two texts.
fn numbered(alloc: Global, front: &str, number: u64, back: &str) -> Result<Vec<u8>, Memory>
    ensures { IfOk result (λ text. text.items ≡ spec.numbered front.now number back.now) }
{
    let text = format!(in alloc; "{}{}{}", front, number, back)?;
    Ok(text.into_bytes())
}

fn deed_word(deed: Deed) -> &'static str
    ensures { result.now ≡ spec.deed_word deed }
{
    match deed {
        Deed::Modified => "Modified ",
        Deed::Annotated => "Annotated ",
        Deed::Denotated => "Denotated ",
        Deed::Completed => "Completed ",
        Deed::Deleted => "Deleted ",
        Deed::Purged => "Purged ",
        Deed::Started => "Started ",
        Deed::Stopped => "Stopped ",
        Deed::Duplicated => "Duplicated ",
        Deed::Imported => "Imported ",
    }
}

/// On how many tasks a command acted.
pub(crate) fn counted_text(alloc: Global, deed: Deed, count: u64) -> Result<Vec<u8>, Memory>
    ensures { IfOk result (λ text. text.items ≡ spec.counted_text deed count) }
{
    if count == 1 {
        numbered(alloc, deed_word(deed), count, " task.\n")
    } else {
        numbered(alloc, deed_word(deed), count, " tasks.\n")
    }
}

/// That a task was logged.
pub(crate) fn logged_text(alloc: Global) -> Result<Vec<u8>, Memory>
    ensures { IfOk result (λ text. text.items ≡ spec.logged_text) }
{
    Ok(String::from_str(alloc, "Logged task.\n")?.into_bytes())
}

// Whether a uuid has a task that recurs.
fn recurs_there(tasks: &Tasks, uuid: Uuid) -> bool
    ensures { result ≡ spec.recurs_there (get tasks.now uuid) }
{
    match tasks.get(uuid) {
        Some(task) => recurs(task),
        None => false,
    }
}

/// The number of a task that was added, and whether it recurs. One without a place was logged.
pub(crate) fn created_text(
    alloc: Global,
    uuid: Uuid,
    places: &Vec<Option<Uuid>>,
    tasks: &Tasks,
) -> Result<Vec<u8>, Memory>
    ensures { IfOk result (λ text. text.items ≡ spec.created_text (id_of uuid places.now.items) (get tasks.now uuid)) }
{
    let Some(id) = id_of(places, uuid) else {
        return logged_text(alloc);
    };
    if recurs_there(tasks, uuid) {
        numbered(alloc, "Created task ", id, " (recurrence template).\n")
    } else {
        numbered(alloc, "Created task ", id, ".\n")
    }
}

/// How many operations were taken back.
pub(crate) fn undone_text(alloc: Global, count: u64) -> Result<Vec<u8>, Memory>
    ensures { IfOk result (λ text. text.items ≡ spec.undone_text count) }
{
    if count == 1 {
        numbered(alloc, "Undone ", count, " operation.\n")
    } else {
        numbered(alloc, "Undone ", count, " operations.\n")
    }
}

/// A number of tasks.
pub(crate) fn count_text(alloc: Global, count: u64) -> Result<Vec<u8>, Memory>
    ensures { IfOk result (λ text. text.items ≡ spec.count_text count) }
{
    numbered(alloc, "", count, "\n")
}
