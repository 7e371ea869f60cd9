// The tags of an interval that a task drives.
ghost use Rattle.std.specs.Prelude.{◌≡◌, IfOk, OnOk};
ghost use Rattle.std.specs.Option.{option_copied};
ghost use Rattle.std.specs.FinMap.{get};
ghost use Rattle.timew_bridge.specs.Label.{text_of, with_text, label, label_of};

use std::alloc::Global;
use std::collections::BTreeSet;
use timew_interval::Texts;
use tw_model::{TaskMap, Tasks};
use tw_text::cell;
use tw_urgency::is_tag;
use tw_world::{Memory, Text};
use uuid::Uuid;

// The text of a property by which one finds the hours of its task.
#[tactic(auto, unfolding(tw_urgency::specs::Stored::is_tag))]
fn text_of<'a>(name: &'a str, value: &'a str) -> Option<&'a str>
    ensures { option_copied result ≡ text_of (name.now, value.now) }
{
    match name {
        "description" | "project" => Some(value),
        _ => name.strip_prefix("tag_"),
    }
}

// Adds a text, with a space for each control character, to others if it is not empty.
fn put_text(alloc: Global, tags: &mut BTreeSet<Text>, text: Option<&str>) -> Result<(), Memory>
    ensures { OnOk result (tags.new.keys ≡ with_text (option_copied text.entry) tags.old.keys) }
{
    let Some(text) = text else {
        return Ok(());
    };
    let cell = cell(alloc, text)?;
    if cell.as_str().is_empty() {
        return Ok(());
    }
    let _ = tags.insert(Text::from_str(alloc, cell.as_str())?)?;
    Ok(())
}

// The description, the project and the tags of a task.
fn texts_of(alloc: Global, task: &TaskMap) -> Result<BTreeSet<Text>, Memory>
    ensures { IfOk result (λ tags. tags.keys ≡ label task.now) }
{
    let mut tags = BTreeSet::new(alloc);
    for n in 0..task.len() {
        put_text(alloc, &mut tags, text_of(task.key(n), task.value(n)))?;
    }
    Ok(tags)
}

/// The description, the project and the tags of the task of a uuid, in byte order, each once, and none that is empty.
pub fn label_of(alloc: Global, tasks: &Tasks, uuid: Uuid) -> Result<Texts, Memory>
    ensures { IfOk result (λ tags. tags ≡ label_of (get tasks.now uuid)) }
{
    let mut tags = Texts::new(alloc);
    let Some(task) = tasks.get(uuid) else {
        return Ok(tags);
    };
    for text in texts_of(alloc, task)? {
        tags.push(text)?;
    }
    Ok(tags)
}
