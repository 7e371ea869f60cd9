// The task of an element.
ghost use Rattle.std.specs.Prelude.{◌≡◌, ◌++◌, [], codes, IfOk, OnOk};
ghost use Rattle.std.specs.Option.{option_copied};
ghost use Rattle.std.specs.FinMap as map;
ghost use Rattle.uuid.specs.Text.{hyphenated_text, lower};
ghost use Rattle.tw_import.specs.Import.{is_bad, is_value, first_bad, has_description, lesser, offending, uuid_of, with_values, with_item};
ghost use Rattle.tw_import.specs.Import.{with_items, with_lists, with_default, with_defaults, annotation_at, free_second, task_of, made};
ghost use Rattle.tw_model.specs.Ops.{TaskValue};
ghost use Rattle.tw_import.specs.MemberValues.{item_in, items_in, meaning_of, fields_in, with_each};
ghost use Rattle.tw_import.specs.Seconds.{AreSkips};
ghost use Rattle.tw_import.specs.MadeTasks.{IsMade};

use crate::import::Imported;
use crate::member_value::{MemberItem, MemberValue};
use crate::seconds::{annotation_at, free_second};
use std::alloc::Global;
use std::collections::BTreeMap;
use tw_model::{TaskDraft, TaskMap};
use tw_world::{Memory, Text};
use uuid::Uuid;

fn is_bad(value: &MemberValue) -> bool
    ensures { result ≡ is_bad (meaning_of value.now) }
{
    match value {
        MemberValue::Bad => true,
        _ => false,
    }
}

fn is_value(value: &MemberValue) -> bool
    ensures { result ≡ is_value (meaning_of value.now) }
{
    match value {
        MemberValue::Value(_) => true,
        _ => false,
    }
}

fn first_bad(fields: &BTreeMap<Text, MemberValue>) -> Option<&str>
    ensures { option_copied result ≡ first_bad (fields_in fields.now.entries) }
{
    for (name, value) in fields {
        if is_bad(value) {
            return Some(name.as_str());
        }
    }
    None
}

fn has_description(fields: &BTreeMap<Text, MemberValue>) -> bool
    ensures { result ≡ has_description (fields_in fields.now.entries) }
{
    for (name, value) in fields {
        if name.as_str() == "description" && is_value(value) {
            return true;
        }
    }
    false
}

fn lesser<'a>(first: Option<&'a str>, second: &'a str) -> &'a str
    ensures { result.now ≡ lesser (option_copied first.entry) second.now }
{
    match first {
        Some(first) => if first < second { first } else { second },
        None => second,
    }
}

// The first name in byte order that keeps the fields from being a task's.
fn offending(fields: &BTreeMap<Text, MemberValue>) -> Option<&str>
    ensures { option_copied result ≡ offending (fields_in fields.now.entries) }
{
    if has_description(fields) {
        first_bad(fields)
    } else {
        Some(lesser(first_bad(fields), "description"))
    }
}

fn uuid_of(fields: &BTreeMap<Text, MemberValue>) -> Option<Uuid>
    ensures { result ≡ uuid_of (fields_in fields.now.entries) }
{
    for (_, value) in fields {
        if let MemberValue::Identity(uuid) = value {
            return Some(*uuid);
        }
    }
    None
}

// Puts the values of fields into a task, and gives the lists among them. Each field is let go of as it is taken.
fn put_values(
    alloc: Global,
    draft: &mut TaskDraft,
    fields: BTreeMap<Text, MemberValue>,
) -> Result<Vec<Vec<MemberItem>>, Memory>
    ensures values { OnOk result (draft.new ≡ with_values draft.old (fields_in fields.entries)) }
    ensures lists { IfOk result (λ lists. (task : TaskValue) → with_each task lists.items ≡ with_lists task (fields_in fields.entries)) }
{
    let mut lists = Vec::new(alloc);
    for (name, value) in fields {
        value.put_into(name, draft, &mut lists)?;
    }
    Ok(lists)
}

fn put_tag(alloc: Global, draft: &mut TaskDraft, tag: &str) -> Result<(), Memory>
    ensures { OnOk result (draft.new ≡ map.insert draft.old (codes "tag_" ++ tag.now) []) }
{
    let name = format!(in alloc; "tag_{tag}")?;
    draft.put(alloc, name.as_str(), "")
}

fn put_dependency(alloc: Global, draft: &mut TaskDraft, uuid: Uuid) -> Result<(), Memory>
    ensures { OnOk result (draft.new ≡ map.insert draft.old (codes "dep_" ++ hyphenated_text lower uuid) []) }
{
    let mut buffer = Uuid::encode_buffer();
    let text: &str = uuid.hyphenated().encode_lower(&mut buffer);
    let name = format!(in alloc; "dep_{text}")?;
    draft.put(alloc, name.as_str(), "")
}

fn put_annotation(
    alloc: Global,
    draft: &mut TaskDraft,
    skips: &mut BTreeMap<u64, u64>,
    at: u64,
    text: &str,
) -> Result<(), Memory>
    requires { AreSkips draft.old skips.old.entries }
    ensures put { OnOk result (draft.new ≡ map.insert draft.old (annotation_at (free_second (map.len draft.old) draft.old at)) text.now) }
    ensures skips { OnOk result (AreSkips draft.old skips.new.entries) }
{
    let second = free_second(alloc, draft, skips, at)?;
    draft.put(alloc, annotation_at(alloc, second)?.as_str(), text)
}

// A property more leaves the seconds taken.
fn put_item(
    alloc: Global,
    draft: &mut TaskDraft,
    skips: &mut BTreeMap<u64, u64>,
    item: &MemberItem,
) -> Result<(), Memory>
    requires { AreSkips draft.old skips.old.entries }
    ensures put { OnOk result (draft.new ≡ with_item draft.old (item_in item.now)) }
    ensures skips { OnOk result (AreSkips draft.new skips.new.entries) }
{
    match item {
        MemberItem::Tag(tag) => put_tag(alloc, draft, tag.as_str()),
        MemberItem::Dependency(uuid) => put_dependency(alloc, draft, *uuid),
        MemberItem::Annotation(at, text) => put_annotation(alloc, draft, skips, *at, text.as_str()),
    }
}

fn put_items(alloc: Global, draft: &mut TaskDraft, items: &Vec<MemberItem>) -> Result<(), Memory>
    ensures { OnOk result (draft.new ≡ with_items draft.old (items_in items.now.items)) }
{
    let mut skips = BTreeMap::new(alloc);
    for item in items {
        put_item(alloc, draft, &mut skips, item)?;
    }
    Ok(())
}

fn put_lists(
    alloc: Global,
    draft: &mut TaskDraft,
    lists: &Vec<Vec<MemberItem>>,
) -> Result<(), Memory>
    ensures { OnOk result (draft.new ≡ with_each draft.old lists.now.items) }
{
    for items in lists {
        put_items(alloc, draft, items)?;
    }
    Ok(())
}

fn put_default(alloc: Global, draft: &mut TaskDraft, name: &str, value: &str) -> Result<(), Memory>
    ensures { OnOk result (draft.new ≡ with_default draft.old name.now value.now) }
{
    if draft.has(&Text::from_str(alloc, name)?) {
        return Ok(());
    }
    draft.put(alloc, name, value)
}

fn put_defaults(alloc: Global, draft: &mut TaskDraft, now: u64) -> Result<(), Memory>
    ensures { OnOk result (draft.new ≡ with_defaults now draft.old) }
{
    let digits = format!(in alloc; "{now}")?;
    put_default(alloc, draft, "status", "pending")?;
    put_default(alloc, draft, "entry", digits.as_str())?;
    put_default(alloc, draft, "modified", digits.as_str())
}

fn task_of(alloc: Global, now: u64, fields: BTreeMap<Text, MemberValue>) -> Result<TaskMap, Memory>
    ensures { IfOk result (λ task. task ≡ task_of now (fields_in fields.entries)) }
{
    let mut draft = TaskDraft::new(alloc);
    let lists = put_values(alloc, &mut draft, fields)?;
    put_lists(alloc, &mut draft, &lists)?;
    put_defaults(alloc, &mut draft, now)?;
    draft.into_task(alloc)
}

/// Why an element is no task: its first offending key, or no memory.
#[derive(Drop)]
pub(crate) enum NoTask {
    Key(Text),
    Memory,
}

impl From<Memory> for NoTask {
    ghost use Rattle.std.specs.Prelude.{◌≡◌};
    ghost use Rattle.tw_import.specs.declared.task_of_fields.NoTask.TheVariants as no_task;

    ghost from_gives = { λ _ e. e ≡ no_task.Memory };

    fn from(_: Memory) -> NoTask {
        NoTask::Memory
    }
}

/// The task of an element's fields.
pub(crate) fn made(
    alloc: Global,
    now: u64,
    fields: BTreeMap<Text, MemberValue>,
) -> Result<Imported, NoTask>
    ensures { IsMade result (made now (fields_in fields.entries)) }
{
    if let Some(name) = offending(&fields) {
        return Err(NoTask::Key(Text::from_str(alloc, name)?));
    }
    Ok(Imported {
        uuid: uuid_of(&fields),
        map: task_of(alloc, now, fields)?,
    })
}
