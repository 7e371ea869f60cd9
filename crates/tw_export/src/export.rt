// The text of the chosen tasks.
ghost use Rattle.std.specs.Prelude.{◌≡◌, ◌<◌, ◌++◌, List, ℕ, None, IfOk, codes, cond, []};
ghost use Rattle.std.specs.BTreeSet as set;
ghost use Rattle.tw_model.specs.Maps.{bytes_cmp};
ghost use Rattle.tw_urgency.specs.Dependencies.{blocking};
ghost use Rattle.tw_urgency.specs.Urgency.{AreWeights, urgency};
ghost use Rattle.tw_export.specs.Export.{export_text, entry_text, task_text};
ghost use Rattle.tw_export.specs.Owns.{subject_text};

use crate::members::{Subject, put_members};
use json::Writer;
use std::alloc::Global;
use std::collections::btree_set::BTreeSet;
use tw_model::{TaskMap, Tasks};
use tw_terms::chosen_of;
use tw_urgency::{Coefficients, all_blocking, task_urgency};
use tw_world::{MOMENT_LIMIT, Memory, Moment};
use uuid::Uuid;

/// The JSON of the tasks with these uuids, as task(1) has it under "export": a list of one object a line, in byte order of the uuid.
/// Beside its stored properties a task has its `urgency`, and its tags, dependencies and annotations as lists; moments are printed in
/// UTC, and a task that waits is `waiting`. A uuid without a task gives none, and one that stands twice gives one. Neither numbers nor
/// the zone change it.
pub fn export_text(
    alloc: Global,
    rows: &Vec<Uuid>,
    tasks: &Tasks,
    now: Moment,
    weights: &Coefficients,
) -> Result<Vec<u8>, Memory>
    requires { AreWeights weights.now }
    ensures { IfOk result (λ text. text.items ≡ export_text rows.now.items tasks.now now.seconds weights.now) }
{
    let chosen = chosen_of(alloc, rows)?;
    let blocking = all_blocking(alloc, tasks)?;
    let mut text = Vec::new(alloc);
    text.extend_from_slice(b"[\n")?;
    let mut is_first = true;
    for (uuid, task) in tasks.iter() {
        if chosen.contains(uuid) {
            text = with_entry(
                alloc,
                text,
                is_first,
                &blocking,
                tasks,
                *uuid,
                task,
                now.seconds,
                weights,
            )?;
            is_first = false;
        }
    }
    if !is_first {
        text.push(b'\n')?;
    }
    text.extend_from_slice(b"]\n")?;
    Ok(text)
}

/// One task as compact JSON, without a newline: its object in the export without `urgency`. Hooks are given it.
pub fn task_text(alloc: Global, uuid: Uuid, task: &TaskMap, now: Moment) -> Result<Vec<u8>, Memory>
    ensures { IfOk result (λ text. text.items ≡ task_text uuid task.now now.seconds None) }
{
    let subject = Subject {
        uuid,
        task,
        urgency: None,
    };
    put_task(alloc, Vec::new(alloc), &subject, now.seconds)
}

#[tactic(auto, unfolding(tw_urgency::specs::Urgency::urgency))]
fn urgency_among(
    found: &BTreeSet<Uuid>,
    tasks: &Tasks,
    uuid: Uuid,
    second: u64,
    weights: &Coefficients,
) -> i64
    requires blocking { (u : List ℕ) → set.contains bytes_cmp found.now u ≡ blocking tasks.now u }
    requires second { second < MOMENT_LIMIT }
    requires weights { AreWeights weights.now }
    ensures { result ≡ urgency tasks.now uuid second weights.now }
{
    match tasks.get(uuid) {
        Some(task) => task_urgency(tasks, task, found.contains(&uuid), second, weights),
        None => 0,
    }
}

// The text with a task and its urgency after it, parted from the one before.
fn with_entry(
    alloc: Global,
    text: Vec<u8>,
    is_first: bool,
    found: &BTreeSet<Uuid>,
    tasks: &Tasks,
    uuid: Uuid,
    task: &TaskMap,
    second: u64,
    weights: &Coefficients,
) -> Result<Vec<u8>, Memory>
    requires blocking { (u : List ℕ) → set.contains bytes_cmp found.now u ≡ blocking tasks.now u }
    requires second { second < MOMENT_LIMIT }
    requires weights { AreWeights weights.now }
    ensures { let entry = entry_text tasks.now second weights.now (uuid, task.now) in
        IfOk result (λ longer. longer.items ≡ text.items ++ (cond is_first [] (codes ",\n") ++ entry)) }
{
    let urgency = Some(urgency_among(found, tasks, uuid, second, weights));
    let subject = Subject {
        uuid,
        task,
        urgency,
    };
    with_task(alloc, text, is_first, &subject, second)
}

// The text with a task after it, parted from the one before.
fn with_task(
    alloc: Global,
    text: Vec<u8>,
    is_first: bool,
    subject: &Subject<'_>,
    second: u64,
) -> Result<Vec<u8>, Memory>
    ensures { IfOk result (λ longer. longer.items ≡ text.items ++ (cond is_first [] (codes ",\n") ++ subject_text subject.now second)) }
{
    let mut text = text;
    if !is_first {
        text.extend_from_slice(b",\n")?;
    }
    put_task(alloc, text, subject, second)
}

// The text with a task's object after it.
#[tactic(auto, unfolding(crate::specs::Export::task_text))]
fn put_task(
    alloc: Global,
    text: Vec<u8>,
    subject: &Subject<'_>,
    second: u64,
) -> Result<Vec<u8>, Memory>
    ensures { IfOk result (λ longer. longer.items ≡ text.items ++ subject_text subject.now second) }
{
    let mut writer = Writer::new(text);
    writer.begin_object()?;
    put_members(&mut writer, alloc, subject, second)?;
    writer.end_object()?;
    Ok(writer.into_inner())
}
