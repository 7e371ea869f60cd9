// The parents of instances that are done or deleted: each gets a sign in its mask.
ghost use Rattle.std.specs.Prelude.{◌≡◌, ◌++◌, true, is_none, IfOk, OnOk, chars, set, encode_utf8_all, string_bytes};
ghost use Rattle.std.specs.Option.{option_copied};
ghost use Rattle.std.specs.FinMap as map;
ghost use lib.Utf8.{scalars};
ghost use Rattle.tw_model.specs.Ops.{TasksValue};
ghost use Rattle.tw_changes.specs.Marks as spec;

use crate::effects::stamped;
use std::alloc::Global;
use std::collections::BTreeMap;
use tw_model::{Change, TaskMap, Tasks};
use tw_text::read_u64;
use tw_urgency::read_uuid;
use tw_words::Command;
use tw_world::{Memory, Moment};
use uuid::Uuid;

/// How an instance ended.
#[derive(Clone, Copy)]
pub enum Sign {
    /// It is done.
    Completed,
    /// It is deleted.
    Deleted,
}

impl Sign {
    // Its character in the mask of its parent.
    fn code(self) -> char
        ensures { result ≡ spec.code_of self }
    {
        match self {
            Sign::Completed => '+',
            Sign::Deleted => 'X',
        }
    }
}

/// A sign for a parent's mask, at an index.
#[derive(Clone, Copy)]
pub struct Mark {
    pub parent: Uuid,
    pub index: u64,
    pub sign: Sign,
}

fn chars_of(alloc: Global, text: &str) -> Result<Vec<char>, Memory>
    ensures all { IfOk result (λ all. all.items ≡ chars text.now) }
    ensures scalars { IfOk result (λ all. scalars all.items ≡ true) }
{
    let mut all = Vec::new(alloc);
    for c in text.chars() {
        all.push(c)?;
    }
    Ok(all)
}

fn text_of(alloc: Global, all: &Vec<char>) -> Result<String, Memory>
    ensures { IfOk result (λ text. string_bytes text ≡ encode_utf8_all all.now.items) }
{
    let mut text = String::new(alloc);
    for c in all {
        text.push(*c)?;
    }
    Ok(text)
}

// The signs in the mask of a task.
fn signs_of(alloc: Global, task: &TaskMap) -> Result<Vec<char>, Memory>
    ensures all { IfOk result (λ signs. signs.items ≡ spec.signs_of task.now) }
    ensures scalars { IfOk result (λ signs. scalars signs.items ≡ true) }
{
    match task.get("mask") {
        Some(mask) => chars_of(alloc, mask),
        None => Ok(Vec::new(alloc)),
    }
}

// The signs that are held, or else those in the mask of a task.
fn signs_or(alloc: Global, held: Option<Vec<char>>, task: &TaskMap) -> Result<Vec<char>, Memory>
    ensures all { IfOk result (λ signs. signs.items ≡ spec.signs_or held task.now) }
    ensures scalars { IfOk result (λ signs. is_none held ≡ true → scalars signs.items ≡ true) }
{
    match held {
        Some(signs) => Ok(signs),
        None => signs_of(alloc, task),
    }
}

// Puts a sign at an index, if there are so many.
fn put_sign(signs: &mut Vec<char>, index: u64, sign: Sign)
    ensures { signs.new.items ≡ set signs.old.items index (spec.code_of sign) }
{
    if index < signs.len() as u64 {
        signs[index as usize] = sign.code();
    }
}

// A task with these signs for its mask, if it has one.
fn with_signs(alloc: Global, signs: &Vec<char>, task: &TaskMap) -> Result<TaskMap, Memory>
    ensures { IfOk result (λ marked. marked ≡ spec.with_signs signs.now.items task.now) }
{
    let mut marked = task.copy(alloc)?;
    if task.get("mask").is_some() {
        let mask = text_of(alloc, signs)?;
        marked.set(alloc, "mask", Some(mask.as_str()))?;
    }
    Ok(marked)
}

fn number_in(text: Option<&str>) -> Option<u64>
    ensures { result ≡ spec.number_in (option_copied text.entry) }
{
    match text {
        Some(text) => read_u64(text),
        None => None,
    }
}

fn uuid_in(text: Option<&str>) -> Option<Uuid>
    ensures { result ≡ spec.uuid_in (option_copied text.entry) }
{
    match text {
        Some(text) => read_uuid(text),
        None => None,
    }
}

// Adds the mark that an instance leaves at its parent.
fn push_mark(marks: &mut Vec<Mark>, sign: Sign, task: Option<&TaskMap>) -> Result<(), Memory>
    ensures { OnOk result (marks.new.items ≡ marks.old.items ++ spec.mark_by sign (option_copied task.entry)) }
{
    let Some(task) = task else {
        return Ok(());
    };
    let parent = uuid_in(task.get("parent"));
    let index = number_in(task.get("imask"));
    if let (Some(parent), Some(index)) = (parent, index) {
        marks.push(Mark {
            parent,
            index,
            sign,
        })?;
    }
    Ok(())
}

fn marks_by(
    alloc: Global,
    sign: Sign,
    tasks: &Tasks,
    changes: &Vec<Change>,
) -> Result<Vec<Mark>, Memory>
    ensures { IfOk result (λ marks. marks.items ≡ spec.marks_by sign tasks.now changes.now.items) }
{
    let mut marks = Vec::new(alloc);
    for change in changes {
        push_mark(&mut marks, sign, tasks.get(change.uuid))?;
    }
    Ok(marks)
}

/// The marks of a command that changes these tasks.
pub fn marks_of(
    alloc: Global,
    command: Command,
    tasks: &Tasks,
    changes: &Vec<Change>,
) -> Result<Vec<Mark>, Memory>
    ensures { IfOk result (λ marks. marks.items ≡ spec.marks_of command tasks.now changes.now.items) }
{
    match command {
        Command::Done => marks_by(alloc, Sign::Completed, tasks, changes),
        Command::Delete => marks_by(alloc, Sign::Deleted, tasks, changes),
        _ => Ok(Vec::new(alloc)),
    }
}

// Puts a mark into the signs of its parent, which are read at its first mark.
fn mark_one(
    alloc: Global,
    tasks: &Tasks,
    held: &mut BTreeMap<Uuid, Vec<char>>,
    mark: &Mark,
) -> Result<(), Memory>
    ensures { OnOk result ((marked : TasksValue) → spec.AreHeld tasks.now marked held.old.entries
        → spec.AreHeld tasks.now (spec.mark_one tasks.now marked mark.now) held.new.entries) }
{
    let Some(task) = tasks.get(mark.parent) else {
        return Ok(());
    };
    let there = held.insert(mark.parent, Vec::new(alloc))?;
    let mut signs = signs_or(alloc, there, task)?;
    put_sign(&mut signs, mark.index, mark.sign);
    let _ = held.insert(mark.parent, signs)?;
    Ok(())
}

// The signs of the parents, with all their marks. Each mask is read once.
fn mark_all(
    alloc: Global,
    tasks: &Tasks,
    marks: &Vec<Mark>,
) -> Result<BTreeMap<Uuid, Vec<char>>, Memory>
    ensures { IfOk result (λ held. spec.AreHeld tasks.now (spec.mark_all tasks.now map.empty marks.now.items) held.entries) }
{
    let mut held = BTreeMap::new(alloc);
    for mark in marks {
        mark_one(alloc, tasks, &mut held, mark)?;
    }
    Ok(held)
}

// Puts the change of a parent after others.
fn push_change(
    alloc: Global,
    changes: &mut Vec<Change>,
    now: Moment,
    tasks: &Tasks,
    uuid: Uuid,
    signs: &Vec<char>,
) -> Result<(), Memory>
    ensures { OnOk result (changes.new.items ≡ changes.old.items ++ spec.held_change now uuid signs.now.items (map.get tasks.now uuid)) }
{
    let Some(before) = tasks.get(uuid) else {
        return Ok(());
    };
    let after = with_signs(alloc, signs, before)?;
    let task = stamped(alloc, now, before, after)?;
    changes.push(Change {
        uuid,
        task: Some(task),
    })?;
    Ok(())
}

// The changes of the parents, by the signs that are held for them.
fn changes_of(
    alloc: Global,
    now: Moment,
    tasks: &Tasks,
    held: &BTreeMap<Uuid, Vec<char>>,
) -> Result<Vec<Change>, Memory>
    ensures { IfOk result (λ changes. changes.items ≡ spec.held_changes now tasks.now held.now.entries) }
{
    let mut changes = Vec::new(alloc);
    for (uuid, signs) in held.iter() {
        push_change(alloc, &mut changes, now, tasks, *uuid, signs)?;
    }
    Ok(changes)
}

/// The changes of the parents, in byte order of their uuids. The time grows with the marks, times the logarithm of the tasks, and with the
/// masks of their parents.
pub fn mask_changes(
    alloc: Global,
    now: Moment,
    tasks: &Tasks,
    marks: &Vec<Mark>,
) -> Result<Vec<Change>, Memory>
    ensures { IfOk result (λ changes. changes.items ≡ spec.mask_changes now tasks.now marks.now.items) }
{
    let held = mark_all(alloc, tasks, marks)?;
    changes_of(alloc, now, tasks, &held)
}
