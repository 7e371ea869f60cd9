// `duplicate`: copies of tasks, each of a drawn uuid.
ghost use Rattle.std.specs.Prelude.{◌≡◌, List, ℕ, ◌∷◌, None, Some, IfOk, OnOk, false};
ghost use Rattle.std.specs.FinMap as map;
ghost use Rattle.tw_model.specs.Maps.{set_at};
ghost use Rattle.tw_changes.specs.Makes.Duplicate as spec;
ghost use Rattle.tw_changes.specs.Makes.Duplicate.{copied, copies_beside};

use crate::makes::made_task;
use crate::request::draw;
use std::alloc::Global;
use tw_model::{TaskMap, Tasks};
use tw_words::{Modification, apply};
use tw_world::{IdWords, Memory, Moment};
use uuid::Uuid;

fn take_off(alloc: Global, task: &mut TaskMap, property: &str) -> Result<(), Memory>
    ensures { OnOk result (task.new ≡ set_at task.old property.now None) }
{
    task.set(alloc, property, None)
}

fn take_all_off(alloc: Global, copy: &mut TaskMap) -> Result<(), Memory>
    ensures { OnOk result (copy.new ≡ spec.without spec.left_off copy.old) }
{
    take_off(alloc, copy, "start")?;
    take_off(alloc, copy, "end")?;
    take_off(alloc, copy, "mask")?;
    take_off(alloc, copy, "imask")?;
    take_off(alloc, copy, "parent")?;
    take_off(alloc, copy, "recur")
}

// A task without what a copy does not take over.
fn left_off(alloc: Global, task: &TaskMap) -> Result<TaskMap, Memory>
    ensures { IfOk result (λ copy. copy ≡ spec.without spec.left_off task.now) }
{
    let mut copy = task.copy(alloc)?;
    take_all_off(alloc, &mut copy)?;
    Ok(copy)
}

// A copy of a task, made at this moment.
fn copied(
    alloc: Global,
    words: &Vec<Modification>,
    now: Moment,
    task: &TaskMap,
) -> Result<TaskMap, Memory>
    ensures { IfOk result (λ copy. copy ≡ copied words.now.items now task.now) }
{
    let copy = made_task(alloc, now, "pending", left_off(alloc, task)?)?;
    apply(alloc, words, &copy)
}

// Whether a uuid has a task already, or was drawn before.
fn is_taken(tasks: &Tasks, made: &Tasks, uuid: Uuid) -> bool
    ensures { result ≡ spec.is_taken tasks.now made.now uuid }
{
    tasks.get(uuid).is_some() || made.get(uuid).is_some()
}

// Puts a copy beside others, where its uuid has none.
fn put_copy(tasks: &Tasks, made: &mut Tasks, uuid: Uuid, copy: TaskMap) -> Result<(), Memory>
    requires { spec.is_taken tasks.now made.old uuid ≡ false }
    ensures { OnOk result (made.new ≡ map.insert made.old uuid copy) }
{
    let _ = made.insert(uuid, copy)?;
    Ok(())
}

// Copies the task of a uuid, if it has one. Answers the uuid that was drawn if that is taken.
fn copy_one(
    alloc: Global,
    words: &Vec<Modification>,
    tasks: &Tasks,
    now: Moment,
    ids: &mut IdWords,
    made: &mut Tasks,
    uuid: Uuid,
) -> Result<Option<Uuid>, Memory>
    ensures goes_on { let copies = copies_beside words.now.items now in IfOk result (λ taken. taken ≡ None
        → (us : List (List ℕ)) → copies ids.old tasks.now made.old (uuid ∷ us) ≡ copies ids.new tasks.now made.new us) }
    ensures stops { let copies = copies_beside words.now.items now in IfOk result (λ taken. (d : List ℕ) → taken ≡ Some d
        → (us : List (List ℕ)) → copies ids.old tasks.now made.old (uuid ∷ us) ≡ spec.stopped d ids.new) }
{
    let Some(task) = tasks.get(uuid) else {
        return Ok(None);
    };
    let new = draw(ids);
    if is_taken(tasks, made, new) {
        return Ok(Some(new));
    }
    let copy = copied(alloc, words, now, task)?;
    put_copy(tasks, made, new, copy)?;
    Ok(None)
}

/// Copies of the tasks of these uuids, or the uuid that was drawn and is taken.
pub fn copies(
    alloc: Global,
    words: &Vec<Modification>,
    tasks: &Tasks,
    now: Moment,
    ids: &mut IdWords,
    rows: &Vec<Uuid>,
) -> Result<Result<Tasks, Uuid>, Memory>
    ensures { IfOk result (λ made. spec.copies_view made ids.new
        ≡ copies_beside words.now.items now ids.old tasks.now map.empty rows.now.items) }
{
    let mut made = Tasks::new(alloc);
    for uuid in rows {
        if let Some(taken) = copy_one(alloc, words, tasks, now, ids, &mut made, *uuid)? {
            return Ok(Err(taken));
        }
    }
    Ok(Ok(made))
}
