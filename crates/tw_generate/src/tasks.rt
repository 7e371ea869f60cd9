// The tasks that are generated, by their numbers.
ghost use Rattle.std.specs.Prelude.{◌≡◌, ◌<◌, ◌+◌, ◌*◌, IfOk, OnOk};
ghost use Rattle.std.specs.Fmt.{decimal};
ghost use Rattle.std.specs.FinMap.{insert};
ghost use Rattle.tw_generate.specs.Tasks as spec;

use std::alloc::Global;
use tw_model::TaskMap;
use tw_world::{IdWords, Memory};
use uuid::Uuid;

/// How far the uuids of two seeds lie from each other.
pub(crate) const TWO_TO_64: u128 = 18_446_744_073_709_551_616;

/// The uuid of a task.
pub(crate) fn uuid_of(seed: u64, i: u64) -> Uuid
    ensures { result ≡ spec.uuid_of seed i }
{
    let start = seed as u128 * TWO_TO_64 + i as u128;
    let mut ids = IdWords { start, step: 1 };
    Uuid::from_bytes(ids.next())
}

fn priority_of(i: u64) -> &'static str
    ensures { result.now ≡ spec.priority_of i }
{
    if i % 3 == 0 {
        "H"
    } else if i % 3 == 1 {
        "M"
    } else {
        "L"
    }
}

fn set_number(alloc: Global, task: &mut TaskMap, name: &str, number: u64) -> Result<(), Memory>
    ensures { OnOk result (task.new ≡ insert task.old name.now (decimal number)) }
{
    let digits = format!(in alloc; "{}", number)?;
    task.set(alloc, name, Some(digits.as_str()))
}

fn set_words(alloc: Global, task: &mut TaskMap, seed: u64, i: u64) -> Result<(), Memory>
    ensures { OnOk result (task.new ≡ spec.worded seed i task.old) }
{
    let description = format!(in alloc; "Task {}", i)?;
    task.set(alloc, "description", Some(description.as_str()))?;
    let project = format!(in alloc; "p{}", (i as u128 + seed as u128) % 10)?;
    task.set(alloc, "project", Some(project.as_str()))
}

fn set_moments(alloc: Global, task: &mut TaskMap, i: u64) -> Result<(), Memory>
    requires { i < 10000 }
    ensures { OnOk result (task.new ≡ spec.timed i task.old) }
{
    set_number(alloc, task, "due", 1_800_000_000 + 60 * i)?;
    set_number(alloc, task, "entry", 1_700_000_000 + i)?;
    set_number(alloc, task, "modified", 1_700_000_000 + i)
}

fn set_marks(alloc: Global, task: &mut TaskMap, i: u64) -> Result<(), Memory>
    ensures { OnOk result (task.new ≡ spec.marked i task.old) }
{
    task.set(alloc, "priority", Some(priority_of(i)))?;
    task.set(alloc, "status", Some("pending"))?;
    task.set(alloc, "tag_a", Some(""))
}

/// A task.
pub(crate) fn task_of(alloc: Global, seed: u64, i: u64) -> Result<TaskMap, Memory>
    requires { i < 10000 }
    ensures { IfOk result (λ task. task ≡ spec.task_of seed i) }
{
    let mut task = TaskMap::new(alloc);
    set_words(alloc, &mut task, seed, i)?;
    set_moments(alloc, &mut task, i)?;
    set_marks(alloc, &mut task, i)?;
    Ok(task)
}

/// The same with another project.
pub(crate) fn moved_task(alloc: Global, seed: u64, i: u64, project: &str) -> Result<TaskMap, Memory>
    requires { i < 10000 }
    ensures { IfOk result (λ task. task ≡ spec.moved_task seed i project.now) }
{
    let mut task = task_of(alloc, seed, i)?;
    task.set(alloc, "project", Some(project))?;
    Ok(task)
}
