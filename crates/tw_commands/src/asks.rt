// The tasks that hooks are asked about, and what their answers make of changes.
ghost use Rattle.std.specs.Prelude.{◌≡◌, ◌∷◌, ◌++◌, List, IfOk, OnOk};
ghost use Rattle.std.specs.Option.{option_copied};
ghost use Rattle.tw_model.specs.declared.changes.Change.{Change as AnyChange};
ghost use Rattle.tw_commands.specs.Plan.{work_view};
ghost use Rattle.tw_commands.specs.Asks as spec;

use crate::plan::Work;
use std::alloc::Global;
use tw_changes::Request;
use tw_hooks::{Ask, Event};
use tw_model::{Change, TaskMap, Tasks};
use tw_words::Command;
use tw_world::Memory;

// What a command does to the tasks that hooks are asked about.
fn event_of(command: Command) -> Option<Event>
    ensures { result ≡ spec.event_of command }
{
    match command {
        Command::Add | Command::Log | Command::Duplicate => Some(Event::Add),
        Command::Modify
        | Command::Append
        | Command::Prepend
        | Command::Annotate
        | Command::Denotate
        | Command::Done
        | Command::Delete
        | Command::Start
        | Command::Stop => Some(Event::Modify),
        _ => None,
    }
}

/// What a request does to the tasks that hooks are asked about, if it asks. It takes no memory.
pub fn event_in(request: &Request<'_>) -> Option<Event>
    ensures { result ≡ spec.event_in request.now }
{
    if request.settings.hooks() {
        event_of(request.command)
    } else {
        None
    }
}

// Whether hooks are asked about a change.
fn is_asked_in(tasks: &Tasks, change: &Change) -> bool
    ensures { result ≡ spec.is_asked_in tasks.now change.now }
{
    let Some(after) = &change.task else {
        return false;
    };
    match tasks.get(change.uuid) {
        Some(before) => !before.is_same(after),
        None => true,
    }
}

fn copy_or_empty(alloc: Global, task: Option<&TaskMap>) -> Result<TaskMap, Memory>
    ensures { IfOk result (λ copy. copy ≡ spec.or_empty (option_copied task.entry)) }
{
    match task {
        Some(task) => task.copy(alloc),
        None => Ok(TaskMap::new(alloc)),
    }
}

fn ask_in(alloc: Global, tasks: &Tasks, change: &Change) -> Result<Ask, Memory>
    ensures { IfOk result (λ ask. ask ≡ spec.ask_in tasks.now change.now) }
{
    let before = copy_or_empty(alloc, tasks.get(change.uuid))?;
    let after = copy_or_empty(alloc, change.task.as_ref())?;
    Ok(Ask {
        uuid: change.uuid,
        before,
        after,
    })
}

fn push_ask(
    alloc: Global,
    asks: &mut Vec<Ask>,
    tasks: &Tasks,
    change: &Change,
) -> Result<(), Memory>
    ensures { OnOk result (asks.new.items ≡ asks.old.items ++ spec.asks_on tasks.now change.now) }
{
    if is_asked_in(tasks, change) {
        asks.push(ask_in(alloc, tasks, change)?)?;
    }
    Ok(())
}

/// What hooks are asked about changes of these tasks.
pub(crate) fn asks_of(
    alloc: Global,
    tasks: &Tasks,
    changes: &Vec<Change>,
) -> Result<Vec<Ask>, Memory>
    ensures { IfOk result (λ asks. asks.items ≡ spec.asks_of tasks.now changes.now.items) }
{
    let mut asks = Vec::new(alloc);
    for change in changes {
        push_ask(alloc, &mut asks, tasks, change)?;
    }
    Ok(asks)
}

// Puts a change after others, with the first answer if hooks are asked about it. Gives the answers that are left.
fn put_answered<'a>(
    alloc: Global,
    made: &mut Vec<Change>,
    tasks: &Tasks,
    change: Change,
    answers: &'a [TaskMap],
) -> Result<&'a [TaskMap], Memory>
    ensures { IfOk result (λ left. (rest : List AnyChange) → made.new.items ++ spec.answered_all left.now tasks.now rest
        ≡ made.old.items ++ spec.answered_all answers.now tasks.now (change ∷ rest)) }
{
    if let Some((answer, left)) = answers.split_first() {
        if is_asked_in(tasks, &change) {
            let task = Some(answer.copy(alloc)?);
            made.push(Change {
                uuid: change.uuid,
                task,
            })?;
            return Ok(left);
        }
    }
    made.push(change)?;
    Ok(answers)
}

// The changes, where the tasks that hooks are asked about become these.
fn answered_all(
    alloc: Global,
    tasks: &Tasks,
    changes: Vec<Change>,
    answers: &Vec<TaskMap>,
) -> Result<Vec<Change>, Memory>
    ensures { IfOk result (λ made. made.items ≡ spec.answered_all answers.now.items tasks.now changes.items) }
{
    let mut made = Vec::new(alloc);
    let mut left = answers.as_slice();
    for change in changes {
        left = put_answered(alloc, &mut made, tasks, change, left)?;
    }
    Ok(made)
}

/// The step of a plan, where the tasks that hooks are asked about become these.
pub(crate) fn answered_work(
    alloc: Global,
    tasks: &Tasks,
    work: Work,
    answers: &Vec<TaskMap>,
) -> Result<Work, Memory>
    ensures { IfOk result (λ made. work_view made ≡ spec.answered_work answers.now.items tasks.now (work_view work)) }
{
    match work {
        Work::Changes {
            renumber,
            changes,
            marks,
        } => {
            let changes = answered_all(alloc, tasks, changes, answers)?;
            Ok(Work::Changes {
                renumber,
                changes,
                marks,
            })
        }
        Work::TakeBack => Ok(Work::TakeBack),
    }
}
