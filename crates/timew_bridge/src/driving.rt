// The intervals after tasks have driven them.
ghost use Rattle.std.specs.Prelude.{◌≡◌, ◌≤◌, ◌<◌, ◌+◌, ◌++◌, ◌∷◌, [], length, take, IfOk, Some};
ghost use Rattle.std.specs.FinMap.{get};
ghost use Rattle.std.specs.List.{AllByRecursion};
ghost use Rattle.tw_world.specs.declared.moment.TheConstants.{MOMENT_LIMIT};
ghost use Rattle.timew_interval.specs.Edit.{edited};
ghost use Rattle.timew_interval.specs.Interval.{AreRows};
ghost use Rattle.timew_bridge.specs.Active.{latest};
ghost use Rattle.timew_bridge.specs.Candidates.{ChangedAmong};
ghost use Rattle.timew_bridge.specs.Tail.{IsClosed, IsTailOf};
ghost use Rattle.timew_bridge.specs.Label.{label_of};
ghost use Rattle.timew_bridge.specs.Track.{is_tracked, followed, tracked};
ghost use Rattle.timew_bridge.specs.Known.{AreDrivers, opened_with};
ghost use Rattle.tw_model.specs.Ops.{TasksValue};
ghost use Rattle.uuid.specs.Text.{hyphenated_text, lower};

use crate::active::{Active, latest};
use crate::candidates::latest_among;
use crate::closing::{all_given_way, all_let_go, all_released};
use crate::drivers::Drivers;
use crate::free::{free_from, is_tracked};
use crate::label::label_of;
use std::alloc::Global;
use std::collections::BTreeSet;
use timew_interval::{Edit, Interval, Intervals, Texts};
use tw_model::Tasks;
use tw_world::{Memory, Moment, Text};
use uuid::Uuid;

fn copy_row(alloc: Global, row: &Interval) -> Result<Interval, Memory>
    ensures { IfOk result (λ r. r ≡ row.now) }
{
    Ok(Interval {
        start: row.start,
        end: row.end,
        tags: row.tags.copy(alloc)?,
        annotation: row.annotation.copy(alloc)?,
    })
}

// The rows once more, with room for so many others.
fn copy_rows(alloc: Global, rows: &[Interval], more: usize) -> Result<Vec<Interval>, Memory>
    ensures { IfOk result (λ copies. copies.items ≡ rows.now) }
{
    let mut copies = Vec::with_capacity(alloc, rows.len().saturating_add(more))?;
    for row in rows {
        copies.push(copy_row(alloc, row)?)?;
    }
    Ok(copies)
}

// The open interval of a task with this label.
fn opened(alloc: Global, label: &Texts, from: u64, active: Active) -> Result<Interval, Memory>
    ensures { IfOk result (λ r. r ≡ opened_with label.now from active) }
{
    Ok(Interval {
        start: from,
        end: None,
        tags: label.copy(alloc)?,
        annotation: Text::from_str(
            alloc,
            active
                .uuid
                .hyphenated()
                .encode_lower(&mut Uuid::encode_buffer()),
        )?,
    })
}

// Whether an interval of the task starts when the task was started, or later.
fn is_followed(front: &[Interval], last: &[Interval], active: Active) -> bool
    ensures { result ≡ is_tracked (hyphenated_text lower active.uuid) active.start (front.now ++ last.now) }
{
    let mut buffer = Uuid::encode_buffer();
    let name = active.uuid.hyphenated().encode_lower(&mut buffer);
    is_tracked(last, name, active.start) || is_tracked(front, name, active.start)
}

// The rows after others, once the task that was started last has its interval.
fn follow(
    alloc: Global,
    label: &Texts,
    active: Active,
    front: &[Interval],
    last: Vec<Interval>,
    now: u64,
) -> Result<Vec<Interval>, Memory>
    requires { AllByRecursion IsClosed front.now }
    ensures { IfOk result (λ next. (tasks : TasksValue) → label.now ≡ label_of (get tasks active.uuid)
        → front.now ++ next.items ≡ followed tasks now (Some active) (front.now ++ last.items)) }
{
    if is_followed(front, &last, active) {
        return Ok(last);
    }
    let mut last = all_given_way(alloc, active.start, now, last)?;
    let from = free_from(free_from(active.start, front), &last);
    if from <= now {
        last.push(opened(alloc, label, from, active)?)?;
    }
    Ok(last)
}

// The rows after others, none of which is open, once tasks have driven them.
fn drive(
    alloc: Global,
    drivers: &Drivers,
    front: &[Interval],
    last: Vec<Interval>,
    now: u64,
) -> Result<Vec<Interval>, Memory>
    requires { AllByRecursion IsClosed front.now }
    ensures { IfOk result (λ next. (tasks : TasksValue) → AreDrivers tasks now drivers.now
        → front.now ++ next.items ≡ tracked tasks (front.now ++ last.items) now) }
{
    let last = all_released(alloc, &drivers.known, now, last)?;
    match drivers.active {
        Some(active) => Ok(follow(alloc, &drivers.label, active, front, last, now)?),
        None => Ok(last),
    }
}

// The same by the tasks themselves, of which this one was started last.
fn drive_by(
    alloc: Global,
    tasks: &Tasks,
    active: Option<Active>,
    front: &[Interval],
    last: Vec<Interval>,
    now: u64,
) -> Result<Vec<Interval>, Memory>
    requires closed { AllByRecursion IsClosed front.now }
    requires latest { active ≡ latest tasks.now now }
    ensures { IfOk result (λ next. front.now ++ next.items ≡ tracked tasks.now (front.now ++ last.items) now) }
{
    let last = all_let_go(alloc, tasks, now, last)?;
    match active {
        Some(active) => {
            let label = label_of(alloc, tasks, active.uuid)?;
            Ok(follow(alloc, &label, active, front, last, now)?)
        }
        None => Ok(last),
    }
}

// The rows without the open one.
fn closed_of(rows: &[Interval]) -> &[Interval]
    requires { AreRows rows.now }
    ensures front { result.now ≡ take (length result.now) rows.now }
    ensures closed { AllByRecursion IsClosed result.now }
{
    match rows {
        [front @ .., last] if last.end.is_none() => front,
        _ => rows,
    }
}

/// The edit that leaves intervals as they are, and by which tasks drive them further: the open one, if there is one.
pub fn tail_of(alloc: Global, rows: &Intervals) -> Result<Edit, Memory>
    ensures same { IfOk result (λ e. edited e rows.now ≡ rows.now) }
    ensures tail { IfOk result (IsTailOf rows.now) }
{
    let rows = rows.as_slice();
    let at = closed_of(rows).len();
    let (_, last) = rows.split_at(at);
    Ok(Edit {
        at,
        count: rows.len() - at,
        rows: copy_rows(alloc, last, 2)?,
    })
}

/// An edit of intervals, driven further by tasks at a moment. An open interval of a task that is active no more ends, and one is kept
/// open for the task that was started last, under its description, its project and its tags, with its uuid as the annotation.
/// A second use at the same moment changes nothing.
pub fn track_tail(
    alloc: Global,
    drivers: &Drivers,
    rows: &Intervals,
    edit: Edit,
    now: Moment,
) -> Result<Edit, Memory>
    requires tail { IsTailOf rows.now edit }
    requires known { (tasks : TasksValue) × AreDrivers tasks now.seconds drivers.now }
    ensures tracked { IfOk result (λ e. (tasks : TasksValue) → AreDrivers tasks now.seconds drivers.now
        → edited e rows.now ≡ tracked tasks (edited edit rows.now) now.seconds) }
    ensures tail { IfOk result (IsTailOf rows.now) }
{
    let Edit {
        at,
        count,
        rows: last,
    } = edit;
    let (front, _) = rows.as_slice().split_at(at);
    let rows = drive(alloc, drivers, front, last, now.seconds)?;
    Ok(Edit { at, count, rows })
}

fn track_tail_to(
    alloc: Global,
    tasks: &Tasks,
    active: Option<Active>,
    rows: &Intervals,
    edit: Edit,
    now: Moment,
) -> Result<Edit, Memory>
    requires tail { IsTailOf rows.now edit }
    requires latest { active ≡ latest tasks.now now.seconds }
    ensures tracked { IfOk result (λ e. edited e rows.now ≡ tracked tasks.now (edited edit rows.now) now.seconds) }
    ensures tail { IfOk result (IsTailOf rows.now) }
{
    let Edit {
        at,
        count,
        rows: last,
    } = edit;
    let (front, _) = rows.as_slice().split_at(at);
    let rows = drive_by(alloc, tasks, active, front, last, now.seconds)?;
    Ok(Edit { at, count, rows })
}

/// The same by the tasks themselves, of which it looks at the start of each. It takes no memory for each task.
pub fn track_tail_by(
    alloc: Global,
    tasks: &Tasks,
    rows: &Intervals,
    edit: Edit,
    now: Moment,
) -> Result<Edit, Memory>
    requires { IsTailOf rows.now edit }
    ensures tracked { IfOk result (λ e. edited e rows.now ≡ tracked tasks.now (edited edit rows.now) now.seconds) }
    ensures tail { IfOk result (IsTailOf rows.now) }
{
    track_tail_to(alloc, tasks, latest(tasks, now.seconds), rows, edit, now)
}

/// The same by the tasks after a command that changed none but the named ones. It looks at these and at the ones that were active before,
/// in time that grows with their number and the logarithm of the number of tasks.
pub fn track_tail_among(
    alloc: Global,
    before: &Drivers,
    named: &BTreeSet<Uuid>,
    tasks: &Tasks,
    rows: &Intervals,
    edit: Edit,
    now: Moment,
) -> Result<Edit, Memory>
    requires tail { IsTailOf rows.now edit }
    requires changed { (old : TasksValue) × AreDrivers old now.seconds before.now × ChangedAmong named.now.keys old tasks.now }
    ensures tracked { IfOk result (λ e. edited e rows.now ≡ tracked tasks.now (edited edit rows.now) now.seconds) }
    ensures tail { IfOk result (IsTailOf rows.now) }
{
    let active = latest_among(alloc, before, named, tasks, now.seconds)?;
    track_tail_to(alloc, tasks, active, rows, edit, now)
}

/// The intervals after tasks have driven them at a moment, as `track_tail_by` does an edit.
pub fn track(
    alloc: Global,
    tasks: &Tasks,
    rows: &Intervals,
    now: Moment,
) -> Result<Intervals, Memory>
    ensures { IfOk result (λ next. next ≡ tracked tasks.now rows.now now.seconds) }
{
    let edit = track_tail_by(alloc, tasks, rows, tail_of(alloc, rows)?, now)?;
    let copies = copy_rows(alloc, rows.as_slice(), edit.rows.len())?;
    Intervals::from_rows(copies).edited(edit)
}
