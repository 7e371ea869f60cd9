// Intervals that end because of tasks.
ghost use Rattle.std.specs.Prelude.{◌≡◌, ◌++◌, codes, IfOk, OnOk};
ghost use Rattle.std.specs.List.{flat_map};
ghost use Rattle.std.specs.Option.{option_copied};
ghost use Rattle.tw_urgency.specs.Stored.{moment_at};
ghost use Rattle.timew_bridge.specs.Track.{ended, ended_if, let_go_at, let_go_by, let_go, released, given_way};
ghost use Rattle.timew_bridge.specs.Known.{known_lets_go, known_end, released_known};

use crate::active::start_of;
use crate::known::{Known, find_known};
use crate::named::uuid_in;
use std::alloc::Global;
use timew_interval::Interval;
use tw_model::{TaskMap, Tasks};
use tw_urgency::moment_at;
use tw_world::Memory;
use uuid::Uuid;

// Adds an interval that ends at a second to others, or none if it has no second before that.
fn push_ended(out: &mut Vec<Interval>, end: u64, row: Interval) -> Result<(), Memory>
    ensures { OnOk result (out.new.items ≡ out.old.items ++ ended end row) }
{
    if row.start < end {
        let mut row = row;
        row.end = Some(end);
        out.push(row)?;
    }
    Ok(())
}

fn push_ended_if(out: &mut Vec<Interval>, end: Option<u64>, row: Interval) -> Result<(), Memory>
    ensures { OnOk result (out.new.items ≡ out.old.items ++ ended_if end row) }
{
    match end {
        Some(end) => push_ended(out, end, row),
        None => {
            out.push(row)?;
            Ok(())
        }
    }
}

fn let_go_at(start: u64, now: u64, modified: Option<u64>) -> u64
    ensures { result ≡ let_go_at start now modified }
{
    match modified {
        Some(at) if start < at && at <= now => at,
        _ => now,
    }
}

// When an interval ends whose task was not started or is not there.
fn lets_go(start: u64, now: u64, known: Option<&Known>) -> Option<u64>
    ensures { result ≡ known_lets_go start now (option_copied known.entry) }
{
    match known {
        Some(task) if task.is_started => None,
        Some(task) => Some(let_go_at(start, now, task.modified())),
        None => Some(now),
    }
}

fn known_end(known: &[Known], now: u64, start: u64, uuid: Option<Uuid>) -> Option<u64>
    ensures { result ≡ known_end known.now now start uuid }
{
    match uuid {
        Some(uuid) => lets_go(start, now, find_known(known, uuid)),
        None => None,
    }
}

fn push_released(
    out: &mut Vec<Interval>,
    known: &[Known],
    now: u64,
    row: Interval,
) -> Result<(), Memory>
    ensures { OnOk result (out.new.items ≡ out.old.items ++ released_known known.now now row) }
{
    match row.end {
        Some(_) => out.push(row)?,
        None => {
            let end = known_end(known, now, row.start, uuid_in(row.annotation.as_str()));
            push_ended_if(out, end, row)?;
        }
    }
    Ok(())
}

/// The rows, with an open one ended if its task is known to be active no more.
pub fn all_released(
    alloc: Global,
    known: &[Known],
    now: u64,
    rows: Vec<Interval>,
) -> Result<Vec<Interval>, Memory>
    ensures { IfOk result (λ out. out.items ≡ flat_map (released_known known.now now) rows.items) }
{
    let mut out = Vec::with_capacity(alloc, rows.len().saturating_add(1))?;
    for row in rows {
        push_released(&mut out, known, now, row)?;
    }
    Ok(out)
}

// When an interval of this task ends.
fn let_go_by(start: u64, now: u64, task: &TaskMap) -> Option<u64>
    ensures { result ≡ let_go_by start now (moment_at (codes "modified") task.now) (moment_at (codes "start") task.now) }
{
    match start_of(task) {
        Some(_) => None,
        None => Some(let_go_at(start, now, moment_at(task, "modified"))),
    }
}

fn let_go(tasks: &Tasks, now: u64, start: u64, uuid: Option<Uuid>) -> Option<u64>
    ensures { result ≡ let_go tasks.now now start uuid }
{
    match tasks.get(uuid?) {
        Some(task) => let_go_by(start, now, task),
        None => Some(now),
    }
}

fn push_let_go(
    out: &mut Vec<Interval>,
    tasks: &Tasks,
    now: u64,
    row: Interval,
) -> Result<(), Memory>
    ensures { OnOk result (out.new.items ≡ out.old.items ++ released tasks.now now row) }
{
    match row.end {
        Some(_) => out.push(row)?,
        None => {
            let end = let_go(tasks, now, row.start, uuid_in(row.annotation.as_str()));
            push_ended_if(out, end, row)?;
        }
    }
    Ok(())
}

/// The rows, with an open one ended if its task is active no more.
pub fn all_let_go(
    alloc: Global,
    tasks: &Tasks,
    now: u64,
    rows: Vec<Interval>,
) -> Result<Vec<Interval>, Memory>
    ensures { IfOk result (λ out. out.items ≡ flat_map (released tasks.now now) rows.items) }
{
    let mut out = Vec::with_capacity(alloc, rows.len().saturating_add(1))?;
    for row in rows {
        push_let_go(&mut out, tasks, now, row)?;
    }
    Ok(out)
}

fn push_given_way(
    out: &mut Vec<Interval>,
    start: u64,
    now: u64,
    row: Interval,
) -> Result<(), Memory>
    ensures { OnOk result (out.new.items ≡ out.old.items ++ given_way start now row) }
{
    match row.end {
        Some(_) => out.push(row)?,
        None => {
            let end = if row.start < start { start } else { now };
            push_ended(out, end, row)?;
        }
    }
    Ok(())
}

/// The rows, with an open one ended when a task starts, or now if it began then or later.
pub fn all_given_way(
    alloc: Global,
    start: u64,
    now: u64,
    rows: Vec<Interval>,
) -> Result<Vec<Interval>, Memory>
    ensures { IfOk result (λ out. out.items ≡ flat_map (given_way start now) rows.items) }
{
    let mut out = Vec::with_capacity(alloc, rows.len().saturating_add(1))?;
    for row in rows {
        push_given_way(&mut out, start, now, row)?;
    }
    Ok(out)
}
