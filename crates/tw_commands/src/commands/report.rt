// The reports.
ghost use Rattle.std.specs.Prelude.{◌≡◌, ◌++◌, ◌∷◌, [], Ok as AnOk, IfOk, OnOk, filter, is_none};
ghost use Rattle.std.specs.Option.{option_copied};
ghost use Rattle.std.specs.List.{list_any};
ghost use Rattle.std.specs.FinMap as map;
ghost use Rattle.tw_replica.specs.Replica.{held_state};
ghost use Rattle.tw_replica.specs.Prepared.{prepared_state};
ghost use Rattle.tw_filter.specs.Selected.{selected};
ghost use Rattle.tw_commands.specs.Plan.{planned};
ghost use Rattle.tw_commands.specs.Texts.{texted};
ghost use Rattle.tw_commands.specs.Reports as spec;

use crate::plan::{Plan, Show, Work};
use std::alloc::Global;
use tw_changes::{Refusal, Request};
use tw_filter::{Looks, select};
use tw_model::{Change, TaskMap, Tasks};
use tw_recur::due_changes;
use tw_replica::{Prepared, Replica};
use tw_report::{Report, report_text};
use tw_terms::View;
use tw_urgency::{Status, is_blocked, status_of};
use tw_world::Memory;
use uuid::Uuid;

// Whether a task belongs to a report, whatever its filter says.
fn belongs(report: Report, tasks: &Tasks, now: u64, task: &TaskMap) -> bool
    ensures { result ≡ spec.belongs report tasks.now now task.now }
{
    match report {
        Report::All => true,
        Report::Blocked => is_blocked(tasks, task),
        Report::List | Report::Next => matches!(status_of(task, now), Status::Pending),
        Report::Completed => matches!(status_of(task, now), Status::Completed),
        Report::Waiting => matches!(status_of(task, now), Status::Waiting),
    }
}

fn is_row(report: Report, tasks: &Tasks, now: u64, uuid: Uuid) -> bool
    ensures { result ≡ spec.is_row_there report tasks.now now (map.get tasks.now uuid) }
{
    match tasks.get(uuid) {
        Some(task) => belongs(report, tasks, now, task),
        None => false,
    }
}

/// Those of these tasks that belong to a report.
pub(crate) fn rows_of(
    alloc: Global,
    report: Report,
    tasks: &Tasks,
    now: u64,
    selected: &Vec<Uuid>,
) -> Result<Vec<Uuid>, Memory>
    ensures { IfOk result (λ rows. rows.items ≡ spec.rows_of report tasks.now now selected.now.items) }
{
    let mut rows = Vec::new(alloc);
    for uuid in selected {
        if is_row(report, tasks, now, *uuid) {
            rows.push(*uuid)?;
        }
    }
    Ok(rows)
}

fn has_vacant(places: &Vec<Option<Uuid>>) -> bool
    ensures { result ≡ spec.has_vacant places.now.items }
{
    for place in places {
        if place.is_none() {
            return true;
        }
    }
    false
}

fn copied_places(alloc: Global, places: &Vec<Option<Uuid>>) -> Result<Vec<Option<Uuid>>, Memory>
    ensures { IfOk result (λ copy. copy.items ≡ places.now.items) }
{
    Ok(places.as_slice().to_vec(alloc)?)
}

// The instances that a report makes, if that is on.
fn instances_in(
    alloc: Global,
    request: &Request<'_>,
    replica: &Replica,
) -> Result<Vec<Change>, Memory>
    ensures { IfOk result (λ changes. changes.items ≡ spec.instances_in request.now (held_state replica.now)) }
{
    if !request.settings.recurrence() {
        return Ok(Vec::new(alloc));
    }
    due_changes(
        alloc,
        replica.tasks(),
        request.at.seconds,
        request.zone,
        request.settings.recurrence_limit(),
    )
}

/// What a report is to do (task(1), "reports").
pub(crate) fn reporting(
    alloc: Global,
    report: Report,
    request: &Request<'_>,
    replica: &Replica,
) -> Result<Result<Plan, Refusal>, Memory>
    ensures { IfOk result (λ plan. planned plan ≡ AnOk (spec.reporting report request.now (held_state replica.now))) }
{
    let changes = instances_in(alloc, request, replica)?;
    let numbers = copied_places(alloc, replica.numbers())?;
    Ok(Ok(Plan {
        work: Work::Changes {
            renumber: request.settings.gc() && has_vacant(replica.numbers()),
            changes,
            marks: Vec::new(alloc),
        },
        show: Show::Report { report, numbers },
    }))
}

// The tasks that a report shows after its step, whose words name them by the numbers from before.
fn reported_rows(
    alloc: Global,
    request: &Request<'_>,
    report: Report,
    before: &Vec<Option<Uuid>>,
    prepared: &Prepared,
) -> Result<Vec<Uuid>, Memory>
    ensures { let new = prepared_state prepared.now in IfOk result (λ rows. rows.items
        ≡ spec.rows_of report new.tasks request.now.at.seconds (selected (spec.scene_between request.now before.now.items new) request.now.filter)) }
{
    let view = View {
        tasks: prepared.tasks(),
        numbers: before,
        now: request.at,
        zone: request.zone,
    };
    let selected = select(alloc, &request.filter, &view, &mut Looks::new())?;
    rows_of(
        alloc,
        report,
        prepared.tasks(),
        request.at.seconds,
        &selected,
    )
}

// A report of these tasks, once its step is made in memory. It needs one.
fn report_on(
    alloc: Global,
    request: &Request<'_>,
    report: Report,
    rows: &Vec<Uuid>,
    prepared: &Prepared,
) -> Result<Result<Vec<u8>, Refusal>, Memory>
    ensures { IfOk result (λ text. texted text ≡ spec.report_on report rows.now.items (spec.sight_in request.now (prepared_state prepared.now))) }
{
    if rows.len() == 0 {
        return Ok(Err(Refusal::NoMatch));
    }
    let view = View {
        tasks: prepared.tasks(),
        numbers: prepared.numbers(),
        now: request.at,
        zone: request.zone,
    };
    let weights = request.settings.weights();
    Ok(Ok(report_text(alloc, report, rows, &view, &weights)?))
}

/// What a report prints once its step is made in memory.
pub(crate) fn reported(
    alloc: Global,
    request: &Request<'_>,
    report: Report,
    before: &Vec<Option<Uuid>>,
    prepared: &Prepared,
) -> Result<Result<Vec<u8>, Refusal>, Memory>
    ensures { IfOk result (λ text. texted text ≡ spec.reported request.now report before.now.items (prepared_state prepared.now)) }
{
    let rows = reported_rows(alloc, request, report, before, prepared)?;
    report_on(alloc, request, report, &rows, prepared)
}
