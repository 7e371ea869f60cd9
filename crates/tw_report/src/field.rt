// What reports show of a task.
ghost use Rattle.std.specs.Prelude.{◌≡◌, ◌<◌, IfOk, IfSome, string_bytes, codes};
ghost use Rattle.std.specs.Option.{option_copied};
ghost use Rattle.std.specs.FinMap.{get};
ghost use Rattle.uuid.specs.Text.{hyphenated_text, lower};
ghost use Rattle.tw_text.specs.Decimal.{decimal3};
ghost use Rattle.tw_urgency.specs.Stored.{moment_at};
ghost use Rattle.tw_urgency.specs.Status.{status_of};
ghost use Rattle.tw_report.specs.Sight.{IsLook, sight_in};
ghost use Rattle.tw_report.specs.Fields.{fields_of, heading, is_right, number_text, day_text, value_text, status_text, field_text};

use crate::look::{Look, id_in, urgency_in};
use crate::report::Report;
use std::alloc::Global;
use std::str;
use tw_model::TaskMap;
use tw_text::{Column, cell, put_decimal3};
use tw_time::{Zone, print_day};
use tw_urgency::{Status, moment_at, status_of};
use tw_world::{MOMENT_LIMIT, Memory};
use uuid::Uuid;

/// What a report shows of a task.
#[derive(Clone, Copy)]
pub(crate) enum Field {
    Id,
    Urgency,
    Project,
    Priority,
    Due,
    Ended,
    Wait,
    Status,
    Uuid,
    Description,
}

const LIST: [Field; 5] = [
    Field::Id,
    Field::Project,
    Field::Priority,
    Field::Due,
    Field::Description,
];

const NEXT: [Field; 5] = [
    Field::Id,
    Field::Urgency,
    Field::Project,
    Field::Due,
    Field::Description,
];

const ALL: [Field; 4] = [Field::Id, Field::Status, Field::Uuid, Field::Description];

const COMPLETED: [Field; 3] = [Field::Uuid, Field::Ended, Field::Description];

const WAITING: [Field; 3] = [Field::Id, Field::Wait, Field::Description];

const BLOCKED: [Field; 3] = [Field::Id, Field::Due, Field::Description];

/// What a report shows of each task, from the left.
pub(crate) fn fields_of(report: Report) -> &'static [Field]
    ensures { result.now ≡ fields_of report }
{
    match report {
        Report::List => &LIST,
        Report::Next => &NEXT,
        Report::All => &ALL,
        Report::Completed => &COMPLETED,
        Report::Waiting => &WAITING,
        Report::Blocked => &BLOCKED,
    }
}

fn heading(field: Field) -> &'static str
    ensures { result.now ≡ heading field }
{
    match field {
        Field::Id => "ID",
        Field::Urgency => "Urg",
        Field::Project => "Project",
        Field::Priority => "Pri",
        Field::Due => "Due",
        Field::Ended => "Completed",
        Field::Wait => "Wait",
        Field::Status => "Status",
        Field::Uuid => "UUID",
        Field::Description => "Description",
    }
}

fn is_right(field: Field) -> bool
    ensures { result ≡ is_right field }
{
    matches!(field, Field::Id | Field::Urgency)
}

/// The column of what a report shows.
pub(crate) fn column(field: Field) -> Column
    ensures heading { result.heading.now ≡ heading field }
    ensures side { result.is_right ≡ is_right field }
{
    Column {
        heading: heading(field),
        is_right: is_right(field),
    }
}

pub(crate) fn number_text(alloc: Global, number: Option<u64>) -> Result<String, Memory>
    ensures { IfOk result (λ s. string_bytes s ≡ number_text number) }
{
    match number {
        Some(n) => Ok(format!(in alloc; "{n}")?),
        None => Ok(String::new(alloc)),
    }
}

fn day_text(alloc: Global, at: Option<u64>, zone: &Zone) -> Result<String, Memory>
    requires { IfSome at (λ n. n < MOMENT_LIMIT) }
    ensures { IfOk result (λ s. string_bytes s ≡ day_text zone.now at) }
{
    match at {
        Some(at) => Ok(String::from_str(alloc, str::from_utf8(&print_day(at, zone)).unwrap())?),
        None => Ok(String::new(alloc)),
    }
}

fn value_text(alloc: Global, value: Option<&str>) -> Result<String, Memory>
    ensures { IfOk result (λ s. string_bytes s ≡ value_text (option_copied value.entry)) }
{
    match value {
        Some(value) => cell(alloc, value),
        None => Ok(String::new(alloc)),
    }
}

fn status_text(alloc: Global, status: Status, stored: Option<&str>) -> Result<String, Memory>
    ensures { IfOk result (λ s. string_bytes s ≡ status_text status (option_copied stored.entry)) }
{
    match status {
        Status::Pending => Ok(String::from_str(alloc, "pending")?),
        Status::Waiting => Ok(String::from_str(alloc, "waiting")?),
        Status::Completed => Ok(String::from_str(alloc, "completed")?),
        Status::Deleted => Ok(String::from_str(alloc, "deleted")?),
        Status::Recurring => Ok(String::from_str(alloc, "recurring")?),
        Status::Other => value_text(alloc, stored),
    }
}

pub(crate) fn urgency_text(alloc: Global, thousandths: i64) -> Result<String, Memory>
    ensures { IfOk result (λ s. string_bytes s ≡ decimal3 thousandths) }
{
    let text = put_decimal3(thousandths);
    Ok(String::from_str(
        alloc,
        str::from_utf8(&text.bytes[..text.len as usize]).unwrap(),
    )?)
}

fn uuid_text(alloc: Global, uuid: Uuid) -> Result<String, Memory>
    ensures { IfOk result (λ s. string_bytes s ≡ hyphenated_text lower uuid) }
{
    Ok(String::from_str(
        alloc,
        uuid.hyphenated().encode_lower(&mut Uuid::encode_buffer()),
    )?)
}

fn status_cell(alloc: Global, task: &TaskMap, now: u64) -> Result<String, Memory>
    ensures { IfOk result (λ s. string_bytes s ≡ status_text (status_of task.now now) (get task.now (codes "status"))) }
{
    status_text(alloc, status_of(task, now), task.get("status"))
}

fn property_text(alloc: Global, task: &TaskMap, property: &str) -> Result<String, Memory>
    ensures { IfOk result (λ s. string_bytes s ≡ value_text (get task.now property.now)) }
{
    value_text(alloc, task.get(property))
}

fn day_cell(alloc: Global, task: &TaskMap, property: &str, zone: &Zone) -> Result<String, Memory>
    ensures { IfOk result (λ s. string_bytes s ≡ day_text zone.now (moment_at property.now task.now)) }
{
    day_text(alloc, moment_at(task, property), zone)
}

/// What is shown of a task.
pub(crate) fn field_text(
    alloc: Global,
    field: Field,
    look: &Look<'_>,
    uuid: Uuid,
    task: &TaskMap,
) -> Result<String, Memory>
    requires { IsLook look.now }
    ensures { IfOk result (λ s. string_bytes s ≡ field_text field (sight_in look.now) uuid task.now) }
{
    match field {
        Field::Id => number_text(alloc, id_in(look, uuid)),
        Field::Urgency => urgency_text(alloc, urgency_in(look, uuid)),
        Field::Project => property_text(alloc, task, "project"),
        Field::Priority => property_text(alloc, task, "priority"),
        Field::Due => day_cell(alloc, task, "due", look.view.zone),
        Field::Ended => day_cell(alloc, task, "end", look.view.zone),
        Field::Wait => day_cell(alloc, task, "wait", look.view.zone),
        Field::Status => status_cell(alloc, task, look.view.now.seconds),
        Field::Uuid => uuid_text(alloc, uuid),
        Field::Description => property_text(alloc, task, "description"),
    }
}
