// Reports.
ghost use Rattle.std.specs.Prelude.{◌≡◌, ◌++◌, map, codes, string_bytes, length, IfOk, OnOk};
ghost use Rattle.tw_text.specs.Table.{layout_of, row_texts, table};
ghost use Rattle.tw_urgency.specs.Urgency.{AreWeights};
ghost use Rattle.tw_report.specs.Sight.{IsLook, sight_in, sight_of};
ghost use Rattle.tw_report.specs.Fields.{layout, fields_of, field_text};
ghost use Rattle.tw_report.specs.Texts.{row_of, tasks_text, ranked_text, report_text};

use crate::field::{column, field_text, fields_of};
use crate::look::{Look, look_at};
use crate::rank::ranks_of;
use std::alloc::Global;
use std::collections::BTreeSet;
use tw_model::TaskMap;
use tw_terms::View;
use tw_text::{Column, table_text};
use tw_urgency::Coefficients;
use tw_world::Memory;
use uuid::Uuid;

/// A report: which columns it has, and in which order its rows stand (task(1), under "reports").
#[derive(Clone, Copy, Debug, PartialEq, Eq)]
pub enum Report {
    /// By `due`, tasks without one last.
    List,
    /// By urgency, the greatest first.
    Next,
    /// By uuid alone.
    All,
    /// By `end`, tasks without one last.
    Completed,
    /// By `wait`, tasks without one last.
    Waiting,
    /// By `due`, tasks without one last.
    Blocked,
}

/// A report of the rows' tasks: a table in the report's order, where equals stand by uuid, a blank line, and how many tasks there are.
/// The rows are a set: a uuid without a task gives no line, and one that stands twice gives one. Which tasks belong to a report is the caller's to choose.
/// Days are those of the view's zone; a moment that can't be read is an empty cell.
pub fn report_text(
    alloc: Global,
    report: Report,
    rows: &Vec<Uuid>,
    view: &View<'_>,
    weights: &Coefficients,
) -> Result<Vec<u8>, Memory>
    requires { AreWeights weights.now }
    ensures { IfOk result (λ text. text.items ≡ report_text report rows.now.items (sight_of view.entry.now weights.now)) }
{
    let look = look_at(alloc, view, weights, rows.len(), has_urgency(report))?;
    let ranks = ranks_of(alloc, report, rows, &look)?;
    ranked_text(alloc, report, &ranks, &look)
}

// Whether a report shows or sorts by urgency.
fn has_urgency(report: Report) -> bool {
    matches!(report, Report::Next)
}

fn ranked_text(
    alloc: Global,
    report: Report,
    ranks: &BTreeSet<(i64, Uuid)>,
    look: &Look<'_>,
) -> Result<Vec<u8>, Memory>
    requires { IsLook look.now }
    ensures { IfOk result (λ text. text.items ≡ ranked_text report (sight_in look.now) ranks.now.keys) }
{
    let cells = cells_of(alloc, report, ranks, look)?;
    let mut text = table_of(alloc, report, &cells)?;
    push_count(alloc, &mut text, cells.len() as u64)?;
    Ok(text)
}

fn table_of(alloc: Global, report: Report, cells: &Vec<Vec<String>>) -> Result<Vec<u8>, Memory>
    ensures { IfOk result (λ text. text.items ≡ table (layout report) (map row_texts cells.now.items)) }
{
    let columns = columns_of(alloc, report)?;
    table_text(alloc, columns.as_slice(), cells)
}

fn columns_of(alloc: Global, report: Report) -> Result<Vec<Column>, Memory>
    ensures { IfOk result (λ columns. layout_of columns.items ≡ layout report) }
{
    let mut columns = Vec::new(alloc);
    for field in fields_of(report) {
        columns.push(column(*field))?;
    }
    Ok(columns)
}

fn task_cells(
    alloc: Global,
    report: Report,
    look: &Look<'_>,
    uuid: Uuid,
    task: &TaskMap,
) -> Result<Vec<String>, Memory>
    requires { IsLook look.now }
    ensures { IfOk result (λ row. row_texts row ≡ map (λ f. field_text f (sight_in look.now) uuid task.now) (fields_of report)) }
{
    let mut row = Vec::new(alloc);
    for field in fields_of(report) {
        row.push(field_text(alloc, *field, look, uuid, task)?)?;
    }
    Ok(row)
}

fn row_of(
    alloc: Global,
    report: Report,
    look: &Look<'_>,
    rank: &(i64, Uuid),
) -> Result<Vec<String>, Memory>
    requires { IsLook look.now }
    ensures { IfOk result (λ row. row_texts row ≡ row_of report (sight_in look.now) rank.now) }
{
    match look.view.tasks.get(rank.1) {
        Some(task) => task_cells(alloc, report, look, rank.1, task),
        None => Ok(Vec::new(alloc)),
    }
}

// The cells of all rows.
fn cells_of(
    alloc: Global,
    report: Report,
    ranks: &BTreeSet<(i64, Uuid)>,
    look: &Look<'_>,
) -> Result<Vec<Vec<String>>, Memory>
    requires { IsLook look.now }
    ensures { IfOk result (λ cells. map row_texts cells.items ≡ map (row_of report (sight_in look.now)) ranks.now.keys) }
{
    let mut cells = Vec::new(alloc);
    for rank in ranks {
        cells.push(row_of(alloc, report, look, rank)?)?;
    }
    Ok(cells)
}

// A blank line, and how many tasks there are.
fn push_count(alloc: Global, text: &mut Vec<u8>, count: u64) -> Result<(), Memory>
    ensures { OnOk result (text.new.items ≡ text.old.items ++ (codes "\n" ++ tasks_text count)) }
{
    let line = if count == 1 {
        format!(in alloc; "\n{count} task\n")?
    } else {
        format!(in alloc; "\n{count} tasks\n")?
    };
    text.extend_from_slice(line.as_str().as_bytes())?;
    Ok(())
}
