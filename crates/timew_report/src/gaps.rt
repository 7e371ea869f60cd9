// The stretches of a range in which nothing is tracked.
ghost use Rattle.std.specs.Prelude.{◌≡◌, ◌<◌, ◌++◌, map, IfOk, OnOk};
ghost use Rattle.std.specs.List.{AllByRecursion};
ghost use Rattle.tw_text.specs.Table.{row_texts, table};
ghost use Rattle.timew_interval.specs.Interval.{limit, AreRows};
ghost use Rattle.timew_report.specs.Time.{count, time};
ghost use Rattle.timew_report.specs.Gaps.{gaps, is_free};
ghost use Rattle.timew_report.specs.Texts.{columns, gap_cells, gaps_text};
ghost use Rattle.timew_report.specs.Held.{stretch_of, IsGap, stretch_if, passed, gap_before};

use crate::hours::time_of;
use crate::lines::push_sum;
use std::alloc::Global;
use timew_cmd::{length_text, measured, shown_text};
use timew_interval::Interval;
use tw_text::{Column, table_text};
use tw_time::Zone;
use tw_world::Memory;

/// From a second up to but not including another.
#[derive(Clone, Copy, Drop)]
pub struct Stretch {
    pub start: u64,
    pub end: u64,
}

const COLUMNS: [Column; 3] = [
    Column {
        heading: "Start",
        is_right: false,
    },
    Column {
        heading: "End",
        is_right: false,
    },
    Column {
        heading: "Time",
        is_right: false,
    },
];

// Adds a stretch to others, if it has a second.
fn push_stretch(found: &mut Vec<Stretch>, start: u64, end: u64) -> Result<(), Memory>
    ensures { OnOk result (found.new.items ≡ found.old.items ++ stretch_if start end) }
{
    if start < end {
        found.push(Stretch { start, end })?;
    }
    Ok(())
}

// Passes an interval by: what is before it, from a second on, is free. It gives the second from which on the others are.
fn pass(found: &mut Vec<Stretch>, at: u64, row: &Interval, to: u64, now: u64) -> Result<u64, Memory>
    ensures at { IfOk result (λ next. next ≡ passed now at row.now) }
    ensures found { OnOk result (found.new.items ≡ found.old.items ++ gap_before to now at row.now) }
{
    let end = measured(now, row);
    if row.start >= end {
        return Ok(at);
    }
    push_stretch(found, at, row.start.min(to))?;
    Ok(at.max(end))
}

// The stretches of a range in which nothing is tracked.
fn gaps(
    alloc: Global,
    rows: &[Interval],
    from: u64,
    to: u64,
    now: u64,
) -> Result<Vec<Stretch>, Memory>
    requires { AreRows rows.now }
    ensures value { IfOk result (λ found. map stretch_of found.items ≡ gaps rows.now from to now) }
    ensures good { IfOk result (λ found. AllByRecursion (IsGap to) found.items) }
{
    let mut found = Vec::new(alloc);
    let mut at = from;
    for row in rows {
        at = pass(&mut found, at, row, to, now)?;
    }
    push_stretch(&mut found, at, to)?;
    Ok(found)
}

fn cells(alloc: Global, stretch: Stretch, zone: &Zone) -> Result<Vec<String>, Memory>
    requires order { stretch.start < stretch.end }
    requires end { stretch.end < limit }
    ensures { IfOk result (λ cells. row_texts cells ≡ gap_cells zone.now (stretch_of stretch)) }
{
    let mut line = Vec::with_capacity(alloc, 3)?;
    line.push(shown_text(alloc, stretch.start, zone)?)?;
    line.push(shown_text(alloc, stretch.end, zone)?)?;
    line.push(length_text(alloc, stretch.end - stretch.start)?)?;
    Ok(line)
}

fn all_cells(
    alloc: Global,
    found: &Vec<Stretch>,
    to: u64,
    zone: &Zone,
) -> Result<Vec<Vec<String>>, Memory>
    requires good { AllByRecursion (IsGap to) found.now.items }
    requires to { to < limit }
    ensures { IfOk result (λ lines. map row_texts lines.items ≡ map (gap_cells zone.now) (map stretch_of found.now.items)) }
{
    let mut lines = Vec::with_capacity(alloc, found.len())?;
    for stretch in found {
        lines.push(cells(alloc, *stretch, zone)?)?;
    }
    Ok(lines)
}

fn table_of(alloc: Global, cells: &Vec<Vec<String>>) -> Result<Vec<u8>, Memory>
    ensures { IfOk result (λ text. text.items ≡ table columns (map row_texts cells.now.items)) }
{
    table_text(alloc, &COLUMNS, cells)
}

/// The stretches of a range in which nothing is tracked, as a table, and their sum.
pub fn gaps_text(
    alloc: Global,
    rows: &[Interval],
    from: u64,
    to: u64,
    now: u64,
    zone: &Zone,
) -> Result<Vec<u8>, Memory>
    requires rows { AreRows rows.now }
    requires to { to < limit }
    requires now { now < limit }
    ensures { IfOk result (λ text. text.items ≡ gaps_text rows.now from to now zone.now) }
{
    let found = gaps(alloc, rows, from, to, now)?;
    let cells = all_cells(alloc, &found, to, zone)?;
    let mut text = table_of(alloc, &cells)?;
    push_sum(
        alloc,
        &mut text,
        to.saturating_sub(from) - time_of(rows, from, to, now),
    )?;
    Ok(text)
}
