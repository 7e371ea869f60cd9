// `summary`: the intervals as a table.
ghost use Rattle.std.specs.Prelude.{[], ◌∷◌, codes, true, map, ◌++◌, ◌≡◌, ◌<◌, IfOk, OnOk};
ghost use Rattle.tw_text.specs.Table.{table, row_texts};
ghost use Rattle.tw_time.specs.Civil.{limit};
ghost use Rattle.timew_interval.specs.Interval.{AreRows, IsRow};
ghost use Rattle.timew_cmd.specs.Commands.Export.{lines};
ghost use Rattle.timew_cmd.specs.Commands.Summary.{columns, cells, summary};
ghost use Rattle.timew_cmd.specs.Ranges.{is_within, rows_within};
ghost use Rattle.timew_cmd.specs.Texts.{length_text};

use crate::range::{is_within, measured, seconds_within, total};
use crate::texts::{length_text, shown_text, tags_text};
use std::alloc::Global;
use timew_interval::{Interval, Intervals};
use tw_text::{Column, table_text};
use tw_time::Zone;
use tw_world::Memory;

const COLUMNS: [Column; 5] = [
    Column {
        heading: "ID",
        is_right: true,
    },
    Column {
        heading: "Start",
        is_right: false,
    },
    Column {
        heading: "End",
        is_right: false,
    },
    Column {
        heading: "Time",
        is_right: false,
    },
    Column {
        heading: "Tags",
        is_right: false,
    },
];

/// The intervals that share a second with a range, cut to it, as a table, and below a blank line their length together, as
/// timew-summary(1) has it. The range is from a second up to another, moments are shown by the zone's clock, an open interval is
/// measured to now, and lengths are `H:MM:SS`.
pub fn summary_text(
    alloc: Global,
    rows: &Intervals,
    from: u64,
    to: u64,
    now: u64,
    zone: &Zone,
) -> Result<Vec<u8>, Memory>
    requires { now < limit }
    ensures { IfOk result (λ text. text.items ≡ summary rows.now from to now zone.now) }
{
    let rows = rows.as_slice();
    let cells = cells_within(alloc, rows, from, to, now, zone)?;
    let table = table_of(alloc, &cells)?;
    with_total(alloc, table, total(from, to, now, rows))
}

fn table_of(alloc: Global, cells: &Vec<Vec<String>>) -> Result<Vec<u8>, Memory>
    ensures { IfOk result (λ text. text.items ≡ table columns (map row_texts cells.now.items)) }
{
    table_text(alloc, &COLUMNS, cells)
}

// A text, and below a blank line a length.
fn with_total(alloc: Global, text: Vec<u8>, seconds: u64) -> Result<Vec<u8>, Memory>
    ensures { IfOk result (λ longer. longer.items ≡ text.items ++ codes "\nTotal " ++ length_text seconds ++ codes "\n") }
{
    let sum = length_text(alloc, seconds)?;
    let mut text = text;
    text.extend_from_slice(b"\nTotal ")?;
    text.extend_from_slice(sum.as_str().as_bytes())?;
    text.push(b'\n')?;
    Ok(text)
}

fn cells_within(
    alloc: Global,
    rows: &[Interval],
    from: u64,
    to: u64,
    now: u64,
    zone: &Zone,
) -> Result<Vec<Vec<String>>, Memory>
    requires rows { AreRows rows.now }
    requires now { now < limit }
    ensures { IfOk result (λ lines. map row_texts lines.items ≡ map (cells from to now zone.now) (rows_within from to now rows.now)) }
{
    let mut lines = Vec::new(alloc);
    for (k, row) in rows.iter().enumerate() {
        if is_within(from, to, now, row) {
            let id = (rows.len() - k) as u64;
            lines.push(cells(alloc, id, row, from, to, now, zone)?)?;
        }
    }
    Ok(lines)
}

// A row of the table: an interval with its number, cut to a range.
fn cells(
    alloc: Global,
    id: u64,
    row: &Interval,
    from: u64,
    to: u64,
    now: u64,
    zone: &Zone,
) -> Result<Vec<String>, Memory>
    requires row { IsRow row.now }
    requires now { now < limit }
    requires within { is_within from to now row.now ≡ true }
    ensures { IfOk result (λ line. row_texts line ≡ cells from to now zone.now (id, row.now)) }
{
    let mut line = Vec::with_capacity(alloc, 5)?;
    add(&mut line, format!(in alloc; "{id}")?)?;
    add(&mut line, shown_text(alloc, row.start.max(from), zone)?)?;
    add(
        &mut line,
        shown_text(alloc, measured(now, row).min(to), zone)?,
    )?;
    add(
        &mut line,
        length_text(alloc, seconds_within(from, to, now, row))?,
    )?;
    add(&mut line, tags_text(alloc, &row.tags)?)?;
    Ok(line)
}

fn add(line: &mut Vec<String>, text: String) -> Result<(), Memory>
    ensures { OnOk result (line.new.items ≡ line.old.items ++ text ∷ []) }
{
    line.push(text)?;
    Ok(())
}
