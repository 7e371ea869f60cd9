// The lines of a table.
ghost use Rattle.std.specs.Prelude.{◌≡◌, ◌++◌, codes, cond, map, replicate, string_bytes, IfOk, OnOk};
ghost use Rattle.tw_text.specs.Columns.{padded_left, padded_right};
ghost use Rattle.tw_text.specs.Table.{widened, widths_of, parted, line, lines, headings, heading_widths, table, layout_of, row_texts};

use crate::columns_of_text;
use std::alloc::Global;
use tw_world::Memory;

/// A column of a table.
#[derive(Clone, Copy)]
pub struct Column {
    /// What stands above its cells. It is printed as it is, and a control character counts as one column.
    pub heading: &'static str,
    /// Whether its cells stand at the right, as numbers do.
    pub is_right: bool,
}

/// A line of the headings, and one of each row, with one space between two columns.
/// Widths are columns of a terminal and not bytes or characters. Cells are printed as they are: one with a newline breaks its line.
/// A row ends where its cells or the columns do; its last cell is not padded, so where that is empty the line ends in a space.
pub fn table_text(
    alloc: Global,
    columns: &[Column],
    rows: &Vec<Vec<String>>,
) -> Result<Vec<u8>, Memory>
    ensures { IfOk result (λ text. text.items ≡ table (layout_of columns.now) (map row_texts rows.now.items)) }
{
    let heads = heading_cells(alloc, columns)?;
    let widths = widths_of(alloc, columns, rows)?;
    let mut text = Vec::new(alloc);
    push_line(&mut text, columns, widths.as_slice(), heads.as_slice())?;
    push_lines(&mut text, columns, widths.as_slice(), rows)?;
    Ok(text)
}

fn heading_cells(alloc: Global, columns: &[Column]) -> Result<Vec<String>, Memory>
    ensures { IfOk result (λ cells. map string_bytes cells.items ≡ headings (layout_of columns.now)) }
{
    let mut cells = Vec::new(alloc);
    for column in columns {
        cells.push(String::from_str(alloc, column.heading)?)?;
    }
    Ok(cells)
}

fn heading_widths(alloc: Global, columns: &[Column]) -> Result<Vec<u64>, Memory>
    ensures { IfOk result (λ widths. widths.items ≡ heading_widths (layout_of columns.now)) }
{
    let mut widths = Vec::new(alloc);
    for column in columns {
        widths.push(columns_of_text::columns(column.heading))?;
    }
    Ok(widths)
}

// As wide as the headings and as the cells of each row.
fn widths_of(alloc: Global, columns: &[Column], rows: &Vec<Vec<String>>) -> Result<Vec<u64>, Memory>
    ensures { IfOk result (λ widths. widths.items ≡ widths_of (heading_widths (layout_of columns.now)) (map row_texts rows.now.items)) }
{
    let mut widths = heading_widths(alloc, columns)?;
    for row in rows {
        widen(&mut widths, row);
    }
    Ok(widths)
}

// Widens columns to the cells of a row.
fn widen(widths: &mut Vec<u64>, cells: &Vec<String>)
    ensures { widths.new.items ≡ widened widths.old.items (map string_bytes cells.now.items) }
{
    let mut n = 0;
    while n < widths.len() && n < cells.len() {
        widths[n] = widths[n].max(columns_of_text::columns(cells[n].as_str()));
        n += 1;
    }
}

fn push_spaces(text: &mut Vec<u8>, count: u64) -> Result<(), Memory>
    ensures { OnOk result (text.new.items ≡ text.old.items ++ replicate count 32) }
{
    for i in 0..count {
        text.push(b' ')?;
    }
    Ok(())
}

fn push_padded(text: &mut Vec<u8>, is_right: bool, cell: &str, width: u64) -> Result<(), Memory>
    ensures { OnOk result (text.new.items ≡ text.old.items ++ cond is_right (padded_left cell.now width) (padded_right cell.now width)) }
{
    let lacking = width.saturating_sub(columns_of_text::columns(cell));
    if is_right {
        push_spaces(text, lacking)?;
        text.extend_from_slice(cell.as_bytes())?;
    } else {
        text.extend_from_slice(cell.as_bytes())?;
        push_spaces(text, lacking)?;
    }
    Ok(())
}

fn push_parted(text: &mut Vec<u8>, is_right: bool, cell: &str, width: u64) -> Result<(), Memory>
    ensures { OnOk result (text.new.items ≡ text.old.items ++ parted is_right cell.now width) }
{
    push_padded(text, is_right, cell, width)?;
    text.push(b' ')?;
    Ok(())
}

fn end_line(text: &mut Vec<u8>) -> Result<(), Memory>
    ensures { OnOk result (text.new.items ≡ text.old.items ++ codes "\n") }
{
    text.push(b'\n')?;
    Ok(())
}

fn push_last(text: &mut Vec<u8>, cell: &str) -> Result<(), Memory>
    ensures { OnOk result (text.new.items ≡ text.old.items ++ (cell.now ++ codes "\n")) }
{
    text.extend_from_slice(cell.as_bytes())?;
    end_line(text)
}

fn push_line(
    text: &mut Vec<u8>,
    columns: &[Column],
    widths: &[u64],
    cells: &[String],
) -> Result<(), Memory>
    ensures { OnOk result (text.new.items ≡ text.old.items ++ line (layout_of columns.now) widths.now (map string_bytes cells.now)) }
{
    let [column, columns @ ..] = columns else {
        return end_line(text);
    };
    let [width, widths @ ..] = widths else {
        return end_line(text);
    };
    let [cell, cells @ ..] = cells else {
        return end_line(text);
    };
    if cells.is_empty() {
        return push_last(text, cell.as_str());
    }
    push_parted(text, column.is_right, cell.as_str(), *width)?;
    push_line(text, columns, widths, cells)
}

fn push_lines(
    text: &mut Vec<u8>,
    columns: &[Column],
    widths: &[u64],
    rows: &Vec<Vec<String>>,
) -> Result<(), Memory>
    ensures { OnOk result (text.new.items ≡ text.old.items ++ lines (layout_of columns.now) widths.now (map row_texts rows.now.items)) }
{
    for row in rows {
        push_line(text, columns, widths, row.as_slice())?;
    }
    Ok(())
}
