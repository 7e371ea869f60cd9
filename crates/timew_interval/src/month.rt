// The month files of intervals.
ghost use Rattle.std.specs.Prelude.{◌≡◌, ◌<◌, ◌++◌, IfOk, OnOk};
ghost use Rattle.timew_interval.specs.Interval.{IsRow, AreRows};
ghost use Rattle.timew_interval.specs.MonthName.{month_name, month_text, row_text};
ghost use Rattle.timew_interval.specs.MonthOfYear.{text_of_month};

use crate::interval::Interval;
use crate::interval::list::Intervals;
use crate::line::put_line;
use crate::name::{month_name, name_of};
use std::alloc::Global;
use tw_world::Memory;

// Writes the line of an interval, if it starts in the month.
fn put_row_of(out: &mut Vec<u8>, row: &Interval, name: &[u8]) -> Result<(), Memory>
    requires { IsRow row.now }
    ensures { OnOk result (out.new.items ≡ out.old.items ++ row_text name.now row.now) }
{
    if month_name(row.start).as_slice() == name {
        put_line(out, row)?;
        out.push(b'\n')?;
    }
    Ok(())
}

// The text of a month file.
fn month_text(alloc: Global, rows: &[Interval], name: &[u8]) -> Result<Vec<u8>, Memory>
    requires { AreRows rows.now }
    ensures { IfOk result (λ text. text.items ≡ month_text name.now rows.now) }
{
    let mut out = Vec::new(alloc);
    for row in rows {
        put_row_of(&mut out, row, name)?;
    }
    Ok(out)
}

/// The text of the month file of a year and a month: the lines of the intervals that start in that month of UTC,
/// in their order. There are none in a year below 0 or above 9999, nor in a month below 1 or above 12.
pub fn write_month(alloc: Global, rows: &Intervals, year: i16, month: u8) -> Result<Vec<u8>, Memory>
    ensures { IfOk result (λ text. text.items ≡ text_of_month year month rows.now) }
{
    if !(0 <= year && year <= 9999 && 1 <= month && month <= 12) {
        return Ok(Vec::new(alloc));
    }
    let name = name_of(year.unsigned_abs(), month);
    month_text(alloc, rows.as_slice(), &name)
}
