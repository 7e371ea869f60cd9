// What of intervals lies outside one that is placed.
ghost use Rattle.std.specs.List.{flat_map};
ghost use Rattle.std.specs.Prelude.{◌++◌, ◌≡◌, IfOk, OnOk};
ghost use Rattle.timew_interval.specs.Placing.{front_of, back_of, left_outside};

use crate::rows::{overlaps, spanning};
use std::alloc::Global;
use timew_interval::{Interval, goes_past};
use tw_world::Memory;

fn push_front(
    alloc: Global,
    out: &mut Vec<Interval>,
    second: u64,
    row: &Interval,
) -> Result<(), Memory>
    ensures { OnOk result (out.new.items ≡ out.old.items ++ front_of second row.now) }
{
    if row.start < second {
        let piece = spanning(alloc, row.start, Some(second), row)?;
        out.push(piece)?;
    }
    Ok(())
}

fn push_back(
    alloc: Global,
    out: &mut Vec<Interval>,
    second: Option<u64>,
    row: &Interval,
) -> Result<(), Memory>
    ensures { OnOk result (out.new.items ≡ out.old.items ++ back_of second row.now) }
{
    if let Some(second) = second {
        if goes_past(row.end, second) {
            let piece = spanning(alloc, second, row.end, row)?;
            out.push(piece)?;
        }
    }
    Ok(())
}

// What of a row lies outside the interval that is placed.
fn push_outside(
    alloc: Global,
    out: &mut Vec<Interval>,
    new: &Interval,
    row: Interval,
) -> Result<(), Memory>
    ensures { OnOk result (out.new.items ≡ out.old.items ++ left_outside new.now row) }
{
    if overlaps(&row, new) {
        push_front(alloc, out, new.start, &row)?;
        push_back(alloc, out, new.end, &row)?;
    } else {
        out.push(row)?;
    }
    Ok(())
}

/// What of rows lies outside an interval, with room for one more, and for the second piece of a row that is cut in two.
pub fn all_outside(
    alloc: Global,
    new: &Interval,
    rows: Vec<Interval>,
) -> Result<Vec<Interval>, Memory>
    ensures { IfOk result (λ out. out.items ≡ flat_map (left_outside new.now) rows.items) }
{
    let mut out = Vec::with_capacity(alloc, rows.len().saturating_add(2))?;
    for row in rows {
        push_outside(alloc, &mut out, new, row)?;
    }
    Ok(out)
}
