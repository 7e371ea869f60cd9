// Rows by their numbers, which count from the last one, from 1.
ghost use Rattle.std.specs.Prelude.{◌++◌, ◌+◌, ◌≡◌, ◌≤◌, length, drop, IfOk};
ghost use Rattle.timew_interval.specs.Edit.{edited};
ghost use Rattle.timew_cmd.specs.Numbers.{numbered, without, rows_in, checked, row_at};
ghost use Rattle.timew_cmd.specs.Planned.{Answers};

use crate::chosen::Chosen;
use crate::error::TimewError;
use crate::rows::copy_row;
use std::alloc::Global;
use timew_interval::{Edit, Interval};
use tw_world::Memory;

/// The rows from an index up to another without those of these numbers.
pub fn others_within(
    alloc: Global,
    rows: &[Interval],
    ids: &Chosen,
    at: usize,
    end: usize,
) -> Result<Vec<Interval>, Memory>
    requires order { at ≤ end }
    requires inside { end ≤ length rows.now }
    ensures { IfOk result (λ others. others.items ++ rows_in (without ids.now.given.now (numbered (drop end rows.now)))
        ≡ rows_in (without ids.now.given.now (numbered (drop at rows.now)))) }
{
    let mut others = Vec::with_capacity(alloc, end - at)?;
    for k in at..end {
        if !ids.has((rows.len() - k) as u64) {
            others.push(copy_row(alloc, &rows[k])?)?;
        }
    }
    Ok(others)
}

/// The edit that leaves out the rows of these numbers.
pub fn left_out(alloc: Global, rows: &[Interval], ids: &[u64]) -> Result<Edit, Memory>
    ensures others { IfOk result (λ e. edited e rows.now ≡ rows_in (without ids.now (numbered rows.now))) }
    ensures inside { IfOk result (λ e. e.at + e.count ≤ length rows.now) }
{
    let chosen = Chosen::of(alloc, ids)?;
    let (at, end) = chosen.window(rows.len());
    let others = others_within(alloc, rows, &chosen, at, end)?;
    Ok(Edit {
        at,
        count: end - at,
        rows: others,
    })
}

/// The first of these numbers that is above the number of rows.
pub fn checked(count: u64, ids: &[u64]) -> Result<u64, TimewError>
    ensures { Answers (λ n. n) result (checked count ids.now) }
{
    for id in ids {
        if *id > count {
            return Err(TimewError::NoInterval { id: *id });
        }
    }
    Ok(count)
}

/// The row with a number.
pub fn row_at(id: u64, rows: &[Interval]) -> Result<&Interval, TimewError>
    ensures { Answers (λ r. r.now) result (row_at id rows.now) }
{
    let len = rows.len() as u64;
    if id == 0 || id > len {
        return Err(TimewError::NoInterval { id });
    }
    Ok(&rows[(len - id) as usize])
}
