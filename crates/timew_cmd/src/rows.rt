// Intervals: copies of them, and whether they overlap.
ghost use Rattle.std.specs.Prelude.{[], ◌≡◌, IfOk};
ghost use Rattle.timew_interval.specs.Interval.{overlaps};
ghost use Rattle.timew_interval.specs.Placing.{spanning};

use std::alloc::Global;
use timew_interval::{Interval, Texts, goes_past};
use tw_world::{Memory, Text};

/// An interval from a start to an end, with the tags and the annotation of another.
pub fn spanning(
    alloc: Global,
    start: u64,
    end: Option<u64>,
    row: &Interval,
) -> Result<Interval, Memory>
    ensures { IfOk result (λ r. r ≡ spanning start end row.now) }
{
    Ok(Interval {
        start,
        end,
        tags: row.tags.copy(alloc)?,
        annotation: row.annotation.copy(alloc)?,
    })
}

/// An interval with tags and no annotation.
pub fn new_row(
    alloc: Global,
    start: u64,
    end: Option<u64>,
    tags: &Texts,
) -> Result<Interval, Memory>
    ensures { IfOk result (λ r. r ≡ record { start = start; end = end; tags = tags.now; annotation = [] }) }
{
    Ok(Interval {
        start,
        end,
        tags: tags.copy(alloc)?,
        annotation: Text::from_str(alloc, "")?,
    })
}

pub fn copy_row(alloc: Global, row: &Interval) -> Result<Interval, Memory>
    ensures { IfOk result (λ r. r ≡ row.now) }
{
    spanning(alloc, row.start, row.end, row)
}

/// The rows once more, with room for one after them.
pub fn copy_rows(alloc: Global, rows: &[Interval]) -> Result<Vec<Interval>, Memory>
    ensures { IfOk result (λ copies. copies.items ≡ rows.now) }
{
    let mut copies = Vec::with_capacity(alloc, rows.len().saturating_add(1))?;
    for row in rows {
        copies.push(copy_row(alloc, row)?)?;
    }
    Ok(copies)
}

pub fn overlaps(row: &Interval, other: &Interval) -> bool
    ensures { result ≡ overlaps row.now other.now }
{
    goes_past(row.end, other.start) && goes_past(other.end, row.start)
}
