// The open interval, and the moment at which it ends.
ghost use Rattle.std.specs.Prelude.{[], ◌∷◌, Some, length, ◌++◌, ◌≡◌, take, IfSome, option_map, IfOk, ◌≤◌};
ghost use Rattle.tw_time.specs.Moments.{moment};
ghost use Rattle.timew_interval.specs.Placing.{spanning};
ghost use Rattle.timew_cmd.specs.Open.{open_of, moment_or, with_ended};

use crate::rows::spanning;
use std::alloc::Global;
use timew_interval::Interval;
use tw_world::Memory;

/// The rows before the open one, and it.
pub fn open_of(rows: &[Interval]) -> Option<(&[Interval], &Interval)>
    ensures value { option_map (λ o. (o.0.now, o.1.now)) result ≡ open_of rows.now }
    ensures whole { IfSome result (λ o. rows.now ≡ o.0.now ++ o.1.now ∷ []) }
{
    let (last, front) = rows.split_last()?;
    match last.end {
        Some(_) => None,
        None => Some((front, last)),
    }
}

/// The moment, or else now.
pub fn moment_or(now: u64, moment: Option<u64>) -> u64
    ensures { result ≡ moment_or now moment }
{
    moment.unwrap_or(now)
}

/// An interval alone, which ends at a moment.
pub fn ending(alloc: Global, at: u64, row: &Interval) -> Result<Vec<Interval>, Memory>
    ensures { IfOk result (λ rows. rows.items ≡ spanning row.now.start (Some at) row.now ∷ []) }
{
    let mut rows = Vec::with_capacity(alloc, 1)?;
    rows.push(spanning(alloc, row.start, Some(at), row)?)?;
    Ok(rows)
}

/// How many rows stay if the open one ends at a moment and has begun then, and the one that ends.
pub fn end_open(alloc: Global, at: u64, rows: &[Interval]) -> Result<(usize, Vec<Interval>), Memory>
    ensures ended { IfOk result (λ x. take x.0 rows.now ++ x.1.items ≡ with_ended at rows.now (open_of rows.now)) }
    ensures inside { IfOk result (λ x. x.0 ≤ length rows.now) }
{
    match open_of(rows) {
        Some((front, open)) if open.start <= at => Ok((front.len(), ending(alloc, at, open)?)),
        _ => Ok((rows.len(), Vec::new(alloc))),
    }
}
