// `shorten`: moves the end of a closed interval to an earlier moment.
ghost use Rattle.std.specs.Prelude.{◌+◌, ◌≤◌, length, ◌<◌, IfOk};
ghost use Rattle.timew_interval.specs.Edit.{edited};
ghost use Rattle.timew_interval.specs.Interval.{limit, AreRows};
ghost use Rattle.timew_cmd.specs.Commands.Shorten.{shorter, shortened};
ghost use Rattle.timew_cmd.specs.Planned.{Answers};

use crate::error::TimewError;
use crate::numbers::row_at;
use crate::replacing::{closed_end, replace, seconds_of};
use crate::rows::spanning;
use std::alloc::Global;
use timew_interval::{Edit, Interval};
use timew_words::Resize;

/// What `shorten` makes of intervals.
pub fn shorten(alloc: Global, parts: &Resize, rows: &[Interval]) -> Result<Edit, TimewError>
    requires { AreRows rows.now }
    ensures shortened { Answers (λ e. edited e rows.now) result (shortened parts.now.id parts.now.word parts.now.length parts.now.adjust rows.now) }
    ensures inside { IfOk result (λ e. e.at + e.count ≤ length rows.now) }
{
    let row = row_at(parts.id, rows)?;
    let end = closed_end(parts.word, row.end)?;
    let seconds = seconds_of(parts.word, &parts.length)?;
    let end = shorter(parts.word, row.start, end, seconds)?;
    let new = spanning(alloc, row.start, end, row)?;
    replace(alloc, parts.word, parts.id, parts.adjust, new, rows)
}

fn shorter(word: u64, start: u64, end: u64, seconds: u64) -> Result<Option<u64>, TimewError>
    requires { end < limit }
    ensures { Answers (λ e. e) result (shorter word start end seconds) }
{
    if start.saturating_add(seconds) <= end {
        Ok(Some(end - seconds))
    } else {
        Err(TimewError::Range { word })
    }
}
