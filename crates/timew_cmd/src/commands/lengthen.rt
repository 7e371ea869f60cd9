// `lengthen`: moves the end of a closed interval to a later moment.
ghost use Rattle.std.specs.Prelude.{◌+◌, ◌≤◌, length, IfOk};
ghost use Rattle.timew_interval.specs.Edit.{edited};
ghost use Rattle.timew_cmd.specs.Commands.Lengthen.{lengthened};
ghost use Rattle.timew_cmd.specs.Planned.{Answers};

use crate::error::TimewError;
use crate::numbers::row_at;
use crate::replacing::{closed_end, replace, seconds_of};
use crate::rows::spanning;
use std::alloc::Global;
use timew_interval::{Edit, Interval};
use timew_words::Resize;

/// What `lengthen` makes of intervals.
pub fn lengthen(alloc: Global, parts: &Resize, rows: &[Interval]) -> Result<Edit, TimewError>
    ensures lengthened { Answers (λ e. edited e rows.now) result (lengthened parts.now.id parts.now.word parts.now.length parts.now.adjust rows.now) }
    ensures inside { IfOk result (λ e. e.at + e.count ≤ length rows.now) }
{
    let row = row_at(parts.id, rows)?;
    let end = closed_end(parts.word, row.end)?;
    let seconds = seconds_of(parts.word, &parts.length)?;
    let new = spanning(alloc, row.start, Some(end.saturating_add(seconds)), row)?;
    replace(alloc, parts.word, parts.id, parts.adjust, new, rows)
}
