// `track`: places a closed interval.
ghost use Rattle.std.specs.Prelude.{◌+◌, length, ◌<◌, IfOk, ◌≤◌};
ghost use Rattle.timew_interval.specs.Edit.{edited};
ghost use Rattle.timew_cmd.specs.Commands.Track.{tracked};
ghost use Rattle.timew_cmd.specs.Planned.{Answers};

use crate::error::TimewError;
use crate::placing::place;
use crate::rows::new_row;
use std::alloc::Global;
use timew_interval::{Edit, Interval};
use timew_words::Track;

/// What `track` makes of intervals.
pub fn track(alloc: Global, parts: &Track, rows: &[Interval]) -> Result<Edit, TimewError>
    ensures tracked { Answers (λ e. edited e rows.now) result
        (tracked parts.now.word parts.now.start parts.now.end parts.now.tags parts.now.adjust rows.now) }
    ensures inside { IfOk result (λ e. e.at + e.count ≤ length rows.now) }
{
    if parts.start >= parts.end {
        return Err(TimewError::Range { word: parts.word });
    }
    let new = new_row(alloc, parts.start, Some(parts.end), &parts.tags)?;
    place(alloc, parts.adjust, new, rows, &[])
}
