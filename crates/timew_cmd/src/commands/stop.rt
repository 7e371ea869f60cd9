// `stop`: ends the open interval.
ghost use Rattle.std.specs.Prelude.{◌+◌, length, ◌<◌, IfOk, ◌≤◌};
ghost use Rattle.timew_interval.specs.Edit.{edited};
ghost use Rattle.timew_cmd.specs.Commands.Stop.{stopped};
ghost use Rattle.timew_cmd.specs.Open.{open_of};
ghost use Rattle.timew_cmd.specs.Planned.{Answers};

use crate::error::TimewError;
use crate::open::{ending, open_of};
use std::alloc::Global;
use timew_interval::{Edit, Interval};

/// What `stop` makes of intervals.
pub fn stop(alloc: Global, word: u64, at: u64, rows: &[Interval]) -> Result<Edit, TimewError>
    ensures stopped { Answers (λ e. edited e rows.now) result (stopped word at (open_of rows.now)) }
    ensures inside { IfOk result (λ e. e.at + e.count ≤ length rows.now) }
{
    let Some((front, last)) = open_of(rows) else {
        return Err(TimewError::NoOpen);
    };
    if at < last.start {
        return Err(TimewError::Range { word });
    }
    Ok(Edit {
        at: front.len(),
        count: 1,
        rows: ending(alloc, at, last)?,
    })
}
