// `cancel`: drops the open interval.
ghost use Rattle.std.specs.Prelude.{◌+◌, length, IfOk, ◌≤◌};
ghost use Rattle.timew_interval.specs.Edit.{edited};
ghost use Rattle.timew_cmd.specs.Commands.Cancel.{cancelled};
ghost use Rattle.timew_cmd.specs.Open.{open_of};
ghost use Rattle.timew_cmd.specs.Planned.{Answers};

use crate::error::TimewError;
use crate::open::open_of;
use std::alloc::Global;
use timew_interval::{Edit, Interval};

/// What `cancel` makes of intervals.
pub fn cancel(alloc: Global, rows: &[Interval]) -> Result<Edit, TimewError>
    ensures cancelled { Answers (λ e. edited e rows.now) result (cancelled (open_of rows.now)) }
    ensures inside { IfOk result (λ e. e.at + e.count ≤ length rows.now) }
{
    match open_of(rows) {
        Some((front, _)) => Ok(Edit {
            at: front.len(),
            count: 1,
            rows: Vec::new(alloc),
        }),
        None => Err(TimewError::NoOpen),
    }
}
