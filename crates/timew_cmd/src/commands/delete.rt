// `delete`: drops intervals.
ghost use Rattle.std.specs.Prelude.{◌+◌, ◌≤◌, length, IfOk};
ghost use Rattle.timew_interval.specs.Edit.{edited};
ghost use Rattle.timew_cmd.specs.Commands.Delete.{deleted};
ghost use Rattle.timew_cmd.specs.Planned.{Answers};

use crate::error::TimewError;
use crate::numbers::{checked, left_out};
use std::alloc::Global;
use timew_interval::{Edit, Interval};

/// What `delete` makes of intervals.
pub fn delete(alloc: Global, ids: &[u64], rows: &[Interval]) -> Result<Edit, TimewError>
    ensures deleted { Answers (λ e. edited e rows.now) result (deleted ids.now rows.now) }
    ensures inside { IfOk result (λ e. e.at + e.count ≤ length rows.now) }
{
    checked(rows.len() as u64, ids)?;
    Ok(left_out(alloc, rows, ids)?)
}
