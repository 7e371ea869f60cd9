// `continue`: begins an interval with the tags of another.
ghost use Rattle.std.specs.Prelude.{◌+◌, length, IfOk, ◌≤◌};
ghost use Rattle.timew_interval.specs.Edit.{edited};
ghost use Rattle.timew_cmd.specs.Commands.Continue.{continued};
ghost use Rattle.timew_cmd.specs.Open.{open_of};
ghost use Rattle.timew_cmd.specs.Planned.{Answers};

use crate::commands::start::begin;
use crate::error::TimewError;
use crate::numbers::row_at;
use crate::open::open_of;
use std::alloc::Global;
use timew_interval::{Edit, Interval};
use timew_words::Continue;

/// What `continue` makes of intervals.
pub fn go_on(
    alloc: Global,
    parts: &Continue,
    rows: &[Interval],
    now: u64,
) -> Result<Edit, TimewError>
    ensures continued { Answers (λ e. edited e rows.now) result (continued parts.now.id parts.now.adjust rows.now now (open_of rows.now)) }
    ensures inside { IfOk result (λ e. e.at + e.count ≤ length rows.now) }
{
    if parts.id.is_none() && open_of(rows).is_some() {
        return Err(TimewError::AlreadyOpen { id: 1 });
    }
    let row = row_at(parts.id.unwrap_or(1), rows)?;
    begin(alloc, 0, None, &row.tags, parts.adjust, rows, now)
}
