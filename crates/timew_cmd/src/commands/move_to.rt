// `move`: moves an interval to another start.
ghost use Rattle.std.specs.Prelude.{◌+◌, ◌≤◌, length, ◌≡◌, ◌<◌, IfSome, IfOk};
ghost use Rattle.tw_time.specs.Civil.{limit};
ghost use Rattle.timew_interval.specs.Edit.{edited};
ghost use Rattle.timew_interval.specs.Interval.{AreRows};
ghost use Rattle.timew_cmd.specs.Commands.Move.{moved_end, moved_to};
ghost use Rattle.timew_cmd.specs.Planned.{Answers};

use crate::error::TimewError;
use crate::numbers::row_at;
use crate::replacing::replace;
use crate::rows::spanning;
use std::alloc::Global;
use timew_interval::{Edit, Interval};
use timew_words::Move;

/// What `move` makes of intervals.
pub fn move_to(alloc: Global, parts: &Move, rows: &[Interval]) -> Result<Edit, TimewError>
    requires start { parts.now.start < limit }
    requires rows { AreRows rows.now }
    ensures moved { Answers (λ e. edited e rows.now) result (moved_to parts.now.id parts.now.word parts.now.start parts.now.adjust rows.now) }
    ensures inside { IfOk result (λ e. e.at + e.count ≤ length rows.now) }
{
    let row = row_at(parts.id, rows)?;
    let end = moved_end(parts.start, row.start, row.end);
    let new = spanning(alloc, parts.start, end, row)?;
    replace(alloc, parts.word, parts.id, parts.adjust, new, rows)
}

fn moved_end(start: u64, from: u64, end: Option<u64>) -> Option<u64>
    requires start { start < limit }
    requires end { IfSome end (λ e. e < limit) }
    ensures { result ≡ moved_end start from end }
{
    match end {
        Some(end) => Some(start + end.saturating_sub(from)),
        None => None,
    }
}
