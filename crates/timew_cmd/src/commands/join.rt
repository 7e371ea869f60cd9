// `join`: makes one interval of two.
ghost use Rattle.std.specs.Prelude.{◌+◌, ◌≤◌, length, ◌≡◌, IfOk};
ghost use Rattle.timew_interval.specs.Edit.{edited};
ghost use Rattle.timew_cmd.specs.Commands.Join.{later_end, first_text, joined, joined_both};
ghost use Rattle.timew_cmd.specs.Planned.{Answers};

use crate::error::TimewError;
use crate::numbers::{checked, row_at};
use crate::placing::place;
use std::alloc::Global;
use timew_interval::{Edit, Interval};
use timew_words::Join;
use tw_world::{Memory, Text};

/// What `join` makes of intervals.
pub fn join(alloc: Global, parts: &Join, rows: &[Interval]) -> Result<Edit, TimewError>
    ensures joined { Answers (λ e. edited e rows.now) result (joined_both parts.now.first parts.now.second parts.now.adjust rows.now) }
    ensures inside { IfOk result (λ e. e.at + e.count ≤ length rows.now) }
{
    let ids = [parts.first, parts.second];
    checked(rows.len() as u64, &ids)?;
    let earlier = row_at(parts.first.max(parts.second), rows)?;
    let later = row_at(parts.first.min(parts.second), rows)?;
    let new = joined(alloc, earlier, later)?;
    place(alloc, parts.adjust, new, rows, &ids)
}

fn later_end(end: Option<u64>, other: Option<u64>) -> Option<u64>
    ensures { result ≡ later_end end other }
{
    match (end, other) {
        (Some(end), Some(other)) => Some(end.max(other)),
        _ => None,
    }
}

fn first_text(alloc: Global, text: &Text, other: &Text) -> Result<Text, Memory>
    ensures { IfOk result (λ t. t ≡ first_text text.now other.now) }
{
    if text.as_str().is_empty() {
        other.copy(alloc)
    } else {
        text.copy(alloc)
    }
}

fn joined(alloc: Global, row: &Interval, other: &Interval) -> Result<Interval, Memory>
    ensures { IfOk result (λ r. r ≡ joined row.now other.now) }
{
    Ok(Interval {
        start: row.start,
        end: later_end(row.end, other.end),
        tags: row.tags.with(alloc, &other.tags)?,
        annotation: first_text(alloc, &row.annotation, &other.annotation)?,
    })
}
