// `start`: ends the open interval, and begins one.
ghost use Rattle.std.specs.Prelude.{[], ◌+◌, length, ◌≡◌, ◌<◌, IfOk, ◌≤◌};
ghost use Rattle.tw_time.specs.Moments.{moment};
ghost use Rattle.timew_interval.specs.Edit.{edited};
ghost use Rattle.timew_cmd.specs.Commands.Start.{is_past, begins_after, open_from, begun};
ghost use Rattle.timew_cmd.specs.Open.{open_of, with_ended};
ghost use Rattle.timew_cmd.specs.Placing.{place};
ghost use Rattle.timew_cmd.specs.Planned.{Answers};

use crate::error::TimewError;
use crate::open::{end_open, moment_or, open_of};
use crate::placing::place_behind;
use crate::rows::new_row;
use std::alloc::Global;
use timew_interval::{Edit, Interval, Texts};

/// What `start` makes of intervals, and `continue` with the tags of one of them.
pub fn begin(
    alloc: Global,
    word: u64,
    moment: Option<u64>,
    tags: &Texts,
    adjust: bool,
    rows: &[Interval],
    now: u64,
) -> Result<Edit, TimewError>
    ensures begun { Answers (λ e. edited e rows.now) result (begun word moment tags.now adjust rows.now now) }
    ensures inside { IfOk result (λ e. e.at + e.count ≤ length rows.now) }
{
    if is_past(now, moment) {
        return Err(TimewError::Range { word });
    }
    if begins_after(now, rows) {
        return Err(TimewError::Range { word: 0 });
    }
    begin_at(alloc, moment_or(now, moment), tags, adjust, rows)
}

fn is_past(now: u64, moment: Option<u64>) -> bool
    ensures { result ≡ is_past now moment }
{
    match moment {
        Some(at) => now < at,
        None => false,
    }
}

fn begins_after(now: u64, rows: &[Interval]) -> bool
    ensures { result ≡ begins_after now (open_of rows.now) }
{
    match open_of(rows) {
        Some((_, last)) => now < last.start,
        None => false,
    }
}

// Ends the open interval at a moment, if it has begun then, and begins one there.
fn begin_at(
    alloc: Global,
    at: u64,
    tags: &Texts,
    adjust: bool,
    rows: &[Interval],
) -> Result<Edit, TimewError>
    ensures begun { Answers (λ e. edited e rows.now) result (place adjust (open_from at tags.now) [] (with_ended at rows.now (open_of rows.now))) }
    ensures inside { IfOk result (λ e. e.at + e.count ≤ length rows.now) }
{
    let new = new_row(alloc, at, None, tags)?;
    let (kept, last) = end_open(alloc, at, rows)?;
    place_behind(alloc, adjust, new, rows, kept, last)
}
