// Placing an interval in the stead of one with a number.
ghost use Rattle.std.specs.Prelude.{◌+◌, ◌≤◌, Err, ◌*◌, length, ◌≡◌, min, IfOk, IfErr};
ghost use Rattle.timew_interval.specs.Edit.{edited};
ghost use Rattle.timew_cmd.specs.Planned.{Answers};
ghost use Rattle.timew_cmd.specs.Replacing.{is_in_range, replaced, seconds_of, closed_end};

use crate::error::TimewError;
use crate::placing::place;
use std::alloc::Global;
use timew_interval::{Edit, Interval};
use tw_time::Length;
use tw_world::MOMENT_LIMIT;

fn is_in_range(end: Option<u64>) -> bool
    ensures { result ≡ is_in_range end }
{
    match end {
        Some(end) => end < MOMENT_LIMIT,
        None => true,
    }
}

/// The edit that places an interval in the stead of the one with a number.
pub fn replace(
    alloc: Global,
    word: u64,
    id: u64,
    adjust: bool,
    new: Interval,
    rows: &[Interval],
) -> Result<Edit, TimewError>
    ensures replaced { Answers (λ e. edited e rows.now) result (replaced word id adjust new rows.now) }
    ensures inside { IfOk result (λ e. e.at + e.count ≤ length rows.now) }
{
    if !is_in_range(new.end) {
        return Err(TimewError::Range { word });
    }
    place(alloc, adjust, new, rows, &[id])
}

/// The seconds of a length without months, or the greatest number if there are more.
pub fn seconds_of(word: u64, length: &Length) -> Result<u64, TimewError>
    ensures ok { IfOk result (λ n. (length.now.months ≡ 0) × (n ≡ min (length.now.seconds + length.now.days * 86400) u64.MAX)) }
    ensures err { IfErr result (λ e. seconds_of word length.now ≡ Err e) }
{
    if length.months != 0 {
        return Err(TimewError::Range { word });
    }
    Ok(
        length
            .seconds
            .saturating_add(u64::from(length.days) * 86_400),
    )
}

/// The end of a closed interval.
pub fn closed_end(word: u64, end: Option<u64>) -> Result<u64, TimewError>
    ensures { Answers (λ n. n) result (closed_end word end) }
{
    match end {
        Some(end) => Ok(end),
        None => Err(TimewError::Range { word }),
    }
}
