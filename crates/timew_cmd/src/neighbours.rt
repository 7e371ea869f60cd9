// Intervals on both sides of one that is placed: they stay as they are.
ghost use Rattle.std.specs.Prelude.{drop, length, ◌≡◌, ◌-◌, take, ◌≤◌};
ghost use Rattle.timew_cmd.specs.Numbers.{NoneAmong};
ghost use Rattle.timew_cmd.specs.Placing.{stands_before, stands_behind, AllBefore, AllBehind};

use crate::chosen::Chosen;
use crate::rows::overlaps;
use timew_interval::{Interval, is_not_after};

fn stands_before(new: &Interval, row: &Interval) -> bool
    ensures { result ≡ stands_before new.now row.now }
{
    !overlaps(row, new) && is_not_after(row, new)
}

fn stands_behind(new: &Interval, row: &Interval) -> bool
    ensures { result ≡ stands_behind new.now row.now }
{
    !overlaps(row, new) && !is_not_after(row, new)
}

/// How many rows at the front have none of these numbers, are before an interval and share no second with it.
pub fn count_before(new: &Interval, rows: &[Interval], ids: &Chosen) -> usize
    ensures inside { result ≤ length rows.now }
    ensures before { AllBefore new.now (take result rows.now) }
    ensures others { NoneAmong ids.now.given.now (length rows.now - result) (length rows.now) }
{
    let mut count = 0;
    while count < rows.len()
        && stands_before(new, &rows[count])
        && !ids.has((rows.len() - count) as u64)
    {
        count += 1;
    }
    count
}

/// The row, from an index on, from which on all have none of these numbers, are after an interval and share no second with it.
pub fn first_behind(new: &Interval, rows: &[Interval], ids: &Chosen, from: usize) -> usize
    requires { from ≤ length rows.now }
    ensures inside { (from ≤ result) × (result ≤ length rows.now) }
    ensures behind { AllBehind new.now (drop result rows.now) }
    ensures others { NoneAmong ids.now.given.now 0 (length rows.now - result) }
{
    let mut at = rows.len();
    while at > from && stands_behind(new, &rows[at - 1]) && !ids.has((rows.len() - at) as u64 + 1) {
        at -= 1;
    }
    at
}
