// Ranges of time, and which intervals are in them.
ghost use Rattle.std.specs.Prelude.{◌≡◌, ◌<◌};
ghost use Rattle.timew_interval.specs.Interval.{limit, AreRows};
ghost use Rattle.timew_cmd.specs.Ranges.{measured, is_within, seconds_within, total};

use timew_interval::Interval;

/// Where an interval ends; an open one is measured to now, or to its start if now is earlier.
pub fn measured(now: u64, row: &Interval) -> u64
    ensures { result ≡ measured now row.now }
{
    row.end.unwrap_or(now.max(row.start))
}

/// Whether an interval shares a second with a range, or starts in it without a second.
pub fn is_within(from: u64, to: u64, now: u64, row: &Interval) -> bool
    ensures { result ≡ is_within from to now row.now }
{
    let end = measured(now, row);
    if row.start < end {
        row.start.max(from) < end.min(to)
    } else {
        from <= row.start && row.start <= to
    }
}

/// The seconds of an interval that are in a range.
pub fn seconds_within(from: u64, to: u64, now: u64, row: &Interval) -> u64
    ensures { result ≡ seconds_within from to now row.now }
{
    measured(now, row)
        .min(to)
        .saturating_sub(row.start.max(from))
}

/// The seconds of all of them.
pub fn total(from: u64, to: u64, now: u64, rows: &[Interval]) -> u64
    requires rows { AreRows rows.now }
    requires now { now < limit }
    ensures { result ≡ total from to now rows.now }
{
    let mut seconds = 0;
    for row in rows {
        seconds += seconds_within(from, to, now, row);
    }
    seconds
}
