// From which second on a report of hours is, and up to which.
ghost use Rattle.std.specs.Prelude.{◌≡◌, ◌<◌};
ghost use Rattle.timew_interval.specs.Interval.{limit, AreRows};
ghost use Rattle.timew_report.specs.Bounds.{first_start, last_end, hours_of};

use timew_cmd::measured;
use timew_interval::{Interval, Intervals};
use timew_words::Range;
use tw_time::Zone;
use tw_world::MOMENT_LIMIT;

const LAST_SECOND: u64 = MOMENT_LIMIT - 1;

fn first_start(rows: &[Interval]) -> u64
    requires { AreRows rows.now }
    ensures value { result ≡ first_start rows.now }
    ensures in_range { result < limit }
{
    match rows {
        [first, ..] => first.start,
        [] => 0,
    }
}

fn last_end(rows: &[Interval], now: u64) -> u64
    requires rows { AreRows rows.now }
    requires now { now < limit }
    ensures value { result ≡ last_end now rows.now }
    ensures in_range { result < limit }
{
    match rows.split_last() {
        Some((last, _)) => measured(now, last),
        None => 0,
    }
}

/// The range of a report of hours, in seconds since 1970: all of it is from the first start to the last end, and has no second if there
/// is no interval. The other ranges are those of `summary`, and end with the last second of the range of moments at the latest.
pub fn hours_of(range: Range, rows: &Intervals, now: u64, zone: &Zone) -> (u64, u64)
    requires { now < limit }
    ensures value { result ≡ hours_of range rows.now now zone.now }
    ensures in_range { result.1 < limit }
{
    let rows = rows.as_slice();
    match range {
        Range::All => (first_start(rows), last_end(rows, now)),
        Range::Day | Range::Week | Range::Between(_, _) => {
            let (from, to) = range.bounds(now, zone);
            (from, to.min(LAST_SECOND))
        }
    }
}
