// How many seconds are tracked.
ghost use Rattle.std.specs.Prelude.{◌≡◌, ◌<◌, ◌≤◌, length, take, drop, None, IfSome};
ghost use Rattle.timew_interval.specs.Interval.{limit, AreRows};
ghost use Rattle.timew_report.specs.Time.{time};
ghost use Rattle.timew_cmd.specs.Ranges.{total};
ghost use Rattle.timew_report.specs.Walk.{has_more, AreSpent, IsNext, IsFirst, NoneFrom};

use timew_cmd::{measured, seconds_within, total};
use timew_interval::Interval;

/// The tracked seconds of a range.
pub fn time_of(rows: &[Interval], from: u64, to: u64, now: u64) -> u64
    requires rows { AreRows rows.now }
    requires now { now < limit }
    ensures { result ≡ time rows.now from to now }
{
    total(from, to, now, rows)
}

// Whether an interval has a second from one on.
fn has_more(row: &Interval, at: u64, now: u64) -> bool
    ensures { result ≡ has_more at now row.now }
{
    row.start.max(at) < measured(now, row)
}

/// How many intervals at the front have no second from one on, of which so many are known.
pub fn spent(rows: &[Interval], known: usize, at: u64, now: u64) -> usize
    requires inside { known ≤ length rows.now }
    requires spent { AreSpent at now (take known rows.now) }
    ensures inside { result ≤ length rows.now }
    ensures spent { AreSpent at now (take result rows.now) }
    ensures next { IsNext at now (drop result rows.now) }
{
    let mut k = known;
    while k < rows.len() {
        if has_more(&rows[k], at, now) {
            return k;
        }
        k += 1;
    }
    k
}

/// The first tracked second from one on, before the end of a range, and how many intervals at the front have no second from there on,
/// of which so many are known.
pub fn next_tracked(
    rows: &[Interval],
    known: usize,
    at: u64,
    to: u64,
    now: u64,
) -> Option<(usize, u64)>
    requires rows { AreRows rows.now }
    requires inside { known ≤ length rows.now }
    requires spent { AreSpent at now (take known rows.now) }
    ensures first { IfSome result (λ x. IsFirst rows.now at to now x.0 x.1) }
    ensures none { result ≡ None → NoneFrom rows.now at to now }
{
    let passed = spent(rows, known, at, now);
    if passed == rows.len() {
        return None;
    }
    let start = rows[passed].start.max(at);
    if to <= start {
        return None;
    }
    Some((passed, start))
}

/// The tracked seconds from one on up to another, of which so many intervals at the front have none.
pub fn time_after(rows: &[Interval], spent: usize, from: u64, to: u64, now: u64) -> u64
    requires rows { AreRows rows.now }
    requires now { now < limit }
    requires inside { spent ≤ length rows.now }
    requires spent { AreSpent from now (take spent rows.now) }
    ensures { result ≡ time rows.now from to now }
{
    let (_, rest) = rows.split_at(spent);
    time_before(rest, from, to, now)
}

// The tracked seconds of a range, by the intervals that start before its end.
fn time_before(rows: &[Interval], from: u64, to: u64, now: u64) -> u64
    requires rows { AreRows rows.now }
    requires now { now < limit }
    ensures { result ≡ total from to now rows.now }
{
    let mut seconds = 0;
    for row in rows {
        if to <= row.start {
            return seconds;
        }
        seconds += seconds_within(from, to, now, row);
    }
    seconds
}
