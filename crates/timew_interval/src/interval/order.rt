// The order of intervals.
ghost use Rattle.std.specs.Prelude.{◌≡◌, ◌||◌, ℕ, true};
ghost use Rattle.timew_interval.specs.Interval.{goes_past, in_order, ends_by};
ghost use Rattle.timew_interval.specs.Placing.{is_not_after, end_le};

use crate::interval::Interval;

/// Whether an interval with this end goes past a second.
pub fn goes_past(end: Option<u64>, second: u64) -> bool
    ensures { result ≡ goes_past end second }
{
    match end {
        Some(end) => second < end,
        None => true,
    }
}

fn end_le(end: Option<u64>, other: Option<u64>) -> bool
    ensures { result ≡ end_le end other }
{
    match (end, other) {
        (_, None) => true,
        (None, Some(_)) => false,
        (Some(end), Some(other)) => end <= other,
    }
}

/// Whether an interval is not after another, in the order of start and end.
pub fn is_not_after(row: &Interval, other: &Interval) -> bool
    ensures { result ≡ is_not_after row.now other.now }
{
    row.start < other.start || (row.start == other.start && end_le(row.end, other.end))
}

/// The later of two ends. An open one is the latest.
pub fn later_end(end: Option<u64>, other: Option<u64>) -> Option<u64>
    ensures { (second : ℕ) → goes_past result second ≡ (goes_past end second || goes_past other second) }
{
    if end_le(end, other) { other } else { end }
}

/// Whether each interval ends before the next one starts.
pub(crate) fn in_order(rows: &[Interval]) -> bool
    ensures { result ≡ in_order rows.now }
{
    let mut at = 1;
    while at < rows.len() {
        if !ends_by(rows[at - 1].end, rows[at].start) {
            return false;
        }
        at += 1;
    }
    true
}

fn ends_by(end: Option<u64>, second: u64) -> bool
    ensures { result ≡ ends_by end second }
{
    match end {
        Some(end) => end <= second,
        None => false,
    }
}
