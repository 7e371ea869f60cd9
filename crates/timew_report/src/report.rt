// The text of a report of hours.
ghost use Rattle.std.specs.Prelude.{◌≡◌, ◌<◌, IfOk};
ghost use Rattle.timew_interval.specs.Interval.{limit};
ghost use Rattle.timew_report.specs.Texts.{time_text};

use crate::days::{Span, days_text};
use crate::gaps::gaps_text;
use crate::totals::totals_text;
use std::alloc::Global;
use timew_interval::Intervals;
use timew_words::TimeReport;
use tw_time::Zone;
use tw_world::Memory;

/// A report of the hours in a range, from a second up to another, and below a blank line their sum (timew(1), "gaps", "day" and
/// "week"; `totals` is like the extension of that name). An open interval is measured to now, or to its start if now is earlier; days
/// and weeks are those of the zone, and lengths are `H:MM:SS`. A second with two tags counts for both of them, and once in the sum.
pub fn time_text(
    alloc: Global,
    report: TimeReport,
    rows: &Intervals,
    from: u64,
    to: u64,
    now: u64,
    zone: &Zone,
) -> Result<Vec<u8>, Memory>
    requires to { to < limit }
    requires now { now < limit }
    ensures { IfOk result (λ text. text.items ≡ time_text report rows.now from to now zone.now) }
{
    let rows = rows.as_slice();
    match report {
        TimeReport::Gaps => gaps_text(alloc, rows, from, to, now, zone),
        TimeReport::Days => days_text(alloc, Span::Day, rows, from, to, now, zone),
        TimeReport::Weeks => days_text(alloc, Span::Week, rows, from, to, now, zone),
        TimeReport::Totals => totals_text(alloc, rows, from, to, now),
    }
}
