//! What follows from the definitions, as contracts of functions that do nothing.
ghost use Rattle.std.specs.Prelude.{◌≡◌, ◌-◌, ◌+◌, ℕ, List};
ghost use Rattle.timew_interval.specs.declared.interval.Interval.{Interval};
ghost use Rattle.timew_interval.specs.Interval.{AreRows};
ghost use Rattle.timew_cmd.specs.Ranges.{total};
ghost use Rattle.timew_report.specs.Time.{count, time};
ghost use Rattle.timew_report.specs.Gaps.{is_free};
ghost use Rattle.timew_report.specs.Totals.{totals, AreTotals};

/// The tracked seconds of a range are those of its intervals together.
pub fn time_is_the_sum_of_intervals()
    ensures { (rows : List Interval) (from to now : ℕ) → AreRows rows → time rows from to now ≡ total from to now rows }
{}

/// Each second of a range is tracked or free.
pub fn a_range_is_tracked_or_free()
    ensures { (rows : List Interval) (from to now : ℕ) → time rows from to now + count (is_free rows now) from (to - from) ≡ to - from }
{}

/// The totals of a range are the times of all tags: each tag that has a tracked second there is one of them, and no other one is.
pub fn totals_are_the_times_of_tags()
    ensures { (rows : List Interval) (from to now : ℕ) → AreTotals rows from to now (totals rows from to now) }
{}
