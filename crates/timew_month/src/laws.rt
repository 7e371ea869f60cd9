//! What follows from the definitions, as contracts of functions that do nothing.
ghost use Rattle.std.specs.Prelude.{◌≡◌, ℕ, true, List, Ok};
ghost use Rattle.std.specs.List.{AllByRecursion};
ghost use Rattle.tw_world.specs.Folder.{Files};
ghost use Rattle.timew_interval.specs.declared.interval.Interval.{Interval};
ghost use Rattle.timew_interval.specs.Interval.{AreRows};
ghost use Rattle.timew_interval.specs.Line.{lines_text};
ghost use Rattle.timew_interval.specs.MonthName.{is_month_name};
ghost use Rattle.timew_interval.specs.ReadBack.{IsWritable};
ghost use Rattle.timew_month.specs.Changes.{changed_files, HasMonthText};
ghost use Rattle.timew_month.specs.Month.{month_rows};
ghost use Rattle.timew_month.specs.Rows.{rows_of};
ghost use Rattle.timew_month.specs.Spelled.{TailsAreSpelled, LinesAreSpelled};

/// The lines of intervals are read back as these intervals.
pub fn lines_are_read_back()
    ensures { (rows : List Interval) → AllByRecursion IsWritable rows → month_rows (lines_text rows) ≡ Ok rows }
{}

/// What a line has after its moments is read if it is tags and an annotation as a line may have them, and nothing else is.
pub fn tails_are_spelled()
    ensures { TailsAreSpelled }
{}

/// A line is read if it spells an interval that does not end before it starts, and no other line is.
pub fn lines_are_spelled()
    ensures { LinesAreSpelled }
{}

/// After a change to intervals the month files hold these intervals, whatever they held before.
pub fn month_files_hold_the_intervals()
    ensures { (files : Files) (rows : List Interval) → AreRows rows → AllByRecursion IsWritable rows → rows_of (changed_files files rows) ≡ Ok rows }
{}

/// After a change to intervals each month file is the one text of the intervals that start in its month.
pub fn a_month_file_is_the_text_of_its_month()
    ensures { (files : Files) (rows : List Interval) (name : List ℕ) → is_month_name name ≡ true → HasMonthText files rows name }
{}
