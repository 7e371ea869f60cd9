ghost use Rattle.std.specs.Prelude.{◌≡◌, pos, Some};
ghost use Rattle.jiff.specs.Words.{IsNthWeekday, monday_zero};
ghost use Rattle.tw_time.specs.Civil.{date_on};
ghost use Rattle.tw_time.specs.Basic.{IsPrintedAgain};
ghost use Rattle.tw_time.specs.Moments.{number_of_day};
ghost use Rattle.tw_time.specs.declared.named_day.NamedDay.TheVariants.{Next};

use jiff::civil::{Date, Weekday};

/// A weekday's name means the first such day after today, by `jiff`'s own weekdays.
pub fn a_weekdays_name_is_the_next_such_day(today: Date, weekday: Weekday, day: Date)
    requires { date_on (number_of_day (Next (monday_zero weekday)) today) ≡ Some day }
    ensures { IsNthWeekday today (pos 1) weekday day }
{}

/// A text that `read_basic` takes is the one that `print_basic` gives for its moment.
pub fn a_basic_text_is_printed_again(text: &str, at: u64)
    ensures { IsPrintedAgain text.now at }
{}
