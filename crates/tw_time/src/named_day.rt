ghost use Rattle.std.specs.Prelude.{◌≡◌, ◌<◌, ◌+◌, pos, IfOk};
ghost use Rattle.jiff.specs.Words.{IsYmd};
ghost use Rattle.tw_time.specs.Civil.{limit};
ghost use Rattle.tw_time.specs.Moments.{number_of_day, quarter_start, at_named};

use crate::calendar::{date_on, day_number, time_of, weekday_of};
use crate::error::DateError;
use crate::zone::{Zone, second_of, shown_at};
use jiff::civil::Date;
use jiff_core::civil;

/// A day that follows from today's date. Weekdays count from 0 for Monday.
#[derive(Clone, Copy)]
pub enum NamedDay {
    Today,
    Tomorrow,
    Yesterday,
    Next(u8),
    WeekStart,
    WeekEnd,
    MonthStart,
    MonthEnd,
    QuarterStart,
    QuarterEnd,
    YearStart,
    YearEnd,
}

// The moment at which the zone's clock shows a time of a named day.
#[tactic(auto, unfolding(crate::specs::Moments::at_named))]
pub fn at_named(
    name: NamedDay,
    hour: u16,
    minute: u16,
    second: u16,
    now: u64,
    zone: &Zone,
) -> Result<u64, DateError>
    requires { now < limit }
    ensures value { result ≡ at_named name hour minute second now zone.now }
    ensures in_range { IfOk result (λ at. at < limit) }
{
    let today = shown_at(now, zone).date();
    let date = date_on(number_of_day(name, today)).ok_or(DateError::OutOfRange)?;
    let time = time_of(hour, minute, second).ok_or(DateError::Unknown)?;
    second_of(date, time, zone).ok_or(DateError::OutOfRange)
}

// The day number of a named day.
#[tactic(auto, using(crate::proofs::DayFacts::day_of_numbers))]
fn number_of_day(name: NamedDay, today: Date) -> i64
    ensures { result ≡ number_of_day name today }
{
    match name {
        NamedDay::Today => day_number(today),
        NamedDay::Tomorrow => day_number(today) + 1,
        NamedDay::Yesterday => day_number(today) - 1,
        NamedDay::Next(weekday) => {
            let ahead = 1 + (u32::from(weekday) + 6 - weekday_of(today)) % 7;
            day_number(today) + i64::from(ahead)
        }
        NamedDay::WeekStart => day_number(today) - i64::from(weekday_of(today)),
        NamedDay::WeekEnd => day_number(today) + i64::from(6 - weekday_of(today)),
        NamedDay::MonthStart => day_number(today.first_of_month()),
        NamedDay::MonthEnd => day_number(today.last_of_month()),
        NamedDay::QuarterStart => day_number(in_quarter(today, 0)),
        NamedDay::QuarterEnd => day_number(in_quarter(today, 2).last_of_month()),
        NamedDay::YearStart => day_number(today.first_of_year()),
        NamedDay::YearEnd => day_number(today.last_of_year()),
    }
}

// The first day of a month of the date's quarter, from 0 to 2.
fn in_quarter(date: Date, month: u8) -> Date
    requires { month < 3 }
    ensures { IsYmd date.year (pos (quarter_start date + month)) (pos 1) result }
{
    let plain = date.to_plain();
    Date::from_plain(civil::Date {
        year: plain.year,
        month: (plain.month - 1) / 3 * 3 + 1 + month,
        day: 1,
    })
}
