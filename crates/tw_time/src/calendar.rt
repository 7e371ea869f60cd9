ghost use Rattle.std.specs.Prelude.{◌≡◌, ◌<◌, pos};
ghost use Rattle.jiff.specs.Words.{epoch_day, IsEpochDay, weekday_of};
ghost use Rattle.tw_time.specs.Civil.{date_of, time_of, date_on};

use jiff::civil::{Date, Time};
use jiff_core::civil;

// The date with these numbers, if the calendar has it.
pub fn date_of(year: u16, month: u16, day: u16) -> Option<Date>
    ensures { result ≡ date_of (pos year) month day }
{
    if year > 9999 || month > 12 || day > 31 {
        return None;
    }
    let Ok(date) = Date::new(year as i16, month as i8, day as i8) else {
        return None;
    };
    Some(date)
}

// The time of day with these numbers, if a clock shows it.
pub fn time_of(hour: u16, minute: u16, second: u16) -> Option<Time>
    ensures { result ≡ time_of hour minute second }
{
    if hour > 23 || minute > 59 || second > 59 {
        return None;
    }
    let Ok(time) = Time::new(hour as i8, minute as i8, second as i8, 0) else {
        return None;
    };
    Some(time)
}

// The date with this day number, if there is one.
pub fn date_on(day: i64) -> Option<Date>
    ensures { result ≡ date_on day }
{
    let Ok(date) = civil::Date::from_unix_epoch_day(day) else {
        return None;
    };
    Some(Date::from_plain(date))
}

// The day number of a date.
pub fn day_number(date: Date) -> i64
    ensures value { result ≡ epoch_day date }
    ensures bound { IsEpochDay result }
{
    i64::from(date.to_plain().to_unix_epoch_day())
}

// The weekday, from 0 for Monday.
pub fn weekday_of(date: Date) -> u32
    ensures value { result ≡ weekday_of date }
    ensures bound { result < 7 }
{
    u32::from(date.weekday().index())
}
