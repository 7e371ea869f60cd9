ghost use Rattle.std.specs.Prelude.{◌≡◌, ◌<◌, pos, ◌+◌, ◌*◌, ◌⊎◌, ◌+ℤ◌, ◌≤ℤ◌, IfSome};
ghost use Rattle.jiff.specs.Words.{epoch_day, add_months};
ghost use Rattle.tw_time.specs.Civil.{limit, date_on};
ghost use Rattle.tw_time.specs.Lengths.{added, moved, below_limit, IsOfOneUnit, moved_day};

use crate::calendar::{date_on, day_number};
use crate::length::Length;
use crate::zone::{Zone, second_of, shown_at};
use jiff::ToSpan;
use jiff::civil::Date;
use tw_world::MOMENT_LIMIT;

/// The moment so many times a length on. Months and days go by the zone's calendar and keep the
/// time of day: a day past the month's end becomes its last day, and a time that the clock skips
/// or shows twice is taken with the offset before the change. Seconds go by the instant. `None`
/// if the result is not before the year 9999.
#[tactic(auto, unfolding(crate::specs::Lengths::added))]
pub fn add_length(at: u64, length: &Length, times: u32, zone: &Zone) -> Option<u64>
    requires in_range { at < limit }
    requires of_one_unit { IsOfOneUnit length.now }
    ensures value { result ≡ added at length.now times zone.now }
    ensures in_range { IfSome result (λ at. at < limit) }
{
    if length.months == 0 && length.days == 0 {
        return seconds_later(at, length.seconds, times);
    }
    let months = u64::from(length.months) * u64::from(times);
    let days = u64::from(length.days) * u64::from(times);
    moved(at, months, days, zone)
}

// The moment so many months or days on, at the same time of day on the zone's clock.
#[tactic(auto, unfolding(crate::specs::Lengths::moved))]
fn moved(at: u64, months: u64, days: u64, zone: &Zone) -> Option<u64>
    requires in_range { at < limit }
    requires of_one_unit { (months ≡ 0) ⊎ (days ≡ 0) }
    ensures value { result ≡ moved at months days zone.now }
    ensures in_range { IfSome result (λ at. at < limit) }
{
    let shown = shown_at(at, zone);
    let date = moved_date(shown.date(), months, days)?;
    second_of(date, shown.time(), zone)
}

// The date so many months or days on.
fn moved_date(date: Date, months: u64, days: u64) -> Option<Date>
    requires year { pos 1969 ≤ℤ date.year }
    requires of_one_unit { (months ≡ 0) ⊎ (days ≡ 0) }
    ensures { result ≡ date_on (moved_day date months days) }
{
    if months == 0 {
        day_later(date, days)
    } else {
        month_later(date, months)
    }
}

// The date so many days on, if there is one.
fn day_later(date: Date, days: u64) -> Option<Date>
    ensures { result ≡ date_on (epoch_day date +ℤ pos days) }
{
    if days > 7_304_484 {
        return None;
    }
    date_on(day_number(date) + days as i64)
}

// The date so many months on, if there is one: a day past the month's end is its last day.
fn month_later(date: Date, months: u64) -> Option<Date>
    requires { pos 1969 ≤ℤ date.year }
    ensures { result ≡ date_on (add_months date (pos months)) }
{
    if months > 239_976 {
        return None;
    }
    let Ok(later) = date.checked_add((months as i64).months()) else {
        return None;
    };
    Some(later)
}

// The second so many times some seconds on, if it is below the limit.
fn seconds_later(at: u64, seconds: u64, times: u32) -> Option<u64>
    ensures value { result ≡ below_limit (at + seconds * times) }
    ensures in_range { IfSome result (λ at. at < limit) }
{
    let later = u128::from(at) + u128::from(seconds) * u128::from(times);
    if later < u128::from(MOMENT_LIMIT) {
        Some(later as u64)
    } else {
        None
    }
}

// The second, if it is below the limit.
pub fn below_limit(at: u64) -> Option<u64>
    ensures value { result ≡ below_limit at }
    ensures in_range { IfSome result (λ at. at < limit) }
{
    if at < MOMENT_LIMIT { Some(at) } else { None }
}
