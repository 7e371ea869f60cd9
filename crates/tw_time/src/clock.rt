ghost use Rattle.std.specs.Prelude.{◌≡◌, ◌<◌, option_map, pos, Some, Ok};
ghost use Rattle.tw_time.specs.Civil.{limit, day_of_date, shown_clock, shown_date, Shows};
ghost use Rattle.tw_time.specs.Forms.{IsPrintable};
ghost use Rattle.tw_time.specs.Placed.{at_civil};
ghost use Rattle.tw_time.specs.Basic.{utc_parts};
ghost use Rattle.tw_time.specs.Extended.{second_of_parts};
ghost use Rattle.jiff.specs.Types.{UTC};

use crate::form::Parts;
use crate::zone::{Zone, shown_at};
use jiff_core::civil::{Date, DateTime, Time};

/// A day of the calendar.
#[derive(Clone, Copy, Debug, PartialEq, Eq, PartialOrd, Ord)]
pub struct Day {
    pub year: i16,
    /// From 1 to 12.
    pub month: u8,
    /// From 1 to 31.
    pub day: u8,
}

/// A time of day, to the second.
#[derive(Clone, Copy, Debug, PartialEq, Eq, PartialOrd, Ord)]
pub struct Clock {
    /// Below 24.
    pub hour: u8,
    /// Below 60.
    pub minute: u8,
    /// Below 60.
    pub second: u8,
}

/// The day that the zone's calendar shows at a second since 1970.
pub fn day_of(at: u64, zone: &Zone) -> Day
    requires { at < limit }
    ensures { option_map (λ d. day_of_date d) (shown_date zone.now at) ≡ Some result }
{
    let shown = shown_at(at, zone).to_plain();
    Day {
        year: shown.date.year,
        month: shown.date.month,
        day: shown.date.day,
    }
}

/// The time of day that the zone's clock shows at a second since 1970.
pub fn clock_of(at: u64, zone: &Zone) -> Clock
    requires { at < limit }
    ensures { result ≡ shown_clock zone.now at }
{
    let shown = shown_at(at, zone).to_plain();
    Clock {
        hour: shown.time.hour,
        minute: shown.time.minute,
        second: shown.time.second,
    }
}

// The days from -9999-01-01, the calendar's first, up to 1970-01-01.
const DAYS_BEFORE_1970: u32 = 4_371_587;

// What UTC's clock shows at a second. There is no offset, so no zone is asked.
fn shown_in_utc(at: u64) -> DateTime
    requires { at < limit }
    ensures { Shows UTC at result }
{
    DateTime {
        date: Date::from_days_since_min((at / 86_400) as u32 + DAYS_BEFORE_1970),
        time: Time::from_second((at % 86_400) as u32, 0),
    }
}

// The numbers that UTC's clock shows at a second.
pub fn utc_parts(at: u64) -> Parts
    requires { at < limit }
    ensures shown { utc_parts at ≡ Some result }
    ensures placed { at_civil result UTC ≡ Ok at }
    ensures counted { second_of_parts result ≡ Some (pos at) }
    ensures printable { IsPrintable result }
{
    let shown = shown_in_utc(at);
    Parts {
        year: shown.date.year.unsigned_abs(),
        month: u16::from(shown.date.month),
        day: u16::from(shown.date.day),
        hour: u16::from(shown.time.hour),
        minute: u16::from(shown.time.minute),
        second: u16::from(shown.time.second),
    }
}
