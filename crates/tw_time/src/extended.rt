ghost use Rattle.std.specs.Prelude.{◌≡◌, ◌<◌, ◌≤◌, pos, negsuc, ◌≤ℤ◌, IsAscii, IfSome, Some};
ghost use Rattle.jiff_core.specs.Time.{time_seconds};
ghost use Rattle.tw_time.specs.Civil.{limit};
ghost use Rattle.tw_time.specs.Extended.{extended, extended_second, second_of_parts, civil_second, clock_second};

use crate::calendar::{date_of, day_number, time_of};
use crate::clock::utc_parts;
use crate::form::{Parts, digit, filled};
use jiff::civil::{Date, Time};

/// The moment in UTC in the extended format of ISO 8601, without a mark for the zone, as
/// `2026-03-04T10:00:00`.
pub fn print_extended(at: u64) -> [u8; 19]
    requires { at < limit }
    ensures text { result ≡ extended at }
    ensures ascii { IsAscii result }
    ensures reads_back { extended_second result ≡ Some (pos at) }
{
    let parts = utc_parts(at);
    [
        digit(parts.year, 1000),
        digit(parts.year, 100),
        digit(parts.year, 10),
        digit(parts.year, 1),
        b'-',
        digit(parts.month, 10),
        digit(parts.month, 1),
        b'-',
        digit(parts.day, 10),
        digit(parts.day, 1),
        b'T',
        digit(parts.hour, 10),
        digit(parts.hour, 1),
        b':',
        digit(parts.minute, 10),
        digit(parts.minute, 1),
        b':',
        digit(parts.second, 10),
        digit(parts.second, 1),
    ]
}

/// The seconds from 1970-01-01T00:00:00 to the date and time of a text in the extended format of
/// ISO 8601, as `2026-03-04T10:00:00`, in the years from 0 to 9999. Those before 1970 are below 0.
#[tactic(auto, unfolding(crate::specs::Extended::extended_second))]
pub fn read_extended(text: &[u8]) -> Option<i64>
    ensures value { result ≡ extended_second text.now }
    ensures bound { IfSome result (λ s. (negsuc 400_000_000_000 ≤ℤ s) × (s ≤ℤ pos 400_000_000_000)) }
{
    let parts = filled(b"YYYY-MM-DDThh:mm:ss", text)?;
    second_of_parts(parts)
}

/// The second of the day at a time of day `hh:mm`, with an hour below 24 and a minute below 60.
#[tactic(auto, unfolding(crate::specs::Extended::clock_second))]
pub fn read_clock(text: &[u8]) -> Option<u32>
    ensures value { result ≡ clock_second text.now }
    ensures bound { IfSome result (λ s. s < 86_400) }
{
    let parts = filled(b"hh:mm", text)?;
    let time = time_of(parts.hour, parts.minute, 0)?;
    Some(second_of_day(time))
}

// The seconds from 1970-01-01T00:00:00 to the date and time with these numbers.
#[tactic(auto, unfolding(crate::specs::Extended::second_of_parts))]
fn second_of_parts(parts: Parts) -> Option<i64>
    ensures value { result ≡ second_of_parts parts }
    ensures bound { IfSome result (λ s. (negsuc 400_000_000_000 ≤ℤ s) × (s ≤ℤ pos 400_000_000_000)) }
{
    let date = date_of(parts.year, parts.month, parts.day)?;
    let time = time_of(parts.hour, parts.minute, parts.second)?;
    Some(civil_second(date, time))
}

fn civil_second(date: Date, time: Time) -> i64
    ensures value { result ≡ civil_second date time }
    ensures bound { (negsuc 400_000_000_000 ≤ℤ result) × (result ≤ℤ pos 400_000_000_000) }
{
    day_number(date) * 86_400 + i64::from(second_of_day(time))
}

fn second_of_day(time: Time) -> u32
    ensures value { result ≡ time_seconds time }
    ensures bound { result < 86_400 }
{
    let plain = time.to_plain();
    u32::from(plain.hour) * 3600 + u32::from(plain.minute) * 60 + u32::from(plain.second)
}
