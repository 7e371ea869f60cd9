ghost use Rattle.std.specs.Prelude.{◌≡◌, ◌<◌, pos, ◌≤ℤ◌, IfSome, Some};
ghost use Rattle.jiff.specs.Types.{TimeZone as AnyZone, UTC};
ghost use Rattle.jiff.specs.Words.{plain_zone};
ghost use Rattle.tw_time.specs.Civil.{limit, nanos, Shows, ReadsZone, second_at, shown_date, shown_time};

use jiff::Timestamp;
use jiff::civil::{Date, DateTime, Time};
use jiff::tz::TimeZone;
use std::marker::Model;

/// A time zone: UTC, or a POSIX rule (tzset(3)). It borrows nothing.
#[derive(Clone, Copy)]
pub struct Zone {
    inner: TimeZone<'static>,
}

impl Model for Zone {
    ghost Value = { AnyZone };

    ghost view = { λ z. plain_zone z.inner };

    ghost inverse = { λ z. record { inner = record { inner = z } } };
}

/// Why a text is no zone.
#[derive(Clone, Copy, Debug, PartialEq, Eq)]
pub enum ZoneError {
    /// The text is neither empty nor a POSIX rule.
    Rule,
    /// There was no memory; no call of this crate takes any.
    Memory,
}

impl Zone {
    /// UTC.
    pub fn utc() -> Zone
        ensures { result ≡ UTC }
    {
        Zone {
            inner: TimeZone::UTC,
        }
    }

    /// The zone of a POSIX rule as `EST5EDT,M3.2.0,M11.1.0` (tzset(3)), and UTC for the empty
    /// text. A name of a zone is no rule.
    pub fn read(text: &str) -> Result<Zone, ZoneError>
        ensures { ReadsZone text.now result }
    {
        if text.is_empty() {
            return Ok(Zone::utc());
        }
        match TimeZone::posix(text) {
            Ok(inner) => Ok(Zone { inner }),
            Err(_) => Err(ZoneError::Rule),
        }
    }
}

// What the zone's clock shows at a second.
pub fn shown_at(at: u64, zone: &Zone) -> DateTime
    requires { at < limit }
    ensures shows { Shows zone.now at result }
    ensures date { shown_date zone.now at ≡ Some result.date }
    ensures time { shown_time zone.now at ≡ Some result.time }
    ensures year { pos 1969 ≤ℤ result.date.year }
{
    zone.inner.to_datetime(instant(at))
}

fn instant(at: u64) -> Timestamp
    requires { at < limit }
    ensures { result.nanosecond ≡ nanos at }
{
    Timestamp::from_second(at as i64).unwrap()
}

// The limit of moments, 9999-01-01T00:00:00Z, in nanoseconds.
const LIMIT_NANOS: i128 = 253_370_764_800_000_000_000;

// The second at which the zone's clock shows the date and time, by the compatible rule.
pub fn second_of(date: Date, time: Time, zone: &Zone) -> Option<u64>
    ensures value { result ≡ second_at zone.now date time }
    ensures in_range { IfSome result (λ at. at < limit) }
{
    let Ok(found) = zone.inner.to_timestamp(date.to_datetime(time)) else {
        return None;
    };
    let nanos = found.as_nanosecond();
    if nanos < 0 || nanos >= LIMIT_NANOS {
        return None;
    }
    Some((nanos / 1_000_000_000) as u64)
}
