ghost use Rattle.std.specs.Prelude.{◌≡◌, ◌<◌, IsAscii, Some};
ghost use Rattle.tw_time.specs.Civil.{limit};
ghost use Rattle.tw_time.specs.Forms.{IsPrintable};
ghost use Rattle.tw_time.specs.Shown.{shown_parts, shown_day_text};

use crate::form::{Parts, digit};
use crate::zone::{Zone, shown_at};

/// The day that the zone's calendar shows at a second since 1970, as `2026-03-04`.
pub fn print_day(at: u64, zone: &Zone) -> [u8; 10]
    requires { at < limit }
    ensures text { result ≡ shown_day_text zone.now at }
    ensures ascii { IsAscii result }
{
    let parts = zone_parts(at, zone);
    [
        digit(parts.year, 1000),
        digit(parts.year, 100),
        digit(parts.year, 10),
        digit(parts.year, 1),
        b'-',
        digit(parts.month, 10),
        digit(parts.month, 1),
        b'-',
        digit(parts.day, 10),
        digit(parts.day, 1),
    ]
}

// The numbers that the zone's clock shows at a second.
fn zone_parts(at: u64, zone: &Zone) -> Parts
    requires { at < limit }
    ensures shown { shown_parts zone.now at ≡ Some result }
    ensures printable { IsPrintable result }
{
    let shown = shown_at(at, zone).to_plain();
    Parts {
        year: shown.date.year.unsigned_abs(),
        month: u16::from(shown.date.month),
        day: u16::from(shown.date.day),
        hour: u16::from(shown.time.hour),
        minute: u16::from(shown.time.minute),
        second: u16::from(shown.time.second),
    }
}
