ghost use Rattle.std.specs.Prelude.{◌≡◌, ◌<◌, ◌≤◌, ◌+◌, length, IsAscii, IfSome, Some};
ghost use Rattle.tw_time.specs.Civil.{limit};
ghost use Rattle.tw_time.specs.Basic.{basic, basic_moment};

use crate::clock::utc_parts;
use crate::form::{at_civil, digit, filled};
use crate::zone::Zone;
use tw_world::MOMENT_LIMIT;

/// The moment in UTC in the basic format of ISO 8601, as `20260304T100000Z`.
pub fn print_basic(at: u64) -> [u8; 16]
    requires { at < limit }
    ensures text { result ≡ basic at }
    ensures ascii { IsAscii result }
    ensures reads_back { basic_moment result ≡ Some at }
{
    let parts = utc_parts(at);
    [
        digit(parts.year, 1000),
        digit(parts.year, 100),
        digit(parts.year, 10),
        digit(parts.year, 1),
        digit(parts.month, 10),
        digit(parts.month, 1),
        digit(parts.day, 10),
        digit(parts.day, 1),
        b'T',
        digit(parts.hour, 10),
        digit(parts.hour, 1),
        digit(parts.minute, 10),
        digit(parts.minute, 1),
        digit(parts.second, 10),
        digit(parts.second, 1),
        b'Z',
    ]
}

/// The moment of a text in the basic format of ISO 8601, as `20260304T100000Z`: 16 bytes, and a
/// day and time that exist.
pub fn read_basic(text: &str) -> Option<u64>
    ensures value { result ≡ basic_moment text.now }
    ensures in_range { IfSome result (λ at. at < limit) }
{
    read_basic_bytes(text.as_bytes())
}

/// The same, of the bytes of a text.
pub fn read_basic_bytes(text: &[u8]) -> Option<u64>
    ensures value { result ≡ basic_moment text.now }
    ensures in_range { IfSome result (λ at. at < limit) }
{
    match moment_printed(text) {
        Some(at) => Some(at),
        None => read_by_form(text),
    }
}

#[tactic(auto, unfolding(crate::specs::Basic::basic_moment))]
fn read_by_form(text: &[u8]) -> Option<u64>
    ensures value { result ≡ basic_moment text.now }
    ensures in_range { IfSome result (λ at. at < limit) }
{
    let parts = filled(b"YYYYMMDDThhmmssZ", text)?;
    at_civil(parts, &Zone::utc()).ok()
}

// The moment that is printed as this text. Arithmetic finds it fast, and printing it shows that it is the one; so reading by the form
// is left for the texts that have no moment.
fn moment_printed(text: &[u8]) -> Option<u64>
    ensures value { IfSome result (λ at. basic_moment text.now ≡ Some at) }
    ensures in_range { IfSome result (λ at. at < limit) }
{
    if text.len() != 16 {
        return None;
    }
    let at = second_shown(text);
    if at < MOMENT_LIMIT && print_basic(at).as_slice() == text {
        Some(at)
    } else {
        None
    }
}

// Two digits as a number; of other bytes some number.
fn two_digits(text: &[u8], at: usize) -> u64
    requires { at + 1 < length text.now }
    ensures { result ≤ 2_805 }
{
    let tens = text[at].wrapping_sub(b'0');
    let ones = text[at + 1].wrapping_sub(b'0');
    u64::from(tens) * 10 + u64::from(ones)
}

// The days from 0000-03-01 up to the first of a month. A year begins in March here, so that a leap day comes last.
fn days_before(year: u64, month: u64) -> u64
    requires year { year ≤ 300_000 }
    requires month { month ≤ 3_000 }
    ensures { result ≤ 200_000_000 }
{
    let year = if month <= 2 {
        year.saturating_sub(1)
    } else {
        year
    };
    365 * year + year / 4 - year / 100 + year / 400 + (153 * ((month + 9) % 12) + 2) / 5
}

// The days from 0000-03-01 up to 1969-12-31.
const DAYS_BEFORE_1970: u64 = 719_469;

// The second at which UTC's clock shows these bytes, if it does; else some second.
fn second_shown(text: &[u8]) -> u64
    requires { length text.now ≡ 16 }
{
    let year = 100 * two_digits(text, 0) + two_digits(text, 2);
    let days = days_before(year, two_digits(text, 4)) + two_digits(text, 6);
    let minutes = 60 * (24 * days + two_digits(text, 9)) + two_digits(text, 11);
    (60 * minutes + two_digits(text, 13)).saturating_sub(DAYS_BEFORE_1970 * 86_400)
}
