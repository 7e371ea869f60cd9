ghost use Rattle.std.specs.Prelude.{◌≡◌, ◌+◌, ◌*◌, ◌-◌, ◌<◌, ◌≤◌, pos, negsuc, ◌≤ℤ◌, ◌-ℤ◌};
ghost use Rattle.std.specs.Prelude.{take, drop, string_bytes, IfOk, OnOk, Some, IfSome, option_map, IsAscii};
ghost use Rattle.jiff_core.specs.Calendar.{IsWithin};
ghost use Rattle.tw_time.specs.Forms.{digit_at};
ghost use Rattle.tw_segment.specs.Timestamp.{timestamp, digits, nanos_at, after_point, ahead, moment_at, timestamp_moment};

use std::alloc::{AllocError, Global};
use tw_text::{count_digits, number};
use tw_time::{print_extended, read_clock, read_extended};
use tw_world::Moment;

/// The moment of a timestamp, as `2023-11-14T22:13:20.5+01:00`: a date and time in the extended
/// format of ISO 8601, with one to nine decimals or none, and `Z` or an offset from UTC (RFC 3339).
#[tactic(auto, unfolding(crate::specs::Timestamp::timestamp_moment))]
pub fn read_timestamp(text: &str) -> Option<Moment>
    ensures { result ≡ timestamp_moment text.now }
{
    let (front, rest) = parted(text.as_bytes());
    let second = read_extended(front)?;
    let (nanos, mark) = nanos_at(rest)?;
    let ahead = ahead(mark)?;
    moment_at(second, ahead, nanos)
}

// The first 19 bytes, or all, and those after them.
fn parted(text: &[u8]) -> (&[u8], &[u8])
    ensures front { result.0.now ≡ take 19 text.now }
    ensures rest { result.1.now ≡ drop 19 text.now }
{
    text.split_at(text.len().min(19))
}

// The nanoseconds of a point and digits, or of nothing, and the bytes after them.
fn nanos_at(text: &[u8]) -> Option<(u32, &[u8])>
    ensures value { option_map (λ x. (x.0, x.1.now)) result ≡ nanos_at text.now }
    ensures bound { IfSome result (λ x. x.0 < 1_000_000_000) }
{
    match text {
        [b'.', rest @ ..] => after_point(rest),
        _ => Some((0, text)),
    }
}

// One to nine digits as nanoseconds, and the bytes after them.
fn after_point(text: &[u8]) -> Option<(u32, &[u8])>
    ensures value { option_map (λ x. (x.0, x.1.now)) result ≡ after_point text.now }
    ensures bound { IfSome result (λ x. x.0 < 1_000_000_000) }
{
    let (digits, rest) = text.split_at(count_digits(text));
    if digits.is_empty() || digits.len() > 9 {
        return None;
    }
    let worth = 10u64.pow(9 - digits.len() as u32);
    Some(((number(digits) * worth) as u32, rest))
}

// How many seconds a clock is ahead of UTC, by the mark of its zone.
fn ahead(mark: &[u8]) -> Option<i64>
    ensures value { result ≡ ahead mark.now }
    ensures bound { IfSome result (IsWithin 86_400) }
{
    match mark {
        [b'Z'] => Some(0),
        [b'+', rest @ ..] => match read_clock(rest) {
            Some(ahead) => Some(i64::from(ahead)),
            None => None,
        },
        [b'-', rest @ ..] => match read_clock(rest) {
            Some(behind) => Some(-i64::from(behind)),
            None => None,
        },
        _ => None,
    }
}

// The moment at a second that a clock shows which is so far ahead of UTC.
fn moment_at(second: i64, ahead: i64, nanos: u32) -> Option<Moment>
    requires second { (negsuc 400_000_000_000 ≤ℤ second) × (second ≤ℤ pos 400_000_000_000) }
    requires ahead { IsWithin 86_400 ahead }
    ensures { result ≡ moment_at (second -ℤ ahead) nanos }
{
    let second = second - ahead;
    if second < 0 {
        return None;
    }
    Moment::new(second as u64, nanos)
}

/// The timestamp of a moment in UTC with nine decimals, as `2023-11-14T22:13:20.000000000Z`.
pub fn write_timestamp(alloc: Global, at: &Moment) -> Result<String, AllocError>
    ensures text { IfOk result (λ s. string_bytes s ≡ timestamp at.now) }
    ensures reads_back { OnOk result (timestamp_moment (timestamp at.now) ≡ Some at.now) }
{
    let mut text = String::with_capacity(alloc, 30)?;
    let second = print_extended(at.seconds);
    text.push_str(ascii(&second))?;
    text.push('.')?;
    text.push_str(ascii(&nine_digits(at.nanos)))?;
    text.push('Z')?;
    Ok(text)
}

fn ascii(bytes: &[u8]) -> &str
    requires { IsAscii bytes.now }
    ensures { result.now ≡ bytes.now }
{
    std::str::from_utf8(bytes).unwrap()
}

fn nine_digits(n: u32) -> [u8; 9]
    ensures text { result ≡ digits 9 n }
    ensures ascii { IsAscii result }
{
    [
        digit(n, 100_000_000),
        digit(n, 10_000_000),
        digit(n, 1_000_000),
        digit(n, 100_000),
        digit(n, 10_000),
        digit(n, 1_000),
        digit(n, 100),
        digit(n, 10),
        digit(n, 1),
    ]
}

// A digit of a number; `unit` is a power of ten.
fn digit(n: u32, unit: u32) -> u8
    requires { 0 < unit }
    ensures { result ≡ digit_at n unit }
{
    b'0' + (n / unit % 10) as u8
}
