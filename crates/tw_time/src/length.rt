ghost use Rattle.std.specs.Prelude.{◌≡◌, IfOk, IsTrue, All, Some};
ghost use Rattle.std.specs.Int.{IsInRange};
ghost use Rattle.tw_time.specs.Tables.{entries};
ghost use Rattle.tw_time.specs.Lengths.{duration, numbered, counted, is_zero, is_small, are_small, count_of_units, IsOfOneUnit};

use crate::error::DateError;
use crate::table::look_up;
use tw_text::{count_digits, number};

/// A length of time: months and days of the calendar, or seconds. At most one field is not zero.
#[derive(Clone, Copy, Debug, PartialEq, Eq)]
pub struct Length {
    pub months: u32,
    pub days: u32,
    pub seconds: u64,
}

/// The length of a duration: a number and a unit as `3d` or `2weeks`, the same as `P3D`, or a
/// name as `weekly` (task(1), "DATES AND DURATIONS"). A length of zero is no duration.
#[tactic(auto, unfolding(crate::specs::Lengths::duration))]
pub fn read_duration(text: &str) -> Result<Length, DateError>
    ensures value { result ≡ duration text.now }
    ensures of_one_unit { IfOk result IsOfOneUnit }
{
    match look_up(text.as_bytes(), &NAMED_LENGTHS) {
        Some(length) => Ok(length),
        None => numbered(text.as_bytes()),
    }
}

// A number and a unit, or the same after a P.
#[tactic(auto, unfolding(crate::specs::Lengths::numbered))]
pub fn numbered(text: &[u8]) -> Result<Length, DateError>
    ensures { result ≡ numbered text.now }
{
    if !text.is_empty() && text[0] == b'P' {
        counted(&ISO_UNITS, &text[1..])
    } else {
        counted(&UNITS, text)
    }
}

// A number and one of these units.
#[tactic(auto, unfolding(crate::specs::Lengths::counted))]
fn counted(table: &[(&str, Length)], text: &[u8]) -> Result<Length, DateError>
    requires { IsTrue (are_small (entries table.now)) }
    ensures { result ≡ counted (entries table.now) text.now }
{
    let (digits, unit) = text.split_at(count_digits(text));
    let Some(one) = look_up(unit, table) else {
        return Err(DateError::Unknown);
    };
    count_of_units(digits, one)
}

// A number of units, which is not zero and has at most six digits.
fn count_of_units(digits: &[u8], one: Length) -> Result<Length, DateError>
    requires digits { All (λ c. IsInRange 48 57 c) digits.now }
    requires small { IsTrue (is_small one) }
    ensures { result ≡ count_of_units digits.now (Some one) }
{
    if is_zero(digits) {
        return Err(DateError::Unknown);
    }
    if digits.len() > 6 {
        return Err(DateError::OutOfRange);
    }
    let n = number(digits);
    Ok(Length {
        months: one.months * n as u32,
        days: one.days * n as u32,
        seconds: one.seconds * n,
    })
}

// Whether the digits are none, or all are 0.
fn is_zero(digits: &[u8]) -> bool
    ensures { result ≡ is_zero digits.now }
{
    digits.iter().all(|c| *c == b'0')
}

// The units, each with the length of one.
const UNITS: [(&str, Length); 19] = [
    ("s", SECOND),
    ("sec", SECOND),
    ("min", MINUTE),
    ("h", HOUR),
    ("hours", HOUR),
    ("d", DAY),
    ("day", DAY),
    ("days", DAY),
    ("w", WEEK),
    ("wk", WEEK),
    ("week", WEEK),
    ("weeks", WEEK),
    ("mo", MONTH),
    ("month", MONTH),
    ("months", MONTH),
    ("q", QUARTER),
    ("y", YEAR),
    ("year", YEAR),
    ("years", YEAR),
];

// The units after a P and a number.
const ISO_UNITS: [(&str, Length); 4] = [("D", DAY), ("W", WEEK), ("M", MONTH), ("Y", YEAR)];

// The durations that have a name.
const NAMED_LENGTHS: [(&str, Length); 9] = [
    ("daily", DAY),
    ("weekly", WEEK),
    ("biweekly", FORTNIGHT),
    ("monthly", MONTH),
    ("bimonthly", TWO_MONTHS),
    ("quarterly", QUARTER),
    ("semiannual", HALF_YEAR),
    ("annual", YEAR),
    ("yearly", YEAR),
];

const SECOND: Length = Length {
    months: 0,
    days: 0,
    seconds: 1,
};

const MINUTE: Length = Length {
    months: 0,
    days: 0,
    seconds: 60,
};

const HOUR: Length = Length {
    months: 0,
    days: 0,
    seconds: 3600,
};

const DAY: Length = Length {
    months: 0,
    days: 1,
    seconds: 0,
};

const WEEK: Length = Length {
    months: 0,
    days: 7,
    seconds: 0,
};

const FORTNIGHT: Length = Length {
    months: 0,
    days: 14,
    seconds: 0,
};

const MONTH: Length = Length {
    months: 1,
    days: 0,
    seconds: 0,
};

const TWO_MONTHS: Length = Length {
    months: 2,
    days: 0,
    seconds: 0,
};

const QUARTER: Length = Length {
    months: 3,
    days: 0,
    seconds: 0,
};

const HALF_YEAR: Length = Length {
    months: 6,
    days: 0,
    seconds: 0,
};

const YEAR: Length = Length {
    months: 12,
    days: 0,
    seconds: 0,
};
