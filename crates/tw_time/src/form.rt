ghost use Rattle.std.specs.Prelude.{◌≡◌, ◌<◌, ◌≤◌, IfOk};
ghost use Rattle.tw_time.specs.Civil.{limit};
ghost use Rattle.tw_time.specs.Forms.{put, filled, with_digit, digit_at, is_digit_letter};
ghost use Rattle.tw_time.specs.Placed.{at_civil};

use crate::calendar::{date_of, time_of};
use crate::error::DateError;
use crate::zone::{Zone, second_of};

/// The numbers of a text of a form, each by its last four digits, and 0 if the form has none.
#[derive(Clone, Copy)]
pub struct Parts {
    pub year: u16,
    pub month: u16,
    pub day: u16,
    pub hour: u16,
    pub minute: u16,
    pub second: u16,
}

// The numbers of a text of this form: the letters Y, M, D, h, m and s of a form stand for digits.
pub fn filled(form: &[u8], text: &[u8]) -> Option<Parts>
    ensures { result ≡ filled form.now text.now }
{
    if form.len() != text.len() {
        return None;
    }
    let mut parts = Parts {
        year: 0,
        month: 0,
        day: 0,
        hour: 0,
        minute: 0,
        second: 0,
    };
    for i in 0..form.len() {
        let Some(more) = put(form[i], text[i], parts) else {
            return None;
        };
        parts = more;
    }
    Some(parts)
}

// One character of a text against that of a form.
#[tactic(auto, unfolding(crate::specs::Forms::put))]
fn put(letter: u8, byte: u8, parts: Parts) -> Option<Parts>
    ensures { result ≡ put letter byte parts }
{
    if !byte.is_ascii_digit() {
        return if letter == byte && !is_digit_letter(letter) {
            Some(parts)
        } else {
            None
        };
    }
    match letter {
        b'Y' => Some(Parts {
            year: with_digit(parts.year, byte),
            ..parts
        }),
        b'M' => Some(Parts {
            month: with_digit(parts.month, byte),
            ..parts
        }),
        b'D' => Some(Parts {
            day: with_digit(parts.day, byte),
            ..parts
        }),
        b'h' => Some(Parts {
            hour: with_digit(parts.hour, byte),
            ..parts
        }),
        b'm' => Some(Parts {
            minute: with_digit(parts.minute, byte),
            ..parts
        }),
        b's' => Some(Parts {
            second: with_digit(parts.second, byte),
            ..parts
        }),
        _ => None,
    }
}

// Whether a character of a form stands for a digit.
fn is_digit_letter(letter: u8) -> bool
    ensures { result ≡ is_digit_letter letter }
{
    letter == b'Y'
        || letter == b'M'
        || letter == b'D'
        || letter == b'h'
        || letter == b'm'
        || letter == b's'
}

// The last four digits of a number with a digit after it.
fn with_digit(number: u16, digit: u8) -> u16
    requires { 48 ≤ digit }
    ensures { result ≡ with_digit number digit }
{
    ((u32::from(number) * 10 + u32::from(digit - b'0')) % 10_000) as u16
}

// The second at which the zone's clock shows the numbers.
#[tactic(auto, unfolding(crate::specs::Placed::at_civil))]
pub fn at_civil(parts: Parts, zone: &Zone) -> Result<u64, DateError>
    ensures value { result ≡ at_civil parts zone.now }
    ensures in_range { IfOk result (λ at. at < limit) }
{
    let date = date_of(parts.year, parts.month, parts.day).ok_or(DateError::Unknown)?;
    let time = time_of(parts.hour, parts.minute, parts.second).ok_or(DateError::Unknown)?;
    second_of(date, time, zone).ok_or(DateError::OutOfRange)
}

// A digit of a number; `unit` is a power of ten.
pub fn digit(number: u16, unit: u16) -> u8
    requires { 0 < unit }
    ensures { result ≡ digit_at number unit }
{
    b'0' + (number / unit % 10) as u8
}
