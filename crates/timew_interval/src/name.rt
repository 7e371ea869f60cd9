// Names of month files.
ghost use Rattle.std.specs.Prelude.{◌≡◌, ◌≤◌, length, ◌<◌, true, IfOk, ◌-◌};
ghost use Rattle.timew_interval.specs.MonthName.{is_month_name, two_digits};
ghost use Rattle.tw_time.specs.Forms.{digit_at};
ghost use Rattle.timew_interval.specs.MonthName.{month_name, name_of};
ghost use Rattle.tw_world.specs.Folder.{same_bytes};
ghost use Rattle.tw_world.specs.declared.moment.TheConstants.{MOMENT_LIMIT};

use crate::interval::Interval;
use std::alloc::Global;
use tw_text::are_digits;
use tw_time::print_basic;
use tw_world::{Memory, Text};

/// Whether this is the name of a month file: `YYYY-MM.data`, with a month from 01 to 12.
pub fn is_month_name(name: &[u8]) -> bool
    ensures { result ≡ is_month_name name.now }
{
    if name.len() != 12 {
        return false;
    }
    let (year, rest) = name.split_at(4);
    let (month, _) = name[5..].split_at(2);
    if !are_digits(year) || rest[0] != b'-' || !are_digits(month) {
        return false;
    }
    let number = two_digits(&name[5..]);
    1 <= number && number <= 12 && &name[7..] == b".data".as_slice()
}

// The number of two digits.
fn two_digits(digits: &[u8]) -> u32
    requires { 2 ≤ length digits.now }
    ensures { result ≡ two_digits digits.now }
{
    let tens = u32::from(digits[0].saturating_sub(b'0'));
    let ones = u32::from(digits[1].saturating_sub(b'0'));
    tens * 10 + ones
}

/// The name of the month file for a second.
pub fn month_name(at: u64) -> [u8; 12]
    requires { at < MOMENT_LIMIT }
    ensures name { result ≡ month_name at }
    ensures good { is_month_name (month_name at) ≡ true }
{
    let text = print_basic(at);
    [
        text[0], text[1], text[2], text[3], b'-', text[4], text[5], b'.', b'd', b'a', b't', b'a',
    ]
}

fn digit(number: u16, unit: u16) -> u8
    requires { 0 < unit }
    ensures { result ≡ digit_at number unit }
{
    b'0' + (number / unit % 10) as u8
}

/// The name of the month file of a year and a month.
pub(crate) fn name_of(year: u16, month: u8) -> [u8; 12]
    ensures { result ≡ name_of year month }
{
    [
        digit(year, 1000),
        digit(year, 100),
        digit(year, 10),
        digit(year, 1),
        b'-',
        digit(u16::from(month), 10),
        digit(u16::from(month), 1),
        b'.',
        b'd',
        b'a',
        b't',
        b'a',
    ]
}

/// The name of a month file as a text.
pub fn name_text(alloc: Global, name: &[u8]) -> Result<Text, Memory>
    requires { is_month_name name.now ≡ true }
    ensures { IfOk result (λ text. text ≡ name.now) }
{
    match std::str::from_utf8(name) {
        Ok(name) => Text::from_str(alloc, name),
        Err(_) => unreachable!(),
    }
}

/// Whether an interval starts in the month of a file.
pub fn is_in_month(name: &[u8], row: &Interval) -> bool
    requires { row.now.start < MOMENT_LIMIT }
    ensures { result ≡ same_bytes (month_name row.now.start) name.now }
{
    month_name(row.start).as_slice() == name
}
