// Moments that are mostly of the day of the one before: the calendar is asked once a day, and the clock is read of the others.
ghost use Rattle.std.specs.Prelude.{◌≡◌, ◌<◌, ◌≤◌, ◌+◌, ◌-◌, ◌*◌, ◌%◌, Some, IfSome};
ghost use Rattle.tw_world.specs.declared.moment.TheConstants.{MOMENT_LIMIT};
ghost use Rattle.tw_time.specs.Basic.{basic_moment};
ghost use Rattle.tw_time.specs.Forms.{digit_at};
ghost use Rattle.timew_month.specs.Day.{clock_text};

use tw_time::{print_basic, read_basic_bytes};

/// A day in UTC, by a moment of it, the text of that, and the first second of the day.
#[derive(Clone, Copy)]
pub(crate) struct Day {
    at: u64,
    midnight: u64,
    text: [u8; 16],
    ghost in_range: { at < MOMENT_LIMIT },
    ghost is: { basic_moment text ≡ Some at },
    ghost begins: { midnight ≡ at - at % 86_400 },
}

impl Day {
    /// The first day that has moments.
    pub fn first() -> Day {
        Day {
            at: 0,
            midnight: 0,
            text: print_basic(0),
        }
    }

    /// The moment of a text. If it is one of another day, this becomes that day.
    #[inline(always)]
    pub fn read(&mut self, text: &[u8; 16]) -> Option<u64>
        ensures value { result ≡ basic_moment text.now }
        ensures in_range { IfSome result (λ at. at < MOMENT_LIMIT) }
    {
        match self.moment(text) {
            Some(at) => Some(at),
            None => self.turn(text),
        }
    }

    // The moment of a text, whose day this becomes.
    // Not inlined, so that a moment of the same day is read without what this needs.
    #[inline(never)]
    fn turn(&mut self, text: &[u8; 16]) -> Option<u64>
        ensures value { result ≡ basic_moment text.now }
        ensures in_range { IfSome result (λ at. at < MOMENT_LIMIT) }
    {
        let at = read_basic_bytes(text)?;
        *self = Day {
            at,
            midnight: at - at % 86_400,
            text: *text,
        };
        Some(at)
    }

    // The moment of a text, if it has the date of this day.
    #[inline(always)]
    fn moment(&self, text: &[u8; 16]) -> Option<u64>
        ensures value { IfSome result (λ at. basic_moment text.now ≡ Some at) }
        ensures in_range { IfSome result (λ at. at < MOMENT_LIMIT) }
    {
        let (date, clock) = text.split_first_chunk::<9>()?;
        let (day, _) = self.text.split_first_chunk::<9>()?;
        if date != day {
            return None;
        }
        let second = clock_second(clock)?;
        Some(self.midnight + second)
    }
}

// The second of a day at which a clock shows these bytes, as `100000Z`, if there is one.
#[inline(always)]
fn clock_second(clock: &[u8]) -> Option<u64>
    ensures shown { IfSome result (λ second. clock.now ≡ clock_text second) }
    ensures in_day { IfSome result (λ second. second < 86_400) }
{
    let [hour, hours, minute, minutes, second, seconds, b'Z'] = clock else {
        return None;
    };
    let hour = two_digits(*hour, *hours, b'2')?;
    let minute = two_digits(*minute, *minutes, b'5')?;
    let second = two_digits(*second, *seconds, b'5')?;
    if hour >= 24 {
        return None;
    }
    Some(hour * 3600 + minute * 60 + second)
}

// Two digits as a number, if they are one and the first is at most this one.
#[inline(always)]
fn two_digits(tens: u8, ones: u8, most: u8) -> Option<u64>
    requires { most ≤ 57 }
    ensures below { IfSome result (λ n. n + 470 < most * 10) }
    ensures tens { IfSome result (λ n. tens ≡ digit_at n 10) }
    ensures ones { IfSome result (λ n. ones ≡ digit_at n 1) }
{
    if tens < b'0' || tens > most {
        return None;
    }
    if !ones.is_ascii_digit() {
        return None;
    }
    Some(u64::from(tens - b'0') * 10 + u64::from(ones - b'0'))
}
