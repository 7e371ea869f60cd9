// Ranges of time, and which intervals are in them.
ghost use Rattle.std.specs.Prelude.{◌≡◌, ◌<◌};
ghost use Rattle.tw_time.specs.Moments.{moment};
ghost use Rattle.timew_interval.specs.Interval.{limit};
ghost use Rattle.timew_words.specs.Ranges.{or_else, bounds};

use tw_time::{Zone, read_moment};
use tw_world::MOMENT_LIMIT;

/// Which stretch of time a text is about.
#[derive(Clone, Copy, Drop)]
pub enum Range {
    Day,
    Week,
    All,
    /// From a second up to but not including another.
    Between(u64, u64),
}

/// The moment of a word, or another if it is out of range. Both are in seconds since 1970.
pub fn word_or(word: &str, other: u64, now: u64, zone: &Zone) -> u64
    requires { now < limit }
    ensures value { result ≡ or_else other (moment word.now now zone.now) }
    ensures in_range { other < limit → result < limit }
{
    match read_moment(word, now, zone) {
        Ok(at) => at,
        Err(_) => other,
    }
}

impl Range {
    /// The second from which on the range is, and the one up to which, both since 1970: a day and a week begin at midnight by the
    /// zone's clock, a week on Monday. What lies out of the range of moments is cut off.
    pub fn bounds(self, now: u64, zone: &Zone) -> (u64, u64)
        requires { now < limit }
        ensures { result ≡ bounds self now zone.now }
    {
        match self {
            Range::Day => (
                word_or("today", 0, now, zone),
                word_or("tomorrow", MOMENT_LIMIT, now, zone),
            ),
            Range::Week => (
                word_or("sow", 0, now, zone),
                word_or("monday", MOMENT_LIMIT, now, zone),
            ),
            Range::All => (0, MOMENT_LIMIT),
            Range::Between(start, end) => (start, end),
        }
    }
}
