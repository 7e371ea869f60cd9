ghost use Rattle.std.specs.Prelude.{◌≡◌, ◌<◌, IfOk};
ghost use Rattle.tw_time.specs.Civil.{limit};
ghost use Rattle.tw_time.specs.Tables.{entries};
ghost use Rattle.tw_time.specs.Moments.{moment, word_moment, formed, form_moment, is_unix, counted_moment};

use crate::added::{add_length, below_limit};
use crate::error::DateError;
use crate::form::{Parts, at_civil, filled};
use crate::length::numbered;
use crate::named_day::{NamedDay, at_named};
use crate::table::look_up;
use crate::zone::Zone;
use tw_text::{are_digits, number};

/// A word for a moment.
#[derive(Clone, Copy)]
pub enum Word {
    Now,
    Later,
    StartOf(NamedDay),
    EndOf(NamedDay),
}

/// What the numbers of a form mean.
#[derive(Clone, Copy)]
pub enum Form {
    OnDay,
    OnClock,
    InUtc,
    OnToday,
}

/// The moment of a text, in seconds since 1970: a word as `tomorrow` or `eom`, a date, a time of
/// today, 9 to 12 digits of seconds, or a duration from now (task(1), "DATES AND DURATIONS";
/// timew-dates(7)). Words and civil times go by the zone's clock.
#[tactic(auto, unfolding(crate::specs::Moments::moment))]
pub fn read_moment(text: &str, now: u64, zone: &Zone) -> Result<u64, DateError>
    requires { now < limit }
    ensures value { result ≡ moment text.now now zone.now }
    ensures in_range { IfOk result (λ at. at < limit) }
{
    let bytes = text.as_bytes();
    if let Some(word) = look_up(bytes, &WORDS) {
        return word_moment(word, now, zone);
    }
    if let Some((form, parts)) = formed(bytes, &FORMS) {
        return form_moment(form, parts, now, zone);
    }
    counted_moment(bytes, now, zone)
}

// The moment of a word.
fn word_moment(word: Word, now: u64, zone: &Zone) -> Result<u64, DateError>
    requires { now < limit }
    ensures value { result ≡ word_moment word now zone.now }
    ensures in_range { IfOk result (λ at. at < limit) }
{
    match word {
        Word::Now => Ok(now),
        Word::Later => Ok(253_370_592_000),
        Word::StartOf(day) => at_named(day, 0, 0, 0, now, zone),
        Word::EndOf(day) => at_named(day, 23, 59, 59, now, zone),
    }
}

// The form and the numbers of a text.
fn formed(text: &[u8], table: &[(&str, Form)]) -> Option<(Form, Parts)>
    ensures { result ≡ formed text.now (entries table.now) }
{
    for (form, meaning) in table {
        if let Some(parts) = filled(form.as_bytes(), text) {
            return Some((*meaning, parts));
        }
    }
    None
}

// The moment of a text that has a form.
fn form_moment(form: Form, parts: Parts, now: u64, zone: &Zone) -> Result<u64, DateError>
    requires { now < limit }
    ensures value { result ≡ form_moment form parts now zone.now }
    ensures in_range { IfOk result (λ at. at < limit) }
{
    match form {
        Form::OnDay | Form::OnClock => at_civil(parts, zone),
        Form::InUtc => at_civil(parts, &Zone::utc()),
        Form::OnToday => at_named(
            NamedDay::Today,
            parts.hour,
            parts.minute,
            parts.second,
            now,
            zone,
        ),
    }
}

// The moment of a number of seconds, or of a duration from now.
#[tactic(auto, unfolding(crate::specs::Moments::counted_moment))]
fn counted_moment(text: &[u8], now: u64, zone: &Zone) -> Result<u64, DateError>
    requires { now < limit }
    ensures value { result ≡ counted_moment text.now now zone.now }
    ensures in_range { IfOk result (λ at. at < limit) }
{
    if is_unix(text) {
        return below_limit(number(text)).ok_or(DateError::OutOfRange);
    }
    let length = numbered(text)?;
    add_length(now, &length, 1, zone).ok_or(DateError::OutOfRange)
}

// Whether the text is 9 to 12 digits.
fn is_unix(text: &[u8]) -> bool
    ensures { result ≡ is_unix text.now }
{
    are_digits(text) && 9 <= text.len() && text.len() <= 12
}

// The words.
const WORDS: [(&str, Word); 30] = [
    ("now", Word::Now),
    ("today", Word::StartOf(NamedDay::Today)),
    ("sod", Word::StartOf(NamedDay::Today)),
    ("eod", Word::EndOf(NamedDay::Today)),
    ("tomorrow", Word::StartOf(NamedDay::Tomorrow)),
    ("yesterday", Word::StartOf(NamedDay::Yesterday)),
    ("monday", Word::StartOf(NamedDay::Next(0))),
    ("mon", Word::StartOf(NamedDay::Next(0))),
    ("tuesday", Word::StartOf(NamedDay::Next(1))),
    ("tue", Word::StartOf(NamedDay::Next(1))),
    ("wednesday", Word::StartOf(NamedDay::Next(2))),
    ("wed", Word::StartOf(NamedDay::Next(2))),
    ("thursday", Word::StartOf(NamedDay::Next(3))),
    ("thu", Word::StartOf(NamedDay::Next(3))),
    ("friday", Word::StartOf(NamedDay::Next(4))),
    ("fri", Word::StartOf(NamedDay::Next(4))),
    ("saturday", Word::StartOf(NamedDay::Next(5))),
    ("sat", Word::StartOf(NamedDay::Next(5))),
    ("sunday", Word::StartOf(NamedDay::Next(6))),
    ("sun", Word::StartOf(NamedDay::Next(6))),
    ("sow", Word::StartOf(NamedDay::WeekStart)),
    ("eow", Word::EndOf(NamedDay::WeekEnd)),
    ("som", Word::StartOf(NamedDay::MonthStart)),
    ("eom", Word::EndOf(NamedDay::MonthEnd)),
    ("soq", Word::StartOf(NamedDay::QuarterStart)),
    ("eoq", Word::EndOf(NamedDay::QuarterEnd)),
    ("soy", Word::StartOf(NamedDay::YearStart)),
    ("eoy", Word::EndOf(NamedDay::YearEnd)),
    ("later", Word::Later),
    ("someday", Word::Later),
];

// The forms of dates and times.
const FORMS: [(&str, Form); 11] = [
    ("YYYY-MM-DD", Form::OnDay),
    ("YYYYMMDD", Form::OnDay),
    ("YYYY-MM-DDThh:mm", Form::OnClock),
    ("YYYY-MM-DDThh:mm:ss", Form::OnClock),
    ("YYYY-MM-DDThh:mmZ", Form::InUtc),
    ("YYYY-MM-DDThh:mm:ssZ", Form::InUtc),
    ("YYYYMMDDThhmmssZ", Form::InUtc),
    ("h:mm", Form::OnToday),
    ("hh:mm", Form::OnToday),
    ("h:mm:ss", Form::OnToday),
    ("hh:mm:ss", Form::OnToday),
];
