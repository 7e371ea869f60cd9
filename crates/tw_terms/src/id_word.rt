// Id words: numbers of tasks, ranges of them, and uuids.
ghost use Rattle.std.specs.Prelude.{◌≡◌, ◌<◌, ◌≤◌, IfSome, ◌∷◌, length, is_some, option_map};
ghost use Rattle.std.specs.Option.{option_copied};
ghost use Rattle.tw_terms.specs.Cuts.{parted, parts, parts_of};
ghost use Rattle.tw_terms.specs.IdWords.{uuid_of_36, number_in, range_of, range_in, ranges_in};

use tw_text::{are_digits, number};
use tw_urgency::read_uuid;
use uuid::Uuid;

/// What a part of an id word names.
#[derive(Clone, Copy, Drop)]
pub enum Name {
    /// The tasks with numbers from the first to the last.
    Numbers(u64, u64),
    /// The task of a uuid.
    One(Uuid),
}

/// The uuid that a text is, in 36 characters of either case.
#[tactic(auto, unfolding(crate::specs::IdWords::uuid_of_36))]
pub fn uuid_of_36(text: &str) -> Option<Uuid>
    ensures { result ≡ uuid_of_36 text.now }
{
    if text.len() == 36 {
        read_uuid(text)
    } else {
        None
    }
}

/// The number of a task: 1 to 9 digits, and not 0. Leading zeros may be in it.
#[tactic(auto, unfolding(crate::specs::IdWords::number_in))]
pub fn number_in(text: &str) -> Option<u64>
    ensures { result ≡ number_in text.now }
{
    let digits = text.as_bytes();
    if !are_digits(digits) || digits.is_empty() || digits.len() > 9 {
        return None;
    }
    match number(digits) {
        0 => None,
        n => Some(n),
    }
}

fn range_of(first: Option<u64>, last: Option<u64>) -> Option<Name>
    ensures { result ≡ range_of first last }
{
    let first = first?;
    let last = last?;
    if first <= last {
        Some(Name::Numbers(first, last))
    } else {
        None
    }
}

// What is around the first hyphen.
fn parted_at_hyphen(text: &str) -> Option<(&str, &str)>
    ensures { option_map (λ x. (x.0.now, x.1.now)) result ≡ parted 45 text.now }
{
    text.split_once('-')
}

/// A number, or two with a hyphen between.
#[tactic(auto, unfolding(crate::specs::IdWords::range_in))]
pub(crate) fn range_in(text: &str) -> Option<Name>
    ensures { result ≡ range_in text.now }
{
    match parted_at_hyphen(text) {
        Some((first, last)) => range_of(number_in(first), number_in(last)),
        None => range_of(number_in(text), number_in(text)),
    }
}

// What is around the first comma.
fn parted_at_comma(text: &str) -> Option<(&str, &str)>
    ensures { option_map (λ x. (x.0.now, x.1.now)) result ≡ parted 44 text.now }
{
    text.split_once(',')
}

/// The first part of a text with commas between its parts, and what comes after the first comma.
pub fn cut_part(text: &str) -> (&str, Option<&str>)
    ensures parts { parts 44 text.now ≡ result.0.now ∷ parts_of 44 (option_copied result.1) }
    ensures shorter { IfSome result.1 (λ rest. length rest.now < length text.now) }
{
    match parted_at_comma(text) {
        Some((part, rest)) => (part, Some(rest)),
        None => (text, None),
    }
}

/// Whether each part of a text with commas is a number or a range.
pub(crate) fn are_ranges(text: &str) -> bool
    ensures { result ≡ is_some (ranges_in (parts 44 text.now)) }
{
    let mut left = Some(text);
    while let Some(text) = left {
        let (part, rest) = cut_part(text);
        if range_in(part).is_none() {
            return false;
        }
        left = rest;
    }
    true
}
