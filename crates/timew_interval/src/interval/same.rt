// Whether intervals are the same.
ghost use Rattle.std.specs.Prelude.{◌≡◌, true};

use crate::interval::Interval;
use crate::interval::texts::Texts;

fn are_same_texts(texts: &Texts, others: &Texts) -> bool
    ensures { result ≡ true → texts.now ≡ others.now }
{
    if texts.len() != others.len() {
        return false;
    }
    for n in 0..texts.len() {
        if texts.at(n) != others.at(n) {
            return false;
        }
    }
    true
}

fn is_same_end(end: Option<u64>, other: Option<u64>) -> bool
    ensures { result ≡ true → end ≡ other }
{
    match (end, other) {
        (Some(end), Some(other)) => end == other,
        (None, None) => true,
        _ => false,
    }
}

/// Whether these are the same intervals.
pub(crate) fn is_same(row: &Interval, other: &Interval) -> bool
    ensures { result ≡ true → row.now ≡ other.now }
{
    row.start == other.start
        && is_same_end(row.end, other.end)
        && are_same_texts(&row.tags, &other.tags)
        && row.annotation.as_str() == other.annotation.as_str()
}
