// What is wrong with modification words.
ghost use Rattle.std.specs.Prelude.{◌≡◌, ◌<◌, ◌+◌, length, drop};
ghost use Rattle.tw_terms.specs.Cuts.{parts};
ghost use Rattle.tw_words.specs.Modifications.{unless, moment_fault, length_fault, full_fault, empty_fault, value_fault, pair_fault};
ghost use Rattle.tw_words.specs.Modifications.{text_fault, word_fault, at_word, first_fault, rest_words};
ghost use Rattle.tw_words.specs.Clocks.{clock_of};

use crate::changes::depends_part::are_items;
use crate::changes::field::{Field, field_named};
use crate::changes::modification::{is_add, is_plain, number_at, pair_of, tag_of};
use crate::clock::Clock;
use crate::line::Line;
use tw_terms::{BadWord, WordKind, is_priority, is_virtual};
use tw_time::{read_duration, read_moment};

pub(crate) fn unless(right: bool, kind: WordKind) -> Option<WordKind>
    ensures { result ≡ unless right kind }
{
    if right { None } else { Some(kind) }
}

fn moment_fault(clock: Option<Clock<'_>>, value: &str) -> Option<WordKind>
    ensures { result ≡ moment_fault (clock_of clock.entry) value.now }
{
    let Some(clock) = clock else {
        return None;
    };
    match read_moment(value, clock.now.seconds, clock.zone) {
        Ok(_) => None,
        Err(_) => Some(WordKind::Date),
    }
}

fn length_fault(clock: Option<Clock<'_>>, value: &str) -> Option<WordKind>
    ensures { result ≡ length_fault (clock_of clock.entry) value.now }
{
    if clock.is_none() {
        return None;
    }
    match read_duration(value) {
        Ok(_) => None,
        Err(_) => Some(WordKind::Value),
    }
}

// What is wrong with a value that is not empty.
#[tactic(auto, unfolding(crate::specs::Modifications::full_fault))]
fn full_fault(clock: Option<Clock<'_>>, field: Field, value: &str) -> Option<WordKind>
    ensures { result ≡ full_fault (clock_of clock.entry) field value.now }
{
    match field {
        Field::Description | Field::Project => None,
        Field::Priority => unless(is_priority(value), WordKind::Value),
        Field::Moment => moment_fault(clock, value),
        Field::Depends => unless(are_items(value), WordKind::Value),
        Field::Recur => length_fault(clock, value),
    }
}

pub(crate) fn empty_fault(field: Field) -> Option<WordKind>
    ensures { result ≡ empty_fault field }
{
    match field {
        Field::Description => Some(WordKind::Value),
        _ => None,
    }
}

fn value_fault(clock: Option<Clock<'_>>, field: Field, value: &str) -> Option<WordKind>
    ensures { result ≡ value_fault (clock_of clock.entry) field value.now }
{
    if value.is_empty() {
        empty_fault(field)
    } else {
        full_fault(clock, field, value)
    }
}

fn pair_fault(clock: Option<Clock<'_>>, adding: bool, name: &str, value: &str) -> Option<WordKind>
    ensures { result ≡ pair_fault (clock_of clock.entry) adding name.now value.now }
{
    match field_named(adding, name) {
        Some(field) => value_fault(clock, field, value),
        None => Some(WordKind::Attribute),
    }
}

pub(crate) fn text_fault(sole: bool, word: &str) -> Option<WordKind>
    ensures { result ≡ text_fault sole word.now }
{
    unless(!sole || !word.is_empty(), WordKind::Value)
}

/// What is wrong with a modification word.
pub(crate) fn word_fault(
    clock: Option<Clock<'_>>,
    adding: bool,
    sole: bool,
    plain: bool,
    word: &str,
) -> Option<WordKind>
    ensures { result ≡ word_fault (clock_of clock.entry) adding sole plain word.now }
{
    if let Some((_, tag)) = tag_of(plain, word) {
        return unless(!is_virtual(tag), WordKind::Attribute);
    }
    match pair_of(plain, word) {
        Some((name, value)) => pair_fault(clock, adding, name, value),
        None => text_fault(sole, word),
    }
}

/// A word that is wrong, by its number among the words taken.
pub(crate) fn at_word(line: &Line, n: u64, kind: Option<WordKind>) -> Option<BadWord>
    ensures { result ≡ at_word line.now n kind }
{
    match kind {
        Some(kind) => Some(BadWord {
            word: number_at(line, n),
            kind,
        }),
        None => None,
    }
}

/// The first modification word that is wrong.
pub(crate) fn first_fault(clock: Option<Clock<'_>>, sole: bool, line: &Line) -> Option<BadWord>
    ensures { result ≡ first_fault (clock_of clock.entry) sole line.now line.now.rest_from (rest_words line.now) }
{
    let adding = is_add(line.command);
    for n in line.rest_from..line.words.len() as u64 {
        let plain = is_plain(line, n);
        let kind = word_fault(clock, adding, sole, plain, line.word(n));
        if let Some(bad) = at_word(line, n, kind) {
            return Some(bad);
        }
    }
    None
}
