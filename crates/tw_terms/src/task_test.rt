// The tests of one task.
ghost use Rattle.std.specs.Prelude.{◌≡◌, ◌<◌, ◌||◌, ◌==◌, nat_lt, nat_le, ◌&&◌, false, is_some, nat_eq, codes, ◌++◌, Some, IfOk};
ghost use Rattle.std.specs.Option.{option_copied};
ghost use Rattle.std.specs.List.{list_any, starts_with, ends_with};
ghost use Rattle.std.specs.FinMap as map;
ghost use Rattle.tw_model.specs.Maps.{same_bytes};
ghost use Rattle.tw_time.specs.Civil.{limit};
ghost use Rattle.tw_urgency.specs.Stored.{moment_at, is_tag, is_annotation};
ghost use Rattle.tw_terms.specs.Occurs.{occurs, has_word, is_below};
ghost use Rattle.tw_terms.specs.Holds.{passes, same_status, is_day, is_on, mentions};

use crate::occurrence::{has_word, is_below, occurs};
use tw_model::TaskMap;
use tw_time::{Day, Zone, day_of};
use tw_urgency::{Status, is_annotation, is_tag, moment_at};
use tw_world::Text;

pub(crate) fn same_status(a: Status, b: Status) -> bool
    ensures { result ≡ same_status a b }
{
    match (a, b) {
        (Status::Pending, Status::Pending) => true,
        (Status::Waiting, Status::Waiting) => true,
        (Status::Completed, Status::Completed) => true,
        (Status::Deleted, Status::Deleted) => true,
        (Status::Recurring, Status::Recurring) => true,
        (Status::Other, Status::Other) => true,
        _ => false,
    }
}

/// Whether a property is there.
pub fn has(task: &TaskMap, property: &Text) -> bool
    ensures { result ≡ is_some (map.get task.now property.now) }
{
    task.get(property.as_str()).is_some()
}

/// Whether a property is there, and is a moment.
pub(crate) fn has_moment(task: &TaskMap, property: &Text) -> bool
    ensures { result ≡ is_some (moment_at property.now task.now) }
{
    moment_at(task, property.as_str()).is_some()
}

/// Whether a property is a text.
pub(crate) fn is_value(task: &TaskMap, property: &Text, value: &Text) -> bool
    ensures { result ≡ passes (λ text. same_bytes text value.now) (map.get task.now property.now) }
{
    match task.get(property.as_str()) {
        Some(text) => text == value.as_str(),
        None => false,
    }
}

/// Whether a property is a project or one below it.
pub fn is_within(task: &TaskMap, property: &Text, value: &Text) -> bool
    ensures { result ≡ passes (λ text. same_bytes text value.now || is_below value.now text) (map.get task.now property.now) }
{
    match task.get(property.as_str()) {
        Some(text) => text == value.as_str() || is_below(value.as_str(), text),
        None => false,
    }
}

pub(crate) fn contains(task: &TaskMap, property: &Text, value: &Text) -> bool
    ensures { result ≡ passes (occurs value.now) (map.get task.now property.now) }
{
    match task.get(property.as_str()) {
        Some(text) => occurs(value.as_str(), text),
        None => false,
    }
}

pub(crate) fn begins(task: &TaskMap, property: &Text, value: &Text) -> bool
    ensures { result ≡ passes (λ text. starts_with nat_eq text value.now) (map.get task.now property.now) }
{
    match task.get(property.as_str()) {
        Some(text) => text.as_bytes().starts_with(value.as_str().as_bytes()),
        None => false,
    }
}

pub(crate) fn ends(task: &TaskMap, property: &Text, value: &Text) -> bool
    ensures { result ≡ passes (λ text. ends_with nat_eq text value.now) (map.get task.now property.now) }
{
    match task.get(property.as_str()) {
        Some(text) => text.as_bytes().ends_with(value.as_str().as_bytes()),
        None => false,
    }
}

pub(crate) fn has_the_word(task: &TaskMap, property: &Text, value: &Text) -> bool
    ensures { result ≡ passes (has_word false value.now) (map.get task.now property.now) }
{
    match task.get(property.as_str()) {
        Some(text) => has_word(value.as_str(), text),
        None => false,
    }
}

fn is_mention(name: &str, text: &str, value: &str) -> bool
    ensures { result ≡ mentions value.now (name.now, text.now) }
{
    (name == "description" || is_annotation(name)) && occurs(value, text)
}

/// Whether the description or an annotation contains a text.
pub(crate) fn mentions(task: &TaskMap, value: &str) -> bool
    ensures { result ≡ list_any (mentions value.now) (map.entries task.now) }
{
    for n in 0..task.len() {
        if is_mention(task.key(n), task.value(n), value) {
            return true;
        }
    }
    false
}

fn is_on(zone: &Zone, day: Day, at: u64) -> bool
    requires { at < limit }
    ensures { result ≡ is_on zone.now day at }
{
    let shown = day_of(at, zone);
    shown.year == day.year && shown.month == day.month && shown.day == day.day
}

/// Whether a property is a moment of a day.
pub(crate) fn on_day(task: &TaskMap, property: &Text, day: Day, zone: &Zone) -> bool
    ensures { result ≡ passes (is_on zone.now day) (moment_at property.now task.now) }
{
    match moment_at(task, property.as_str()) {
        Some(at) => is_on(zone, day, at),
        None => false,
    }
}

pub(crate) fn at(task: &TaskMap, property: &Text, second: u64) -> bool
    ensures { result ≡ passes (λ at. at == second) (moment_at property.now task.now) }
{
    match moment_at(task, property.as_str()) {
        Some(at) => at == second,
        None => false,
    }
}

pub(crate) fn before(task: &TaskMap, property: &Text, second: u64) -> bool
    ensures { result ≡ passes (λ at. nat_lt at second) (moment_at property.now task.now) }
{
    match moment_at(task, property.as_str()) {
        Some(at) => at < second,
        None => false,
    }
}

pub(crate) fn after(task: &TaskMap, property: &Text, second: u64) -> bool
    ensures { result ≡ passes (λ at. nat_lt second at) (moment_at property.now task.now) }
{
    match moment_at(task, property.as_str()) {
        Some(at) => second < at,
        None => false,
    }
}

/// Whether a task has a tag.
pub(crate) fn is_tagged(task: &TaskMap) -> bool
    ensures { result ≡ list_any is_tag (map.keys task.now) }
{
    for n in 0..task.len() {
        if is_tag(task.key(n)) {
            return true;
        }
    }
    false
}

/// Whether a task has an annotation.
pub(crate) fn is_annotated(task: &TaskMap) -> bool
    ensures { result ≡ list_any is_annotation (map.keys task.now) }
{
    for n in 0..task.len() {
        if is_annotation(task.key(n)) {
            return true;
        }
    }
    false
}
