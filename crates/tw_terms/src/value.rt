// What a word `name:value` asks.
ghost use Rattle.std.specs.Prelude.{◌≡◌, ◌<◌, IfOk, true};
ghost use Rattle.tw_time.specs.Civil.{limit};
ghost use Rattle.tw_terms.specs.Gives.{GivesTerm};
ghost use Rattle.tw_terms.specs.Values.{status_named, asks, presence, priority_term, status_value, status_term, uuid_value, uuid_term};
ghost use Rattle.tw_terms.specs.Values.{moment_value, day_value, day_term, dependency_term, valued, unvalued, plain_term};

use crate::attribute::{Attribute, is_priority};
use crate::bad_word::{KindError, WordKind};
use crate::id_word::{number_in, uuid_of_36};
use crate::term::{Term, Test, asks};
use std::alloc::Global;
use tw_time::{Day, Zone, day_of, look_up, read_moment};
use tw_urgency::Status;
use tw_world::{Memory, Text};
use uuid::Uuid;

// The words of statuses.
const STATUSES: [(&str, Status); 5] = [
    ("pending", Status::Pending),
    ("waiting", Status::Waiting),
    ("completed", Status::Completed),
    ("deleted", Status::Deleted),
    ("recurring", Status::Recurring),
];

// The status of a word.
#[tactic(auto, unfolding(crate::specs::Values::status_named))]
fn status_named(word: &str) -> Option<Status>
    ensures { result ≡ status_named word.now }
{
    look_up(word.as_bytes(), &STATUSES)
}

// The test of an attribute's presence.
pub(crate) fn presence(alloc: Global, attribute: Attribute, name: &str) -> Result<Test, Memory>
    ensures { IfOk result (λ test. test ≡ presence attribute name.now) }
{
    let test = match attribute {
        Attribute::Moment => Test::HasMoment(Text::from_str(alloc, name)?),
        Attribute::Depends => Test::HasDependency,
        _ => Test::Has(Text::from_str(alloc, name)?),
    };
    Ok(test)
}

// A priority that the property is, or is not. After `is` and `isnt` the value may be empty.
pub(crate) fn priority_term(
    alloc: Global,
    wanted: bool,
    name: &str,
    value: &str,
) -> Result<Term, KindError>
    ensures { GivesTerm result (priority_term wanted name.now value.now) }
{
    if is_priority(value) || value.is_empty() {
        is_text(alloc, wanted, name, value)
    } else {
        Err(KindError::Bad(WordKind::Value))
    }
}

// A text that the property is, or is not.
pub(crate) fn is_text(
    alloc: Global,
    wanted: bool,
    name: &str,
    value: &str,
) -> Result<Term, KindError>
    ensures { GivesTerm result (asks wanted (Test.Is name.now value.now)) }
{
    let name = Text::from_str(alloc, name)?;
    let value = Text::from_str(alloc, value)?;
    asks(wanted, Test::Is(name, value))
}

fn status_value(value: &str) -> Result<Status, WordKind>
    ensures { result ≡ status_value value.now }
{
    status_named(value).ok_or(WordKind::Value)
}

/// A status that the task has, or has not.
pub(crate) fn status_term(wanted: bool, value: &str) -> Result<Term, KindError>
    ensures { GivesTerm result (status_term wanted value.now) }
{
    let status = status_value(value)?;
    asks(wanted, Test::HasStatus(status))
}

fn uuid_value(value: &str) -> Result<Uuid, WordKind>
    ensures { result ≡ uuid_value value.now }
{
    uuid_of_36(value).ok_or(WordKind::Value)
}

fn uuid_term(value: &str) -> Result<Term, KindError>
    ensures { GivesTerm result (uuid_term value.now) }
{
    let uuid = uuid_value(value)?;
    asks(true, Test::IsUuid(uuid))
}

pub(crate) fn moment_value(value: &str, now: u64, zone: &Zone) -> Result<u64, WordKind>
    requires { now < limit }
    ensures value { result ≡ moment_value value.now now zone.now }
    ensures in_range { IfOk result (λ at. at < limit) }
{
    match read_moment(value, now, zone) {
        Ok(at) => Ok(at),
        Err(_) => Err(WordKind::Date),
    }
}

fn day_value(at: u64, zone: &Zone) -> Result<Day, WordKind>
    requires { at < limit }
    ensures { result ≡ day_value at zone.now }
{
    Ok(day_of(at, zone))
}

// `depends:value`: one task, by its uuid or its number.
#[tactic(auto, unfolding(crate::specs::Values::dependency_term))]
fn dependency_term(value: &str) -> Result<Term, KindError>
    ensures { GivesTerm result (dependency_term value.now) }
{
    if let Some(uuid) = uuid_of_36(value) {
        return asks(true, Test::DependsOn(uuid));
    }
    let number = number_in(value).ok_or(WordKind::Value)?;
    asks(true, Test::DependsOnNumber(number))
}

// A moment of the day that the value says.
fn day_term(
    alloc: Global,
    name: &str,
    value: &str,
    now: u64,
    zone: &Zone,
) -> Result<Term, KindError>
    requires { now < limit }
    ensures { GivesTerm result (day_term name.now value.now now zone.now) }
{
    let at = moment_value(value, now, zone)?;
    let day = day_value(at, zone)?;
    asks(true, Test::OnDay(Text::from_str(alloc, name)?, day))
}

// A project, or one below it.
fn project_term(alloc: Global, name: &str, value: &str) -> Result<Term, KindError>
    ensures { GivesTerm result (asks true (Test.IsWithin name.now value.now)) }
{
    let name = Text::from_str(alloc, name)?;
    let value = Text::from_str(alloc, value)?;
    asks(true, Test::IsWithin(name, value))
}

// `name:value`, where the value is not empty.
#[tactic(auto, unfolding(crate::specs::Values::valued))]
fn valued(
    alloc: Global,
    attribute: Attribute,
    name: &str,
    value: &str,
    now: u64,
    zone: &Zone,
) -> Result<Term, KindError>
    requires { now < limit }
    ensures { GivesTerm result (valued attribute name.now value.now now zone.now) }
{
    match attribute {
        Attribute::Words => is_text(alloc, true, name, value),
        Attribute::Project => project_term(alloc, name, value),
        Attribute::Priority => priority_term(alloc, true, name, value),
        Attribute::Moment => day_term(alloc, name, value, now, zone),
        Attribute::Status => status_term(true, value),
        Attribute::Recur => Err(KindError::Bad(WordKind::Value)),
        Attribute::Depends => dependency_term(value),
        Attribute::Uuid => uuid_term(value),
        Attribute::Parent | Attribute::Other => Err(KindError::Bad(WordKind::Attribute)),
    }
}

// `name:`, which asks that the attribute is absent.
fn unvalued(alloc: Global, attribute: Attribute, name: &str) -> Result<Term, KindError>
    ensures { GivesTerm result (unvalued attribute name.now) }
{
    match attribute {
        Attribute::Uuid => Err(KindError::Bad(WordKind::Value)),
        Attribute::Parent | Attribute::Other => Err(KindError::Bad(WordKind::Attribute)),
        _ => asks(false, presence(alloc, attribute, name)?),
    }
}

// `name:value`.
pub(crate) fn plain_term(
    alloc: Global,
    attribute: Attribute,
    name: &str,
    value: &str,
    now: u64,
    zone: &Zone,
) -> Result<Term, KindError>
    requires { now < limit }
    ensures { GivesTerm result (plain_term attribute name.now value.now now zone.now) }
{
    if value.is_empty() {
        unvalued(alloc, attribute, name)
    } else {
        valued(alloc, attribute, name, value, now, zone)
    }
}
