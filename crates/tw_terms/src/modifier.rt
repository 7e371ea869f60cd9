// What a word `name.modifier:value` asks.
ghost use Rattle.std.specs.Prelude.{◌≡◌, ◌<◌, IfOk};
ghost use Rattle.tw_time.specs.Civil.{limit};
ghost use Rattle.tw_terms.specs.Gives.{GivesTerm};
ghost use Rattle.tw_terms.specs.Modifiers.{modifier_named, moment_term, equal, has_texts, compared, of_text, bound, before, after};
ghost use Rattle.tw_terms.specs.Modifiers.{modified_by, modified, of_parent, modified_term};

use crate::attribute::Attribute;
use crate::bad_word::{KindError, WordKind};
use crate::term::{Term, Test, asks};
use crate::value::{is_text, moment_value, presence, priority_term, status_term};
use std::alloc::Global;
use tw_time::{Zone, look_up};
use tw_world::{Memory, Text};

/// How a text is compared with another.
#[derive(Clone, Copy)]
pub(crate) enum Comparison {
    Contains,
    Begins,
    Ends,
    HasWord,
}

/// How a value is compared.
#[derive(Clone, Copy)]
pub(crate) enum Modifier {
    Present(bool),
    Equal(bool),
    Before,
    After,
    Compares(Comparison, bool),
}

// The modifiers, by their names.
const MODIFIERS: [(&str, Modifier); 19] = [
    ("none", Modifier::Present(false)),
    ("any", Modifier::Present(true)),
    ("is", Modifier::Equal(true)),
    ("equals", Modifier::Equal(true)),
    ("isnt", Modifier::Equal(false)),
    ("not", Modifier::Equal(false)),
    ("before", Modifier::Before),
    ("below", Modifier::Before),
    ("after", Modifier::After),
    ("above", Modifier::After),
    ("has", Modifier::Compares(Comparison::Contains, true)),
    ("contains", Modifier::Compares(Comparison::Contains, true)),
    ("hasnt", Modifier::Compares(Comparison::Contains, false)),
    ("startswith", Modifier::Compares(Comparison::Begins, true)),
    ("left", Modifier::Compares(Comparison::Begins, true)),
    ("endswith", Modifier::Compares(Comparison::Ends, true)),
    ("right", Modifier::Compares(Comparison::Ends, true)),
    ("word", Modifier::Compares(Comparison::HasWord, true)),
    ("noword", Modifier::Compares(Comparison::HasWord, false)),
];

// A modifier, by its name.
#[tactic(auto, unfolding(crate::specs::Modifiers::modifier_named))]
fn modifier_named(name: &str) -> Option<Modifier>
    ensures { result ≡ modifier_named name.now }
{
    look_up(name.as_bytes(), &MODIFIERS)
}

// `name.is:value` or `name.isnt:value`, of a moment.
fn moment_term(
    alloc: Global,
    wanted: bool,
    name: &str,
    value: &str,
    now: u64,
    zone: &Zone,
) -> Result<Term, KindError>
    requires { now < limit }
    ensures { GivesTerm result (moment_term wanted name.now value.now now zone.now) }
{
    let at = moment_value(value, now, zone)?;
    asks(wanted, Test::At(Text::from_str(alloc, name)?, at))
}

// `name.is:value` or `name.isnt:value`.
#[tactic(auto, unfolding(crate::specs::Modifiers::equal))]
fn equal(
    alloc: Global,
    wanted: bool,
    attribute: Attribute,
    name: &str,
    value: &str,
    now: u64,
    zone: &Zone,
) -> Result<Term, KindError>
    requires { now < limit }
    ensures { GivesTerm result (equal wanted attribute name.now value.now now zone.now) }
{
    match attribute {
        Attribute::Words | Attribute::Project => is_text(alloc, wanted, name, value),
        Attribute::Priority => priority_term(alloc, wanted, name, value),
        Attribute::Moment => moment_term(alloc, wanted, name, value, now, zone),
        Attribute::Status => status_term(wanted, value),
        _ => Err(KindError::Bad(WordKind::Modifier)),
    }
}

// Whether the values of an attribute are texts.
fn has_texts(attribute: Attribute) -> bool
    ensures { result ≡ has_texts attribute }
{
    match attribute {
        Attribute::Words | Attribute::Project | Attribute::Priority => true,
        _ => false,
    }
}

fn compared(alloc: Global, how: Comparison, name: &str, value: &str) -> Result<Test, Memory>
    ensures { IfOk result (λ test. test ≡ compared how name.now value.now) }
{
    let name = Text::from_str(alloc, name)?;
    let value = Text::from_str(alloc, value)?;
    match how {
        Comparison::Contains => Ok(Test::Contains(name, value)),
        Comparison::Begins => Ok(Test::Begins(name, value)),
        Comparison::Ends => Ok(Test::Ends(name, value)),
        Comparison::HasWord => Ok(Test::HasWord(name, value)),
    }
}

// A comparison of texts alone.
fn of_text(
    alloc: Global,
    attribute: Attribute,
    how: Comparison,
    wanted: bool,
    name: &str,
    value: &str,
) -> Result<Term, KindError>
    ensures { GivesTerm result (of_text attribute how wanted name.now value.now) }
{
    if !has_texts(attribute) {
        return Err(KindError::Bad(WordKind::Modifier));
    }
    asks(wanted, compared(alloc, how, name, value)?)
}

// The moment with which an attribute is compared, of moments alone.
fn bound(attribute: Attribute, value: &str, now: u64, zone: &Zone) -> Result<u64, WordKind>
    requires { now < limit }
    ensures { result ≡ bound attribute value.now now zone.now }
{
    match attribute {
        Attribute::Moment => moment_value(value, now, zone),
        _ => Err(WordKind::Modifier),
    }
}

// `name.before:value`.
fn before(
    alloc: Global,
    attribute: Attribute,
    name: &str,
    value: &str,
    now: u64,
    zone: &Zone,
) -> Result<Term, KindError>
    requires { now < limit }
    ensures { GivesTerm result (before attribute name.now value.now now zone.now) }
{
    let at = bound(attribute, value, now, zone)?;
    asks(true, Test::Before(Text::from_str(alloc, name)?, at))
}

// `name.after:value`.
fn after(
    alloc: Global,
    attribute: Attribute,
    name: &str,
    value: &str,
    now: u64,
    zone: &Zone,
) -> Result<Term, KindError>
    requires { now < limit }
    ensures { GivesTerm result (after attribute name.now value.now now zone.now) }
{
    let at = bound(attribute, value, now, zone)?;
    asks(true, Test::After(Text::from_str(alloc, name)?, at))
}

// `name.modifier:value`, of an attribute that takes modifiers.
#[tactic(auto, unfolding(crate::specs::Modifiers::modified_by))]
fn modified_by(
    alloc: Global,
    modifier: Modifier,
    attribute: Attribute,
    name: &str,
    value: &str,
    now: u64,
    zone: &Zone,
) -> Result<Term, KindError>
    requires { now < limit }
    ensures { GivesTerm result (modified_by modifier attribute name.now value.now now zone.now) }
{
    match modifier {
        Modifier::Present(wanted) => asks(wanted, presence(alloc, attribute, name)?),
        Modifier::Equal(wanted) => equal(alloc, wanted, attribute, name, value, now, zone),
        Modifier::Before => before(alloc, attribute, name, value, now, zone),
        Modifier::After => after(alloc, attribute, name, value, now, zone),
        Modifier::Compares(how, wanted) => of_text(alloc, attribute, how, wanted, name, value),
    }
}

fn modified(
    alloc: Global,
    modifier: Option<Modifier>,
    attribute: Attribute,
    name: &str,
    value: &str,
    now: u64,
    zone: &Zone,
) -> Result<Term, KindError>
    requires { now < limit }
    ensures { GivesTerm result (modified modifier attribute name.now value.now now zone.now) }
{
    match modifier {
        Some(modifier) => modified_by(alloc, modifier, attribute, name, value, now, zone),
        None => Err(KindError::Bad(WordKind::Modifier)),
    }
}

// A parent is asked for by `any` and `none` alone.
fn of_parent(alloc: Global, name: &str, modifier: Option<Modifier>) -> Result<Term, KindError>
    ensures { GivesTerm result (of_parent name.now modifier) }
{
    match modifier {
        Some(Modifier::Present(wanted)) => asks(wanted, Test::Has(Text::from_str(alloc, name)?)),
        _ => Err(KindError::Bad(WordKind::Attribute)),
    }
}

// `name.modifier:value`.
pub(crate) fn modified_term(
    alloc: Global,
    attribute: Attribute,
    name: &str,
    modifier: &str,
    value: &str,
    now: u64,
    zone: &Zone,
) -> Result<Term, KindError>
    requires { now < limit }
    ensures { GivesTerm result (modified_term attribute name.now modifier.now value.now now zone.now) }
{
    let modifier = modifier_named(modifier);
    match attribute {
        Attribute::Uuid | Attribute::Other => Err(KindError::Bad(WordKind::Attribute)),
        Attribute::Parent => of_parent(alloc, name, modifier),
        _ => modified(alloc, modifier, attribute, name, value, now, zone),
    }
}
