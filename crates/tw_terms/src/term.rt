// What a term asks of a task.
ghost use Rattle.std.specs.Prelude.{◌<◌};
ghost use Rattle.std.specs.Option.{option_copied};
ghost use Rattle.tw_time.specs.Civil.{limit};
ghost use Rattle.tw_terms.specs.Gives.{GivesTerm};
ghost use Rattle.tw_terms.specs.Values.{asks};
ghost use Rattle.tw_terms.specs.Terms.{by_modifier, term_of};

use crate::attribute::{Head, attribute_in};
use crate::bad_word::KindError;
use crate::modifier::modified_term;
use crate::tag::{tag_in, tag_test};
use crate::value::plain_term;
use std::alloc::Global;
use tw_time::{Day, Zone};
use tw_urgency::Status;
use tw_world::Text;
use uuid::Uuid;

/// A test of one task.
pub enum Test {
    /// It has this uuid.
    IsUuid(Uuid),
    /// The property is there.
    Has(Text),
    /// The property is there, and is a moment.
    HasMoment(Text),
    /// It depends on some task.
    HasDependency,
    /// It depends on the task of a uuid.
    DependsOn(Uuid),
    /// It depends on the task with a number.
    DependsOnNumber(u64),
    /// The property is this text.
    Is(Text, Text),
    /// The property is this text, or begins with it and a point.
    IsWithin(Text, Text),
    /// The property contains the text.
    Contains(Text, Text),
    /// The property begins with the text.
    Begins(Text, Text),
    /// The property ends with the text.
    Ends(Text, Text),
    /// The property contains the text as a word.
    HasWord(Text, Text),
    /// The description or an annotation contains the text.
    Mentions(Text),
    /// The property is a moment of this day.
    OnDay(Text, Day),
    /// The property is this moment.
    At(Text, u64),
    /// The property is a moment before this one.
    Before(Text, u64),
    /// The property is a moment after this one.
    After(Text, u64),
    /// It has this status.
    HasStatus(Status),
    /// It is pending and was started.
    IsActive,
    /// It is pending, and its due moment has passed.
    IsOverdue,
    /// It is blocked.
    IsBlocked,
    /// It is blocking.
    IsBlocking,
    /// It has a tag.
    IsTagged,
    /// It has an annotation.
    IsAnnotated,
}

// It is written out, so that a caller does not prove again how each part is dropped.
impl Drop for Test {
    fn drop(self) {
        match self {
            Test::IsUuid(_a) => {}
            Test::Has(_a) => {}
            Test::HasMoment(_a) => {}
            Test::HasDependency => {}
            Test::DependsOn(_a) => {}
            Test::DependsOnNumber(_a) => {}
            Test::Is(_a, _b) => {}
            Test::IsWithin(_a, _b) => {}
            Test::Contains(_a, _b) => {}
            Test::Begins(_a, _b) => {}
            Test::Ends(_a, _b) => {}
            Test::HasWord(_a, _b) => {}
            Test::Mentions(_a) => {}
            Test::OnDay(_a, _b) => {}
            Test::At(_a, _b) => {}
            Test::Before(_a, _b) => {}
            Test::After(_a, _b) => {}
            Test::HasStatus(_a) => {}
            Test::IsActive => {}
            Test::IsOverdue => {}
            Test::IsBlocked => {}
            Test::IsBlocking => {}
            Test::IsTagged => {}
            Test::IsAnnotated => {}
        }
    }
}

/// A test, and whether it is to hold.
#[derive(Drop)]
pub struct Term {
    pub test: Test,
    pub wanted: bool,
}

/// A test that is to hold, or not to.
pub fn asks(wanted: bool, test: Test) -> Result<Term, KindError>
    ensures { GivesTerm result (asks wanted test) }
{
    Ok(Term { test, wanted })
}

// What the word of an attribute asks.
fn by_modifier(
    alloc: Global,
    head: Head<'_>,
    value: &str,
    now: u64,
    zone: &Zone,
) -> Result<Term, KindError>
    requires { now < limit }
    ensures { GivesTerm result (by_modifier (head.entry.attribute, head.entry.name.now, option_copied head.entry.modifier) value.now now zone.now) }
{
    match head.modifier {
        Some(modifier) => modified_term(
            alloc,
            head.attribute,
            head.name,
            modifier,
            value,
            now,
            zone,
        ),
        None => plain_term(alloc, head.attribute, head.name, value, now, zone),
    }
}

/// What a word asks that is no mark and no id word.
#[tactic(auto, unfolding(crate::specs::Terms::term_of))]
pub(crate) fn term_of(alloc: Global, word: &str, now: u64, zone: &Zone) -> Result<Term, KindError>
    requires { now < limit }
    ensures { GivesTerm result (term_of word.now now zone.now) }
{
    if let Some((wanted, tag)) = tag_in(word) {
        return asks(wanted, tag_test(alloc, tag)?);
    }
    if let Some((head, value)) = attribute_in(word) {
        return by_modifier(alloc, head, value, now, zone);
    }
    asks(true, Test::Mentions(Text::from_str(alloc, word)?))
}
