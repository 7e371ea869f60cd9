// What modification words ask for.
ghost use Rattle.std.specs.Prelude.{◌≡◌, ◌++◌, ◌<◌, ◌+◌, ◌&&◌, ◌==◌, codes, Ok as AnOk, Some as There, IfOk, length, string_bytes};
ghost use Rattle.tw_terms.specs.Scenes.{scene_of};
ghost use Rattle.tw_terms.specs.Cuts.{parts};
ghost use Rattle.tw_terms.specs.declared.bad_word.WordKind.TheVariants as bad;
ghost use Rattle.tw_words.specs.Readings.{with_one, without_value, with_word, unless_wrong, taken_tag, taken_date, taken_items, taken_value, taken_pair};
ghost use Rattle.tw_words.specs.Readings.{has_empty, with_words, modifications};
ghost use Rattle.tw_words.specs.Modifications.{unless, empty_fault, text_fault, rest_words, tally_of};
ghost use Rattle.tw_words.specs.Makes.{Makes, Takes, Reads, GivesRead};
ghost use Rattle.tw_words.specs.declared.changes.modification.Modification.TheVariants.{Word, Property};

use crate::changes::dependencies::push_items;
use crate::changes::depends_part::are_items;
use crate::changes::field::{Field, field_named};
use crate::changes::modification::{
    Modification, is_add, is_plain, number_at, pair_of, push_clear, push_description, push_moment,
    push_property, push_word, set_to, tag_of,
};
use crate::judging::fault::{empty_fault, text_fault};
use crate::judging::tally::tally_of;
use crate::line::Line;
use std::alloc::Global;
use tw_terms::{BadWord, KindError, View, WordKind, is_priority, is_virtual};
use tw_time::{read_duration, read_moment};
use tw_world::Memory;

// The property of a tag.
fn property_of(alloc: Global, tag: &str) -> Result<String, Memory>
    ensures { IfOk result (λ text. string_bytes text ≡ codes "tag_" ++ tag.now) }
{
    let mut name = String::from_str(alloc, "tag_")?;
    name.push_str(tag)?;
    Ok(name)
}

// Reads the moment that a value says.
fn read_date(
    alloc: Global,
    changes: &mut Vec<Modification>,
    view: &View<'_>,
    name: &str,
    value: &str,
) -> Result<(), KindError>
    ensures { Makes result (taken_date (scene_of view.entry.now) changes.old.items name.now value.now) changes.new.items }
{
    match read_moment(value, view.now.seconds, view.zone) {
        Ok(at) => {
            push_moment(alloc, changes, name, at)?;
            Ok(())
        }
        Err(_) => Err(KindError::Bad(WordKind::Date)),
    }
}

// Asks for a value, if it is right.
fn push_if(
    alloc: Global,
    changes: &mut Vec<Modification>,
    right: bool,
    name: &str,
    value: &str,
) -> Result<(), KindError>
    ensures { Makes result (unless_wrong (unless right bad.Value) (AnOk (with_one changes.old.items (Property name.now (There value.now))))) changes.new.items }
{
    if !right {
        return Err(KindError::Bad(WordKind::Value));
    }
    push_property(alloc, changes, name, Some(value))?;
    Ok(())
}

// Reads dependencies.
fn read_items(
    alloc: Global,
    changes: &mut Vec<Modification>,
    view: &View<'_>,
    value: &str,
) -> Result<(), KindError>
    ensures { Makes result (taken_items (scene_of view.entry.now) changes.old.items (parts 44 value.now)) changes.new.items }
{
    if !are_items(value) {
        return Err(KindError::Bad(WordKind::Value));
    }
    push_items(alloc, changes, view, value)
}

// Reads a value that is not empty.
#[tactic(auto, unfolding(crate::specs::Modifications::full_fault))]
fn read_value(
    alloc: Global,
    changes: &mut Vec<Modification>,
    view: &View<'_>,
    field: Field,
    name: &str,
    value: &str,
) -> Result<(), KindError>
    ensures { Makes result (taken_value (scene_of view.entry.now) changes.old.items field name.now value.now) changes.new.items }
{
    match field {
        Field::Description => {
            push_description(alloc, changes, value)?;
            Ok(())
        }
        Field::Project => push_if(alloc, changes, true, name, value),
        Field::Priority => push_if(alloc, changes, is_priority(value), name, value),
        Field::Moment => read_date(alloc, changes, view, name, value),
        Field::Depends => read_items(alloc, changes, view, value),
        Field::Recur => push_if(alloc, changes, read_duration(value).is_ok(), name, value),
    }
}

// Reads an empty value. A description has none.
fn read_empty(
    alloc: Global,
    changes: &mut Vec<Modification>,
    field: Field,
    name: &str,
) -> Result<(), KindError>
    ensures { Makes result (unless_wrong (empty_fault field) (AnOk (with_one changes.old.items (without_value field name.now)))) changes.new.items }
{
    if let Some(kind) = empty_fault(field) {
        return Err(KindError::Bad(kind));
    }
    push_clear(alloc, changes, field, name)?;
    Ok(())
}

fn read_pair(
    alloc: Global,
    changes: &mut Vec<Modification>,
    view: &View<'_>,
    field: Option<Field>,
    name: &str,
    value: &str,
) -> Result<(), KindError>
    ensures { Makes result (taken_pair (scene_of view.entry.now) changes.old.items field name.now value.now) changes.new.items }
{
    let Some(field) = field else {
        return Err(KindError::Bad(WordKind::Attribute));
    };
    if value.is_empty() {
        read_empty(alloc, changes, field, name)
    } else {
        read_value(alloc, changes, view, field, name, value)
    }
}

fn read_text(
    alloc: Global,
    changes: &mut Vec<Modification>,
    sole: bool,
    word: &str,
) -> Result<(), KindError>
    ensures { Makes result (unless_wrong (text_fault sole word.now) (AnOk (with_one changes.old.items (Word word.now)))) changes.new.items }
{
    if let Some(kind) = text_fault(sole, word) {
        return Err(KindError::Bad(kind));
    }
    push_word(alloc, changes, word)?;
    Ok(())
}

fn read_tag(
    alloc: Global,
    changes: &mut Vec<Modification>,
    wanted: bool,
    tag: &str,
) -> Result<(), KindError>
    ensures { Makes result (taken_tag changes.old.items wanted tag.now) changes.new.items }
{
    if is_virtual(tag) {
        return Err(KindError::Bad(WordKind::Attribute));
    }
    let name = property_of(alloc, tag)?;
    set_to(alloc, changes, wanted, name.as_str())?;
    Ok(())
}

// Reads one more word.
fn read_word(
    alloc: Global,
    changes: &mut Vec<Modification>,
    view: &View<'_>,
    adding: bool,
    sole: bool,
    plain: bool,
    word: &str,
) -> Result<(), KindError>
    ensures { Makes result (with_word (scene_of view.entry.now) adding sole plain changes.old.items word.now) changes.new.items }
{
    if let Some((wanted, tag)) = tag_of(plain, word) {
        return read_tag(alloc, changes, wanted, tag);
    }
    match pair_of(plain, word) {
        Some((name, value)) => read_pair(
            alloc,
            changes,
            view,
            field_named(adding, name),
            name,
            value,
        ),
        None => read_text(alloc, changes, sole, word),
    }
}

// Reads a word of a line.
fn read_at(
    alloc: Global,
    changes: &mut Vec<Modification>,
    line: &Line,
    view: &View<'_>,
    sole: bool,
    n: u64,
) -> Result<Option<BadWord>, Memory>
    requires { n < length line.now.words }
    ensures { IfOk result (λ bad. Takes (scene_of view.entry.now) sole line.now n bad changes.old.items changes.new.items) }
{
    let adding = is_add(line.command);
    match read_word(
        alloc,
        changes,
        view,
        adding,
        sole,
        is_plain(line, n),
        line.word(n),
    ) {
        Ok(()) => Ok(None),
        Err(KindError::Bad(kind)) => Ok(Some(BadWord {
            word: number_at(line, n),
            kind,
        })),
        Err(KindError::Memory) => Err(Memory),
    }
}

// Whether a word after the command's word is empty.
fn has_empty(line: &Line) -> bool
    ensures { result ≡ has_empty (rest_words line.now) }
{
    for n in line.rest_from..line.words.len() as u64 {
        if line.word(n).is_empty() {
            return true;
        }
    }
    false
}

// Whether one word alone is a text. It is asked only if one is empty.
fn is_sole(line: &Line) -> bool
    ensures { result ≡ (has_empty (rest_words line.now) && (tally_of line.now).texts == 1) }
{
    has_empty(line) && tally_of(line).texts == 1
}

// Reads the words after the command's word. If one of them alone is a text, it may not be empty.
fn read_words(
    alloc: Global,
    changes: &mut Vec<Modification>,
    line: &Line,
    view: &View<'_>,
    sole: bool,
) -> Result<Option<BadWord>, Memory>
    ensures { IfOk result (λ bad. Reads bad (with_words (scene_of view.entry.now) sole line.now changes.old.items line.now.rest_from (rest_words line.now)) changes.new.items) }
{
    for n in line.rest_from..line.words.len() as u64 {
        if let Some(bad) = read_at(alloc, changes, line, view, sole, n)? {
            return Ok(Some(bad));
        }
    }
    Ok(None)
}

/// What the modification words of a line ask for, or the first word that is wrong. It is the same whatever task they change.
pub fn read_changes(
    alloc: Global,
    line: &Line,
    view: &View<'_>,
) -> Result<Result<Vec<Modification>, BadWord>, Memory>
    ensures { IfOk result (λ read. GivesRead (λ changes. changes.items) read (modifications (scene_of view.entry.now) line.now)) }
{
    let mut changes = Vec::new(alloc);
    match read_words(alloc, &mut changes, line, view, is_sole(line))? {
        Some(bad) => Ok(Err(bad)),
        None => Ok(Ok(changes)),
    }
}
