// Modification words: task(1), under "MODIFICATIONS".
ghost use Rattle.std.specs.Prelude.{◌≡◌, ◌<◌, option_map, Some as There, IfOk, OnOk};
ghost use Rattle.std.specs.Fmt.{decimal};
ghost use Rattle.std.specs.Option.{option_copied};
ghost use Rattle.tw_words.specs.Modifications.{is_text_rest, is_plain, is_add, tag_of, pair_of, number_at};
ghost use Rattle.tw_words.specs.Readings.{with_one, set_to, without_value};
ghost use Rattle.tw_words.specs.declared.command.AnyCommand.TheVariants.{Tasks};
ghost use Rattle.tw_words.specs.declared.changes.modification.Modification.TheVariants.{Word, Description, Property};

use crate::changes::field::Field;
use crate::command::{AnyCommand, Command, Rest};
use crate::line::Line;
use std::alloc::Global;
use tw_terms::{pair_in, tag_in};
use tw_world::{Memory, Text};

/// What a modification word asks for. A word of `depends` asks for one property a part.
#[derive(Drop)]
pub enum Modification {
    /// One more word of the description.
    Word(Text),
    /// This description, unless a word of it comes later.
    Description(Text),
    /// A property has this value, or none.
    Property { name: Text, value: Option<Text> },
    /// The task depends on none.
    Independent,
}

/// Asks for one more word of the description.
pub(crate) fn push_word(
    alloc: Global,
    changes: &mut Vec<Modification>,
    word: &str,
) -> Result<(), Memory>
    ensures { OnOk result (changes.new.items ≡ with_one changes.old.items (Word word.now)) }
{
    let word = Text::from_str(alloc, word)?;
    changes.push(Modification::Word(word))?;
    Ok(())
}

/// Asks for a description.
pub(crate) fn push_description(
    alloc: Global,
    changes: &mut Vec<Modification>,
    value: &str,
) -> Result<(), Memory>
    ensures { OnOk result (changes.new.items ≡ with_one changes.old.items (Description value.now)) }
{
    let value = Text::from_str(alloc, value)?;
    changes.push(Modification::Description(value))?;
    Ok(())
}

fn text_if(alloc: Global, value: Option<&str>) -> Result<Option<Text>, Memory>
    ensures { IfOk result (λ text. text ≡ option_copied value.entry) }
{
    match value {
        Some(value) => Ok(Some(Text::from_str(alloc, value)?)),
        None => Ok(None),
    }
}

/// Asks for a value of a property, or for none.
pub(crate) fn push_property(
    alloc: Global,
    changes: &mut Vec<Modification>,
    name: &str,
    value: Option<&str>,
) -> Result<(), Memory>
    ensures { OnOk result (changes.new.items ≡ with_one changes.old.items (Property name.now (option_copied value.entry))) }
{
    let name = Text::from_str(alloc, name)?;
    let value = text_if(alloc, value)?;
    changes.push(Modification::Property { name, value })?;
    Ok(())
}

/// Asks for a moment as the value of a property.
pub(crate) fn push_moment(
    alloc: Global,
    changes: &mut Vec<Modification>,
    name: &str,
    at: u64,
) -> Result<(), Memory>
    ensures { OnOk result (changes.new.items ≡ with_one changes.old.items (Property name.now (There (decimal at)))) }
{
    let text = format!(in alloc; "{}", at)?;
    push_property(alloc, changes, name, Some(text.as_str()))
}

/// Asks for no value of a field.
pub(crate) fn push_clear(
    alloc: Global,
    changes: &mut Vec<Modification>,
    field: Field,
    name: &str,
) -> Result<(), Memory>
    ensures { OnOk result (changes.new.items ≡ with_one changes.old.items (without_value field name.now)) }
{
    match field {
        Field::Depends => {
            changes.push(Modification::Independent)?;
            Ok(())
        }
        _ => push_property(alloc, changes, name, None),
    }
}

/// Asks for a property with an empty value, or without one.
pub(crate) fn set_to(
    alloc: Global,
    changes: &mut Vec<Modification>,
    wanted: bool,
    name: &str,
) -> Result<(), Memory>
    ensures { OnOk result (changes.new.items ≡ with_one changes.old.items (set_to wanted name.now)) }
{
    if wanted {
        push_property(alloc, changes, name, Some(""))
    } else {
        push_property(alloc, changes, name, None)
    }
}

// Whether the rest is a text as it stands.
fn is_text_rest(rest: Rest) -> bool
    ensures { result ≡ is_text_rest rest }
{
    match rest {
        Rest::Text => true,
        _ => false,
    }
}

/// Whether a word is plain text.
pub(crate) fn is_plain(line: &Line, n: u64) -> bool
    ensures { result ≡ is_plain line.now n }
{
    is_text_rest(line.command.rest()) || line.plain_from <= n
}

fn adds(command: Command) -> bool
    ensures { result ≡ is_add (Tasks command) }
{
    match command {
        Command::Add => true,
        _ => false,
    }
}

/// Whether the command makes a task that may recur.
pub(crate) fn is_add(command: AnyCommand) -> bool
    ensures { result ≡ is_add command }
{
    match command {
        AnyCommand::Tasks(command) => adds(command),
        AnyCommand::Sync | AnyCommand::Generate => false,
    }
}

/// The tag that a word sets or removes.
pub(crate) fn tag_of(plain: bool, word: &str) -> Option<(bool, &str)>
    ensures { option_map (λ x. (x.0, x.1.now)) result ≡ tag_of plain word.now }
{
    if plain { None } else { tag_in(word) }
}

/// The name and the value of a word that sets a field.
pub(crate) fn pair_of(plain: bool, word: &str) -> Option<(&str, &str)>
    ensures { option_map (λ x. (x.0.now, x.1.now)) result ≡ pair_of plain word.now }
{
    if plain { None } else { pair_in(word) }
}

/// The number of a word among the words taken.
pub(crate) fn number_at(line: &Line, n: u64) -> u64
    ensures value { result ≡ number_at line.now n }
    ensures few { result < 18446744073709551615 }
{
    match line.word_numbers.get(n as usize) {
        Some(number) => *number,
        None => 0,
    }
}
