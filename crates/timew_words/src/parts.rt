// What a word is as a part of a command.
ghost use Rattle.std.specs.Prelude.{[], ◌∷◌, true, length, ◌++◌, ◌≡◌, ◌<◌, IfOk, ◌≤◌, string_bytes, OnOk};
ghost use Rattle.tw_text.specs.Columns.{cell_text};
ghost use Rattle.tw_time.specs.Civil.{limit};
ghost use Rattle.timew_interval.specs.Interval.{is_tag, is_printable};
ghost use Rattle.timew_words.specs.Given.{AreTags};
ghost use Rattle.timew_words.specs.Parts.{word_of, words_of, ended, kind_of, moment_in, length_in, id_of, id_in, ids_with, some_ids, leading_ids, tag_in};
ghost use Rattle.timew_words.specs.Parts.{tags_with, some_tags, spaced};
ghost use Rattle.timew_words.specs.Reading.{Gives};

use crate::error::{BadWord, WordKind, WordsError};
use crate::ids::Ids;
use crate::word::Word;
use std::alloc::Global;
use std::collections::BTreeSet;
use timew_interval::Texts;
use tw_text::{cell, read_u64};
use tw_time::{DateError, Length, Zone, read_duration, read_moment};
use tw_world::{Memory, Text};

/// The words end too early; the command's word is named.
pub const MISSING: BadWord = BadWord {
    word: 0,
    kind: WordKind::Missing,
};

/// A moment or a length outside the grammar fits no part; one out of range has the kind of its part.
pub fn kind_of(error: DateError, kind: WordKind) -> WordKind
    ensures { result ≡ kind_of error kind }
{
    match error {
        DateError::Unknown => WordKind::Extra,
        DateError::OutOfRange | DateError::Memory => kind,
    }
}

/// Whether no part is left for a word.
pub fn ended<T: Drop>(part: T, words: &[Word]) -> Result<T, BadWord>
    ensures { result ≡ ended part (words_of words.now) }
{
    match words {
        [] => Ok(part),
        [word, ..] => Err(BadWord {
            word: word.number,
            kind: WordKind::Extra,
        }),
    }
}

pub fn moment_in(word: &Word, now: u64, zone: &Zone) -> Result<u64, BadWord>
    requires { now < limit }
    ensures value { result ≡ moment_in now zone.now (word_of word.now) }
    ensures in_range { IfOk result (λ at. at < limit) }
{
    match read_moment(word.text, now, zone) {
        Ok(at) => Ok(at),
        Err(error) => Err(BadWord {
            word: word.number,
            kind: kind_of(error, WordKind::Date),
        }),
    }
}

pub fn length_in(word: &Word) -> Result<Length, BadWord>
    ensures { result ≡ length_in (word_of word.now) }
{
    match read_duration(word.text) {
        Ok(length) => Ok(length),
        Err(error) => Err(BadWord {
            word: word.number,
            kind: kind_of(error, WordKind::Value),
        }),
    }
}

/// The id of a text: `@` and a number from 1 on.
pub fn id_of(text: &str) -> Option<u64>
    ensures { result ≡ id_of text.now }
{
    let digits = text.strip_prefix("@")?;
    match read_u64(digits) {
        Some(0) | None => None,
        Some(id) => Some(id),
    }
}

pub fn id_in(word: &Word) -> Result<u64, BadWord>
    ensures { result ≡ id_in (word_of word.now) }
{
    match id_of(word.text) {
        Some(id) => Ok(id),
        None => Err(BadWord {
            word: word.number,
            kind: WordKind::Extra,
        }),
    }
}

/// The ids of words, each of which is one.
pub fn ids_in(alloc: Global, words: &[Word]) -> Result<Ids, WordsError>
    ensures { Gives (λ ids. ids) result (ids_with [] (words_of words.now)) }
{
    let mut ids = Ids::new(alloc);
    for word in words {
        ids.push(id_in(word)?)?;
    }
    Ok(ids)
}

/// One id or more.
pub fn some_ids(alloc: Global, words: &[Word]) -> Result<Ids, WordsError>
    ensures { Gives (λ ids. ids) result (some_ids (words_of words.now)) }
{
    if words.is_empty() {
        return Err(WordsError::Bad(MISSING));
    }
    ids_in(alloc, words)
}

/// How many words are ids before the first one that is none.
pub fn leading_ids(words: &[Word]) -> usize
    ensures value { result ≡ leading_ids (words_of words.now) }
    ensures within { result ≤ length words.now }
{
    for (k, word) in words.iter().enumerate() {
        if id_of(word.text).is_none() {
            return k;
        }
    }
    words.len()
}

// The tag of a word, each control character becomes a space.
fn tag_in(alloc: Global, word: &Word) -> Result<Text, WordsError>
    ensures value { Gives (λ tag. tag) result (tag_in (word_of word.now)) }
    ensures good { IfOk result (λ tag. is_tag tag ≡ true) }
{
    let text = cell(alloc, word.text)?;
    if text.as_str().is_empty() {
        return Err(WordsError::Bad(BadWord {
            word: word.number,
            kind: WordKind::Value,
        }));
    }
    Ok(Text::from_str(alloc, text.as_str())?)
}

// The tags of words, in byte order.
fn tag_set(alloc: Global, words: &[Word]) -> Result<BTreeSet<Text>, WordsError>
    ensures value { Gives (λ tags. tags.keys) result (tags_with [] (words_of words.now)) }
    ensures good { IfOk result (λ tags. AreTags tags.keys) }
{
    let mut tags = BTreeSet::new(alloc);
    for word in words {
        let tag = tag_in(alloc, word)?;
        let _ = tags.insert(tag)?;
    }
    Ok(tags)
}

/// The tags of words, in byte order, each once.
pub fn tags_in(alloc: Global, words: &[Word]) -> Result<Texts, WordsError>
    ensures value { Gives (λ tags. tags) result (tags_with [] (words_of words.now)) }
    ensures good { IfOk result AreTags }
{
    let tags = tag_set(alloc, words)?;
    Ok(Texts::of_set(alloc, tags)?)
}

/// One tag or more.
pub fn some_tags(alloc: Global, words: &[Word]) -> Result<Texts, WordsError>
    ensures value { Gives (λ tags. tags) result (some_tags (words_of words.now)) }
    ensures good { IfOk result AreTags }
{
    if words.is_empty() {
        return Err(WordsError::Bad(MISSING));
    }
    tags_in(alloc, words)
}

fn push_spaced(alloc: Global, text: &mut String, word: &Word) -> Result<(), Memory>
    ensures { OnOk result (string_bytes text.new ≡ string_bytes text.old ++ 32 ∷ cell_text word.now.text.now) }
{
    let piece = cell(alloc, word.text)?;
    text.push(' ')?;
    text.push_str(piece.as_str())?;
    Ok(())
}

/// The text of a word, and those of others, each after a space; each control character becomes a space.
pub fn spaced(alloc: Global, first: &Word, words: &[Word]) -> Result<Text, Memory>
    ensures value { IfOk result (λ text. text ≡ spaced (cell_text first.now.text.now) (words_of words.now)) }
    ensures printable { IfOk result (λ text. is_printable text ≡ true) }
{
    let mut text = cell(alloc, first.text)?;
    for word in words {
        push_spaced(alloc, &mut text, word)?;
    }
    Text::from_str(alloc, text.as_str())
}
