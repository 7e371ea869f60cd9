// Words with their numbers.
ghost use Rattle.std.specs.Prelude.{map, ◌≡◌, IfOk, string_bytes};
ghost use Rattle.timew_words.specs.Parts.{words_from, word_of, words_of, is_adjust, adjusts, unadjusted};

use std::alloc::Global;
use tw_world::Memory;

/// A word, with its number among the words of a command.
#[derive(Clone, Copy)]
pub struct Word<'a> {
    pub number: u64,
    pub text: &'a str,
}

/// The words after a command's word, with their numbers.
pub fn words_behind<'a>(alloc: Global, texts: &'a [String]) -> Result<Vec<Word<'a>>, Memory>
    ensures { IfOk result (λ words. words_of words.items ≡ words_from 1 (map string_bytes texts.now)) }
{
    let mut words = Vec::with_capacity(alloc, texts.len())?;
    let mut number = 1;
    for text in texts {
        words.push(Word {
            number,
            text: text.as_str(),
        })?;
        number += 1;
    }
    Ok(words)
}

fn is_adjust(word: &Word) -> bool
    ensures { result ≡ is_adjust (word_of word.now) }
{
    word.text == ":adjust"
}

/// Whether `:adjust` is among words.
pub fn adjusts(words: &[Word]) -> bool
    ensures { result ≡ adjusts (words_of words.now) }
{
    for word in words {
        if is_adjust(word) {
            return true;
        }
    }
    false
}

/// The words without `:adjust`.
pub fn unadjusted<'a>(alloc: Global, words: &[Word<'a>]) -> Result<Vec<Word<'a>>, Memory>
    ensures { IfOk result (λ others. words_of others.items ≡ unadjusted (words_of words.now)) }
{
    let mut others = Vec::with_capacity(alloc, words.len())?;
    for word in words {
        if !is_adjust(word) {
            others.push(*word)?;
        }
    }
    Ok(others)
}
