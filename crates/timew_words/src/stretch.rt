// Parts of more than one word.
ghost use Rattle.std.specs.Prelude.{◌≡◌, ◌<◌, IfOk, Ok};
ghost use Rattle.std.specs.Result.{result_map_both};
ghost use Rattle.tw_time.specs.Civil.{limit};
ghost use Rattle.timew_words.specs.Parts.{words_of};
ghost use Rattle.timew_words.specs.Stretch.{span_of, span_in, range_in, resize_in, tagging_in};
ghost use Rattle.timew_words.specs.Given.{AreTags};
ghost use Rattle.timew_words.specs.Reading.{Gives};

use crate::command::{Resize, Tagging};
use crate::error::{BadWord, WordKind, WordsError};
use crate::parts::{MISSING, ended, id_in, ids_in, leading_ids, length_in, moment_in, some_tags};
use crate::range::Range;
use crate::word::Word;
use std::alloc::Global;
use tw_time::{Zone, look_up};

/// From a moment to another, with the number of the later one's word, and the words after it.
#[derive(Clone, Copy)]
pub struct Stretch<'a> {
    pub start: u64,
    pub end: u64,
    pub word: u64,
    pub rest: &'a [Word<'a>],
}

const RANGES: [(&str, Range); 3] = [
    (":day", Range::Day),
    (":week", Range::Week),
    (":all", Range::All),
];

/// `S - E`.
pub fn span_in<'a>(words: &'a [Word<'a>], now: u64, zone: &Zone) -> Result<Stretch<'a>, BadWord>
    requires { now < limit }
    ensures value { result_map_both (λ s. span_of s) (λ e. e) result ≡ span_in now zone.now (words_of words.now) }
    ensures in_range { IfOk result (λ s. s.end < limit) }
{
    let [word, words @ ..] = words else {
        return Err(MISSING);
    };
    let start = moment_in(word, now, zone)?;
    let [dash, words @ ..] = words else {
        return Err(MISSING);
    };
    if dash.text != "-" {
        return Err(BadWord {
            word: dash.number,
            kind: WordKind::Extra,
        });
    }
    let [word, rest @ ..] = words else {
        return Err(MISSING);
    };
    let end = moment_in(word, now, zone)?;
    Ok(Stretch {
        start,
        end,
        word: word.number,
        rest,
    })
}

/// A range, or else the usual one.
pub fn range_in(usual: Range, words: &[Word], now: u64, zone: &Zone) -> Result<Range, BadWord>
    requires { now < limit }
    ensures { result ≡ range_in usual now zone.now (words_of words.now) }
{
    let [word, rest @ ..] = words else {
        return Ok(usual);
    };
    if let Some(range) = look_up(word.text.as_bytes(), &RANGES) {
        return ended(range, rest);
    }
    let stretch = span_in(words, now, zone)?;
    ended(Range::Between(stretch.start, stretch.end), stretch.rest)
}

/// An id and a length, and nothing after them.
pub fn resize_in(adjust: bool, words: &[Word]) -> Result<Resize, BadWord>
    ensures { result ≡ resize_in adjust (words_of words.now) }
{
    let [word, words @ ..] = words else {
        return Err(MISSING);
    };
    let id = id_in(word)?;
    let [word, words @ ..] = words else {
        return Err(MISSING);
    };
    let length = length_in(word)?;
    ended(
        Resize {
            id,
            word: word.number,
            length,
            adjust,
        },
        words,
    )
}

/// The ids that words begin with, and one tag or more after them.
pub fn tagging_in(alloc: Global, words: &[Word]) -> Result<Tagging, WordsError>
    ensures value { Gives (λ parts. parts) result (tagging_in (words_of words.now)) }
    ensures good { IfOk result (λ parts. AreTags parts.tags) }
{
    let (first, rest) = words.split_at(leading_ids(words));
    let ids = ids_in(alloc, first)?;
    let tags = some_tags(alloc, rest)?;
    Ok(Tagging { ids, tags })
}
