// The parts of a command line.
ghost use Rattle.std.specs.Prelude.{◌≡◌, ◌∷◌, ◌≤◌, ◌<◌, ◌+◌, drop, length, map, string_bytes, IfOk};
ghost use Rattle.std.specs.Option.{option_copied};
ghost use Rattle.tw_words.specs.Faults.{rest_word, number_behind};
ghost use Rattle.tw_words.specs.Lines.{with_word, taken_from, nothing, line_by, parts_of_line};

pub(crate) mod taken;

use crate::command::AnyCommand;
use crate::line::taken::Taken;
use std::alloc::Global;
use std::marker::Model;
use tw_text::read_u64;
use tw_world::{Memory, Text};

/// The parts of a command line: task(1), under "SYNOPSIS". Overrides, the command's word and `--` are no words of it.
pub struct Line {
    /// The command that the first such word before `--` names, and `next` if none does.
    pub command: AnyCommand,
    /// The number of the command's word among the words taken, or 0 if there is none.
    pub word_number: u64,
    /// The words of the filter are those from here ..
    pub filter_from: u64,
    /// .. up to this one: those before the command's word, and all where the rest is filter too.
    pub filter_to: u64,
    /// The words from this one on are the rest.
    pub rest_from: u64,
    /// The words from this one on came after `--`, and are text.
    pub plain_from: u64,
    pub words: Vec<String>,
    /// For each word its number among the words taken.
    pub word_numbers: Vec<u64>,
    /// The names and values of `rc.name:value` and `rc.name=value` before `--`.
    pub overrides: Vec<(Text, Text)>,
}

// It is written out, so that a caller does not prove again how each part is dropped.
impl Drop for Line {
    fn drop(self) {
        let Line {
            command: _,
            word_number: _,
            filter_from: _,
            filter_to: _,
            rest_from: _,
            plain_from: _,
            words: _,
            word_numbers: _,
            overrides: _,
        } = self;
    }
}

impl Model for Line {
    ghost use Rattle.std.specs.Prelude.{length, map, string_bytes};
    ghost use Rattle.tw_words.specs.Lines.{Parts, AreWithin};

    ghost Value = { Parts };

    ghost invariant = { λ l. AreWithin l.filter_from l.filter_to l.rest_from (length l.words.items) l.word_numbers.items };

    ghost view = { λ l. record {
      command = l.command;
      word_number = l.word_number;
      filter_from = l.filter_from;
      filter_to = l.filter_to;
      rest_from = l.rest_from;
      plain_from = l.plain_from;
      words = map string_bytes l.words.items;
      word_numbers = l.word_numbers.items;
      overrides = l.overrides.items;
    } };
}

impl Line {
    /// A word.
    pub(crate) fn word(&self, n: u64) -> &str
        requires { n < length self.now.words }
        ensures { drop n self.now.words ≡ result.now ∷ drop (n + 1) self.now.words }
    {
        self.words[n as usize].as_str()
    }

    /// A word after the command's word, counted from 0.
    pub(crate) fn rest_word(&self, k: u64) -> Option<&str>
        requires { k < 3 }
        ensures { option_copied result ≡ rest_word self.now k }
    {
        match self.words.get((self.rest_from + k) as usize) {
            Some(word) => Some(word.as_str()),
            None => None,
        }
    }

    /// The number that a word after the command's word is, counted from 0, and 0 if there is no word or it is none.
    pub fn number(&self, k: u64) -> u64
        requires { k < 3 }
        ensures { result ≡ number_behind self.now k }
    {
        match self.rest_word(k) {
            Some(word) => read_u64(word).unwrap_or(0),
            None => 0,
        }
    }
}

/// The parts of a line, whatever its words are. None of them is judged.
pub fn cut_words(alloc: Global, words: &Vec<String>) -> Result<Line, Memory>
    ensures { IfOk result (λ line. line ≡ parts_of_line (map string_bytes words.now.items)) }
{
    let mut taken = Taken::new(alloc);
    let mut n = 0;
    for word in words {
        taken.take(alloc, n, word.as_str())?;
        n += 1;
    }
    Ok(taken.line())
}
