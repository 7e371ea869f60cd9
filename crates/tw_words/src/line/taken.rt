// What is taken of a command line, one word after another.
ghost use Rattle.std.specs.Prelude.{◌≡◌, ◌∷◌, ◌++◌, [], ◌==◌, ◌||◌, ◌≤◌, ◌<◌, option_map, length, OnOk, codes};
ghost use Rattle.tw_terms.specs.Cuts.{parted};
ghost use Rattle.tw_words.specs.Commands.{command_named};
ghost use Rattle.tw_words.specs.Lines.{round_mark, override_in, first_command, taking, dashed, named, overriding, with_word, nothing};
ghost use Rattle.tw_words.specs.Lines.{filter_end, line_with, line_by};

use crate::command::{AnyCommand, Command, Rest, command_named};
use crate::line::Line;
use std::alloc::Global;
use std::marker::Model;
use tw_settings::parted_at_equals;
use tw_world::{Memory, Text};

/// What is taken of a line.
pub(crate) struct Taken {
    command: Option<AnyCommand>,
    word_number: u64,
    before: u64,
    plain: Option<u64>,
    words: Vec<String>,
    word_numbers: Vec<u64>,
    overrides: Vec<(Text, Text)>,
}

// It is written out, so that a caller does not prove again how each part is dropped.
impl Drop for Taken {
    fn drop(self) {
        let Taken {
            command: _,
            word_number: _,
            before: _,
            plain: _,
            words: _,
            word_numbers: _,
            overrides: _,
        } = self;
    }
}

impl Model for Taken {
    ghost use Rattle.std.specs.Prelude.{◌≤◌, length, map, string_bytes};
    ghost use Rattle.tw_words.specs.Lines.{Taken, AreFew};

    ghost Value = { Taken };

    ghost invariant = { λ t. (t.before ≤ length t.words.items) × AreFew t.word_numbers.items };

    ghost view = { λ t. record {
      command = t.command;
      word_number = t.word_number;
      before = t.before;
      plain = t.plain;
      words = map string_bytes t.words.items;
      word_numbers = t.word_numbers.items;
      overrides = t.overrides.items;
    } };
}

// What is around the first colon.
fn parted_at_colon(text: &str) -> Option<(&str, &str)>
    ensures { option_map (λ x. (x.0.now, x.1.now)) result ≡ parted 58 text.now }
{
    text.split_once(':')
}

// What is around the first `:` or `=`.
fn round_mark(text: &str) -> Option<(&str, &str)>
    ensures { option_map (λ x. (x.0.now, x.1.now)) result ≡ round_mark text.now }
{
    let equals = parted_at_equals(text);
    let Some(colon) = parted_at_colon(text) else {
        return equals;
    };
    match equals {
        Some(equals) if colon.0.len() >= equals.0.len() => Some(equals),
        _ => Some(colon),
    }
}

// An override.
#[tactic(auto, unfolding(crate::specs::Lines::override_in))]
fn override_in(word: &str) -> Option<(&str, &str)>
    ensures { option_map (λ x. (x.0.now, x.1.now)) result ≡ override_in word.now }
{
    match word.strip_prefix("rc.") {
        Some(text) => round_mark(text),
        None => None,
    }
}

fn first_command(command: Option<AnyCommand>, word: &str) -> Option<AnyCommand>
    ensures { result ≡ first_command command word.now }
{
    match command {
        None => command_named(word),
        Some(_) => None,
    }
}

impl Taken {
    /// Nothing is taken.
    pub(crate) fn new(alloc: Global) -> Taken
        ensures { result ≡ nothing }
    {
        Taken {
            command: None,
            word_number: 0,
            before: 0,
            plain: None,
            words: Vec::new(alloc),
            word_numbers: Vec::new(alloc),
            overrides: Vec::new(alloc),
        }
    }

    fn push_word(&mut self, alloc: Global, n: u64, word: &str) -> Result<(), Memory>
        requires { n < 18446744073709551615 }
        ensures { OnOk result (self.new ≡ taking self.old n word.now) }
    {
        let word = String::from_str(alloc, word)?;
        self.words.push(word)?;
        self.word_numbers.push(n)?;
        Ok(())
    }

    fn override_with(&mut self, alloc: Global, name: &str, value: &str) -> Result<(), Memory>
        ensures { OnOk result (self.new ≡ overriding self.old (name.now, value.now)) }
    {
        let name = Text::from_str(alloc, name)?;
        let value = Text::from_str(alloc, value)?;
        self.overrides.push((name, value))?;
        Ok(())
    }

    fn dash(&mut self)
        ensures { self.new ≡ dashed self.old }
    {
        self.plain = Some(self.words.len() as u64);
    }

    fn name(&mut self, n: u64, command: AnyCommand)
        ensures { self.new ≡ named self.old n command }
    {
        self.command = Some(command);
        self.word_number = n;
        self.before = self.words.len() as u64;
    }

    /// Takes one more word.
    pub(crate) fn take(&mut self, alloc: Global, n: u64, word: &str) -> Result<(), Memory>
        requires { n < 18446744073709551615 }
        ensures { OnOk result (self.new ≡ with_word self.old n word.now) }
    {
        if self.plain.is_some() {
            return self.push_word(alloc, n, word);
        }
        if word == "--" {
            self.dash();
            return Ok(());
        }
        if let Some((name, value)) = override_in(word) {
            return self.override_with(alloc, name, value);
        }
        match first_command(self.command, word) {
            Some(command) => {
                self.name(n, command);
                Ok(())
            }
            None => self.push_word(alloc, n, word),
        }
    }

    /// The line whose words are taken.
    pub(crate) fn line(self) -> Line
        ensures { result ≡ line_by self self.command }
    {
        let Taken {
            command,
            word_number,
            before,
            plain,
            words,
            word_numbers,
            overrides,
        } = self;
        let all = words.len() as u64;
        let (command, to) = match command {
            None => (AnyCommand::Tasks(Command::Next), all),
            Some(command) => (command, filter_end(command.rest(), before, all)),
        };
        Line {
            command,
            word_number,
            filter_from: 0,
            filter_to: to,
            rest_from: to,
            plain_from: match plain {
                Some(n) => n,
                None => all,
            },
            words,
            word_numbers,
            overrides,
        }
    }
}

fn filter_end(rest: Rest, before: u64, all: u64) -> u64
    requires { before ≤ all }
    ensures value { result ≡ filter_end rest before all }
    ensures within { result ≤ all }
{
    match rest {
        Rest::Filter => all,
        _ => before,
    }
}
