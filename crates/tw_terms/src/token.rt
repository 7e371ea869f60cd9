// The tokens of a filter.
ghost use Rattle.std.specs.Prelude.{◌≡◌, ◌<◌, ◌++◌, IfOk, OnOk};
ghost use Rattle.tw_time.specs.Civil.{limit};
ghost use Rattle.tw_terms.specs.Cuts.{parts};
ghost use Rattle.tw_terms.specs.IdWords.{names_in};
ghost use Rattle.tw_terms.specs.Tokens.{mark_of, token_of, tokens_of, ranged, PushesNames, PushesMark, Pushes};

use crate::bad_word::KindError;
use crate::id_word::{Name, are_ranges, cut_part, range_in, uuid_of_36};
use crate::term::{Term, Test, term_of};
use std::alloc::Global;
use tw_time::{Zone, look_up};
use tw_world::{Memory, Text};

/// A token of a filter.
pub enum Token {
    Xor,
    Or,
    And,
    Not,
    Open,
    Close,
    /// What a part of an id word names.
    Named(Name),
    Asked(Term),
}

// It is written out, so that a caller does not prove again how each part is dropped.
impl Drop for Token {
    fn drop(self) {
        match self {
            Token::Xor => {}
            Token::Or => {}
            Token::And => {}
            Token::Not => {}
            Token::Open => {}
            Token::Close => {}
            Token::Named(_name) => {}
            Token::Asked(_term) => {}
        }
    }
}

/// A word that joins parts, turns one round or brackets them.
#[derive(Clone, Copy)]
pub enum Mark {
    Xor,
    Or,
    And,
    Not,
    Open,
    Close,
}

const MARKS: [(&str, Mark); 6] = [
    ("xor", Mark::Xor),
    ("or", Mark::Or),
    ("and", Mark::And),
    ("!", Mark::Not),
    ("(", Mark::Open),
    (")", Mark::Close),
];

// The mark that a word is.
#[tactic(auto, unfolding(crate::specs::Tokens::mark_of))]
fn mark_of(word: &str) -> Option<Mark>
    ensures { result ≡ mark_of word.now }
{
    look_up(word.as_bytes(), &MARKS)
}

fn token_of(mark: Mark) -> Token
    ensures { result ≡ token_of mark }
{
    match mark {
        Mark::Xor => Token::Xor,
        Mark::Or => Token::Or,
        Mark::And => Token::And,
        Mark::Not => Token::Not,
        Mark::Open => Token::Open,
        Mark::Close => Token::Close,
    }
}

// Adds what the parts of a text with commas name.
fn push_ranges(tokens: &mut Vec<Token>, text: &str) -> Result<(), Memory>
    ensures { OnOk result (tokens.new.items ≡ tokens.old.items ++ ranged (parts 44 text.now)) }
{
    let mut left = Some(text);
    while let Some(text) = left {
        let (part, rest) = cut_part(text);
        if let Some(name) = range_in(part) {
            tokens.push(Token::Named(name))?;
        }
        left = rest;
    }
    Ok(())
}

// Adds what an id word names, and answers whether the word is one.
#[tactic(auto, unfolding(crate::specs::IdWords::names_in))]
fn push_names(tokens: &mut Vec<Token>, word: &str) -> Result<bool, Memory>
    ensures { IfOk result (λ is. PushesNames (names_in word.now) is tokens.old.items tokens.new.items) }
{
    if let Some(uuid) = uuid_of_36(word) {
        tokens.push(Token::Named(Name::One(uuid)))?;
        return Ok(true);
    }
    if !are_ranges(word) {
        return Ok(false);
    }
    push_ranges(tokens, word)?;
    Ok(true)
}

// Adds a mark, and answers whether the word is one.
fn push_mark(tokens: &mut Vec<Token>, word: &str) -> Result<bool, Memory>
    ensures { IfOk result (λ is. PushesMark (mark_of word.now) is tokens.old.items tokens.new.items) }
{
    match mark_of(word) {
        Some(mark) => {
            tokens.push(token_of(mark))?;
            Ok(true)
        }
        None => Ok(false),
    }
}

/// Adds the tokens of a word. One after `--` stands for its text.
#[tactic(auto, unfolding(crate::specs::Tokens::tokens_of))]
pub fn push_word(
    alloc: Global,
    tokens: &mut Vec<Token>,
    is_plain: bool,
    word: &str,
    now: u64,
    zone: &Zone,
) -> Result<(), KindError>
    requires { now < limit }
    ensures { Pushes result (tokens_of is_plain word.now now zone.now) tokens.old.items tokens.new.items }
{
    if is_plain {
        let text = Text::from_str(alloc, word)?;
        tokens.push(Token::Asked(Term {
            test: Test::Mentions(text),
            wanted: true,
        }))?;
        return Ok(());
    }
    if push_mark(tokens, word)? || push_names(tokens, word)? {
        return Ok(());
    }
    let term = term_of(alloc, word, now, zone)?;
    tokens.push(Token::Asked(term))?;
    Ok(())
}
