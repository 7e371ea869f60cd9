// What is said of words.
ghost use Rattle.std.specs.Prelude.{◌≡◌, ◌++◌, map, string_bytes, OnOk};
ghost use Rattle.tw_hints.specs.Lines.{line, cut_text};
ghost use Rattle.tw_hints.specs.Words.{word_at, is_for_help, asks_for_help, no_match_text, front_of, value_of, value_text, named_text, word_text};

use crate::lines::push_cut;
use std::alloc::Global;
use tw_terms::WordKind;
use tw_time::look_up;
use tw_world::Memory;

/// The word with a number, and an empty one if there are not so many.
pub(crate) fn word_at(words: &Vec<String>, n: u64) -> &str
    ensures { result.now ≡ word_at n (map string_bytes words.now.items) }
{
    match words.get(n as usize) {
        Some(word) => word.as_str(),
        None => "",
    }
}

// The words that ask for help.
const HELPING: [(&str, bool); 5] = [
    ("help", true),
    ("--help", true),
    ("-h", true),
    ("version", true),
    ("--version", true),
];

#[tactic(auto, unfolding(crate::specs::Words::is_for_help))]
fn is_for_help(word: &str) -> bool
    ensures { result ≡ is_for_help word.now }
{
    look_up(word.as_bytes(), &HELPING).is_some()
}

// Whether one of the words asks for help.
fn asks_for_help(words: &Vec<String>) -> bool
    ensures { result ≡ asks_for_help (map string_bytes words.now.items) }
{
    for word in words {
        if is_for_help(word.as_str()) {
            return true;
        }
    }
    false
}

/// What is said if no task fits.
pub(crate) fn no_match_text(words: &Vec<String>) -> &'static str
    ensures { result.now ≡ no_match_text (map string_bytes words.now.items) }
{
    if asks_for_help(words) {
        "for help: tw --help"
    } else {
        "no task fits; tw task all shows all of them"
    }
}

/// What a value was to be.
#[derive(Clone, Copy)]
pub(crate) enum Value {
    Priority,
    Length,
    Depends,
    Operator,
}

// The names before the values, and the operators.
const VALUES: [(&str, Value); 7] = [
    ("priority", Value::Priority),
    ("recur", Value::Length),
    ("depends", Value::Depends),
    ("and", Value::Operator),
    ("or", Value::Operator),
    ("xor", Value::Operator),
    ("!", Value::Operator),
];

fn before_colon(word: &str) -> &str
    ensures { result.now ≡ front_of 58 word.now }
{
    match word.split_once(':') {
        Some((front, _)) => front,
        None => word,
    }
}

fn before_point(word: &str) -> &str
    ensures { result.now ≡ front_of 46 word.now }
{
    match word.split_once('.') {
        Some((front, _)) => front,
        None => word,
    }
}

// What a word's value was to be, by the name before its colon and its modifier.
#[tactic(auto, unfolding(crate::specs::Words::value_of))]
fn value_of(word: &str) -> Option<Value>
    ensures { result ≡ value_of word.now }
{
    look_up(before_point(before_colon(word)).as_bytes(), &VALUES)
}

fn value_text(value: Option<Value>) -> &'static str
    ensures { result.now ≡ value_text value }
{
    match value {
        Some(Value::Priority) => "\"%\": a priority is H, M or L",
        Some(Value::Length) => "\"%\": a length is as 3d, 2w, 1mo or weekly",
        Some(Value::Depends) => "\"%\": depends takes numbers and uuids",
        Some(Value::Operator) => "\"%\" needs a part before it and one behind it",
        None => "\"%\": no value that it takes; see tw --help",
    }
}

// What is said of a word, unless its value is wrong.
fn named_text(kind: WordKind) -> &'static str
    ensures { result.now ≡ named_text kind }
{
    match kind {
        WordKind::Value => "",
        WordKind::Date => "\"%\": no moment; as tomorrow, eow, 2026-12-31",
        WordKind::Modifier => "\"%\": no such modifier; tw --help has the list",
        WordKind::Attribute => "\"%\": no attribute for here; see tw --help",
        WordKind::Bracket => "\"%\": brackets do not match; quote each alone: '(' a or b ')'",
        WordKind::End => "the words end where a part is missing",
        WordKind::Missing => "\"%\" needs words behind it",
        WordKind::Extra => "\"%\" may not be here; words behind -- are text",
        WordKind::NoFilter => "\"%\" needs to know which: tw task 3 #",
        WordKind::Id => "\"%\" names no task; tw task list has the numbers",
    }
}

fn word_text(kind: WordKind, word: &str) -> &'static str
    ensures { result.now ≡ word_text kind word.now }
{
    match kind {
        WordKind::Value => value_text(value_of(word)),
        _ => named_text(kind),
    }
}

/// Puts the line about a word that is wrong.
pub(crate) fn push_word(
    alloc: Global,
    out: &mut String,
    kind: WordKind,
    word: &str,
) -> Result<(), Memory>
    ensures { OnOk result (string_bytes out.new ≡ string_bytes out.old ++ line (word_text kind word.now) (cut_text word.now) (cut_text word.now)) }
{
    push_cut(alloc, out, word_text(kind, word), word)
}
