// What is said of lines and overrides that are no settings.
ghost use Rattle.std.specs.Prelude.{◌≡◌, ◌++◌, ◌<◌, option_map, map, string_bytes, OnOk};
ghost use Rattle.std.specs.List.{slice_get};
ghost use Rattle.tw_words.specs.Lines.{round_mark, override_in};
ghost use Rattle.tw_terms.specs.Cuts.{parted, parts};
ghost use Rattle.tw_hints.specs.Lines.{lines_of};
ghost use Rattle.tw_hints.specs.Settings.{why_text, most_of, why_rows, line_at, text_in, line_rows, why_word, refused_in, override_rows, setting_rows};

use crate::lines::{cut_text, push_line};
use crate::places::Places;
use itoa::Buffer;
use std::alloc::Global;
use tw_settings::{Why, parted_at_equals, why_override_refused, why_refused};
use tw_world::Memory;

fn why_text(why: Why) -> &'static str
    ensures { result.now ≡ why_text why }
{
    match why {
        Why::NoText => "a line is text in UTF-8",
        Why::NoPair => "a line is name=value",
        Why::Include => "include is not known; take the line out",
        Why::Switch => "it takes on or off",
        Why::UpTo(_) => "it takes a number up to %",
        Why::Url => "it takes http://HOST:PORT",
        Why::Uuid => "it takes a uuid",
        Why::Decimal => "it takes a number as 1.5",
        Why::Encryption => "tw does not encrypt; take the line out",
    }
}

fn most_of(why: Why) -> u64
    ensures { result ≡ most_of why }
{
    match why {
        Why::UpTo(most) => most,
        _ => 0,
    }
}

fn push_why(alloc: Global, out: &mut String, why: Option<Why>) -> Result<(), Memory>
    ensures { OnOk result (string_bytes out.new ≡ string_bytes out.old ++ lines_of (why_rows why)) }
{
    let Some(why) = why else {
        return Ok(());
    };
    let mut digits = Buffer::new();
    push_line(alloc, out, why_text(why), digits.format(most_of(why)), "")
}

fn nth_line(settings: &[u8], n: usize) -> Option<&[u8]>
    ensures { option_map (λ x. x.now) result ≡ slice_get (parts 10 settings.now) n }
{
    settings.split(|byte| *byte == b'\n').nth(n)
}

// The line with a number, from 1.
fn line_at(settings: &[u8], number: u64) -> &[u8]
    requires { 0 < number }
    ensures { result.now ≡ line_at number settings.now }
{
    match nth_line(settings, number as usize - 1) {
        Some(line) => line,
        None => &[],
    }
}

fn text_in(bytes: &[u8]) -> &str
    ensures { result.now ≡ text_in bytes.now }
{
    match std::str::from_utf8(bytes) {
        Ok(text) => text,
        Err(_) => "",
    }
}

fn push_refused_line(alloc: Global, out: &mut String, line: &[u8], file: &str) -> Result<(), Memory>
    ensures { OnOk result (string_bytes out.new ≡ string_bytes out.old ++ lines_of (line_rows line.now file.now)) }
{
    let cut = cut_text(alloc, text_in(line))?;
    push_line(alloc, out, "%: #", file, cut.as_str())?;
    push_why(alloc, out, why_refused(line))
}

// What is around the first colon.
fn parted_at_colon(text: &str) -> Option<(&str, &str)>
    ensures { option_map (λ x. (x.0.now, x.1.now)) result ≡ parted 58 text.now }
{
    text.split_once(':')
}

// What is around the first `:` or `=`.
fn round_mark(text: &str) -> Option<(&str, &str)>
    ensures { option_map (λ x. (x.0.now, x.1.now)) result ≡ round_mark text.now }
{
    let equals = parted_at_equals(text);
    let Some(colon) = parted_at_colon(text) else {
        return equals;
    };
    match equals {
        Some(equals) if colon.0.len() >= equals.0.len() => Some(equals),
        _ => Some(colon),
    }
}

// An override.
#[tactic(auto, unfolding(tw_words::specs::Lines::override_in))]
fn override_in(word: &str) -> Option<(&str, &str)>
    ensures { option_map (λ x. (x.0.now, x.1.now)) result ≡ override_in word.now }
{
    match word.strip_prefix("rc.") {
        Some(text) => round_mark(text),
        None => None,
    }
}

// Why a word is no override that may be there.
fn why_word(word: &str) -> Option<Why>
    ensures { result ≡ why_word word.now }
{
    match override_in(word) {
        Some((name, value)) => why_override_refused(name, value),
        None => None,
    }
}

// The first word before `--` that is none.
fn refused_in(words: &Vec<String>) -> &str
    ensures { result.now ≡ refused_in (map string_bytes words.now.items) }
{
    for word in words {
        if word.as_str() == "--" {
            return "";
        }
        if why_word(word.as_str()).is_some() {
            return word.as_str();
        }
    }
    ""
}

fn push_override(alloc: Global, out: &mut String, word: &str) -> Result<(), Memory>
    ensures { OnOk result (string_bytes out.new ≡ string_bytes out.old ++ lines_of (override_rows word.now)) }
{
    let cut = cut_text(alloc, word)?;
    push_line(alloc, out, "\"%\"", cut.as_str(), "")?;
    push_why(alloc, out, why_word(word))
}

/// Puts the lines about a line of the settings that is none, or about an override if the number is 0.
pub(crate) fn push_setting(
    alloc: Global,
    out: &mut String,
    number: u64,
    words: &Vec<String>,
    settings: &[u8],
    places: &Places,
) -> Result<(), Memory>
    ensures { OnOk result (string_bytes out.new ≡ string_bytes out.old
        ++ lines_of (setting_rows number (map string_bytes words.now.items) settings.now places.now)) }
{
    if number == 0 {
        return push_override(alloc, out, refused_in(words));
    }
    push_refused_line(
        alloc,
        out,
        line_at(settings, number),
        places.settings.as_str(),
    )
}
