// One line of settings: taskrc(5), under "EDITING".
ghost use Rattle.std.specs.Prelude.{◌≡◌, ◌∷◌, ◌<◌, ◌==◌, option_map, option_copied, length, IfSome, position};
ghost use Rattle.std.specs.List.{list_all};
ghost use Rattle.tw_terms.specs.Cuts.{parted, parts, parts_of};
ghost use Rattle.tw_settings.specs.Settings.{trimmed, uncommented, allowed, assigned, setting_of, setting_in};

use crate::known::is_allowed;

fn newline(text: &[u8]) -> Option<usize>
    ensures { result ≡ position (λ b. b == 10) text.now }
{
    text.iter().position(|b| *b == b'\n')
}

// What is around the first newline.
fn parted_at_newline(text: &[u8]) -> Option<(&[u8], &[u8])>
    ensures { option_map (λ x. (x.0.now, x.1.now)) result ≡ parted 10 text.now }
{
    match newline(text) {
        Some(at) => Some((&text[..at], &text[at + 1..])),
        None => None,
    }
}

/// The first line of a text, and what comes after its newline.
pub(crate) fn cut_line(text: &[u8]) -> (&[u8], Option<&[u8]>)
    ensures lines { parts 10 text.now ≡ result.0.now ∷ parts_of 10 (option_copied result.1) }
    ensures shorter { IfSome result.1 (λ rest. length rest.now < length text.now) }
{
    match parted_at_newline(text) {
        Some((line, rest)) => (line, Some(rest)),
        None => (text, None),
    }
}

/// A text without the spaces at its ends.
#[tactic(auto, unfolding(crate::specs::Settings::trimmed))]
pub(crate) fn trimmed(text: &str) -> &str
    ensures { result.now ≡ trimmed text.now }
{
    text.trim_start_matches(' ').trim_end_matches(' ')
}

/// A line without its comment.
pub(crate) fn uncommented(line: &str) -> &str
    ensures { result.now ≡ uncommented line.now }
{
    match line.split_once('#') {
        Some((front, _)) => front,
        None => line,
    }
}

/// What is around the first equals sign.
pub fn parted_at_equals(text: &str) -> Option<(&str, &str)>
    ensures { option_map (λ x. (x.0.now, x.1.now)) result ≡ parted 61 text.now }
{
    text.split_once('=')
}

/// A name and its value, where the value may be there.
pub(crate) fn allowed<'a>(name: &'a str, value: &'a str) -> Option<(&'a str, &'a str)>
    ensures { option_map (λ x. (x.0.now, x.1.now)) result ≡ allowed name.now value.now }
{
    if is_allowed(name, value) {
        Some((name, value))
    } else {
        None
    }
}

#[tactic(auto, unfolding(crate::specs::Settings::assigned))]
fn assigned(text: &str) -> Option<(&str, &str)>
    ensures { option_map (λ x. (x.0.now, x.1.now)) result ≡ assigned text.now }
{
    match parted_at_equals(text) {
        Some((name, value)) => allowed(trimmed(name), trimmed(value)),
        None => None,
    }
}

/// Whether a text has nothing but spaces.
pub(crate) fn is_blank(text: &[u8]) -> bool
    ensures { result ≡ list_all (λ b. b == 32) text.now }
{
    text.iter().all(|b| *b == b' ')
}

#[tactic(auto, unfolding(crate::specs::Settings::setting_of))]
fn setting_of(text: &str) -> Option<Option<(&str, &str)>>
    ensures { option_map (option_map (λ x. (x.0.now, x.1.now))) result ≡ setting_of text.now }
{
    if is_blank(text.as_bytes()) {
        return Some(None);
    }
    match assigned(text) {
        Some(pair) => Some(Some(pair)),
        None => None,
    }
}

/// What a line sets: nothing, if it is blank, or a name and its value. None if it is no setting.
#[tactic(auto, unfolding(crate::specs::Settings::setting_in))]
pub(crate) fn setting_in(line: &[u8]) -> Option<Option<(&str, &str)>>
    ensures { option_map (option_map (λ x. (x.0.now, x.1.now))) result ≡ setting_in line.now }
{
    match std::str::from_utf8(line) {
        Ok(line) => setting_of(uncommented(line)),
        Err(_) => None,
    }
}
