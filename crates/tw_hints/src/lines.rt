// The lines of a hint.
ghost use Rattle.std.specs.Prelude.{◌≡◌, ◌++◌, option_map, length, take, chars, encode_utf8_all, string_bytes, IfOk, OnOk};
ghost use Rattle.tw_terms.specs.Cuts.{parted};
ghost use Rattle.tw_hints.specs.Lines.{cut_text, numbered, filled, shown, line};

use std::alloc::{AllocError, Global};
use tw_text::cell;
use tw_world::Memory;

// The first characters of a text.
fn front(alloc: Global, text: &str, count: usize) -> Result<String, AllocError>
    ensures { IfOk result (λ front. string_bytes front ≡ encode_utf8_all (take count (chars text.now))) }
{
    text.chars().take(count).collect(alloc)
}

fn chars_in(text: &str) -> usize
    ensures { result ≡ length (chars text.now) }
{
    text.chars().count()
}

/// A text of at most 20 characters: a longer one is cut, with two points at its end.
#[tactic(auto, unfolding(crate::specs::Lines::cut_text))]
pub(crate) fn cut_text(alloc: Global, text: &str) -> Result<String, Memory>
    ensures { IfOk result (λ cut. string_bytes cut ≡ cut_text text.now) }
{
    if chars_in(text) <= 20 {
        return Ok(String::from_str(alloc, text)?);
    }
    let mut cut = front(alloc, text, 18)?;
    cut.push_str("..")?;
    Ok(cut)
}

fn parted_at_percent(text: &str) -> Option<(&str, &str)>
    ensures { option_map (λ x. (x.0.now, x.1.now)) result ≡ parted 37 text.now }
{
    text.split_once('%')
}

fn parted_at_hash(text: &str) -> Option<(&str, &str)>
    ensures { option_map (λ x. (x.0.now, x.1.now)) result ≡ parted 35 text.now }
{
    text.split_once('#')
}

// Puts three texts to the end of another.
fn push_three(out: &mut String, front: &str, middle: &str, back: &str) -> Result<(), Memory>
    ensures { OnOk result (string_bytes out.new ≡ string_bytes out.old ++ (front.now ++ (middle.now ++ back.now))) }
{
    out.push_str(front)?;
    out.push_str(middle)?;
    out.push_str(back)?;
    Ok(())
}

fn push_two(out: &mut String, front: &str, back: &str) -> Result<(), Memory>
    ensures { OnOk result (string_bytes out.new ≡ string_bytes out.old ++ (front.now ++ back.now)) }
{
    out.push_str(front)?;
    out.push_str(back)?;
    Ok(())
}

fn push_numbered(out: &mut String, text: &str, number: &str) -> Result<(), Memory>
    ensures { OnOk result (string_bytes out.new ≡ string_bytes out.old ++ numbered text.now number.now) }
{
    match parted_at_hash(text) {
        Some((front, back)) => push_three(out, front, number, back),
        None => push_two(out, text, ""),
    }
}

fn push_filled(out: &mut String, text: &str, place: &str, number: &str) -> Result<(), Memory>
    ensures { OnOk result (string_bytes out.new ≡ string_bytes out.old ++ filled text.now place.now number.now) }
{
    match parted_at_percent(text) {
        Some((front, back)) => {
            push_two(out, front, place)?;
            push_numbered(out, back, number)
        }
        None => push_numbered(out, text, number),
    }
}

// What a line says.
fn shown(alloc: Global, text: &str, place: &str, number: &str) -> Result<String, Memory>
    ensures { IfOk result (λ said. string_bytes said ≡ shown text.now place.now number.now) }
{
    let mut said = String::new(alloc);
    push_filled(&mut said, text, place, number)?;
    cell(alloc, said.as_str())
}

/// Puts a line to the end of others: a text of a table, with a place or a word for its `%`, and a number or a text for its `#`.
#[tactic(auto, unfolding(crate::specs::Lines::line))]
pub(crate) fn push_line(
    alloc: Global,
    out: &mut String,
    text: &str,
    place: &str,
    number: &str,
) -> Result<(), Memory>
    ensures { OnOk result (string_bytes out.new ≡ string_bytes out.old ++ line text.now place.now number.now) }
{
    let said = shown(alloc, text, place, number)?;
    push_three(out, "tw: ", said.as_str(), "\n")
}

/// The same with a word, which is cut, for both marks.
pub(crate) fn push_cut(
    alloc: Global,
    out: &mut String,
    text: &str,
    word: &str,
) -> Result<(), Memory>
    ensures { OnOk result (string_bytes out.new ≡ string_bytes out.old ++ line text.now (cut_text word.now) (cut_text word.now)) }
{
    let cut = cut_text(alloc, word)?;
    push_line(alloc, out, text, cut.as_str(), cut.as_str())
}
