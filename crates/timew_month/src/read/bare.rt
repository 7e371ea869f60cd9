// Tags without quotes and no annotation, as most lines have them: they are taken out of the line as they are.
ghost use Rattle.std.specs.Prelude.{◌≡◌, ◌≤◌, ◌++◌, ◌∷◌, [], List, ℕ, take, length, option_map, true, IfOk, IfSome};
ghost use Rattle.std.specs.List.{list_all};
ghost use Rattle.std.specs.Ordering.{is_lt};
ghost use Rattle.tw_world.specs.Folder.{bytes_cmp};
ghost use Rattle.timew_month.specs.Exact.{AreTaken, AreWritten, IsFirstTag};
ghost use Rattle.timew_interval.specs.Interval.{tags_rise};
ghost use Rattle.timew_interval.specs.Line.{is_bare};

use crate::read::reader::as_text;
use std::alloc::Global;
use timew_interval::Texts;
use tw_world::{Memory, Text};

// Nearly all bytes of tags lie above `#`.
fn is_bare(byte: u8) -> bool
    ensures { result ≡ is_bare byte }
{
    if byte > b'#' {
        byte != b'\\' && byte != 127
    } else {
        byte == b'!'
    }
}

// The length of the first tag, if it has no quotes.
fn tag_length(bytes: &[u8]) -> usize
    ensures inside { result ≤ length bytes.now }
    ensures bare { list_all is_bare (take result bytes.now) ≡ true }
{
    let mut at = 0;
    while at < bytes.len() && is_bare(bytes[at]) {
        at += 1;
    }
    at
}

// The first tag, if it has no quotes, and what follows its space, if there is one.
fn first_tag(bytes: &[u8]) -> Option<(&str, Option<&[u8]>)>
    ensures { IfSome result (λ first. IsFirstTag first.0.now (option_map (λ rest. rest.now) first.1) bytes.now) }
{
    let (tag, more) = bytes.split_at(tag_length(bytes));
    if tag.len() == 0 {
        return None;
    }
    let text = as_text(tag)?;
    match more {
        [] => Some((text, None)),
        [b' ', rest @ ..] => Some((text, Some(rest))),
        _ => None,
    }
}

fn is_before(tag: &str, other: &str) -> bool
    ensures { result ≡ is_lt (bytes_cmp tag.now other.now) }
{
    tag < other
}

// Whether a tag is after these in byte order.
fn is_behind(tags: &Texts, tag: &str) -> bool
    ensures { tags_rise tags.now ≡ true → result ≡ true → tags_rise (tags.now ++ tag.now ∷ []) ≡ true }
{
    let count = tags.len();
    if count == 0 {
        return true;
    }
    is_before(tags.at(count - 1), tag)
}

// The tags that were taken from the front of a text, and those of what is left of it, if they go on so.
fn more_tags(alloc: Global, taken: Texts, bytes: &[u8]) -> Result<Option<Texts>, Memory>
    ensures { (text : List ℕ) → AreTaken taken bytes.now text → IfOk result (λ read. IfSome read (λ tags. AreWritten tags text)) }
{
    let mut tags = taken;
    let mut rest = bytes;
    loop {
        let Some((tag, more)) = first_tag(rest) else {
            return Ok(None);
        };
        if !is_behind(&tags, tag) {
            return Ok(None);
        }
        tags.push(Text::from_str(alloc, tag)?)?;
        let Some(more) = more else {
            return Ok(Some(tags));
        };
        rest = more;
    }
}

/// The tags after ` # `, if they are there as they are written, each without quotes, and no annotation follows them. One or two, as
/// most lines have, are put where they stay.
pub(crate) fn bare_tags(alloc: Global, bytes: &[u8]) -> Result<Option<Texts>, Memory>
    ensures { IfOk result (λ read. IfSome read (λ tags. AreWritten tags bytes.now)) }
{
    let Some((first, rest)) = first_tag(bytes) else {
        return Ok(None);
    };
    let first_text = Text::from_str(alloc, first)?;
    let Some(rest) = rest else {
        return Ok(Some(Texts::one(alloc, first_text)));
    };
    let Some((second, rest)) = first_tag(rest) else {
        return Ok(None);
    };
    if !is_before(first, second) {
        return Ok(None);
    }
    let tags = Texts::two(alloc, first_text, Text::from_str(alloc, second)?);
    match rest {
        None => Ok(Some(tags)),
        Some(rest) => more_tags(alloc, tags, rest),
    }
}
