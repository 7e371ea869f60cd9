// Hints of `tw timew`.
ghost use Rattle.std.specs.Prelude.{◌≡◌, ◌++◌, [], codes, map, string_bytes, IfOk, OnOk};
ghost use Rattle.tw_hints.specs.Lines.{cut_text, line, lines_of};
ghost use Rattle.tw_hints.specs.Timew.{word_text, text_of, place_of, timew_rows};

use crate::lines::{push_cut, push_line};
use crate::places::{NotOpened, Places};
use crate::replies::disk_text;
use crate::words::word_at;
use std::alloc::Global;
use timew_cli::Cause;
use timew_words::WordKind;
use tw_world::Memory;

fn word_text(kind: WordKind) -> &'static str
    ensures { result.now ≡ word_text kind }
{
    match kind {
        WordKind::Value => "\"%\" has no meaning here; see tw --help",
        WordKind::Date => "\"%\": no moment; as tomorrow, eow, 2026-12-31",
        WordKind::Missing => "\"%\" needs words behind it",
        WordKind::Extra => "\"%\" may not be here; words behind -- are text",
    }
}

// What is said of a cause that is about no word.
fn text_of(cause: &Cause, not_opened: Option<NotOpened>) -> &'static str
    ensures { result.now ≡ text_of cause.now not_opened }
{
    match cause {
        Cause::NotTracking => "tw timew start begins one",
        Cause::NothingToUndo => "each change of the hours is undone",
        Cause::Edited { .. } => "it was changed by hand since; undo stops there",
        Cause::NoInterval { .. } => "tw timew summary :all has the numbers",
        Cause::NoOpen => "tw timew start begins one",
        Cause::AlreadyOpen { .. } => "tw timew stop ends it",
        Cause::Overlap { .. } => ":adjust makes room",
        Cause::BadLine { .. } => "mend that line by hand",
        Cause::DiskFault => disk_text(not_opened),
        Cause::RecordTooLong { .. } => "do it in parts",
        Cause::Damaged { .. } => "tw rescue % saves what is whole; keep the damaged file",
        Cause::FolderFault => "% can't be read or written",
        Cause::Memory => "free some memory, or do it in parts",
        Cause::OutFault => "it was carried out; only the answer is lost",
        Cause::Done | Cause::BadWords { .. } | Cause::Range { .. } => "",
    }
}

// The place that a cause is about.
fn place_of<'a>(cause: &Cause, places: &'a Places) -> &'a str
    ensures { result.now ≡ place_of cause.now places.now }
{
    match cause {
        Cause::DiskFault | Cause::Damaged { .. } => places.journal.as_str(),
        Cause::FolderFault => places.hours.as_str(),
        _ => "",
    }
}

fn push_cause(alloc: Global, out: &mut String, cause: &Cause, places: &Places) -> Result<(), Memory>
    ensures { OnOk result (string_bytes out.new ≡ string_bytes out.old ++ line (text_of cause.now places.now.not_opened) (place_of cause.now places.now) []) }
{
    push_line(
        alloc,
        out,
        text_of(cause, places.not_opened),
        place_of(cause, places),
        "",
    )
}

fn push_range(alloc: Global, out: &mut String, word: &str) -> Result<(), Memory>
    ensures { OnOk result (string_bytes out.new ≡ string_bytes out.old
        ++ line (codes "\"%\" is before the start, or too far") (cut_text word.now) (cut_text word.now)) }
{
    push_cut(alloc, out, "\"%\" is before the start, or too far", word)
}

fn push_timew(
    alloc: Global,
    out: &mut String,
    cause: &Cause,
    words: &Vec<String>,
    places: &Places,
) -> Result<(), Memory>
    ensures { OnOk result (string_bytes out.new ≡ string_bytes out.old ++ lines_of (timew_rows cause.now (map string_bytes words.now.items) places.now)) }
{
    match cause {
        Cause::Done => Ok(()),
        Cause::BadWords { word, kind } => {
            push_cut(alloc, out, word_text(*kind), word_at(words, *word))
        }
        Cause::Range { word } => push_range(alloc, out, word_at(words, *word)),
        _ => push_cause(alloc, out, cause, places),
    }
}

/// What to do about a run of `tw timew` that ended so, over these words: lines for the standard error, and none of a run that was carried
/// out. A word is cut to 20 characters. A control character is a space.
pub fn timew_hint(
    alloc: Global,
    cause: &Cause,
    words: &Vec<String>,
    places: &Places,
) -> Result<String, Memory>
    ensures { IfOk result (λ hint. string_bytes hint ≡ lines_of (timew_rows cause.now (map string_bytes words.now.items) places.now)) }
{
    let mut hint = String::new(alloc);
    push_timew(alloc, &mut hint, cause, words, places)?;
    Ok(hint)
}
