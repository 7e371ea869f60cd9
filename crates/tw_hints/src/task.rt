// Hints of `tw task`.
ghost use Rattle.std.specs.Prelude.{◌≡◌, ◌++◌, map, string_bytes, IfOk, OnOk};
ghost use Rattle.std.specs.Fmt.{decimal};
ghost use Rattle.tw_hints.specs.Lines.{line, lines_of};
ghost use Rattle.tw_hints.specs.Causes.{input_text, text_of, place_of, number_of, task_rows};

use crate::lines::{push_cut, push_line};
use crate::places::{NotOpened, Places};
use crate::refused::push_setting;
use crate::replies::{code_of, disk_text, reply_text};
use crate::words::{no_match_text, push_word, word_at};
use itoa::Buffer;
use std::alloc::Global;
use tw_cli::Cause;
use tw_world::Memory;

// Which element of the input is no task.
fn input_text(name: &str) -> &'static str
    ensures { result.now ≡ input_text name.now }
{
    if name.is_empty() {
        "no JSON array; tools/from-taskwarrior mends exports"
    } else {
        "elements count from 0; % is its first bad key"
    }
}

// What is said of a cause that is about no word, line or key.
fn text_of(cause: &Cause, not_opened: Option<NotOpened>) -> &'static str
    ensures { result.now ≡ text_of cause.now not_opened }
{
    match cause {
        Cause::NothingToUndo => "what a sync has sent can't be undone",
        Cause::NoServer => "set sync.server.url and sync.server.client_id: twrc(5)",
        Cause::IdTaken { .. } => "run it again: another uuid is drawn",
        Cause::Cycle { .. } => "that task waits for this one already, perhaps through others",
        Cause::DiskFault => disk_text(not_opened),
        Cause::RecordTooLong { .. } => "do it in parts",
        Cause::Memory => "free some memory, or do it in parts",
        Cause::LinkFault => "no answer from %; is the server up, and the tunnel?",
        Cause::BadReply { kind } => reply_text(*kind),
        Cause::Gone { .. } => "its file is older than this machine: SERVING, A lost server",
        Cause::Busy { .. } => "others add versions all the time; sync again",
        Cause::OutOfSync { .. } => "% contradicts itself: two servers?",
        Cause::BadSegment { .. } => "another program wrote it, or the server's file is damaged",
        Cause::SegmentTooLong { .. } => "one change is above 16 MB",
        Cause::PullTooLong { .. } => "sync again: it goes on from there",
        Cause::OutFault => "it was carried out; only the answer is lost",
        Cause::Damaged { .. } => "tw rescue % saves what is whole; keep the damaged file",
        Cause::InFault => "the standard input can't be read",
        Cause::InputTooLong => "import at most 64 MiB at a time",
        Cause::HookRefused { .. } => "it ended with status #",
        Cause::HookAnswer { .. } => "its first line must be the task, as JSON",
        Cause::HookFault => "hooks can't be read, or a signal ended one",
        Cause::TrackFault => "the hours are in %; try tw timew",
        Cause::TrackBad { .. } => "mend that line by hand",
        Cause::TrackDamaged { .. } =>
            "tw rescue %/undo.journal saves what is whole; keep the damaged file",
        Cause::Done
        | Cause::NoMatch
        | Cause::BadWords { .. }
        | Cause::BadSetting { .. }
        | Cause::BadInput { .. } => "",
    }
}

// The place that a cause is about.
fn place_of<'a>(cause: &Cause, places: &'a Places) -> &'a str
    ensures { result.now ≡ place_of cause.now places.now }
{
    match cause {
        Cause::DiskFault | Cause::Damaged { .. } => places.journal.as_str(),
        Cause::LinkFault | Cause::BadReply { .. } | Cause::OutOfSync { .. } => {
            places.server.as_str()
        }
        Cause::TrackFault | Cause::TrackDamaged { .. } => places.hours.as_str(),
        _ => "",
    }
}

// The number that its text names.
fn number_of(cause: &Cause) -> u64
    ensures { result ≡ number_of cause.now }
{
    match cause {
        Cause::BadReply { kind } => code_of(*kind),
        Cause::HookRefused { status, .. } => u64::from(*status),
        _ => 0,
    }
}

fn push_cause(alloc: Global, out: &mut String, cause: &Cause, places: &Places) -> Result<(), Memory>
    ensures { OnOk result (string_bytes out.new ≡ string_bytes out.old
        ++ line (text_of cause.now places.now.not_opened) (place_of cause.now places.now) (decimal (number_of cause.now))) }
{
    let mut digits = Buffer::new();
    let number = digits.format(number_of(cause));
    push_line(
        alloc,
        out,
        text_of(cause, places.not_opened),
        place_of(cause, places),
        number,
    )
}

fn push_task(
    alloc: Global,
    out: &mut String,
    cause: &Cause,
    words: &Vec<String>,
    settings: &[u8],
    places: &Places,
) -> Result<(), Memory>
    ensures { OnOk result (string_bytes out.new ≡ string_bytes out.old
        ++ lines_of (task_rows cause.now (map string_bytes words.now.items) settings.now places.now)) }
{
    match cause {
        Cause::Done => Ok(()),
        Cause::NoMatch => push_line(alloc, out, no_match_text(words), "", ""),
        Cause::BadWords { word, kind } => push_word(alloc, out, *kind, word_at(words, *word)),
        Cause::BadSetting { line } => push_setting(alloc, out, *line, words, settings, places),
        Cause::BadInput { name, .. } => {
            push_cut(alloc, out, input_text(name.as_str()), name.as_str())
        }
        _ => push_cause(alloc, out, cause, places),
    }
}

/// What to do about a run of `tw task` that ended so, over these words and settings: lines for the standard error, and none of a run that
/// was carried out. A word, a line of the settings and a key are cut to 20 characters. A control character is a space.
pub fn task_hint(
    alloc: Global,
    cause: &Cause,
    words: &Vec<String>,
    settings: &[u8],
    places: &Places,
) -> Result<String, Memory>
    ensures { IfOk result (λ hint. string_bytes hint ≡ lines_of (task_rows cause.now (map string_bytes words.now.items) settings.now places.now)) }
{
    let mut hint = String::new(alloc);
    push_task(alloc, &mut hint, cause, words, settings, places)?;
    Ok(hint)
}
