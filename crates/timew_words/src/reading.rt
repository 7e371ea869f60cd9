// The command that words give.
ghost use Rattle.std.specs.Prelude.{Some, map, ◌<◌, IfOk, string_bytes};
ghost use Rattle.tw_time.specs.Civil.{limit};
ghost use Rattle.timew_words.specs.Given.{IsGiven};
ghost use Rattle.timew_words.specs.Parts.{words_of, ended};
ghost use Rattle.timew_words.specs.Reading.{command_by, command_named, command_of, Gives};

use crate::command::{Changing, Command, Showing};
use crate::commands::annotate::annotate_in;
use crate::commands::continue_::continue_in;
use crate::commands::delete::delete_in;
use crate::commands::export::export_in;
use crate::commands::hours::hours_in;
use crate::commands::join::join_in;
use crate::commands::lengthen::lengthen_in;
use crate::commands::move_to::move_in;
use crate::commands::shorten::shorten_in;
use crate::commands::split::split_in;
use crate::commands::start::start_in;
use crate::commands::stop::stop_in;
use crate::commands::summary::summary_in;
use crate::commands::tag::tag_in;
use crate::commands::track::track_in;
use crate::commands::untag::untag_in;
use crate::error::{BadWord, WordKind, WordsError};
use crate::name::{Name, name_of};
use crate::parts::ended;
use crate::word::{Word, adjusts, unadjusted, words_behind};
use std::alloc::Global;
use tw_time::Zone;
use tw_world::Moment;

/// The command of words, as timew(1) has them: the command's word and its parts. Words are read from the left, each against the
/// next part. Without a word it is to show what is tracked. The first word that fits no part is refused; if the words end too early,
/// the command's word is.
pub fn read_words(
    alloc: Global,
    words: &Vec<String>,
    now: Moment,
    zone: &Zone,
) -> Result<Command, WordsError>
    ensures value { Gives (λ command. command) result (command_of (map string_bytes words.now.items) now.seconds zone.now) }
    ensures given { IfOk result IsGiven }
{
    let [first, texts @ ..] = words.as_slice() else {
        return Ok(Command::Show(Showing::Tracked));
    };
    let Some(name) = name_of(first.as_str()) else {
        return Err(WordsError::Bad(BadWord {
            word: 0,
            kind: WordKind::Value,
        }));
    };
    let words = words_behind(alloc, texts)?;
    command_named(alloc, name, &words, now.seconds, zone)
}

// The command of a name and the words after it, of which `:adjust` may be one.
fn command_named(
    alloc: Global,
    name: Name,
    words: &[Word],
    now: u64,
    zone: &Zone,
) -> Result<Command, WordsError>
    requires { now < limit }
    ensures value { Gives (λ command. command) result (command_named (Some name) now zone.now (words_of words.now)) }
    ensures given { IfOk result IsGiven }
{
    if name.places() {
        let others = unadjusted(alloc, words)?;
        return command_by(alloc, name, adjusts(words), &others, now, zone);
    }
    command_by(alloc, name, false, words, now, zone)
}

// The command of a name and the words after it.
fn command_by(
    alloc: Global,
    name: Name,
    adjust: bool,
    words: &[Word],
    now: u64,
    zone: &Zone,
) -> Result<Command, WordsError>
    requires { now < limit }
    ensures value { Gives (λ command. command) result (command_by name adjust now zone.now (words_of words.now)) }
    ensures given { IfOk result IsGiven }
{
    match name {
        Name::Start => start_in(alloc, adjust, words, now, zone),
        Name::Stop => as_words(stop_in(words, now, zone)),
        Name::Cancel => alone(Command::Change(Changing::Cancel), words),
        Name::Continue => as_words(continue_in(adjust, words)),
        Name::Track => track_in(alloc, adjust, words, now, zone),
        Name::Tag => tag_in(alloc, words),
        Name::Untag => untag_in(alloc, words),
        Name::Annotate => annotate_in(alloc, words),
        Name::Delete => delete_in(alloc, words),
        Name::Split => split_in(alloc, words),
        Name::Join => as_words(join_in(adjust, words)),
        Name::Move => as_words(move_in(adjust, words, now, zone)),
        Name::Lengthen => as_words(lengthen_in(adjust, words)),
        Name::Shorten => as_words(shorten_in(adjust, words)),
        Name::Undo => alone(Command::Undo, words),
        Name::Export => as_words(export_in(words, now, zone)),
        Name::Summary => as_words(summary_in(words, now, zone)),
        Name::Hours(report) => as_words(hours_in(report, words, now, zone)),
    }
}

// What a part says of a command, as what the words say of it.
fn as_words(part: Result<Command, BadWord>) -> Result<Command, WordsError>
    requires { IfOk part IsGiven }
    ensures value { Gives (λ command. command) result part }
    ensures given { IfOk result IsGiven }
{
    match part {
        Ok(command) => Ok(command),
        Err(bad) => Err(WordsError::Bad(bad)),
    }
}

// A command of one word.
fn alone(command: Command, words: &[Word]) -> Result<Command, WordsError>
    requires { IsGiven command }
    ensures value { Gives (λ command. command) result (ended command (words_of words.now)) }
    ensures given { IfOk result IsGiven }
{
    as_words(ended(command, words))
}
