// The words of `track`.
ghost use Rattle.std.specs.Prelude.{◌<◌, IfOk};
ghost use Rattle.tw_time.specs.Civil.{limit};
ghost use Rattle.timew_words.specs.Commands.Track.{track_in};
ghost use Rattle.timew_words.specs.Given.{IsGiven};
ghost use Rattle.timew_words.specs.Parts.{words_of};
ghost use Rattle.timew_words.specs.Reading.{Gives};

use crate::command::{Changing, Command, Track};
use crate::error::WordsError;
use crate::parts::tags_in;
use crate::stretch::span_in;
use crate::word::Word;
use std::alloc::Global;
use tw_time::Zone;

/// `S - E`, and tags.
pub fn track_in(
    alloc: Global,
    adjust: bool,
    words: &[Word],
    now: u64,
    zone: &Zone,
) -> Result<Command, WordsError>
    requires { now < limit }
    ensures value { Gives (λ command. command) result (track_in adjust now zone.now (words_of words.now)) }
    ensures given { IfOk result IsGiven }
{
    let span = span_in(words, now, zone)?;
    let tags = tags_in(alloc, span.rest)?;
    Ok(Command::Change(Changing::Track(Track {
        word: span.word,
        start: span.start,
        end: span.end,
        tags,
        adjust,
    })))
}
