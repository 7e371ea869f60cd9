// The words of `start`.
ghost use Rattle.std.specs.Prelude.{◌<◌, IfOk};
ghost use Rattle.tw_time.specs.Civil.{limit};
ghost use Rattle.tw_time.specs.Moments.{moment};
ghost use Rattle.timew_words.specs.Commands.Start.{start_in};
ghost use Rattle.timew_words.specs.Given.{IsGiven};
ghost use Rattle.timew_words.specs.Parts.{words_of};
ghost use Rattle.timew_words.specs.Reading.{Gives};

use crate::command::{Changing, Command, Start};
use crate::error::{BadWord, WordKind, WordsError};
use crate::parts::tags_in;
use crate::word::Word;
use std::alloc::Global;
use timew_interval::Texts;
use tw_time::{DateError, Zone, read_moment};

/// A moment, or else now, and tags.
pub fn start_in(
    alloc: Global,
    adjust: bool,
    words: &[Word],
    now: u64,
    zone: &Zone,
) -> Result<Command, WordsError>
    requires { now < limit }
    ensures value { Gives (λ command. command) result (start_in adjust now zone.now (words_of words.now)) }
    ensures given { IfOk result IsGiven }
{
    let [first, rest @ ..] = words else {
        return Ok(Command::Change(Changing::Start(Start {
            word: 0,
            moment: None,
            tags: Texts::new(alloc),
            adjust,
        })));
    };
    match read_moment(first.text, now, zone) {
        Ok(at) => Ok(Command::Change(Changing::Start(Start {
            word: first.number,
            moment: Some(at),
            tags: tags_in(alloc, rest)?,
            adjust,
        }))),
        Err(DateError::Unknown) => Ok(Command::Change(Changing::Start(Start {
            word: 0,
            moment: None,
            tags: tags_in(alloc, words)?,
            adjust,
        }))),
        Err(DateError::OutOfRange | DateError::Memory) => Err(WordsError::Bad(BadWord {
            word: first.number,
            kind: WordKind::Date,
        })),
    }
}
