// The words of `move`.
ghost use Rattle.std.specs.Prelude.{◌≡◌, ◌<◌, IfOk};
ghost use Rattle.tw_time.specs.Civil.{limit};
ghost use Rattle.timew_words.specs.Commands.Move.{move_in};
ghost use Rattle.timew_words.specs.Given.{IsGiven};
ghost use Rattle.timew_words.specs.Parts.{words_of};

use crate::command::{Changing, Command, Move};
use crate::error::BadWord;
use crate::parts::{MISSING, ended, id_in, moment_in};
use crate::word::Word;
use tw_time::Zone;

/// An id and a moment.
pub fn move_in(adjust: bool, words: &[Word], now: u64, zone: &Zone) -> Result<Command, BadWord>
    requires { now < limit }
    ensures value { result ≡ move_in adjust now zone.now (words_of words.now) }
    ensures given { IfOk result IsGiven }
{
    let [word, words @ ..] = words else {
        return Err(MISSING);
    };
    let id = id_in(word)?;
    let [word, words @ ..] = words else {
        return Err(MISSING);
    };
    let start = moment_in(word, now, zone)?;
    ended(
        Command::Change(Changing::Move(Move {
            id,
            word: word.number,
            start,
            adjust,
        })),
        words,
    )
}
