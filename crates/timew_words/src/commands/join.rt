// The words of `join`.
ghost use Rattle.std.specs.Prelude.{◌≡◌, IfOk};
ghost use Rattle.timew_words.specs.Commands.Join.{join_in};
ghost use Rattle.timew_words.specs.Given.{IsGiven};
ghost use Rattle.timew_words.specs.Parts.{words_of};

use crate::command::{Changing, Command, Join};
use crate::error::BadWord;
use crate::parts::{MISSING, ended, id_in};
use crate::word::Word;

/// Two ids.
pub fn join_in(adjust: bool, words: &[Word]) -> Result<Command, BadWord>
    ensures value { result ≡ join_in adjust (words_of words.now) }
    ensures given { IfOk result IsGiven }
{
    let [word, words @ ..] = words else {
        return Err(MISSING);
    };
    let first = id_in(word)?;
    let [word, words @ ..] = words else {
        return Err(MISSING);
    };
    let second = id_in(word)?;
    ended(
        Command::Change(Changing::Join(Join {
            first,
            second,
            adjust,
        })),
        words,
    )
}
