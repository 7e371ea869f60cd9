// The words of `stop`.
ghost use Rattle.std.specs.Prelude.{◌≡◌, ◌<◌, IfOk};
ghost use Rattle.tw_time.specs.Civil.{limit};
ghost use Rattle.timew_words.specs.Commands.Stop.{stop_in};
ghost use Rattle.timew_words.specs.Given.{IsGiven};
ghost use Rattle.timew_words.specs.Parts.{words_of};

use crate::command::{Changing, Command, Stop};
use crate::error::BadWord;
use crate::parts::{ended, moment_in};
use crate::word::Word;
use tw_time::Zone;

/// A moment, or else now.
pub fn stop_in(words: &[Word], now: u64, zone: &Zone) -> Result<Command, BadWord>
    requires { now < limit }
    ensures value { result ≡ stop_in now zone.now (words_of words.now) }
    ensures given { IfOk result IsGiven }
{
    let [first, rest @ ..] = words else {
        return Ok(Command::Change(Changing::Stop(Stop {
            word: 0,
            moment: None,
        })));
    };
    let at = moment_in(first, now, zone)?;
    ended(
        Command::Change(Changing::Stop(Stop {
            word: first.number,
            moment: Some(at),
        })),
        rest,
    )
}
