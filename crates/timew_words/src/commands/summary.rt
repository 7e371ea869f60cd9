// The words of `summary`.
ghost use Rattle.std.specs.Prelude.{◌≡◌, ◌<◌, IfOk};
ghost use Rattle.tw_time.specs.Civil.{limit};
ghost use Rattle.timew_words.specs.Commands.Summary.{summary_in};
ghost use Rattle.timew_words.specs.Given.{IsGiven};
ghost use Rattle.timew_words.specs.Parts.{words_of};

use crate::command::{Command, Showing};
use crate::error::BadWord;
use crate::range::Range;
use crate::stretch::range_in;
use crate::word::Word;
use tw_time::Zone;

/// A range, or else the day.
pub fn summary_in(words: &[Word], now: u64, zone: &Zone) -> Result<Command, BadWord>
    requires { now < limit }
    ensures value { result ≡ summary_in now zone.now (words_of words.now) }
    ensures given { IfOk result IsGiven }
{
    let range = range_in(Range::Day, words, now, zone)?;
    Ok(Command::Show(Showing::Summary(range)))
}
