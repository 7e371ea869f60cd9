// The words of `export`.
ghost use Rattle.std.specs.Prelude.{◌≡◌, ◌<◌, IfOk};
ghost use Rattle.tw_time.specs.Civil.{limit};
ghost use Rattle.timew_words.specs.Commands.Export.{export_in};
ghost use Rattle.timew_words.specs.Given.{IsGiven};
ghost use Rattle.timew_words.specs.Parts.{words_of};

use crate::command::{Command, Showing};
use crate::error::BadWord;
use crate::range::Range;
use crate::stretch::range_in;
use crate::word::Word;
use tw_time::Zone;

/// A range, or else all intervals.
pub fn export_in(words: &[Word], now: u64, zone: &Zone) -> Result<Command, BadWord>
    requires { now < limit }
    ensures value { result ≡ export_in now zone.now (words_of words.now) }
    ensures given { IfOk result IsGiven }
{
    let range = range_in(Range::All, words, now, zone)?;
    Ok(Command::Show(Showing::Export(range)))
}
