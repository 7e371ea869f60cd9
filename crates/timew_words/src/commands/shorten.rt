// The words of `shorten`.
ghost use Rattle.std.specs.Prelude.{◌≡◌, ◌<◌, IfOk};
ghost use Rattle.timew_words.specs.Commands.Shorten.{shorten_in};
ghost use Rattle.timew_words.specs.Given.{IsGiven};
ghost use Rattle.timew_words.specs.Parts.{words_of};

use crate::command::{Changing, Command};
use crate::error::BadWord;
use crate::stretch::resize_in;
use crate::word::Word;

/// An id and a length.
pub fn shorten_in(adjust: bool, words: &[Word]) -> Result<Command, BadWord>
    ensures value { result ≡ shorten_in adjust (words_of words.now) }
    ensures given { IfOk result IsGiven }
{
    let parts = resize_in(adjust, words)?;
    Ok(Command::Change(Changing::Shorten(parts)))
}
