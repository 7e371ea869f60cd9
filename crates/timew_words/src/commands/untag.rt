// The words of `untag`.
ghost use Rattle.std.specs.Prelude.{IfOk};
ghost use Rattle.timew_words.specs.Commands.Untag.{untag_in};
ghost use Rattle.timew_words.specs.Given.{IsGiven};
ghost use Rattle.timew_words.specs.Parts.{words_of};
ghost use Rattle.timew_words.specs.Reading.{Gives};

use crate::command::{Changing, Command};
use crate::error::WordsError;
use crate::stretch::tagging_in;
use crate::word::Word;
use std::alloc::Global;

/// Ids, or none, and one tag or more.
pub fn untag_in(alloc: Global, words: &[Word]) -> Result<Command, WordsError>
    ensures value { Gives (λ command. command) result (untag_in (words_of words.now)) }
    ensures given { IfOk result IsGiven }
{
    let parts = tagging_in(alloc, words)?;
    Ok(Command::Change(Changing::Untag(parts)))
}
