// The words of `split`.
ghost use Rattle.std.specs.Prelude.{IfOk};
ghost use Rattle.timew_words.specs.Commands.Split.{split_in};
ghost use Rattle.timew_words.specs.Given.{IsGiven};
ghost use Rattle.timew_words.specs.Parts.{words_of};
ghost use Rattle.timew_words.specs.Reading.{Gives};

use crate::command::{Changing, Command};
use crate::error::WordsError;
use crate::parts::some_ids;
use crate::word::Word;
use std::alloc::Global;

/// One id or more.
pub fn split_in(alloc: Global, words: &[Word]) -> Result<Command, WordsError>
    ensures value { Gives (λ command. command) result (split_in (words_of words.now)) }
    ensures given { IfOk result IsGiven }
{
    let ids = some_ids(alloc, words)?;
    Ok(Command::Change(Changing::Split(ids)))
}
