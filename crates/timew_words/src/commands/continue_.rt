// The words of `continue`.
ghost use Rattle.std.specs.Prelude.{◌≡◌, IfOk};
ghost use Rattle.timew_words.specs.Commands.Continue.{continue_in};
ghost use Rattle.timew_words.specs.Given.{IsGiven};
ghost use Rattle.timew_words.specs.Parts.{words_of};

use crate::command::{Changing, Command, Continue};
use crate::error::BadWord;
use crate::parts::{ended, id_in};
use crate::word::Word;

/// An id, or none.
pub fn continue_in(adjust: bool, words: &[Word]) -> Result<Command, BadWord>
    ensures value { result ≡ continue_in adjust (words_of words.now) }
    ensures given { IfOk result IsGiven }
{
    let [first, rest @ ..] = words else {
        return Ok(Command::Change(Changing::Continue(Continue { id: None, adjust })));
    };
    let id = id_in(first)?;
    ended(
        Command::Change(Changing::Continue(Continue {
            id: Some(id),
            adjust,
        })),
        rest,
    )
}
