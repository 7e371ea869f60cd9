// The words of `annotate`.
ghost use Rattle.std.specs.Prelude.{IfOk};
ghost use Rattle.timew_words.specs.Commands.Annotate.{annotation_of, annotate_in};
ghost use Rattle.timew_words.specs.Given.{IsGiven};
ghost use Rattle.timew_words.specs.Parts.{words_of};
ghost use Rattle.timew_words.specs.Reading.{Gives};

use crate::command::{Annotate, Changing, Command};
use crate::error::WordsError;
use crate::parts::{MISSING, id_of, spaced};
use crate::word::Word;
use std::alloc::Global;

fn annotation_of(alloc: Global, id: Option<u64>, words: &[Word]) -> Result<Command, WordsError>
    ensures value { Gives (λ command. command) result (annotation_of id (words_of words.now)) }
    ensures given { IfOk result IsGiven }
{
    let [first, rest @ ..] = words else {
        return Err(WordsError::Bad(MISSING));
    };
    let text = spaced(alloc, first, rest)?;
    Ok(Command::Change(Changing::Annotate(Annotate { id, text })))
}

/// An id, or none, and one word or more.
pub fn annotate_in(alloc: Global, words: &[Word]) -> Result<Command, WordsError>
    ensures value { Gives (λ command. command) result (annotate_in (words_of words.now)) }
    ensures given { IfOk result IsGiven }
{
    let [first, rest @ ..] = words else {
        return Err(WordsError::Bad(MISSING));
    };
    match id_of(first.text) {
        Some(id) => annotation_of(alloc, Some(id), rest),
        None => annotation_of(alloc, None, words),
    }
}
