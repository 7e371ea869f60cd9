// Why a command is refused.
use std::alloc::{AllocError, AllocFailed};
use tw_world::Memory;

/// Which part of a command a word fails to be.
#[derive(Clone, Copy, PartialEq, Eq, Drop)]
pub enum WordKind {
    /// It has no meaning there.
    Value,
    /// It is no moment.
    Date,
    /// A part is missing.
    Missing,
    /// It fits no part.
    Extra,
}

/// A word that is wrong, by its number.
#[derive(Clone, Copy, PartialEq, Eq, Drop)]
pub struct BadWord {
    pub word: u64,
    pub kind: WordKind,
}

/// Why words give no command.
#[derive(Clone, Copy, PartialEq, Eq, Drop)]
pub enum WordsError {
    /// This word is the first that is wrong.
    Bad(BadWord),
    /// There was no memory.
    Memory,
}

impl From<BadWord> for WordsError {
    ghost use Rattle.std.specs.Prelude.{◌≡◌};
    ghost use Rattle.timew_words.specs.declared.error.WordsError.TheVariants.{Bad as OfWord};

    ghost from_gives = { λ bad e. e ≡ OfWord bad };

    fn from(bad: BadWord) -> WordsError {
        WordsError::Bad(bad)
    }
}

impl From<Memory> for WordsError {
    ghost use Rattle.std.specs.Prelude.{◌≡◌};
    ghost use Rattle.timew_words.specs.declared.error.WordsError.TheVariants.{Memory as NoMemory};

    ghost from_gives = { λ _ e. e ≡ NoMemory };

    fn from(_: Memory) -> WordsError {
        WordsError::Memory
    }
}

impl From<AllocError> for WordsError {
    ghost use Rattle.std.specs.Prelude.{◌≡◌};
    ghost use Rattle.timew_words.specs.declared.error.WordsError.TheVariants.{Memory as NoMemory};

    ghost from_gives = { λ _ e. e ≡ NoMemory };

    fn from(_: AllocError) -> WordsError {
        WordsError::Memory
    }
}

impl<T: Drop> From<AllocFailed<T>> for WordsError {
    ghost use Rattle.std.specs.Prelude.{◌≡◌};
    ghost use Rattle.timew_words.specs.declared.error.WordsError.TheVariants.{Memory as NoMemory};

    ghost from_gives = { λ _ e. e ≡ NoMemory };

    fn from(_: AllocFailed<T>) -> WordsError {
        WordsError::Memory
    }
}
