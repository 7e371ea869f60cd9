// Words outside the grammar.
use std::alloc::{AllocError, AllocFailed};
use tw_world::Memory;

/// Why a word is outside the grammar.
#[derive(Clone, Copy, Debug, PartialEq, Eq, Drop)]
pub enum WordKind {
    /// Its value is outside the grammar, or an operator is where a part is needed.
    Value,
    /// Its value is no moment.
    Date,
    /// The attribute has no such modifier.
    Modifier,
    /// The attribute can't be filtered by or set so.
    Attribute,
    /// Brackets don't match, are empty, or are more than a hundred deep.
    Bracket,
    /// The words end where a part is missing.
    End,
    /// A word is missing after it.
    Missing,
    /// No word may be here.
    Extra,
    /// The command needs a filter.
    NoFilter,
    /// It names no task (where words are modifications; a filter may name none).
    Id,
}

/// A word that is outside the grammar, by its number, from 0, and why.
#[derive(Clone, Copy, Debug, PartialEq, Eq, Drop)]
pub struct BadWord {
    pub word: u64,
    pub kind: WordKind,
}

/// Why a word is refused, whichever number it has.
#[derive(Clone, Copy, Drop)]
pub enum KindError {
    /// It is outside the grammar.
    Bad(WordKind),
    /// There was no memory.
    Memory,
}

impl From<Memory> for KindError {
    ghost use Rattle.std.specs.Prelude.{◌≡◌};
    ghost use Rattle.tw_terms.specs.declared.bad_word.KindError.TheVariants.{Memory as NoMemory};

    ghost from_gives = { λ _ e. e ≡ NoMemory };

    fn from(_: Memory) -> KindError {
        KindError::Memory
    }
}

impl From<AllocError> for KindError {
    ghost use Rattle.std.specs.Prelude.{◌≡◌};
    ghost use Rattle.tw_terms.specs.declared.bad_word.KindError.TheVariants.{Memory as NoMemory};

    ghost from_gives = { λ _ e. e ≡ NoMemory };

    fn from(_: AllocError) -> KindError {
        KindError::Memory
    }
}

impl<T: Drop> From<AllocFailed<T>> for KindError {
    ghost use Rattle.std.specs.Prelude.{◌≡◌};
    ghost use Rattle.tw_terms.specs.declared.bad_word.KindError.TheVariants.{Memory as NoMemory};

    ghost from_gives = { λ _ e. e ≡ NoMemory };

    fn from(_: AllocFailed<T>) -> KindError {
        KindError::Memory
    }
}

impl From<WordKind> for KindError {
    ghost use Rattle.std.specs.Prelude.{◌≡◌};
    ghost use Rattle.tw_terms.specs.declared.bad_word.KindError.TheVariants.{Bad as OfKind};

    ghost from_gives = { λ kind e. e ≡ OfKind kind };

    fn from(kind: WordKind) -> KindError {
        KindError::Bad(kind)
    }
}
