// Why words and settings give nothing.
use std::alloc::{AllocError, AllocFailed};
use tw_terms::BadWord;
use tw_world::Memory;

/// Why words and settings give nothing.
#[derive(Clone, Copy, Drop)]
pub enum WordError {
    /// This word is the first that is outside the grammar.
    Bad(BadWord),
    /// This line, counted from 1, is the first that is no setting. An override has line 0.
    Setting { line: u64 },
    /// There was no memory.
    Memory,
}

impl From<Memory> for WordError {
    ghost use Rattle.std.specs.Prelude.{◌≡◌};
    ghost use Rattle.tw_settings.specs.declared.word_error.WordError.TheVariants.{Memory as NoMemory};

    ghost from_gives = { λ _ e. e ≡ NoMemory };

    fn from(_: Memory) -> WordError {
        WordError::Memory
    }
}

impl From<AllocError> for WordError {
    ghost use Rattle.std.specs.Prelude.{◌≡◌};
    ghost use Rattle.tw_settings.specs.declared.word_error.WordError.TheVariants.{Memory as NoMemory};

    ghost from_gives = { λ _ e. e ≡ NoMemory };

    fn from(_: AllocError) -> WordError {
        WordError::Memory
    }
}

impl<T: Drop> From<AllocFailed<T>> for WordError {
    ghost use Rattle.std.specs.Prelude.{◌≡◌};
    ghost use Rattle.tw_settings.specs.declared.word_error.WordError.TheVariants.{Memory as NoMemory};

    ghost from_gives = { λ _ e. e ≡ NoMemory };

    fn from(_: AllocFailed<T>) -> WordError {
        WordError::Memory
    }
}
