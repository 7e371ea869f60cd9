// Why a server refuses.
ghost use Rattle.std.specs.Prelude.{◌≡◌};
ghost use Rattle.tw_server.specs.Faults.{open_in_opening, read_in_opening, read_in_answer, append_in_answer};

use std::alloc::AllocError;
use tw_journal::{AppendError, OpenError, ReadError};
use tw_world::Memory;

/// Why a server is not opened.
#[derive(Clone, Copy, Debug, PartialEq, Eq, Drop)]
pub enum ServerOpenError {
    /// The disk failed.
    Disk,
    /// The bytes at this offset of the file are no record, or a record that may not follow those before it. At 0 the file
    /// has another form.
    Damaged { offset: u64 },
    /// There was no memory.
    Memory,
}

/// Why a request is not answered.
#[derive(Clone, Copy, Debug, PartialEq, Eq, Drop)]
pub enum AnswerError {
    /// The disk failed. After an append the server is closed.
    Disk,
    /// The disk failed in an append before: the server is to be opened again.
    Closed,
    /// The bytes at this offset of the file are no record, or another one than the server knows there.
    Damaged { offset: u64 },
    /// The record would have so many bytes, more than 2^30. Nothing is written.
    TooLong { bytes: u64 },
    /// There was no memory. Nothing is added.
    Memory,
}

impl From<OpenError> for ServerOpenError {
    ghost from_gives = { λ error e. e ≡ open_in_opening error };

    fn from(error: OpenError) -> ServerOpenError {
        match error {
            OpenError::Disk => ServerOpenError::Disk,
            OpenError::Damaged { offset } => ServerOpenError::Damaged { offset },
            OpenError::Memory => ServerOpenError::Memory,
        }
    }
}

impl From<ReadError> for ServerOpenError {
    ghost from_gives = { λ error e. e ≡ read_in_opening error };

    fn from(error: ReadError) -> ServerOpenError {
        match error {
            ReadError::Disk | ReadError::Closed => ServerOpenError::Disk,
            ReadError::Damaged { offset } => ServerOpenError::Damaged { offset },
            ReadError::Memory => ServerOpenError::Memory,
        }
    }
}

impl From<AllocError> for ServerOpenError {
    ghost use Rattle.tw_server.specs.declared.error.ServerOpenError.TheVariants.{Memory as no_memory};

    ghost from_gives = { λ _ e. e ≡ no_memory };

    fn from(_: AllocError) -> ServerOpenError {
        ServerOpenError::Memory
    }
}

impl From<Memory> for ServerOpenError {
    ghost use Rattle.tw_server.specs.declared.error.ServerOpenError.TheVariants.{Memory as no_memory};

    ghost from_gives = { λ _ e. e ≡ no_memory };

    fn from(_: Memory) -> ServerOpenError {
        ServerOpenError::Memory
    }
}

impl From<ReadError> for AnswerError {
    ghost from_gives = { λ error e. e ≡ read_in_answer error };

    fn from(error: ReadError) -> AnswerError {
        match error {
            ReadError::Disk => AnswerError::Disk,
            ReadError::Closed => AnswerError::Closed,
            ReadError::Damaged { offset } => AnswerError::Damaged { offset },
            ReadError::Memory => AnswerError::Memory,
        }
    }
}

impl From<AppendError> for AnswerError {
    ghost from_gives = { λ error e. e ≡ append_in_answer error };

    fn from(error: AppendError) -> AnswerError {
        match error {
            AppendError::Disk => AnswerError::Disk,
            AppendError::Closed => AnswerError::Closed,
            AppendError::TooLong { bytes } => AnswerError::TooLong { bytes },
        }
    }
}

impl From<AllocError> for AnswerError {
    ghost use Rattle.tw_server.specs.declared.error.AnswerError.TheVariants.{Memory as no_memory};

    ghost from_gives = { λ _ e. e ≡ no_memory };

    fn from(_: AllocError) -> AnswerError {
        AnswerError::Memory
    }
}

impl From<Memory> for AnswerError {
    ghost use Rattle.tw_server.specs.declared.error.AnswerError.TheVariants.{Memory as no_memory};

    ghost from_gives = { λ _ e. e ≡ no_memory };

    fn from(_: Memory) -> AnswerError {
        AnswerError::Memory
    }
}
