// Why the calls of a replica are refused.
ghost use Rattle.std.specs.Prelude.{◌≡◌, Some};
ghost use Rattle.tw_replica.specs.Errors.{IsReadCause, of_open};

use std::alloc::AllocError;
use tw_journal::{AppendError, JournalError, ReadError};
use tw_world::Memory;

/// Why no replica is opened.
#[derive(Clone, Copy, Debug, PartialEq, Eq, Drop)]
pub enum OpenError {
    /// The disk failed.
    Disk,
    /// The bytes at this offset are no record of a replica, or one whose step leads nowhere. The records are as they were.
    Damaged { offset: u64 },
    /// There was no memory left. The records are as they were.
    Memory,
    /// The file is a row of the first version, and the one record in its place would have so many bytes, more than 2^30. The records
    /// are as they were.
    TooLong { bytes: u64 },
}

/// Why a commit, or the end of a sync in place, is refused.
#[derive(Clone, Copy, Debug, PartialEq, Eq, Drop)]
pub enum CommitError {
    /// The journal refused: a fault of the disk, which closes the replica, or a record above its limit.
    Journal(AppendError),
    /// The operation with this number, counted from 0, does not fit what those before it leave. Nothing has changed.
    Invalid { index: u64 },
    /// There was no memory left. Nothing has changed.
    Memory,
}

/// Why an undo is refused.
#[derive(Clone, Copy, Debug, PartialEq, Eq, Drop)]
pub enum UndoError {
    /// The journal refused: a fault of the disk, which closes the replica.
    Journal(AppendError),
    /// There is no undo point among the pending operations. Nothing has changed.
    NothingToUndo,
    /// There was no memory left. Nothing has changed.
    Memory,
}

/// Why a sync is not finished, and why a record is not written or not taken.
#[derive(Clone, Copy, Debug, PartialEq, Eq, Drop)]
pub enum RecordError {
    /// The journal refused it.
    Journal(AppendError),
    /// There was no memory left. Nothing has changed.
    Memory,
}

/// Why the last group is not taken back in memory. The file is as it was.
#[derive(Clone, Copy, Debug, PartialEq, Eq, Drop)]
pub enum TakeBackError {
    /// There is no undo point among the pending operations.
    NothingToUndo,
    /// There was no memory left.
    Memory,
}

/// Why a prepared step is not written.
#[derive(Clone, Copy, Debug, PartialEq, Eq, Drop)]
pub enum WriteError {
    /// The disk failed, and the record may be there or not.
    Disk,
    /// A fault of the disk had closed the replica before.
    Closed,
    /// The record would have so many bytes, more than 2^30. Nothing is written.
    TooLong { bytes: u64 },
}

/// Why one of several calls of a replica is refused.
#[derive(Clone, Copy, Debug, PartialEq, Eq, Drop)]
pub enum ReplicaError {
    /// The journal refused: a fault of the disk, which closes the replica, a record above its limit, or a file that is damaged at an offset.
    Journal(JournalError),
    /// The operation with this number, counted from 0, does not fit what those before it leave. Nothing has changed.
    Invalid { index: u64 },
    /// There is no undo point among the pending operations. Nothing has changed.
    NothingToUndo,
    /// There was no memory left. Nothing has changed.
    Memory,
}

/// The same cause, of a record of an open journal that is not read.
pub(crate) fn read_error(error: ReadError) -> OpenError
    requires { IsReadCause error }
    ensures { of_open result ≡ Some error }
{
    match error {
        ReadError::Disk => OpenError::Disk,
        ReadError::Damaged { offset } => OpenError::Damaged { offset },
        ReadError::Memory => OpenError::Memory,
        ReadError::Closed => unreachable!(),
    }
}

impl From<tw_journal::OpenError> for OpenError {
    ghost use Rattle.std.specs.Prelude.{◌≡◌};
    ghost use Rattle.tw_replica.specs.Errors.{journal_in_open};

    ghost from_gives = { λ error e. e ≡ journal_in_open error };

    fn from(error: tw_journal::OpenError) -> OpenError {
        match error {
            tw_journal::OpenError::Disk => OpenError::Disk,
            tw_journal::OpenError::Damaged { offset } => OpenError::Damaged { offset },
            tw_journal::OpenError::Memory => OpenError::Memory,
        }
    }
}

impl From<AppendError> for WriteError {
    ghost use Rattle.std.specs.Prelude.{◌≡◌};
    ghost use Rattle.tw_replica.specs.Errors.{append_in_write};

    ghost from_gives = { λ error e. e ≡ append_in_write error };

    fn from(error: AppendError) -> WriteError {
        match error {
            AppendError::Disk => WriteError::Disk,
            AppendError::Closed => WriteError::Closed,
            AppendError::TooLong { bytes } => WriteError::TooLong { bytes },
        }
    }
}

impl From<Memory> for OpenError {
    ghost use Rattle.std.specs.Prelude.{◌≡◌};
    ghost use Rattle.tw_replica.specs.declared.error.OpenError.TheVariants.{Memory as NoMemory};

    ghost from_gives = { λ _ e. e ≡ NoMemory };

    fn from(_: Memory) -> OpenError {
        OpenError::Memory
    }
}

impl From<Memory> for CommitError {
    ghost use Rattle.std.specs.Prelude.{◌≡◌};
    ghost use Rattle.tw_replica.specs.declared.error.CommitError.TheVariants.{Memory as NoMemory};

    ghost from_gives = { λ _ e. e ≡ NoMemory };

    fn from(_: Memory) -> CommitError {
        CommitError::Memory
    }
}

impl From<Memory> for UndoError {
    ghost use Rattle.std.specs.Prelude.{◌≡◌};
    ghost use Rattle.tw_replica.specs.declared.error.UndoError.TheVariants.{Memory as NoMemory};

    ghost from_gives = { λ _ e. e ≡ NoMemory };

    fn from(_: Memory) -> UndoError {
        UndoError::Memory
    }
}

impl From<Memory> for RecordError {
    ghost use Rattle.std.specs.Prelude.{◌≡◌};
    ghost use Rattle.tw_replica.specs.declared.error.RecordError.TheVariants.{Memory as NoMemory};

    ghost from_gives = { λ _ e. e ≡ NoMemory };

    fn from(_: Memory) -> RecordError {
        RecordError::Memory
    }
}

impl From<Memory> for TakeBackError {
    ghost use Rattle.std.specs.Prelude.{◌≡◌};
    ghost use Rattle.tw_replica.specs.declared.error.TakeBackError.TheVariants.{Memory as NoMemory};

    ghost from_gives = { λ _ e. e ≡ NoMemory };

    fn from(_: Memory) -> TakeBackError {
        TakeBackError::Memory
    }
}

impl From<Memory> for ReplicaError {
    ghost use Rattle.std.specs.Prelude.{◌≡◌};
    ghost use Rattle.tw_replica.specs.declared.error.ReplicaError.TheVariants.{Memory as NoMemory};

    ghost from_gives = { λ _ e. e ≡ NoMemory };

    fn from(_: Memory) -> ReplicaError {
        ReplicaError::Memory
    }
}

impl From<RecordError> for CommitError {
    ghost use Rattle.std.specs.Prelude.{◌≡◌};
    ghost use Rattle.tw_replica.specs.Errors.{record_in_commit};

    ghost from_gives = { λ error e. e ≡ record_in_commit error };

    fn from(error: RecordError) -> CommitError {
        match error {
            RecordError::Journal(error) => CommitError::Journal(error),
            RecordError::Memory => CommitError::Memory,
        }
    }
}

impl From<RecordError> for UndoError {
    ghost use Rattle.std.specs.Prelude.{◌≡◌};
    ghost use Rattle.tw_replica.specs.Errors.{record_in_undo};

    ghost from_gives = { λ error e. e ≡ record_in_undo error };

    fn from(error: RecordError) -> UndoError {
        match error {
            RecordError::Journal(error) => UndoError::Journal(error),
            RecordError::Memory => UndoError::Memory,
        }
    }
}

impl From<AllocError> for ReplicaError {
    ghost use Rattle.std.specs.Prelude.{◌≡◌};
    ghost use Rattle.tw_replica.specs.declared.error.ReplicaError.TheVariants.{Memory as NoMemory};

    ghost from_gives = { λ _ e. e ≡ NoMemory };

    fn from(_: AllocError) -> ReplicaError {
        ReplicaError::Memory
    }
}

impl From<CommitError> for ReplicaError {
    ghost use Rattle.std.specs.Prelude.{◌≡◌};
    ghost use Rattle.tw_replica.specs.Errors.{commit_in_all};

    ghost from_gives = { λ error e. e ≡ commit_in_all error };

    fn from(error: CommitError) -> ReplicaError {
        match error {
            CommitError::Journal(error) => ReplicaError::Journal(JournalError::from(error)),
            CommitError::Invalid { index } => ReplicaError::Invalid { index },
            CommitError::Memory => ReplicaError::Memory,
        }
    }
}

impl From<UndoError> for ReplicaError {
    ghost use Rattle.std.specs.Prelude.{◌≡◌};
    ghost use Rattle.tw_replica.specs.Errors.{undo_in_all};

    ghost from_gives = { λ error e. e ≡ undo_in_all error };

    fn from(error: UndoError) -> ReplicaError {
        match error {
            UndoError::Journal(error) => ReplicaError::Journal(JournalError::from(error)),
            UndoError::NothingToUndo => ReplicaError::NothingToUndo,
            UndoError::Memory => ReplicaError::Memory,
        }
    }
}

impl From<OpenError> for ReplicaError {
    ghost use Rattle.std.specs.Prelude.{◌≡◌};
    ghost use Rattle.tw_replica.specs.Errors.{open_in_all};

    ghost from_gives = { λ error e. e ≡ open_in_all error };

    fn from(error: OpenError) -> ReplicaError {
        match error {
            OpenError::Disk => ReplicaError::Journal(JournalError::Disk),
            OpenError::Damaged { offset } => {
                ReplicaError::Journal(JournalError::Damaged { offset })
            }
            OpenError::Memory => ReplicaError::Memory,
            OpenError::TooLong { bytes } => ReplicaError::Journal(JournalError::TooLong { bytes }),
        }
    }
}

impl From<WriteError> for ReplicaError {
    ghost use Rattle.std.specs.Prelude.{◌≡◌};
    ghost use Rattle.tw_replica.specs.Errors.{write_in_all};

    ghost from_gives = { λ error e. e ≡ write_in_all error };

    fn from(error: WriteError) -> ReplicaError {
        match error {
            WriteError::Disk => ReplicaError::Journal(JournalError::Disk),
            WriteError::Closed => ReplicaError::Journal(JournalError::Closed),
            WriteError::TooLong { bytes } => {
                ReplicaError::Journal(JournalError::TooLong { bytes })
            }
        }
    }
}
