// Why calls of a store are refused.

use std::alloc::AllocFailed;
use timew_month::RowsError;
use tw_journal::{JournalError, OpenError, ReadError};
use tw_world::{FolderError, Memory, Text};

/// Why a folder and a journal are not used together.
#[derive(Clone, Copy, Drop)]
pub enum StoreError {
    /// The folder failed.
    Folder,
    /// The journal refused: a fault of its disk, a record above its limit, or a file that is damaged at an offset.
    Journal(JournalError),
    /// There was no memory.
    Memory,
}

impl From<Memory> for StoreError {
    ghost use Rattle.std.specs.Prelude.{◌≡◌};
    ghost use Rattle.timew_store.specs.declared.error.StoreError.TheVariants.{Memory as NoMemory};

    ghost from_gives = { λ _ e. e ≡ NoMemory };

    fn from(_: Memory) -> StoreError {
        StoreError::Memory
    }
}

impl From<OpenError> for StoreError {
    ghost use Rattle.std.specs.Prelude.{◌≡◌};
    ghost use Rattle.tw_journal.specs.Errors.{open_in_all};
    ghost use Rattle.timew_store.specs.declared.error.StoreError.TheVariants.{Journal as OfJournal};

    ghost from_gives = { λ error e. e ≡ OfJournal (open_in_all error) };

    fn from(error: OpenError) -> StoreError {
        StoreError::Journal(JournalError::from(error))
    }
}

impl From<ReadError> for StoreError {
    ghost use Rattle.std.specs.Prelude.{◌≡◌};
    ghost use Rattle.tw_journal.specs.Errors.{read_in_all};
    ghost use Rattle.timew_store.specs.declared.error.StoreError.TheVariants.{Journal as OfJournal};

    ghost from_gives = { λ error e. e ≡ OfJournal (read_in_all error) };

    fn from(error: ReadError) -> StoreError {
        StoreError::Journal(JournalError::from(error))
    }
}

impl From<FolderError> for StoreError {
    ghost use Rattle.std.specs.Prelude.{◌≡◌};
    ghost use Rattle.timew_store.specs.Writing.{error_of};

    ghost from_gives = { λ error e. e ≡ error_of error };

    fn from(error: FolderError) -> StoreError {
        match error {
            FolderError::Failed => StoreError::Folder,
            FolderError::Memory => StoreError::Memory,
        }
    }
}

impl<T: Drop> From<AllocFailed<T>> for StoreError {
    ghost use Rattle.std.specs.Prelude.{◌≡◌};
    ghost use Rattle.timew_store.specs.declared.error.StoreError.TheVariants.{Memory as NoMemory};

    ghost from_gives = { λ _ e. e ≡ NoMemory };

    fn from(_: AllocFailed<T>) -> StoreError {
        StoreError::Memory
    }
}

/// Why a change is not prepared. Nothing was written.
#[derive(Clone, Copy, Drop)]
pub enum PrepareError {
    /// The store is closed: it is to be loaded again.
    Closed,
    /// The record would have so many bytes, more than 2^30.
    TooLong { bytes: u64 },
    /// There was no memory.
    Memory,
}

/// Why a change that was prepared is not written. The store is to be loaded again.
#[derive(Clone, Copy, Drop)]
pub enum WriteError {
    /// The folder failed. The record is written, and the next load finishes the change.
    Folder,
    /// The disk of the journal failed, and the record may be there or not. The folder was not used.
    Disk,
}

/// Why a store is not loaded.
#[derive(Drop)]
pub enum LoadError {
    /// The folder failed.
    Folder,
    /// The journal refused: a fault of its disk, or a file that is damaged at an offset.
    Journal(JournalError),
    /// The line with this number, from 1, of this month file is no interval, or overlaps one before it in order.
    BadLine { file: Text, line: u64 },
    /// There was no memory.
    Memory,
}

impl From<StoreError> for LoadError {
    ghost use Rattle.std.specs.Prelude.{◌≡◌};
    ghost use Rattle.timew_store.specs.Store.{not_loaded};

    ghost from_gives = { λ error e. e ≡ not_loaded error };

    fn from(error: StoreError) -> LoadError {
        match error {
            StoreError::Folder => LoadError::Folder,
            StoreError::Journal(error) => LoadError::Journal(error),
            StoreError::Memory => LoadError::Memory,
        }
    }
}

impl From<RowsError> for LoadError {
    ghost use Rattle.std.specs.Prelude.{◌≡◌};
    ghost use Rattle.timew_store.specs.Store.{not_read};

    ghost from_gives = { λ error e. e ≡ not_read error };

    fn from(error: RowsError) -> LoadError {
        match error {
            RowsError::BadLine { file, line } => LoadError::BadLine { file, line },
            RowsError::Memory => LoadError::Memory,
        }
    }
}

/// Why a change is not taken back.
#[derive(Drop)]
pub enum UndoError {
    /// The folder failed. The record is written, and the next load finishes the undo.
    Folder,
    /// The journal refused, and the folder was not used.
    Journal(JournalError),
    /// Without the change this line of this month file would be no interval, or overlap one before it in order.
    BadLine { file: Text, line: u64 },
    /// This file no longer has the bytes that the change left.
    Edited { file: Text },
    /// Every change is undone.
    NothingToUndo,
    /// There was no memory.
    Memory,
}

impl From<StoreError> for UndoError {
    ghost use Rattle.std.specs.Prelude.{◌≡◌};
    ghost use Rattle.timew_store.specs.StoreUndo.{not_written};

    ghost from_gives = { λ error e. e ≡ not_written error };

    fn from(error: StoreError) -> UndoError {
        match error {
            StoreError::Folder => UndoError::Folder,
            StoreError::Journal(error) => UndoError::Journal(error),
            StoreError::Memory => UndoError::Memory,
        }
    }
}

impl From<RowsError> for UndoError {
    ghost use Rattle.std.specs.Prelude.{◌≡◌};
    ghost use Rattle.timew_store.specs.StoreUndo.{not_read_back};

    ghost from_gives = { λ error e. e ≡ not_read_back error };

    fn from(error: RowsError) -> UndoError {
        match error {
            RowsError::BadLine { file, line } => UndoError::BadLine { file, line },
            RowsError::Memory => UndoError::Memory,
        }
    }
}

impl From<ReadError> for UndoError {
    ghost use Rattle.std.specs.Prelude.{◌≡◌};
    ghost use Rattle.tw_journal.specs.Errors.{read_in_all};
    ghost use Rattle.timew_store.specs.declared.error.UndoError.TheVariants.{Journal as OfJournal};

    ghost from_gives = { λ error e. e ≡ OfJournal (read_in_all error) };

    fn from(error: ReadError) -> UndoError {
        UndoError::Journal(JournalError::from(error))
    }
}

impl From<Memory> for UndoError {
    ghost use Rattle.std.specs.Prelude.{◌≡◌};
    ghost use Rattle.timew_store.specs.declared.error.UndoError.TheVariants.{Memory as NoMemory};

    ghost from_gives = { λ _ e. e ≡ NoMemory };

    fn from(_: Memory) -> UndoError {
        UndoError::Memory
    }
}
