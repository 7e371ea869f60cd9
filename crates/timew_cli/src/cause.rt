// How a command ends.
ghost use Rattle.std.specs.Prelude.{◌≡◌};
ghost use Rattle.timew_cli.specs.Fault.{status_of};
ghost use Rattle.timew_cli.specs.Cause.{words_cause, journal_cause, load_cause, change_cause, undo_cause, plan_cause, carry_cause};

use crate::carry::CarryError;
use timew_cmd::TimewError;
use timew_store::{LoadError, StoreError, UndoError};
use timew_words::{BadWord, WordKind, WordsError};
use tw_journal::JournalError;
use tw_world::Text;

/// How a command of `timew` ended.
pub enum Cause {
    /// It was carried out and printed.
    Done,
    /// No interval is open, and there were no words.
    NotTracking,
    /// Every change is undone. Nothing was written.
    NothingToUndo,
    /// This month file no longer has the bytes that the last change left. Nothing was written.
    Edited { file: Text },
    /// The word with this number, from 0, is the first that fits no part of the command. Nothing was done.
    BadWords { word: u64, kind: WordKind },
    /// There are fewer intervals. Nothing was written.
    NoInterval { id: u64 },
    /// No interval is open. Nothing was written.
    NoOpen,
    /// The last interval is open. Nothing was written.
    AlreadyOpen { id: u64 },
    /// The moment or the length of this word leads out of range; the number is 0 if there is no word. Nothing was written.
    Range { word: u64 },
    /// The interval overlaps others, of which this one has the least id. Nothing was written.
    Overlap { id: u64 },
    /// The line with this number, from 1, of this month file is no interval, or overlaps one before it in order; after an
    /// undo it would be so. Nothing was written.
    BadLine { file: Text, line: u64 },
    /// The journal's disk failed. The record may be there or not.
    DiskFault,
    /// The record, with its gate and length, would have so many bytes, which are too many. Nothing was written.
    RecordTooLong { bytes: u64 },
    /// The journal is damaged at this offset. No record was written, and of the month files only the last change may be finished.
    Damaged { offset: u64 },
    /// The folder failed. If the record is written, the next command finishes the change.
    FolderFault,
    /// There was no memory. No record was written, and of the month files only the last change may be finished.
    Memory,
    /// The output failed. The record is written.
    OutFault,
}

// It is written out, so that a caller does not prove again how each part is dropped.
impl Drop for Cause {
    fn drop(self) {
        match self {
            Cause::Done => {}
            Cause::NotTracking => {}
            Cause::NothingToUndo => {}
            Cause::Edited { file: _file } => {}
            Cause::BadWords {
                word: _word,
                kind: _kind,
            } => {}
            Cause::NoInterval { id: _id } => {}
            Cause::NoOpen => {}
            Cause::AlreadyOpen { id: _id } => {}
            Cause::Range { word: _word } => {}
            Cause::Overlap { id: _id } => {}
            Cause::BadLine {
                file: _file,
                line: _line,
            } => {}
            Cause::DiskFault => {}
            Cause::RecordTooLong { bytes: _bytes } => {}
            Cause::Damaged { offset: _offset } => {}
            Cause::FolderFault => {}
            Cause::Memory => {}
            Cause::OutFault => {}
        }
    }
}

/// How a command ended, with the status of the program.
#[derive(Drop)]
pub struct Outcome {
    pub status: u8,
    pub cause: Cause,
}

impl From<WordsError> for Cause {
    ghost from_gives = { λ error cause. cause ≡ words_cause error };

    fn from(error: WordsError) -> Cause {
        match error {
            WordsError::Bad(BadWord { word, kind }) => Cause::BadWords { word, kind },
            WordsError::Memory => Cause::Memory,
        }
    }
}

impl From<JournalError> for Cause {
    ghost from_gives = { λ error cause. cause ≡ journal_cause error };

    fn from(error: JournalError) -> Cause {
        match error {
            JournalError::Disk | JournalError::Closed => Cause::DiskFault,
            JournalError::Damaged { offset } => Cause::Damaged { offset },
            JournalError::TooLong { bytes } => Cause::RecordTooLong { bytes },
            JournalError::Memory => Cause::Memory,
        }
    }
}

impl From<LoadError> for Cause {
    ghost from_gives = { λ error cause. cause ≡ load_cause error };

    fn from(error: LoadError) -> Cause {
        match error {
            LoadError::Folder => Cause::FolderFault,
            LoadError::Journal(error) => Cause::from(error),
            LoadError::BadLine { file, line } => Cause::BadLine { file, line },
            LoadError::Memory => Cause::Memory,
        }
    }
}

impl From<StoreError> for Cause {
    ghost from_gives = { λ error cause. cause ≡ change_cause error };

    fn from(error: StoreError) -> Cause {
        match error {
            StoreError::Folder => Cause::FolderFault,
            StoreError::Journal(error) => Cause::from(error),
            StoreError::Memory => Cause::Memory,
        }
    }
}

impl From<UndoError> for Cause {
    ghost from_gives = { λ error cause. cause ≡ undo_cause error };

    fn from(error: UndoError) -> Cause {
        match error {
            UndoError::Folder => Cause::FolderFault,
            UndoError::Journal(error) => Cause::from(error),
            UndoError::BadLine { file, line } => Cause::BadLine { file, line },
            UndoError::Edited { file } => Cause::Edited { file },
            UndoError::NothingToUndo => Cause::NothingToUndo,
            UndoError::Memory => Cause::Memory,
        }
    }
}

impl From<TimewError> for Cause {
    ghost from_gives = { λ error cause. cause ≡ plan_cause error };

    fn from(error: TimewError) -> Cause {
        match error {
            TimewError::Overlap { id } => Cause::Overlap { id },
            TimewError::NoOpen => Cause::NoOpen,
            TimewError::AlreadyOpen { id } => Cause::AlreadyOpen { id },
            TimewError::NoInterval { id } => Cause::NoInterval { id },
            TimewError::Range { word } => Cause::Range { word },
            TimewError::Memory => Cause::Memory,
        }
    }
}

impl From<CarryError> for Cause {
    ghost from_gives = { λ error cause. cause ≡ carry_cause error };

    fn from(error: CarryError) -> Cause {
        match error {
            CarryError::Load(error) => Cause::from(error),
            CarryError::Refused(error) => Cause::from(error),
            CarryError::Change(error) => Cause::from(error),
            CarryError::Undo(error) => Cause::from(error),
            CarryError::NotTracking => Cause::NotTracking,
            CarryError::Memory => Cause::Memory,
        }
    }
}

/// The status of a cause.
pub(crate) fn status_of(cause: &Cause) -> u8
    ensures { result ≡ status_of cause.now }
{
    match cause {
        Cause::Done => 0,
        Cause::NotTracking
        | Cause::NothingToUndo
        | Cause::Edited { .. }
        | Cause::NoInterval { .. }
        | Cause::NoOpen
        | Cause::AlreadyOpen { .. }
        | Cause::Overlap { .. } => 1,
        Cause::BadWords { .. } | Cause::Range { .. } => 2,
        Cause::DiskFault | Cause::RecordTooLong { .. } => 3,
        Cause::Memory => 4,
        Cause::OutFault => 6,
        Cause::BadLine { .. } | Cause::Damaged { .. } => 7,
        Cause::FolderFault => 8,
    }
}
