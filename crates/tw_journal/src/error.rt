// Why the calls of a journal are refused.
ghost use Rattle.std.specs.Prelude.{◌≡◌};
ghost use Rattle.tw_journal.specs.Errors.{disk_in_open, disk_in_read, open_in_read, open_in_all, read_in_all, append_in_all};

use tw_world::DiskError;

/// Why a journal is not opened.
#[derive(Clone, Copy, Debug, PartialEq, Eq, Drop)]
pub enum OpenError {
    /// The disk failed.
    Disk,
    /// The bytes at this offset of the file are no record or, at 0, the file has no form of this magic. What is read of the disk is as it was.
    Damaged { offset: u64 },
    /// There was no memory. What is read of the disk is as it was.
    Memory,
}

/// Why a record is not read. The disk was only read.
#[derive(Clone, Copy, Debug, PartialEq, Eq, Drop)]
pub enum ReadError {
    /// The disk failed.
    Disk,
    /// The disk failed in a call before that wrote: the journal is to be opened again.
    Closed,
    /// The bytes at this offset of the file are no record, or one that does not have the part that was asked for.
    Damaged { offset: u64 },
    /// There was no memory.
    Memory,
}

/// Why a record is not written.
#[derive(Clone, Copy, Debug, PartialEq, Eq, Drop)]
pub enum AppendError {
    /// The disk failed, and the record may be there or not. The journal is closed.
    Disk,
    /// The disk failed in a call before that wrote: the journal is to be opened again. Nothing is written.
    Closed,
    /// The record would have so many bytes, more than 2^30. Nothing is written.
    TooLong { bytes: u64 },
}

/// Why one of several calls of a journal is refused.
#[derive(Clone, Copy, Debug, PartialEq, Eq, Drop)]
pub enum JournalError {
    /// The disk failed in this call. After a call that writes the journal is closed.
    Disk,
    /// The disk failed in a call before that wrote: the journal is to be opened again.
    Closed,
    /// The bytes at this offset of the file are no record, or the file has no form of this magic.
    Damaged { offset: u64 },
    /// The record would have so many bytes, more than 2^30. Nothing is written.
    TooLong { bytes: u64 },
    /// There was no memory. No record is written.
    Memory,
}

impl From<DiskError> for OpenError {
    ghost from_gives = { λ error e. e ≡ disk_in_open error };

    fn from(error: DiskError) -> OpenError {
        match error {
            DiskError::Failed => OpenError::Disk,
            DiskError::Memory => OpenError::Memory,
        }
    }
}

impl From<DiskError> for ReadError {
    ghost from_gives = { λ error e. e ≡ disk_in_read error };

    fn from(error: DiskError) -> ReadError {
        match error {
            DiskError::Failed => ReadError::Disk,
            DiskError::Memory => ReadError::Memory,
        }
    }
}

impl From<OpenError> for ReadError {
    ghost from_gives = { λ error e. e ≡ open_in_read error };

    fn from(error: OpenError) -> ReadError {
        match error {
            OpenError::Disk => ReadError::Disk,
            OpenError::Damaged { offset } => ReadError::Damaged { offset },
            OpenError::Memory => ReadError::Memory,
        }
    }
}

impl From<OpenError> for JournalError {
    ghost from_gives = { λ error e. e ≡ open_in_all error };

    fn from(error: OpenError) -> JournalError {
        match error {
            OpenError::Disk => JournalError::Disk,
            OpenError::Damaged { offset } => JournalError::Damaged { offset },
            OpenError::Memory => JournalError::Memory,
        }
    }
}

impl From<ReadError> for JournalError {
    ghost from_gives = { λ error e. e ≡ read_in_all error };

    fn from(error: ReadError) -> JournalError {
        match error {
            ReadError::Disk => JournalError::Disk,
            ReadError::Closed => JournalError::Closed,
            ReadError::Damaged { offset } => JournalError::Damaged { offset },
            ReadError::Memory => JournalError::Memory,
        }
    }
}

impl From<AppendError> for JournalError {
    ghost from_gives = { λ error e. e ≡ append_in_all error };

    fn from(error: AppendError) -> JournalError {
        match error {
            AppendError::Disk => JournalError::Disk,
            AppendError::Closed => JournalError::Closed,
            AppendError::TooLong { bytes } => JournalError::TooLong { bytes },
        }
    }
}
