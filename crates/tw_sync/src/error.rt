// Why a sync is refused.
ghost use Rattle.std.specs.Prelude.{◌≡◌};
ghost use Rattle.tw_sync.specs.declared.error.SyncError.TheVariants.{Memory as NoMemory};
ghost use Rattle.tw_sync.specs.declared.error.AskError.TheVariants.{Memory as NoMemoryToAsk};
ghost use Rattle.tw_sync.specs.declared.error.TakeError.TheVariants.{Memory as NoMemoryToTake};
ghost use Rattle.tw_sync.specs.Ends.Causes.{of_link, of_ask, of_take, of_send, of_record};

use std::alloc::AllocError;
use tw_http::LinkError;
use tw_journal::AppendError;
use tw_replica::RecordError;
use tw_world::Memory;
use uuid::Uuid;

/// What is wrong with a reply of the server (TaskChampion book, "HTTP Representation").
#[derive(Clone, Copy, PartialEq, Eq, Drop)]
pub enum ReplyKind {
    /// The reply ends inside its head or its body.
    Cut,
    /// The head is none of HTTP/1.0 or 1.1, or has more than 64 header lines.
    Head,
    /// An id that the reply needs is missing, is there twice or is no hyphenated uuid.
    Header,
    /// The length of the body is not given as 1 to 19 digits, or not alone.
    Length,
    /// The head has more than 16,384 bytes, or the body more than 16,777,216.
    TooLong,
    /// The version is the child of another version than was asked for.
    Parent,
    /// The id of the version is nil, which names no version.
    Nil,
    /// A sync can't go on from this status.
    Status { code: u16 },
}

/// Why a sync was refused. After `Journal` and `Memory` the replica is as it was, but closed if its disk failed. After each other cause it
/// is where the sync was stopped: it keeps what was read and sent, and what is left stays pending.
///
/// After `Link`, `Memory` and `Journal` the server may have added one version more; the next sync pulls it.
#[derive(Clone, Copy, PartialEq, Eq, Drop)]
pub enum SyncError {
    /// The record of the sync was not written.
    Journal(AppendError),
    /// The way to the server failed.
    Link,
    /// A sync can't go on from a reply.
    Reply { kind: ReplyKind },
    /// The server does not know the replica's base.
    Gone { base: Uuid },
    /// Others added versions each time before the replica could, sixteen times. The server's latest was `parent`.
    Busy { parent: Uuid },
    /// The server refused a version since its latest was `parent`, and then knew none after `base`.
    OutOfSync { base: Uuid, parent: Uuid },
    /// The segment of a version can't be read.
    Segment { version: Uuid },
    /// The segment to send has that many bytes, which is more than 16,777,216.
    SegmentTooLong { bytes: u64 },
    /// The segments that were pulled have that many bytes, which is more than 268,435,456.
    PullTooLong { bytes: u64 },
    /// There was no memory.
    Memory,
}

/// Why a question has no answer.
#[derive(Clone, Copy, Drop)]
pub enum AskError {
    /// The way to the server failed.
    Link,
    /// A sync can't go on from the reply.
    Reply { kind: ReplyKind },
    /// There was no memory.
    Memory,
}

/// Why a version is not taken.
#[derive(Clone, Copy, Drop)]
pub enum TakeError {
    /// Its segment can't be read.
    Segment { version: Uuid },
    /// With its segment those that were pulled have that many bytes, which is more than 268,435,456.
    TooLong { bytes: u64 },
    /// There was no memory.
    Memory,
}

/// Why what is left is not sent.
#[derive(Clone, Copy, Drop)]
pub enum SendError {
    /// Its segment has that many bytes, which is more than 16,777,216.
    TooLong { bytes: u64 },
    /// There was no memory.
    Memory,
}

impl From<LinkError> for AskError {
    ghost from_gives = { λ error e. e ≡ of_link error };

    fn from(error: LinkError) -> AskError {
        match error {
            LinkError::Failed => AskError::Link,
            LinkError::Memory => AskError::Memory,
        }
    }
}

impl From<Memory> for AskError {
    ghost from_gives = { λ _ e. e ≡ NoMemoryToAsk };

    fn from(_: Memory) -> AskError {
        AskError::Memory
    }
}

impl From<Memory> for TakeError {
    ghost from_gives = { λ _ e. e ≡ NoMemoryToTake };

    fn from(_: Memory) -> TakeError {
        TakeError::Memory
    }
}

impl From<AllocError> for TakeError {
    ghost from_gives = { λ _ e. e ≡ NoMemoryToTake };

    fn from(_: AllocError) -> TakeError {
        TakeError::Memory
    }
}

impl From<Memory> for SyncError {
    ghost from_gives = { λ _ e. e ≡ NoMemory };

    fn from(_: Memory) -> SyncError {
        SyncError::Memory
    }
}

impl From<AllocError> for SyncError {
    ghost from_gives = { λ _ e. e ≡ NoMemory };

    fn from(_: AllocError) -> SyncError {
        SyncError::Memory
    }
}

impl From<AskError> for SyncError {
    ghost from_gives = { λ error e. e ≡ of_ask error };

    fn from(error: AskError) -> SyncError {
        match error {
            AskError::Link => SyncError::Link,
            AskError::Reply { kind } => SyncError::Reply { kind },
            AskError::Memory => SyncError::Memory,
        }
    }
}

impl From<TakeError> for SyncError {
    ghost from_gives = { λ error e. e ≡ of_take error };

    fn from(error: TakeError) -> SyncError {
        match error {
            TakeError::Segment { version } => SyncError::Segment { version },
            TakeError::TooLong { bytes } => SyncError::PullTooLong { bytes },
            TakeError::Memory => SyncError::Memory,
        }
    }
}

impl From<SendError> for SyncError {
    ghost from_gives = { λ error e. e ≡ of_send error };

    fn from(error: SendError) -> SyncError {
        match error {
            SendError::TooLong { bytes } => SyncError::SegmentTooLong { bytes },
            SendError::Memory => SyncError::Memory,
        }
    }
}

impl From<RecordError> for SyncError {
    ghost from_gives = { λ error e. e ≡ of_record error };

    fn from(error: RecordError) -> SyncError {
        match error {
            RecordError::Journal(error) => SyncError::Journal(error),
            RecordError::Memory => SyncError::Memory,
        }
    }
}
