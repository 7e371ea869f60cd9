// Why an audit has no answer.
ghost use Rattle.std.specs.Prelude.{◌≡◌};
ghost use Rattle.tw_audit.specs.declared.error.AuditError.TheVariants.{Memory as NoMemory};
ghost use Rattle.tw_audit.specs.Refused.{of_ask, as_sync};

use tw_sync::{AskError, ReplyKind, SyncError};
use tw_world::Memory;
use uuid::Uuid;

/// Why an audit has no answer. Nothing was changed, neither here nor at the server.
#[derive(Clone, Copy, PartialEq, Eq, Drop)]
pub enum AuditError {
    /// The way to the server failed.
    Link,
    /// An audit can't go on from a reply.
    Reply { kind: ReplyKind },
    /// The server does not know this version: the replica's base, or one that the server itself told of.
    Gone { version: Uuid },
    /// The segment of a version can't be read.
    Segment { version: Uuid },
    /// There was no memory.
    Memory,
}

impl From<AskError> for AuditError {
    ghost from_gives = { λ error e. e ≡ of_ask error };

    fn from(error: AskError) -> AuditError {
        match error {
            AskError::Link => AuditError::Link,
            AskError::Reply { kind } => AuditError::Reply { kind },
            AskError::Memory => AuditError::Memory,
        }
    }
}

impl From<Memory> for AuditError {
    ghost from_gives = { λ _ e. e ≡ NoMemory };

    fn from(_: Memory) -> AuditError {
        AuditError::Memory
    }
}

impl From<AuditError> for SyncError {
    ghost from_gives = { λ error e. e ≡ as_sync error };

    /// The same cause as one of a sync, which has a text.
    fn from(error: AuditError) -> SyncError {
        match error {
            AuditError::Link => SyncError::Link,
            AuditError::Reply { kind } => SyncError::Reply { kind },
            AuditError::Gone { version } => SyncError::Gone { base: version },
            AuditError::Segment { version } => SyncError::Segment { version },
            AuditError::Memory => SyncError::Memory,
        }
    }
}
