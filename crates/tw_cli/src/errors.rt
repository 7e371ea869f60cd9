// How a command ends that met an error.
ghost use Rattle.std.specs.Prelude.{◌≡◌};
ghost use Rattle.tw_cli.specs.Cause.{line_cause, open_cause, input_cause, refusal_cause, hook_cause, carry_cause, journal_cause, sync_cause, failure_cause};
ghost use Rattle.tw_cli.specs.Cause.{track_cause, load_cause};

use crate::asked::LineError;
use crate::carry::CarryError;
use crate::cause::Cause;
use crate::input::InputError;
use crate::syncing::SyncFailure;
use timew_store::LoadError;
use tw_changes::Refusal;
use tw_hooks::HookError;
use tw_journal::{AppendError, JournalError};
use tw_replica::OpenError;
use tw_settings::WordError;
use tw_sync::SyncError;
use tw_terms::BadWord;

impl From<LineError> for Cause {
    ghost from_gives = { λ error cause. cause ≡ line_cause error };

    fn from(error: LineError) -> Cause {
        match error {
            LineError::Words(WordError::Setting { line }) => Cause::BadSetting { line },
            LineError::Words(WordError::Bad(BadWord { word, kind })) => Cause::BadWords {
                word,
                kind,
            },
            LineError::Words(WordError::Memory) => Cause::Memory,
            LineError::NoServer => Cause::NoServer,
        }
    }
}

impl From<OpenError> for Cause {
    ghost from_gives = { λ error cause. cause ≡ open_cause error };

    fn from(error: OpenError) -> Cause {
        match error {
            OpenError::Disk => Cause::DiskFault,
            OpenError::Damaged { offset } => Cause::Damaged { offset },
            OpenError::Memory => Cause::Memory,
            OpenError::TooLong { bytes } => Cause::RecordTooLong { bytes },
        }
    }
}

impl From<InputError> for Cause {
    ghost from_gives = { λ error cause. cause ≡ input_cause error };

    fn from(error: InputError) -> Cause {
        match error {
            InputError::Fault => Cause::InFault,
            InputError::TooLong => Cause::InputTooLong,
            InputError::Memory => Cause::Memory,
        }
    }
}

impl From<Refusal> for Cause {
    ghost from_gives = { λ refusal cause. cause ≡ refusal_cause refusal };

    fn from(refusal: Refusal) -> Cause {
        match refusal {
            Refusal::NoMatch => Cause::NoMatch,
            Refusal::NothingToUndo => Cause::NothingToUndo,
            Refusal::BadWords { word, kind } => Cause::BadWords { word, kind },
            Refusal::IdTaken { uuid } => Cause::IdTaken { uuid },
            Refusal::Cycle { uuid } => Cause::Cycle { uuid },
            Refusal::BadInput { index, name } => Cause::BadInput { index, name },
        }
    }
}

impl From<HookError> for Cause {
    ghost from_gives = { λ error cause. cause ≡ hook_cause error };

    fn from(error: HookError) -> Cause {
        match error {
            HookError::Refused { name, status } => Cause::HookRefused { name, status },
            HookError::Answer { name } => Cause::HookAnswer { name },
            HookError::Fault => Cause::HookFault,
            HookError::Memory => Cause::Memory,
        }
    }
}

impl From<JournalError> for Cause {
    ghost from_gives = { λ error cause. cause ≡ track_cause error };

    fn from(error: JournalError) -> Cause {
        match error {
            JournalError::Disk | JournalError::Closed => Cause::TrackFault,
            JournalError::Damaged { offset } => Cause::TrackDamaged { offset },
            JournalError::TooLong { bytes } => Cause::RecordTooLong { bytes },
            JournalError::Memory => Cause::Memory,
        }
    }
}

impl From<LoadError> for Cause {
    ghost from_gives = { λ error cause. cause ≡ load_cause error };

    fn from(error: LoadError) -> Cause {
        match error {
            LoadError::Folder => Cause::TrackFault,
            LoadError::Journal(error) => Cause::from(error),
            LoadError::BadLine { file, line } => Cause::TrackBad { file, line },
            LoadError::Memory => Cause::Memory,
        }
    }
}

impl From<CarryError> for Cause {
    ghost from_gives = { λ error cause. cause ≡ carry_cause error };

    fn from(error: CarryError) -> Cause {
        match error {
            CarryError::Open(error) => Cause::from(error),
            CarryError::Input(error) => Cause::from(error),
            CarryError::Refused(refusal) => Cause::from(refusal),
            CarryError::Hook(error) => Cause::from(error),
            CarryError::TooLong { bytes } => Cause::RecordTooLong { bytes },
            CarryError::Load(error) => Cause::from(error),
            CarryError::HoursTooLong { bytes } => Cause::RecordTooLong { bytes },
            CarryError::Disk => Cause::DiskFault,
            CarryError::Track => Cause::TrackFault,
            CarryError::Memory => Cause::Memory,
        }
    }
}

impl From<AppendError> for Cause {
    ghost from_gives = { λ error cause. cause ≡ journal_cause error };

    fn from(error: AppendError) -> Cause {
        match error {
            AppendError::Disk | AppendError::Closed => Cause::DiskFault,
            AppendError::TooLong { bytes } => Cause::RecordTooLong { bytes },
        }
    }
}

impl From<SyncError> for Cause {
    ghost from_gives = { λ error cause. cause ≡ sync_cause error };

    fn from(error: SyncError) -> Cause {
        match error {
            SyncError::Journal(error) => Cause::from(error),
            SyncError::Link => Cause::LinkFault,
            SyncError::Reply { kind } => Cause::BadReply { kind },
            SyncError::Gone { base } => Cause::Gone { base },
            SyncError::Busy { parent } => Cause::Busy { parent },
            SyncError::OutOfSync { base, parent } => Cause::OutOfSync { base, parent },
            SyncError::Segment { version } => Cause::BadSegment { version },
            SyncError::SegmentTooLong { bytes } => Cause::SegmentTooLong { bytes },
            SyncError::PullTooLong { bytes } => Cause::PullTooLong { bytes },
            SyncError::Memory => Cause::Memory,
        }
    }
}

impl From<SyncFailure> for Cause {
    ghost from_gives = { λ failure cause. cause ≡ failure_cause failure };

    fn from(failure: SyncFailure) -> Cause {
        match failure {
            SyncFailure::Open(error) => Cause::from(error),
            SyncFailure::Sync(error) => Cause::from(error),
        }
    }
}
