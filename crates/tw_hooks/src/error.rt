// Why hooks refuse a task.

use tw_spawn::SpawnError;
use tw_world::{Memory, Text};

/// Why hooks do not let a task become what it is to be. No hook is run after that.
#[derive(Drop)]
pub enum HookError {
    /// This hook ended with this status, which is not 0.
    Refused { name: Text, status: u8 },
    /// This hook ended with status 0 and answered no task with that uuid, or wrote more than 16,777,216 bytes.
    Answer { name: Text },
    /// The names could not be read, or a hook could not be run to its end. The count of faults went up.
    Fault,
    /// There was no memory.
    Memory,
}

impl From<Memory> for HookError {
    ghost use Rattle.std.specs.Prelude.{◌≡◌};
    ghost use Rattle.tw_hooks.specs.declared.error.HookError.TheVariants.{Memory as NoMemory};

    ghost from_gives = { λ _ e. e ≡ NoMemory };

    fn from(_: Memory) -> HookError {
        HookError::Memory
    }
}

impl From<SpawnError> for HookError {
    ghost use Rattle.std.specs.Prelude.{◌≡◌};
    ghost use Rattle.tw_hooks.specs.One.{spawn_error};

    ghost from_gives = { λ e f. f ≡ spawn_error e };

    fn from(error: SpawnError) -> HookError {
        match error {
            SpawnError::Failed => HookError::Fault,
            SpawnError::Memory => HookError::Memory,
        }
    }
}
