// Why a command is refused.
use tw_world::Memory;

/// Why a command is refused. Nothing has changed then.
#[derive(Clone, Copy, PartialEq, Eq, Drop)]
pub enum TimewError {
    /// The interval that is placed overlaps others, of which this has the least id.
    Overlap { id: u64 },
    /// No interval is open.
    NoOpen,
    /// This interval is open.
    AlreadyOpen { id: u64 },
    /// There are fewer intervals.
    NoInterval { id: u64 },
    /// The moment or the length of this word leads out of range; the word is 0 if there is none.
    Range { word: u64 },
    /// There was no memory.
    Memory,
}

impl From<Memory> for TimewError {
    ghost use Rattle.std.specs.Prelude.{◌≡◌};
    ghost use Rattle.timew_cmd.specs.declared.error.TimewError.TheVariants.{Memory as NoMemory};

    ghost from_gives = { λ _ e. e ≡ NoMemory };

    fn from(_: Memory) -> TimewError {
        TimewError::Memory
    }
}
