// Why reading stops.
use crate::front::NoJson;
use tw_world::Memory;

/// Why reading stops.
#[derive(Clone, Copy)]
pub(crate) enum Halt {
    NotJson,
    Memory,
}

impl From<Memory> for Halt {
    ghost use Rattle.std.specs.Prelude.{◌≡◌};
    ghost use Rattle.tw_import.specs.declared.halt.Halt.TheVariants as halt;

    ghost from_gives = { λ _ h. h ≡ halt.Memory };

    fn from(_: Memory) -> Halt {
        Halt::Memory
    }
}

impl From<NoJson> for Halt {
    ghost use Rattle.std.specs.Prelude.{◌≡◌};
    ghost use Rattle.tw_import.specs.declared.halt.Halt.TheVariants as halt;

    ghost from_gives = { λ _ h. h ≡ halt.NotJson };

    fn from(_: NoJson) -> Halt {
        Halt::NotJson
    }
}
