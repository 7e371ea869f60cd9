// Lines that are made without memory.
ghost use Rattle.std.specs.Prelude.{◌≡◌};
ghost use Rattle.timew_cmd.specs.Texts.{stored};

use tw_ending::{Short, numbered};

/// How many intervals there are after a change.
pub(crate) fn stored_text(count: u64) -> Short
    ensures { result.bytes ≡ stored count }
{
    if count == 1 {
        numbered("Stored ", count, " interval.\n")
    } else {
        numbered("Stored ", count, " intervals.\n")
    }
}
