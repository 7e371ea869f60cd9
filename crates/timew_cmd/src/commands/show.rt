// Without a word: what is tracked now.
ghost use Rattle.std.specs.Prelude.{◌≡◌, option_map, IfOk};
ghost use Rattle.timew_cmd.specs.Commands.Show.{tracking};

use crate::open::open_of;
use crate::texts::tags_text;
use std::alloc::Global;
use timew_interval::Intervals;
use tw_time::print_basic;
use tw_world::Memory;

/// `Tracking <tags> since <moment>.` of the open interval, with a newline, or nothing if none is open (timew(1)). The moment is
/// in the basic format and in UTC; between two tags is one space.
pub fn tracking_text(alloc: Global, rows: &Intervals) -> Result<Option<Vec<u8>>, Memory>
    ensures { IfOk result (λ text. option_map (λ bytes. bytes.items) text ≡ tracking rows.now) }
{
    let Some((_, row)) = open_of(rows.as_slice()) else {
        return Ok(None);
    };
    let tags = tags_text(alloc, &row.tags)?;
    let mut text = Vec::new(alloc);
    text.extend_from_slice(b"Tracking ")?;
    text.extend_from_slice(tags.as_str().as_bytes())?;
    text.extend_from_slice(b" since ")?;
    text.extend_from_slice(&print_basic(row.start))?;
    text.extend_from_slice(b".\n")?;
    Ok(Some(text))
}
