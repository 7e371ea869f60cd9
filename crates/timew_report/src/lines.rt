// Lines with times.
ghost use Rattle.std.specs.Prelude.{◌≡◌, ◌++◌, IfOk, OnOk};
ghost use Rattle.timew_report.specs.Texts.{sum_text, line_text};

use std::alloc::Global;
use timew_cmd::length_text;
use tw_world::Memory;

/// Adds a blank line and a sum to a text.
pub fn push_sum(alloc: Global, text: &mut Vec<u8>, seconds: u64) -> Result<(), Memory>
    ensures { OnOk result (text.new.items ≡ text.old.items ++ sum_text seconds) }
{
    let sum = length_text(alloc, seconds)?;
    text.extend_from_slice(b"\nTotal ")?;
    text.extend_from_slice(sum.as_str().as_bytes())?;
    text.push(b'\n')?;
    Ok(())
}

/// Adds a name and a time to a text, as a line.
pub fn push_line(alloc: Global, text: &mut Vec<u8>, name: &[u8], seconds: u64) -> Result<(), Memory>
    ensures { OnOk result (text.new.items ≡ text.old.items ++ line_text name.now seconds) }
{
    let length = length_text(alloc, seconds)?;
    text.extend_from_slice(name)?;
    text.push(b' ')?;
    text.extend_from_slice(length.as_str().as_bytes())?;
    text.push(b'\n')?;
    Ok(())
}
