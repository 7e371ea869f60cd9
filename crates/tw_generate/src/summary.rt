// What is printed of a large world.
ghost use Rattle.std.specs.Prelude.{◌≡◌, ◌++◌, IfOk, OnOk};
ghost use Rattle.std.specs.Fmt.{decimal};
ghost use Rattle.tw_generate.specs.Summary.{summary, word_of};

use itoa::Buffer;
use std::alloc::Global;
use tw_sync::SyncReport;
use tw_world::Memory;

fn word_of(equal: bool) -> &'static str
    ensures { result.now ≡ word_of equal }
{
    if equal { "equal" } else { "different" }
}

// Appends a number and a text to a text.
fn push_number(text: &mut Vec<u8>, number: u64, back: &str) -> Result<(), Memory>
    ensures { OnOk result (text.new.items ≡ text.old.items ++ decimal number ++ back.now) }
{
    let mut digits = Buffer::new();
    text.extend_from_slice(digits.format(number).as_bytes())?;
    text.extend_from_slice(back.as_bytes())?;
    Ok(())
}

/// How many tasks there are, how many bytes their first segment has, what the last sync of the first replica did, and whether both
/// export the same.
pub(crate) fn summary(
    alloc: Global,
    count: u64,
    bytes: u64,
    report: SyncReport,
    equal: bool,
) -> Result<Vec<u8>, Memory>
    ensures { IfOk result (λ text. text.items ≡ summary count bytes report equal) }
{
    let mut text = Vec::new(alloc);
    text.extend_from_slice(b"tasks ")?;
    push_number(&mut text, count, ", first segment ")?;
    push_number(&mut text, bytes, " bytes, dropped ")?;
    push_number(&mut text, report.dropped, ", pushed ")?;
    push_number(&mut text, report.pushed, ", exports ")?;
    text.extend_from_slice(word_of(equal).as_bytes())?;
    text.push(b'\n')?;
    Ok(text)
}
