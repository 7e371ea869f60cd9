// Words with a space between each two.
ghost use Rattle.std.specs.Prelude.{◌≡◌, IfOk, map, string_bytes};
ghost use Rattle.tw_changes.specs.Spaced.{spaced, rest_text};

use std::alloc::Global;
use tw_words::Line;
use tw_world::Memory;

/// Words with a space between each two.
pub fn spaced(alloc: Global, words: &[String]) -> Result<String, Memory>
    ensures { IfOk result (λ text. string_bytes text ≡ spaced (map string_bytes words.now)) }
{
    Ok(words.join(alloc, " ")?)
}

/// The rest of a line as a text.
pub fn rest_text(alloc: Global, line: &Line) -> Result<String, Memory>
    ensures { IfOk result (λ text. string_bytes text ≡ rest_text line.now) }
{
    spaced(alloc, &line.words[line.rest_from as usize..])
}
