// The address that a line and settings name: taskrc(5), under "SYNC".
ghost use Rattle.std.specs.Prelude.{◌≡◌, IfOk, map, string_bytes};
ghost use Rattle.tw_words.specs.Links.{address_in};

use crate::line::cut_words;
use std::alloc::Global;
use tw_settings::{Address, WordError, read_settings};
use tw_world::Memory;

/// The address of the sync server that the settings and the overrides of a line name. There is none where they name none, and
/// where one of them is no setting.
pub fn link_address(
    alloc: Global,
    words: &Vec<String>,
    settings: &Vec<u8>,
) -> Result<Option<Address>, Memory>
    ensures { IfOk result (λ address. address ≡ address_in (map string_bytes words.now.items) settings.now.items) }
{
    let line = cut_words(alloc, words)?;
    match read_settings(alloc, settings.as_slice(), &line.overrides) {
        Ok(settings) => settings.address(alloc),
        Err(WordError::Bad(_)) => Ok(None),
        Err(WordError::Setting { .. }) => Ok(None),
        Err(WordError::Memory) => Err(Memory),
    }
}
