// The paths of the working hours.
ghost use Rattle.std.specs.Prelude.{◌≡◌, ◌++◌, codes, option_map, string_bytes, IfOk};
ghost use Rattle.tw.specs.TimewPaths.{timew_folder};

use std::alloc::Global;
use tw_world::Memory;

/// The folder of the working hours: the one that `TIMEWARRIORDB` names (timew(1)), else `.timewarrior` in the home folder, else
/// `.timewarrior` in the folder of the run.
pub fn timew_folder(
    alloc: Global,
    named: &Option<String>,
    home: &Option<String>,
) -> Result<String, Memory>
    ensures { IfOk result (λ path. string_bytes path ≡ timew_folder (option_map string_bytes named.now) (option_map string_bytes home.now)) }
{
    match (named, home) {
        (Some(named), _) => Ok(String::from_str(alloc, named.as_str())?),
        (None, Some(home)) => joined(alloc, home.as_str(), "/.timewarrior"),
        (None, None) => Ok(String::from_str(alloc, ".timewarrior")?),
    }
}

fn joined(alloc: Global, path: &str, more: &str) -> Result<String, Memory>
    ensures { IfOk result (λ longer. string_bytes longer ≡ path.now ++ more.now) }
{
    let mut longer = String::from_str(alloc, path)?;
    longer.push_str(more)?;
    Ok(longer)
}

/// The path of the journal of changes in that folder.
pub fn undo_path(alloc: Global, folder: &str) -> Result<String, Memory>
    ensures { IfOk result (λ path. string_bytes path ≡ folder.now ++ codes "/undo.journal") }
{
    joined(alloc, folder, "/undo.journal")
}

/// The path of the folder of the month files in it.
pub fn months_path(alloc: Global, folder: &str) -> Result<String, Memory>
    ensures { IfOk result (λ path. string_bytes path ≡ folder.now ++ codes "/data") }
{
    joined(alloc, folder, "/data")
}
