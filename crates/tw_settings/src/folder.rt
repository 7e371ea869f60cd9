// The folder of the tasks: task(1), under "FILES", and taskrc(5), under "FILES".
ghost use Rattle.std.specs.Prelude.{◌≡◌, string_bytes, codes, IfOk, ◌++◌};
ghost use Rattle.std.specs.Option.{option_copied};
ghost use Rattle.tw_settings.specs.Folder.{value_with, location_in, home_folder, expanded, located, folder_in};
ghost use Rattle.tw_settings.specs.Settings.{setting_in};

use crate::pair::{cut_line, setting_in};
use std::alloc::Global;
use tw_world::Memory;

fn joined(alloc: Global, home: &str, rest: &str) -> Result<String, Memory>
    ensures { IfOk result (λ folder. string_bytes folder ≡ home.now ++ rest.now) }
{
    let mut folder = String::from_str(alloc, home)?;
    folder.push_str(rest)?;
    Ok(folder)
}

fn home_folder(alloc: Global, home: Option<&str>) -> Result<String, Memory>
    ensures { IfOk result (λ folder. string_bytes folder ≡ home_folder (option_copied home.entry)) }
{
    match home {
        Some(home) => joined(alloc, home, "/.task"),
        None => Ok(String::from_str(alloc, ".task")?),
    }
}

// A folder whose name may begin with the home folder's short name.
fn expanded(alloc: Global, location: &str, home: Option<&str>) -> Result<String, Memory>
    ensures { IfOk result (λ folder. string_bytes folder ≡ expanded location.now (option_copied home.entry)) }
{
    let Some(home) = home else {
        return Ok(String::from_str(alloc, location)?);
    };
    match location.strip_prefix("~/") {
        Some(rest) => {
            let front = joined(alloc, home, "/")?;
            joined(alloc, front.as_str(), rest)
        }
        None => Ok(String::from_str(alloc, location)?),
    }
}

// The value of `data.location` after a line, before which it had this one.
fn location_with<'a>(value: Option<&'a str>, line: &'a [u8]) -> Option<&'a str>
    ensures { option_copied result ≡ value_with (codes "data.location") (option_copied value.entry) (setting_in line.now) }
{
    match setting_in(line) {
        Some(Some((name, given))) if name == "data.location" => Some(given),
        _ => value,
    }
}

// The value of the last line that sets `data.location`.
fn location_in(settings: &[u8]) -> Option<&str>
    ensures { option_copied result ≡ location_in settings.now }
{
    let mut value = None;
    let mut left = Some(settings);
    while let Some(text) = left {
        let (line, rest) = cut_line(text);
        value = location_with(value, line);
        left = rest;
    }
    value
}

fn located(alloc: Global, location: Option<&str>, home: Option<&str>) -> Result<String, Memory>
    ensures { IfOk result (λ folder. string_bytes folder ≡ located (option_copied location.entry) (option_copied home.entry)) }
{
    match location {
        Some(location) if !location.is_empty() => expanded(alloc, location, home),
        _ => home_folder(alloc, home),
    }
}

/// The folder of the tasks: the one that `TASKDATA` names, else the one that the setting `data.location` names, where a `~` before
/// a `/` at its front is the folder that `HOME` names, else `.task` in that folder, else `.task`. Lines that are no settings are
/// passed over, and overrides have no effect.
pub fn data_folder(
    alloc: Global,
    settings: &Vec<u8>,
    taskdata: Option<&str>,
    home: Option<&str>,
) -> Result<String, Memory>
    ensures { IfOk result (λ folder. string_bytes folder ≡ folder_in settings.now.items (option_copied taskdata.entry) (option_copied home.entry)) }
{
    match taskdata {
        Some(folder) => Ok(String::from_str(alloc, folder)?),
        None => located(alloc, location_in(settings.as_slice()), home),
    }
}
