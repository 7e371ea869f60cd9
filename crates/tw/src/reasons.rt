// What to do about a run that was refused, as lines for a person.
ghost use Rattle.std.specs.Prelude.{◌≡◌};
ghost use Rattle.tw.specs.Reasons.{reason_of};

use crate::hint::{hint_line, is_wanted};
use crate::hours::hours_folder;
use crate::settings::settings_file;
use crate::start::{StartError, variable};
use crate::task_paths::replica_path;
use crate::timew_paths::undo_path;
use crate::zone::zone_file;
use std::alloc::Global;
use std::io::ErrorKind;
use tw_cli::link_address;
use tw_hints::{NotOpened, Places, task_hint, timew_hint, zone_hint};
use tw_world::Text;

/// Why a file was not opened, by the kind of the system's error.
pub fn reason_of(kind: Option<ErrorKind>) -> Option<NotOpened>
    ensures { result ≡ reason_of kind }
{
    match kind {
        None => None,
        Some(ErrorKind::PermissionDenied) => Some(NotOpened::Rights),
        Some(ErrorKind::IsADirectory) => Some(NotOpened::Folder),
        Some(ErrorKind::NotADirectory) => Some(NotOpened::InTheWay),
        Some(ErrorKind::AlreadyExists) => Some(NotOpened::InTheWay),
        Some(ErrorKind::ReadOnlyFilesystem) => Some(NotOpened::ReadOnly),
        Some(_) => Some(NotOpened::Other),
    }
}

fn text_of(alloc: Global, text: &str) -> Result<Text, StartError> {
    Ok(Text::from_str(alloc, text)?)
}

// The path of the settings' file, and an empty text if none is named.
fn settings_text(rt: &HostRuntime, alloc: Global) -> Result<Text, StartError> {
    match settings_file(rt)? {
        Some(path) => text_of(alloc, path.as_str()),
        None => text_of(alloc, ""),
    }
}

// The server that the settings and the overrides name, and an empty text if they name none.
fn server_text(alloc: Global, words: &Vec<String>, settings: &Vec<u8>) -> Result<Text, StartError> {
    match link_address(alloc, words, settings)? {
        Some(address) => {
            let text = format!(in alloc; "{}:{}", address.host.as_str(), address.port)?;
            text_of(alloc, text.as_str())
        }
        None => text_of(alloc, ""),
    }
}

fn journal_text(alloc: Global, folder: &str) -> Result<Text, StartError> {
    let path = replica_path(alloc, folder)?;
    text_of(alloc, path.as_str())
}

fn undo_text(alloc: Global, folder: &str) -> Result<Text, StartError> {
    let path = undo_path(alloc, folder)?;
    text_of(alloc, path.as_str())
}

fn hours_text(rt: &HostRuntime, alloc: Global) -> Result<Text, StartError> {
    let folder = hours_folder(rt, alloc)?;
    text_of(alloc, folder.as_str())
}

// The places of a run of `tw task`, whose journal is in this folder.
fn task_places(
    rt: &HostRuntime,
    alloc: Global,
    words: &Vec<String>,
    settings: &Vec<u8>,
    folder: &str,
    not_opened: Option<NotOpened>,
) -> Result<Places, StartError> {
    let server = server_text(alloc, words, settings)?;
    let hours = hours_text(rt, alloc)?;
    let journal = journal_text(alloc, folder)?;
    Ok(Places {
        settings: settings_text(rt, alloc)?,
        journal,
        not_opened,
        hours,
        server,
    })
}

// The places of a run of `tw timew`, whose journal and months are in this folder.
fn timew_places(
    alloc: Global,
    folder: &str,
    not_opened: Option<NotOpened>,
) -> Result<Places, StartError> {
    let journal = undo_text(alloc, folder)?;
    let hours = text_of(alloc, folder)?;
    Ok(Places {
        settings: text_of(alloc, "")?,
        journal,
        not_opened,
        hours,
        server: text_of(alloc, "")?,
    })
}

/// Writes what to do about a run of `tw task` that was refused, if that is wanted. If there is no memory for it, nothing follows.
pub fn hint_task(
    rt: &HostRuntime,
    alloc: Global,
    words: &Vec<String>,
    settings: &Vec<u8>,
    folder: &str,
    not_opened: Option<NotOpened>,
    cause: &tw_cli::Cause,
) {
    if let tw_cli::Cause::Done = cause {
        return;
    }
    if !is_wanted(rt) {
        return;
    }
    let Ok(places) = task_places(rt, alloc, words, settings, folder, not_opened) else {
        return;
    };
    if let Ok(hint) = task_hint(alloc, cause, words, settings.as_slice(), &places) {
        hint_line(rt, hint.as_str());
    }
}

/// The same of a run of `tw timew`.
pub fn hint_timew(
    rt: &HostRuntime,
    alloc: Global,
    words: &Vec<String>,
    folder: &str,
    not_opened: Option<NotOpened>,
    cause: &timew_cli::Cause,
) {
    if let timew_cli::Cause::Done = cause {
        return;
    }
    if !is_wanted(rt) {
        return;
    }
    let Ok(places) = timew_places(alloc, folder, not_opened) else {
        return;
    };
    if let Ok(hint) = timew_hint(alloc, cause, words, &places) {
        hint_line(rt, hint.as_str());
    }
}

fn hint_zone(rt: &HostRuntime, alloc: Global) -> Result<(), StartError> {
    let Some(zone) = variable(rt, "TZ")? else {
        return Ok(());
    };
    let file = zone_file(rt, alloc, zone.as_str())?;
    let hint = zone_hint(alloc, zone.as_str(), file.as_str())?;
    hint_line(rt, hint.as_str());
    Ok(())
}

/// Writes what to do about a program that does not begin, if that is wanted.
pub fn hint_start(rt: &HostRuntime, alloc: Global, error: StartError) {
    match error {
        StartError::CommandLine => hint_line(rt, "tw: for help: tw --help\n"),
        StartError::Service => hint_line(rt, "tw: tw server PORT FILE [COUNT]\n"),
        StartError::Zone => {
            let _ = hint_zone(rt, alloc);
        }
        StartError::Failed | StartError::InUse | StartError::Memory => {}
    }
}
