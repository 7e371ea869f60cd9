// `tw audit`.
ghost use Rattle.std.specs.Prelude.{IfOk};
ghost use Rattle.tw_http.specs.Messages.{IsHost};

use crate::disk::Opened;
use crate::link::TcpLink;
use crate::reasons::{hint_task, reason_of};
use crate::settings::settings;
use crate::start::StartError;
use crate::task::store_in;
use crate::task_paths::task_folder;
use std::alloc::Global;
use std::fs::File;
use std::io::ErrorKind;
use tw_audit::{Audited, audit, audit_text};
use tw_cli::{Cause, link_address, refused};
use tw_files::FileDisk;
use tw_http::Link;
use tw_replica::Replica;
use tw_settings::{ServerSettings, WordError, read_settings};
use tw_streams::Stream;
use tw_sync::SyncError;
use tw_terms::BadWord;
use tw_world::Sink;

/// Compares the tasks of this machine with the history of its server, and gives the program's status: 0 if they are the same, 1 if they
/// differ. The settings, the store and the server are those of `tw task sync`. The store is let go before the server is asked.
pub fn run_audit(rt: &HostRuntime, alloc: Global, words: &Vec<String>) -> Result<u8, StartError> {
    if !words.is_empty() {
        return Err(StartError::CommandLine);
    }
    let settings = settings(rt, alloc)?;
    let folder = task_folder(rt, alloc, &settings)?;
    match server_in(alloc, &settings) {
        Ok(server) => audit_with(rt, alloc, words, &settings, folder.as_str(), &server),
        Err(cause) => Ok(refuse(rt, alloc, words, &settings, folder.as_str(), None, cause)),
    }
}

// The server that the settings name.
fn server_in(alloc: Global, settings: &Vec<u8>) -> Result<ServerSettings, Cause>
    ensures { IfOk result (λ server. IsHost server.host) }
{
    let none = Vec::new(alloc);
    let settings = match read_settings(alloc, settings.as_slice(), &none) {
        Ok(settings) => settings,
        Err(WordError::Setting { line }) => return Err(Cause::BadSetting { line }),
        Err(WordError::Bad(BadWord { word, kind })) => return Err(Cause::BadWords { word, kind }),
        Err(WordError::Memory) => return Err(Cause::Memory),
    };
    match settings.server(alloc) {
        Ok(Some(server)) => Ok(server),
        Ok(None) => Err(Cause::NoServer),
        Err(_) => Err(Cause::Memory),
    }
}

fn audit_with(
    rt: &HostRuntime,
    alloc: Global,
    words: &Vec<String>,
    settings: &Vec<u8>,
    folder: &str,
    server: &ServerSettings,
) -> Result<u8, StartError>
    requires { IsHost server.now.host }
{
    let mut link = TcpLink::new(rt, link_address(alloc, words, settings)?);
    let opened = store_in(rt, alloc, folder)?;
    let not_opened = kind_of(&opened);
    let ended = match replica_in(alloc, opened) {
        Ok(replica) => audit_over(alloc, &replica, &mut link, server),
        Err(cause) => Err(cause),
    };
    match ended {
        Ok(found) => print_found(rt, alloc, words, settings, folder, &found),
        Err(cause) => Ok(refuse(rt, alloc, words, settings, folder, not_opened, cause)),
    }
}

// Why the store was not opened, if it was not.
fn kind_of(opened: &Opened<FileDisk<File>>) -> Option<ErrorKind> {
    match opened {
        Ok(_) => None,
        Err(kind) => *kind,
    }
}

// The replica of a store, which is let go.
fn replica_in(alloc: Global, opened: Opened<FileDisk<File>>) -> Result<Replica, Cause> {
    let Ok(mut disk) = opened else {
        return Err(Cause::DiskFault);
    };
    match Replica::open(alloc, &mut disk) {
        Ok(replica) => Ok(replica),
        Err(error) => Err(Cause::from(error)),
    }
}

fn audit_over<L: Link>(
    alloc: Global,
    replica: &Replica,
    link: &mut L,
    server: &ServerSettings,
) -> Result<Audited, Cause>
    requires { IsHost server.now.host }
{
    match audit(alloc, replica, link, server.client, server.host.as_str()) {
        Ok(found) => Ok(found),
        Err(error) => Err(Cause::from(SyncError::from(error))),
    }
}

fn print_found(
    rt: &HostRuntime,
    alloc: Global,
    words: &Vec<String>,
    settings: &Vec<u8>,
    folder: &str,
    found: &Audited,
) -> Result<u8, StartError> {
    let text = audit_text(alloc, found)?;
    match Stream::new(rt.stdout()).write_all(text.as_bytes()) {
        Ok(()) => Ok(u8::from(found.difference.is_some())),
        Err(_) => Ok(refuse(rt, alloc, words, settings, folder, None, Cause::OutFault)),
    }
}

// Says why there is no answer, and gives the status of that cause.
fn refuse(
    rt: &HostRuntime,
    alloc: Global,
    words: &Vec<String>,
    settings: &Vec<u8>,
    folder: &str,
    not_opened: Option<ErrorKind>,
    cause: Cause,
) -> u8 {
    let outcome = refused(&mut Stream::new(rt.stderr()), cause);
    hint_task(
        rt,
        alloc,
        words,
        settings,
        folder,
        reason_of(not_opened),
        &outcome.cause,
    );
    outcome.status
}
