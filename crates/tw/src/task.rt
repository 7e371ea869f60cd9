// `tw task`.
ghost use Rattle.std.specs.Prelude.{◌≡◌, IfOk};
ghost use Rattle.tw_cli.specs.Fault.{GotFault, status_of};

use crate::disk::{Opened, disk_at};
use crate::hint::hint_new;
use crate::hours::{Hours, open_hours};
use crate::input::Input;
use crate::link::TcpLink;
use crate::reasons::{hint_task, reason_of};
use crate::settings::settings;
use crate::start::{StartError, moment, seed};
use crate::task_paths::{replica_path, task_folder};
use crate::zone::zone;
use std::alloc::Global;
use std::fs::File;
use tw_cli::{Outcome, link_address, needs_hours, needs_store, task_run};
use tw_files::{FailingFolder, FileDisk, ProcessSpawner};
use tw_http::Link;
use tw_spawn::Spawner;
use tw_streams::{Stream, StreamSource};
use tw_time::Zone;
use tw_world::{Disk, FailingDisk, IdWords, Moment, Sink, Source};

/// Does what the words after `task` ask for, and gives the program's status. Nothing is opened or made for bad words or
/// settings, or for `_generate`; the zone is judged before. If the journal's file isn't opened, it works on a disk whose every call fails.
pub fn run_task(rt: &HostRuntime, alloc: Global, words: &Vec<String>) -> Result<u8, StartError> {
    let zone = zone(rt)?;
    let settings = settings(rt, alloc)?;
    run_in_zone(rt, alloc, words, &settings, &zone)
}

fn run_in_zone(
    rt: &HostRuntime,
    alloc: Global,
    words: &Vec<String>,
    settings: &Vec<u8>,
    zone: &Zone,
) -> Result<u8, StartError> {
    let folder = task_folder(rt, alloc, settings)?;
    run_in(rt, alloc, words, settings, zone, folder.as_str())
}

fn run_in(
    rt: &HostRuntime,
    alloc: Global,
    words: &Vec<String>,
    settings: &Vec<u8>,
    zone: &Zone,
    folder: &str,
) -> Result<u8, StartError> {
    let now = moment(rt)?;
    let mut ids = IdWords::from_seed(seed(rt)?);
    let opened = if needs_store(alloc, words, settings, now, zone)? {
        store_in(rt, alloc, folder)?
    } else {
        Err(None)
    };
    match opened {
        Ok(mut disk) => {
            let outcome = run_over(
                rt, alloc, words, settings, now, zone, &mut ids, &mut disk, folder,
            )?;
            hint_task(rt, alloc, words, settings, folder, None, &outcome.cause);
            Ok(outcome.status)
        }
        Err(kind) => {
            let mut disk = FailingDisk::new();
            let outcome = run_over(
                rt, alloc, words, settings, now, zone, &mut ids, &mut disk, folder,
            )?;
            hint_task(
                rt,
                alloc,
                words,
                settings,
                folder,
                reason_of(kind),
                &outcome.cause,
            );
            Ok(outcome.status)
        }
    }
}

/// The store of a folder, as a disk.
pub fn store_in(
    rt: &HostRuntime,
    alloc: Global,
    folder: &str,
) -> Result<Opened<FileDisk<File>>, StartError> {
    let path = replica_path(alloc, folder)?;
    let opened = disk_at(rt, path.as_str())?;
    if let Ok(disk) = &opened
        && disk.is_empty()
    {
        hint_new(rt, alloc, "store", folder);
    }
    Ok(opened)
}

// Carries the words out over a disk, the hooks of the folder, a link to the server that the settings name, and the streams of the program.
fn run_over<D: Disk>(
    rt: &HostRuntime,
    alloc: Global,
    words: &Vec<String>,
    settings: &Vec<u8>,
    now: Moment,
    zone: &Zone,
    ids: &mut IdWords,
    disk: &mut D,
    folder: &str,
) -> Result<Outcome, StartError> {
    let mut link = TcpLink::new(rt, link_address(alloc, words, settings)?);
    let mut hooks = ProcessSpawner::new(alloc, rt, folder)?;
    let mut input = StreamSource::new(Input::new(rt));
    let mut out = Stream::new(rt.stdout());
    let mut err = Stream::new(rt.stderr());
    over_hours(
        rt, alloc, words, settings, now, zone, ids, disk, &mut link, &mut input, &mut out,
        &mut err, &mut hooks,
    )
}

// The same over the hours, which are opened only for a command that drives them, after the tasks. If they can't be opened, each call of them fails.
fn over_hours<D: Disk, L: Link, S: Source, O: Sink, E: Sink, P: Spawner>(
    rt: &HostRuntime,
    alloc: Global,
    words: &Vec<String>,
    settings: &Vec<u8>,
    now: Moment,
    zone: &Zone,
    ids: &mut IdWords,
    disk: &mut D,
    link: &mut L,
    input: &mut S,
    out: &mut O,
    err: &mut E,
    hooks: &mut P,
) -> Result<Outcome, StartError>
    ensures told { IfOk result (λ outcome. GotFault E.model err.old err.new outcome.cause) }
    ensures status { IfOk result (λ outcome. outcome.status ≡ status_of outcome.cause) }
{
    let opened = if needs_hours(alloc, words, settings, now, zone)? {
        open_hours(rt, alloc)?
    } else {
        Err(None)
    };
    match opened {
        Ok(
            Hours {
                mut months,
                mut track,
            },
        ) => Ok(task_run(
            alloc,
            words,
            settings,
            now,
            zone,
            ids,
            disk,
            link,
            input,
            out,
            err,
            hooks,
            &mut months,
            &mut track,
        )),
        Err(_) => {
            let mut months = FailingFolder::new();
            let mut track = FailingDisk::new();
            Ok(task_run(
                alloc,
                words,
                settings,
                now,
                zone,
                ids,
                disk,
                link,
                input,
                out,
                err,
                hooks,
                &mut months,
                &mut track,
            ))
        }
    }
}
