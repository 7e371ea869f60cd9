// `tw timew`.
ghost use Rattle.std.specs.Prelude.{◌≡◌, IfOk};
ghost use Rattle.timew_cli.specs.Fault.{GotFault, status_of};

use crate::hours::{hours_folder, track_in};
use crate::reasons::{hint_timew, reason_of};
use crate::start::{StartError, moment};
use crate::timew_paths::months_path;
use crate::zone::zone;
use std::alloc::Global;
use std::io::ErrorKind;
use timew_cli::{Outcome, timew_run};
use timew_words::{WordsError, read_words};
use tw_files::{FailingFolder, open_folder};
use tw_streams::Stream;
use tw_time::Zone;
use tw_world::{Disk, FailingDisk, Moment, Sink};

/// Does what the words after `timew` ask for, and gives the program's status. Nothing is opened or made for bad words; the zone is
/// judged before them. If the journal's file or the folder can't be opened, it works on one whose every call fails.
pub fn run_timew(rt: &HostRuntime, alloc: Global, words: &Vec<String>) -> Result<u8, StartError> {
    let zone = zone(rt)?;
    let now = moment(rt)?;
    let folder = hours_folder(rt, alloc)?;
    // The journal's file is locked before the folder of the months is looked at.
    let opened = if are_good(alloc, words, now, &zone)? {
        track_in(rt, alloc, folder.as_str())?
    } else {
        Err(None)
    };
    let mut out = Stream::new(rt.stdout());
    let mut err = Stream::new(rt.stderr());
    match opened {
        Ok(mut disk) => {
            let outcome = over_months(
                rt,
                alloc,
                words,
                now,
                &zone,
                folder.as_str(),
                &mut disk,
                &mut out,
                &mut err,
            )?;
            hint_timew(rt, alloc, words, folder.as_str(), None, &outcome.cause);
            Ok(outcome.status)
        }
        Err(kind) => {
            let mut months = FailingFolder::new();
            let mut disk = FailingDisk::new();
            let outcome = timew_run(
                alloc,
                words,
                now,
                &zone,
                &mut months,
                &mut disk,
                &mut out,
                &mut err,
            );
            hint_timew(
                rt,
                alloc,
                words,
                folder.as_str(),
                reason_of(kind),
                &outcome.cause,
            );
            Ok(outcome.status)
        }
    }
}

// Whether the words ask for something.
fn are_good(
    alloc: Global,
    words: &Vec<String>,
    now: Moment,
    zone: &Zone,
) -> Result<bool, StartError> {
    match read_words(alloc, words, now, zone) {
        Ok(_) => Ok(true),
        Err(WordsError::Memory) => Err(StartError::Memory),
        Err(WordsError::Bad(_)) => Ok(false),
    }
}

// Carries the words out over the month files and a journal.
fn over_months<D: Disk, O: Sink, E: Sink>(
    rt: &HostRuntime,
    alloc: Global,
    words: &Vec<String>,
    now: Moment,
    zone: &Zone,
    folder: &str,
    journal: &mut D,
    out: &mut O,
    err: &mut E,
) -> Result<Outcome, StartError>
    ensures told { IfOk result (λ outcome. GotFault E.model err.old err.new outcome.cause) }
    ensures status { IfOk result (λ outcome. outcome.status ≡ status_of outcome.cause) }
{
    let path = months_path(alloc, folder)?;
    match open_folder(alloc, rt, path.as_str()) {
        Ok(mut months) => Ok(timew_run(alloc, words, now, zone, &mut months, journal, out, err)),
        Err(error) if error.kind() == ErrorKind::OutOfMemory => Err(StartError::Memory),
        Err(_) => {
            let mut months = FailingFolder::new();
            Ok(timew_run(alloc, words, now, zone, &mut months, journal, out, err))
        }
    }
}
