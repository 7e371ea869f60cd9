// One command line over a folder, a disk and streams.
ghost use Rattle.std.specs.Prelude.{◌≡◌, map, string_bytes};
ghost use Rattle.tw_world.specs.Disk as tells;
ghost use Rattle.tw_world.specs.Crash.{FaultsRise};
ghost use Rattle.timew_words.specs.Reading.{command_of};
ghost use Rattle.timew_cli.specs.Fault.{GotFault, status_of};
ghost use Rattle.timew_cli.specs.Run.{went, RunGives, EndsWell, RunLeaves, GrowsByRecord, IsRun};

use crate::carry::run_command;
use crate::cause::{Cause, Outcome, status_of};
use crate::fault::put_fault;
use std::alloc::Global;
use timew_words::read_words;
use tw_time::Zone;
use tw_world::{Disk, Folder, Moment, Sink};

// Runs a command line, and writes nothing on the standard error.
fn run_words<F: Folder, D: Disk, O: Sink>(
    alloc: Global,
    words: &Vec<String>,
    now: Moment,
    zone: &Zone,
    folder: &mut F,
    journal: &mut D,
    out: &mut O,
) -> Cause
    ensures { IsRun F.model D.model O.model (command_of (map string_bytes words.now.items) now.seconds zone.now) now.seconds zone.now
        (went folder.old folder.new journal.old journal.new) out.old out.new result }
{
    match read_words(alloc, words, now, zone) {
        Ok(command) => run_command(alloc, &command, now.seconds, zone, folder, journal, out),
        Err(error) => Cause::from(error),
    }
}

/// Does what `tw timew` does with these words, at this moment in this zone: judges the words, opens the journal, finishes the last
/// change and reads the month files, writes at most one record and then the files that it changes, prints to `out`, and writes a
/// line on `err` for any other end than `Done`. The record is written before any file is replaced, and before anything is printed.
/// Damage and want of memory leave the month files as they were, or those of the last change finished, or some of them.
pub fn timew_run<F: Folder, D: Disk, O: Sink, E: Sink>(
    alloc: Global,
    words: &Vec<String>,
    now: Moment,
    zone: &Zone,
    folder: &mut F,
    journal: &mut D,
    out: &mut O,
    err: &mut E,
) -> Outcome
    ensures gives { RunGives F.model D.model O.model (command_of (map string_bytes words.now.items) now.seconds zone.now) now.seconds zone.now
        (went folder.old folder.new journal.old journal.new) out.old out.new result.cause }
    ensures complete { EndsWell F.model D.model O.model (command_of (map string_bytes words.now.items) now.seconds zone.now) now.seconds zone.now
        (went folder.old folder.new journal.old journal.new) out.old out.new result.cause }
    ensures any_moment { RunLeaves F.model D.model (command_of (map string_bytes words.now.items) now.seconds zone.now) now.seconds zone.now
        (went folder.old folder.new journal.old journal.new) }
    ensures growth { GrowsByRecord D.model journal.old journal.new }
    ensures told { GotFault E.model err.old err.new result.cause }
    ensures status { result.status ≡ status_of result.cause }
    ensures folder { FaultsRise F.model folder.old folder.new }
    ensures journal { tells.FaultsRise D.model journal.old journal.new }
{
    let cause = run_words(alloc, words, now, zone, folder, journal, out);
    put_fault(err, &cause);
    Outcome {
        status: status_of(&cause),
        cause,
    }
}
