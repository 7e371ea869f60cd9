// One command line over a disk and streams.
ghost use Rattle.std.specs.Prelude.{◌≡◌};
ghost use Rattle.tw_world.specs.Disk.{FaultsRise, Tells};
ghost use Rattle.tw_spawn.specs.Spawner.{SpawnerKept};
ghost use Rattle.tw_sync.specs.Replies.Answers.{IsLinkKept};
ghost use Rattle.tw_cli.specs.Opening.{KeepsState};
ghost use Rattle.tw_cli.specs.Fault.{GotFault, status_of};
ghost use Rattle.tw_cli.specs.Asked.{asked_by};
ghost use Rattle.tw_cli.specs.Whole.{models, went, RunGives, EndsWell, RunLeaves, RunDrives, RunSpares, ChainGrows};
ghost use Rattle.tw_cli.specs.Whole.{IsHonestFor, IsSoundFor, RunDraws, RunKeepsInput, IsRun};
ghost use Rattle.tw_cli.specs.Agreement.{AgreementStays};
ghost use Rattle.tw_cli.specs.Growth.{GrowsByRecord};
ghost use Rattle.tw_cli.specs.Events.{IsEvent};
ghost use Rattle.tw_cli.specs.Headline.{Headline};

use crate::asked::{Job, asked};
use crate::carry::run_command;
use crate::cause::{Cause, Outcome, status_of};
use crate::fault::put_fault;
use crate::generating::run_generate;
use crate::syncing::run_sync;
use std::alloc::Global;
use tw_http::Link;
use tw_spawn::Spawner;
use tw_time::Zone;
use tw_world::{Disk, Folder, IdWords, Moment, Sink, Source};

// Runs a command line, and writes nothing on the standard error.
fn run_words<D: Disk, L: Link, S: Source, O: Sink, P: Spawner, F: Folder, J: Disk>(
    alloc: Global,
    words: &Vec<String>,
    settings: &Vec<u8>,
    now: Moment,
    zone: &Zone,
    ids: &mut IdWords,
    disk: &mut D,
    link: &mut L,
    input: &mut S,
    out: &mut O,
    spawner: &mut P,
    folder: &mut F,
    track: &mut J,
) -> Cause
    ensures { IsRun (models D.model S.model O.model L.model P.model F.model J.model) (asked_by words.now settings.now now zone.entry) ids.old ids.new
        (went disk.old disk.new input.old input.new out.old out.new link.old link.new
        spawner.old spawner.new folder.old folder.new track.old track.new) result }
{
    match asked(alloc, words, settings, now, zone) {
        Ok(Job::Here(request)) => {
            run_command(
                alloc, request, ids, disk, input, out, spawner, folder, track,
            )
        }
        Ok(Job::Sync(server)) => run_sync(alloc, &server, disk, link, out),
        Ok(Job::Generate(line, settings)) => run_generate(alloc, &line, &settings, out),
        Err(error) => Cause::from(error),
    }
}

/// Does what `tw task` does with these words and settings, at this moment in this zone: reads the settings, with the overrides
/// among the words, and judges the words, opens the replica that the disk holds, writes at most one record, prints to `out`, and
/// writes a line on `err` for any other end than `Done`. The record is written before anything is printed. Only `sync` uses the link, and only
/// `import` the input, of which it reads at most 67,108,864 bytes and one more. `_generate` is in memory, and leaves the disk as it was.
/// The hooks that `spawner` runs see each task that a command makes or changes, and may change or refuse it; the record is written after them.
/// If the setting `timetrack` is on, a command that changes tasks loads the hours that `folder` and `track` hold before it writes its record,
/// and changes them after that, so that an interval is open for the task that was started last. No other command uses them.
pub fn task_run<D: Disk, L: Link, S: Source, O: Sink, E: Sink, P: Spawner, F: Folder, J: Disk>(
    alloc: Global,
    words: &Vec<String>,
    settings: &Vec<u8>,
    now: Moment,
    zone: &Zone,
    ids: &mut IdWords,
    disk: &mut D,
    link: &mut L,
    input: &mut S,
    out: &mut O,
    err: &mut E,
    spawner: &mut P,
    folder: &mut F,
    track: &mut J,
) -> Outcome
    ensures gives { RunGives (models D.model S.model O.model L.model P.model F.model J.model) (asked_by words.now settings.now now zone.entry) ids.old
        (went disk.old disk.new input.old input.new out.old out.new link.old link.new
        spawner.old spawner.new folder.old folder.new track.old track.new) result.cause }
    ensures complete { EndsWell (models D.model S.model O.model L.model P.model F.model J.model) (asked_by words.now settings.now now zone.entry) ids.old
        (went disk.old disk.new input.old input.new out.old out.new link.old link.new
        spawner.old spawner.new folder.old folder.new track.old track.new) result.cause }
    ensures any_moment { RunLeaves (models D.model S.model O.model L.model P.model F.model J.model) (asked_by words.now settings.now now zone.entry) ids.old
        (went disk.old disk.new input.old input.new out.old out.new link.old link.new
        spawner.old spawner.new folder.old folder.new track.old track.new) result.cause }
    ensures growth { GrowsByRecord D.model disk.old disk.new }

    // A command that drives intervals changes the hours once its record is written, and no other uses them.
    ensures hours { RunDrives (models D.model S.model O.model L.model P.model F.model J.model) (asked_by words.now settings.now now zone.entry) ids.old
        (went disk.old disk.new input.old input.new out.old out.new link.old link.new
        spawner.old spawner.new folder.old folder.new track.old track.new) result.cause }
    ensures stays { KeepsState D.model disk.old disk.new result.cause }

    // A replica that agrees with the server's chain agrees with it after each run, if the server returns what was written, also a snapshot. Only
    // a sync asks the link for that chain.
    ensures agrees { Tells D.model disk.old → IsHonestFor L.model (asked_by words.now settings.now now zone.entry) link.old
        → IsSoundFor D.model L.model (asked_by words.now settings.now now zone.entry) disk.old link.old link.new
        → AgreementStays D.model L.model (asked_by words.now settings.now now zone.entry)
        (went disk.old disk.new input.old input.new out.old out.new link.old link.new
        spawner.old spawner.new folder.old folder.new track.old track.new) result.cause }
    // So it is an event of each world in which the disk stands for some states, and so is what a crash leaves of it.
    ensures world { IsEvent D.model L.model (asked_by words.now settings.now now zone.entry)
        (went disk.old disk.new input.old input.new out.old out.new link.old link.new
        spawner.old spawner.new folder.old folder.new track.old track.new) result.cause }
    // The headline: its sentences, of a disk that tells what it holds and a link that is honest.
    ensures headline { Tells D.model disk.old → IsHonestFor L.model (asked_by words.now settings.now now zone.entry) link.old
        → Headline (models D.model S.model O.model L.model P.model F.model J.model) ids.old
        (went disk.old disk.new input.old input.new out.old out.new link.old link.new
        spawner.old spawner.new folder.old folder.new track.old track.new) (asked_by words.now settings.now now zone.entry) result.cause }
    ensures grows { ChainGrows (models D.model S.model O.model L.model P.model F.model J.model) (asked_by words.now settings.now now zone.entry)
        (went disk.old disk.new input.old input.new out.old out.new link.old link.new
        spawner.old spawner.new folder.old folder.new track.old track.new) }

    ensures spares { RunSpares (asked_by words.now settings.now now zone.entry)
        (went disk.old disk.new input.old input.new out.old out.new link.old link.new
        spawner.old spawner.new folder.old folder.new track.old track.new) }
    ensures ids { RunDraws D.model S.model (asked_by words.now settings.now now zone.entry) disk.old input.old input.new
        ids.old ids.new result.cause }
    ensures told { GotFault E.model err.old err.new result.cause }
    ensures status { result.status ≡ status_of result.cause }
    ensures kept { FaultsRise D.model disk.old disk.new }
    ensures link_kept { IsLinkKept L.model link.old link.new }
    ensures spawner_kept { SpawnerKept P.model spawner.old spawner.new }
    ensures input_kept { RunKeepsInput S.model (asked_by words.now settings.now now zone.entry) input.old input.new }
{
    let cause = run_words(
        alloc, words, settings, now, zone, ids, disk, link, input, out, spawner, folder, track,
    );
    put_fault(err, &cause);
    Outcome {
        status: status_of(&cause),
        cause,
    }
}
