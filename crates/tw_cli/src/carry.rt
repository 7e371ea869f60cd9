// Carrying a command out: the engine that all commands share.
ghost use Rattle.std.specs.Prelude.{◌≡◌, ◌^◌, min, false, length, IfOk, IfErr};
ghost use Rattle.tw_world.specs.Disk.{FaultsRise};
ghost use Rattle.tw_world.specs.Crash as crash;
ghost use Rattle.tw_journal.specs.Journal.{is_closed};
ghost use Rattle.tw_journal.specs.Record.{rows};
ghost use Rattle.tw_replica.specs.Replica.{JournalGrowsBy};
ghost use Rattle.tw_replica.specs.Prepared.{IsLengthReady, prepared_bodies, prepared_state};
ghost use Rattle.tw_cli.specs.Cause.{carry_cause, ended};
ghost use Rattle.tw_cli.specs.Hooks.{HooksKept};
ghost use Rattle.tw_cli.specs.Input.{IsInputKept, WithInput};
ghost use Rattle.tw_cli.specs.Run.{NotCarried, Shows, CanCarryOut, Gives, CanEnd, Draws, IsDoneOrWant};
ghost use Rattle.tw_cli.specs.Crash.{LeavesRecords, LeavesCommand};
ghost use Rattle.tw_cli.specs.Growth.{OpeningGrows, GrowsByRecord};
ghost use Rattle.tw_cli.specs.Ready.{KnowsTasks, CanBeWritten, SparesHours, WriteEnds, WriteLeaves, IsMade, MadeEnds};
ghost use Rattle.tw_cli.specs.Hours.{HoursCan, DrivesHours};

use crate::cause::Cause;
use crate::deciding::decide;
use crate::hours::{Before, asked_before, ready_hours, write_hours};
use crate::input::{InputError, command_of, take_input, with_input};
use crate::opening::{leave, open};
use std::alloc::Global;
use timew_store::{LoadError, PreparedChange};
use tw_changes::{Refusal, Request};
use tw_commands::Ready;
use tw_ending::print;
use tw_hooks::HookError;
use tw_replica::{OpenError, Prepared, WriteError};
use tw_spawn::Spawner;
use tw_world::{Disk, Folder, IdWords, Moment, Sink, Source};

/// Why a command is not carried out.
#[derive(Drop)]
pub(crate) enum CarryError {
    /// The replica was not opened.
    Open(OpenError),
    /// The input was not taken.
    Input(InputError),
    /// The command does nothing.
    Refused(Refusal),
    /// Its hooks do not let a task become so. The name of the hook is as a line shows it.
    Hook(HookError),
    /// The record would have so many bytes, which are too many.
    TooLong { bytes: u64 },
    /// The disk failed while the record was written, which may be there or not.
    Disk,
    /// There was no memory once the replica was open. The records stay.
    Memory,
    /// The hours that the command drives were not loaded. Nothing was written.
    Load(LoadError),
    /// The record of the change of the hours would have so many bytes, which are too many. Nothing was written.
    HoursTooLong { bytes: u64 },
    /// The folder or the journal of hours failed after the record of the command was written.
    Track,
}

/// A command that is made in memory at a moment, and what intervals ask of the tasks before it if it drives them.
#[derive(Drop)]
pub(crate) struct Made {
    pub(crate) ready: Ready,
    pub(crate) before: Option<Before>,
    pub(crate) at: Moment,
}

// Makes a command in memory over the replica that a disk holds, with the input that it takes and what its hooks answer. It writes nothing but what
// an opening does.
fn make<D: Disk, S: Source, P: Spawner>(
    alloc: Global,
    request: Request<'_>,
    ids: &mut IdWords,
    disk: &mut D,
    input: &mut S,
    spawner: &mut P,
) -> Result<Made, CarryError>
    ensures made { IfOk result (λ made. WithInput S.model request.entry input.old input.new
        (λ r. IsMade D.model P.model r ids.old disk.old disk.new spawner.old spawner.new made)) }
    ensures refused { IfErr result (NotCarried D.model S.model P.model request.entry ids.old disk.old disk.new input.old input.new
        spawner.old spawner.new) }
    ensures complete { IfErr result (λ e. CanCarryOut D.model S.model P.model request.entry ids.old disk.old disk.new input.old input.new
        spawner.old spawner.new → carry_cause e ≡ Cause.Memory) }
    ensures any_moment { LeavesRecords D.model disk.old disk.new }
    ensures growth { OpeningGrows D.model disk.old disk.new }
    ensures unopened { IfErr result SparesHours }
    ensures ids { Draws D.model S.model request.entry disk.old input.old input.new ids.old ids.new (ended carry_cause result) }
    ensures kept { FaultsRise D.model disk.old disk.new }
    ensures input_kept { IsInputKept S.model request.entry.command input.old input.new }
    ensures hooks_kept { HooksKept P.model request.entry spawner.old spawner.new }
{
    let replica = match open(alloc, disk) {
        Ok(replica) => replica,
        Err(error) => return Err(CarryError::Open(error)),
    };
    let command = command_of(&request);
    let taken = match take_input(alloc, command, input) {
        Ok(taken) => taken,
        Err(error) => return Err(CarryError::Input(error)),
    };
    let request = with_input(request, taken);
    let before = match asked_before(alloc, &request, &replica) {
        Ok(before) => before,
        Err(_) => return Err(CarryError::Memory),
    };
    match decide(alloc, &request, ids, spawner, replica) {
        Ok(ready) => Ok(Made {
            ready,
            before,
            at: request.at,
        }),
        Err(error) => Err(error),
    }
}

// Writes the record of a command, and after it the change of the hours. All memory has been taken. Answers what failed.
fn write_both<D: Disk, F: Folder, J: Disk>(
    prepared: Prepared,
    hours: Option<PreparedChange>,
    disk: &mut D,
    folder: &mut F,
    track: &mut J,
) -> Option<CarryError>
    requires length { IsLengthReady D.model prepared disk.old }
    requires live { is_closed prepared.journal ≡ false }
    requires hours { CanBeWritten J.model track.old hours }
    ensures ends { WriteEnds D.model F.model J.model prepared disk.old disk.new folder.old folder.new track.old track.new hours result }
    ensures any_moment { WriteLeaves D.model F.model J.model prepared disk.old disk.new folder.old folder.new track.old track.new hours }
    ensures growth { JournalGrowsBy D.model prepared.journal disk.old disk.new (min (length (rows (prepared_bodies prepared))) (2 ^ 30)) }
    ensures kept { FaultsRise D.model disk.old disk.new }
    ensures folder { crash.FaultsRise F.model folder.old folder.new }
    ensures track { FaultsRise J.model track.old track.new }
{
    match prepared.write(disk) {
        Ok(replica) => {
            leave(replica);
            if write_hours(hours, folder, track) {
                None
            } else {
                Some(CarryError::Track)
            }
        }
        Err(WriteError::Disk) => Some(CarryError::Disk),
        Err(WriteError::TooLong { bytes }) => Some(CarryError::TooLong { bytes }),
        Err(WriteError::Closed) => unreachable!(),
    }
}

// Writes what was made: takes all the memory that the hours want, and then writes the record and the change of the hours.
fn write_made<D: Disk, F: Folder, J: Disk>(
    alloc: Global,
    made: Made,
    disk: &mut D,
    folder: &mut F,
    track: &mut J,
) -> Result<Vec<u8>, CarryError>
    requires length { IsLengthReady D.model made.ready.prepared disk.old }
    requires live { is_closed made.ready.prepared.journal ≡ false }
    requires before { KnowsTasks made.at.seconds made.before (prepared_state made.ready.prepared) }
    ensures ends { MadeEnds D.model F.model J.model made disk.old disk.new folder.old folder.new track.old track.new result }
    ensures growth { JournalGrowsBy D.model made.ready.prepared.journal disk.old disk.new
        (min (length (rows (prepared_bodies made.ready.prepared))) (2 ^ 30)) }
    ensures kept { FaultsRise D.model disk.old disk.new }
    ensures folder { crash.FaultsRise F.model folder.old folder.new }
    ensures track { FaultsRise J.model track.old track.new }
{
    let Made { ready, before, at } = made;
    let Ready { prepared, text } = ready;
    let hours = match ready_hours(alloc, at, &before, &prepared, folder, track) {
        Ok(hours) => hours,
        Err(error) => return Err(error),
    };
    match write_both(prepared, hours, disk, folder, track) {
        None => Ok(text),
        Some(error) => Err(error),
    }
}

// Carries a command out over the replica that a disk holds, with the input that it takes and what its hooks answer, and gives what to print. It
// writes at most one record, for which all memory has been taken before, and only after its hooks. A command that drives intervals changes the
// hours after that.
fn carry_out<D: Disk, S: Source, P: Spawner, F: Folder, J: Disk>(
    alloc: Global,
    request: Request<'_>,
    ids: &mut IdWords,
    disk: &mut D,
    input: &mut S,
    spawner: &mut P,
    folder: &mut F,
    track: &mut J,
) -> Result<Vec<u8>, CarryError>
    ensures shows { IfOk result (λ text. Shows D.model S.model P.model request.entry ids.old disk.old disk.new input.old input.new
        spawner.old spawner.new text.items) }
    ensures refused { IfErr result (NotCarried D.model S.model P.model request.entry ids.old disk.old disk.new input.old input.new
        spawner.old spawner.new) }
    ensures complete { IfErr result (λ e. (can : CanCarryOut D.model S.model P.model request.entry ids.old disk.old disk.new input.old input.new
        spawner.old spawner.new) → HoursCan F.model J.model can folder.old folder.new track.old track.new → carry_cause e ≡ Cause.Memory) }
    ensures any_moment { LeavesCommand D.model S.model P.model request.entry ids.old disk.old disk.new input.old input.new
        spawner.old spawner.new (ended carry_cause result) }
    ensures growth { GrowsByRecord D.model disk.old disk.new }
    ensures hours { DrivesHours D.model S.model P.model F.model J.model request.entry ids.old disk.old disk.new input.old input.new
        spawner.old spawner.new folder.old folder.new track.old track.new (ended carry_cause result) }
    ensures ids { Draws D.model S.model request.entry disk.old input.old input.new ids.old ids.new (ended carry_cause result) }
    ensures kept { FaultsRise D.model disk.old disk.new }
    ensures input_kept { IsInputKept S.model request.entry.command input.old input.new }
    ensures hooks_kept { HooksKept P.model request.entry spawner.old spawner.new }
{
    match make(alloc, request, ids, disk, input, spawner) {
        Ok(made) => write_made(alloc, made, disk, folder, track),
        Err(error) => Err(error),
    }
}

/// Carries a command out, and prints its text.
pub(crate) fn run_command<D: Disk, S: Source, O: Sink, P: Spawner, F: Folder, J: Disk>(
    alloc: Global,
    request: Request<'_>,
    ids: &mut IdWords,
    disk: &mut D,
    input: &mut S,
    out: &mut O,
    spawner: &mut P,
    folder: &mut F,
    track: &mut J,
) -> Cause
    ensures gives { Gives D.model S.model P.model request.entry ids.old disk.old disk.new input.old input.new
        spawner.old spawner.new O.model out.old out.new result }
    ensures complete { (can : CanEnd D.model S.model P.model request.entry ids.old disk.old disk.new input.old input.new
        spawner.old spawner.new O.model out.old out.new) → HoursCan F.model J.model can.can folder.old folder.new track.old track.new
        → IsDoneOrWant result }
    ensures any_moment { LeavesCommand D.model S.model P.model request.entry ids.old disk.old disk.new input.old input.new
        spawner.old spawner.new result }
    ensures growth { GrowsByRecord D.model disk.old disk.new }
    ensures hours { DrivesHours D.model S.model P.model F.model J.model request.entry ids.old disk.old disk.new input.old input.new
        spawner.old spawner.new folder.old folder.new track.old track.new result }
    ensures ids { Draws D.model S.model request.entry disk.old input.old input.new ids.old ids.new result }
    ensures kept { FaultsRise D.model disk.old disk.new }
    ensures input_kept { IsInputKept S.model request.entry.command input.old input.new }
    ensures hooks_kept { HooksKept P.model request.entry spawner.old spawner.new }
{
    match carry_out(alloc, request, ids, disk, input, spawner, folder, track) {
        Ok(text) => print(out, text.as_slice(), Cause::Done, Cause::OutFault),
        Err(error) => Cause::from(error),
    }
}
