// Carrying a command out.
ghost use Rattle.std.specs.Prelude.{◌≡◌, ◌<◌, ◌^◌, length, option_map, true, false, not, IfOk, IfErr};
ghost use Rattle.tw_world.specs.Disk as tells;
ghost use Rattle.tw_world.specs.Crash.{FaultsRise};
ghost use Rattle.tw_ending.specs.Ending.{EndsPrinting};
ghost use Rattle.timew_interval.specs.Interval.{limit};
ghost use Rattle.timew_store.specs.Store.{intervals_of, is_store_closed, store_end};
ghost use Rattle.timew_store.specs.Undo.{undone_held};
ghost use Rattle.timew_store.specs.Growth.{JournalGrowsBy};
ghost use Rattle.timew_words.specs.Given.{IsGiven, IsGivenChange};
ghost use Rattle.timew_cmd.specs.Planned.{planned};
ghost use Rattle.timew_cmd.specs.Texts.{stored};
ghost use Rattle.timew_cli.specs.Cause.{carry_cause};
ghost use Rattle.timew_cli.specs.Carried.{view_of, carried_by, takes_back, changes};
ghost use Rattle.timew_cli.specs.Step.{shown_text, shown_of, EndsOn, LeavesOn, IsFaultOf};
ghost use Rattle.timew_cli.specs.Run.{went, CarriedOut, NotCarried, CanBeCarriedOut, LeavesStates, GrowsByRecord, Gives, CanEnd, IsDoneOrWant};

use crate::cause::Cause;
use crate::text::stored_text;
use std::alloc::Global;
use std::mem::forget;
use timew_cmd::{TimewError, export_text, plan, summary_text, tracking_text};
use timew_interval::Intervals;
use timew_report::{hours_of, time_text};
use timew_store::{LoadError, Store, StoreError, UndoError};
use timew_words::{Changing, Command, Showing};
use tw_ending::print;
use tw_time::Zone;
use tw_world::{Disk, Folder, Memory, Sink};

/// What a command shows: a text, or how many intervals there are after a change.
#[derive(Drop)]
pub(crate) enum Shown {
    Text(Vec<u8>),
    Stored { count: u64 },
}

/// Why a command is not carried out.
#[derive(Drop)]
pub(crate) enum CarryError {
    /// The store was not loaded.
    Load(LoadError),
    /// The intervals refuse the command.
    Refused(TimewError),
    /// The change was not written.
    Change(StoreError),
    /// The last change was not taken back.
    Undo(UndoError),
    /// No interval is open, and there were no words.
    NotTracking,
    /// There was no memory for the text.
    Memory,
}

// The text of a command that only shows, or `None` if nothing is tracked.
fn view(
    alloc: Global,
    showing: &Showing,
    rows: &Intervals,
    now: u64,
    zone: &Zone,
) -> Result<Option<Vec<u8>>, Memory>
    requires { now < limit }
    ensures { IfOk result (λ text. option_map (λ bytes. bytes.items) text ≡ view_of showing.now rows.now now zone.now) }
{
    match showing {
        Showing::Tracked => tracking_text(alloc, rows),
        Showing::Export(range) => {
            let (from, to) = range.bounds(now, zone);
            Ok(Some(export_text(alloc, rows, from, to, now)?))
        }
        Showing::Summary(range) => {
            let (from, to) = range.bounds(now, zone);
            Ok(Some(summary_text(alloc, rows, from, to, now, zone)?))
        }
        Showing::Hours(report, range) => {
            let (from, to) = hours_of(*range, rows, now, zone);
            Ok(Some(time_text(alloc, *report, rows, from, to, now, zone)?))
        }
    }
}

// Lets a store go and keeps its memory, which goes with the program: to give it back takes time with each interval.
fn leave(store: Store) {
    forget(store);
}

// How many intervals a store has.
fn stored(store: Store) -> Shown
    ensures { shown_text result ≡ stored (length (intervals_of store)) }
{
    let count = store.intervals().len();
    leave(store);
    Shown::Stored { count }
}

// Takes the last change back.
fn take_back<F: Folder, D: Disk>(
    alloc: Global,
    store: Store,
    folder: &mut F,
    disk: &mut D,
) -> Result<Shown, CarryError>
    requires length { is_store_closed store ≡ false → D.model.len disk.old ≡ store_end store }
    requires live { is_store_closed store ≡ false }
    ensures ends { EndsOn F.model D.model (went folder.old folder.new disk.old disk.new) store (λ held. takes_back held (undone_held held)) (shown_of result) }
    ensures faults { IfErr result (λ e. IsFaultOf F.model D.model (went folder.old folder.new disk.old disk.new) store (carry_cause e)) }
    ensures any_moment { LeavesOn F.model D.model (went folder.old folder.new disk.old disk.new) store (λ held. takes_back held (undone_held held)) }
    ensures growth { JournalGrowsBy D.model store.journal disk.old disk.new (2 ^ 30) }
    ensures folder { FaultsRise F.model folder.old folder.new }
    ensures disk { tells.FaultsRise D.model disk.old disk.new }
{
    let mut store = store;
    match store.undo(alloc, folder, disk) {
        Ok(()) => Ok(stored(store)),
        Err(error) => Err(CarryError::Undo(error)),
    }
}

// Writes the intervals after a command to the month files.
fn change<F: Folder, D: Disk>(
    alloc: Global,
    command: &Changing,
    now: u64,
    store: Store,
    folder: &mut F,
    disk: &mut D,
) -> Result<Shown, CarryError>
    requires given { IsGivenChange command.now }
    requires now { now < limit }
    requires length { is_store_closed store ≡ false → D.model.len disk.old ≡ store_end store }
    requires live { is_store_closed store ≡ false }
    ensures ends { EndsOn F.model D.model (went folder.old folder.new disk.old disk.new) store
        (λ held. changes held (planned command.now (intervals_of store) now)) (shown_of result) }
    ensures faults { IfErr result (λ e. IsFaultOf F.model D.model (went folder.old folder.new disk.old disk.new) store (carry_cause e)) }
    ensures any_moment { LeavesOn F.model D.model (went folder.old folder.new disk.old disk.new) store
        (λ held. changes held (planned command.now (intervals_of store) now)) }
    ensures growth { JournalGrowsBy D.model store.journal disk.old disk.new (2 ^ 30) }
    ensures folder { FaultsRise F.model folder.old folder.new }
    ensures disk { tells.FaultsRise D.model disk.old disk.new }
{
    let mut store = store;
    let edit = match plan(alloc, command, store.intervals(), now) {
        Ok(edit) => edit,
        Err(error) => return Err(CarryError::Refused(error)),
    };
    match store.change(alloc, folder, disk, edit) {
        Ok(()) => Ok(stored(store)),
        Err(error) => Err(CarryError::Change(error)),
    }
}

// Carries a command out over a store that is open.
fn carry_on<F: Folder, D: Disk>(
    alloc: Global,
    command: &Command,
    now: u64,
    zone: &Zone,
    store: Store,
    folder: &mut F,
    disk: &mut D,
) -> Result<Shown, CarryError>
    requires given { IsGiven command.now }
    requires now { now < limit }
    requires length { is_store_closed store ≡ false → D.model.len disk.old ≡ store_end store }
    requires live { is_store_closed store ≡ false }
    ensures ends { EndsOn F.model D.model (went folder.old folder.new disk.old disk.new) store
        (λ held. carried_by command.now held (intervals_of store) now zone.now) (shown_of result) }
    ensures faults { IfErr result (λ e. IsFaultOf F.model D.model (went folder.old folder.new disk.old disk.new) store (carry_cause e)) }
    ensures any_moment { LeavesOn F.model D.model (went folder.old folder.new disk.old disk.new) store
        (λ held. carried_by command.now held (intervals_of store) now zone.now) }
    ensures growth { JournalGrowsBy D.model store.journal disk.old disk.new (2 ^ 30) }
    ensures folder { FaultsRise F.model folder.old folder.new }
    ensures disk { tells.FaultsRise D.model disk.old disk.new }
{
    let showing = match command {
        Command::Change(command) => return change(alloc, command, now, store, folder, disk),
        Command::Undo => return take_back(alloc, store, folder, disk),
        Command::Show(showing) => showing,
    };
    let text = match view(alloc, showing, store.intervals(), now, zone) {
        Ok(text) => text,
        Err(_) => return Err(CarryError::Memory),
    };
    leave(store);
    match text {
        Some(text) => Ok(Shown::Text(text)),
        None => Err(CarryError::NotTracking),
    }
}

// Carries a command out over what a folder and a disk hold, and gives what to print. It writes at most one record, for which all
// memory has been taken before.
fn carry_out<F: Folder, D: Disk>(
    alloc: Global,
    command: &Command,
    now: u64,
    zone: &Zone,
    folder: &mut F,
    disk: &mut D,
) -> Result<Shown, CarryError>
    requires given { IsGiven command.now }
    requires now { now < limit }
    ensures done { IfOk result (λ shown. CarriedOut F.model D.model command.now now zone.now
        (went folder.old folder.new disk.old disk.new) (shown_text shown)) }
    ensures refused { IfErr result (NotCarried F.model D.model command.now now zone.now (went folder.old folder.new disk.old disk.new)) }
    ensures complete { IfErr result (λ e. CanBeCarriedOut F.model D.model command.now now zone.now (went folder.old folder.new disk.old disk.new)
        → carry_cause e ≡ Cause.Memory) }
    ensures any_moment { LeavesStates F.model D.model command.now now zone.now (went folder.old folder.new disk.old disk.new) }
    ensures growth { GrowsByRecord D.model disk.old disk.new }
    ensures folder { FaultsRise F.model folder.old folder.new }
    ensures disk { tells.FaultsRise D.model disk.old disk.new }
{
    match Store::load(alloc, folder, disk) {
        Ok(store) => carry_on(alloc, command, now, zone, store, folder, disk),
        Err(error) => Err(CarryError::Load(error)),
    }
}

// Prints what a command shows.
fn print_shown<O: Sink>(out: &mut O, shown: &Shown) -> Cause
    ensures { EndsPrinting O.model out.old out.new (shown_text shown.now) Cause.Done Cause.OutFault result }
{
    match shown {
        Shown::Text(text) => print(out, text.as_slice(), Cause::Done, Cause::OutFault),
        Shown::Stored { count } => print(
            out,
            stored_text(*count).as_str().as_bytes(),
            Cause::Done,
            Cause::OutFault,
        ),
    }
}

/// Carries a command out, and prints what it shows.
pub(crate) fn run_command<F: Folder, D: Disk, O: Sink>(
    alloc: Global,
    command: &Command,
    now: u64,
    zone: &Zone,
    folder: &mut F,
    disk: &mut D,
    out: &mut O,
) -> Cause
    requires given { IsGiven command.now }
    requires now { now < limit }
    ensures gives { Gives F.model D.model command.now now zone.now (went folder.old folder.new disk.old disk.new) O.model out.old out.new result }
    ensures complete { CanEnd F.model D.model command.now now zone.now (went folder.old folder.new disk.old disk.new)
        O.model out.old out.new → IsDoneOrWant result }
    ensures any_moment { LeavesStates F.model D.model command.now now zone.now (went folder.old folder.new disk.old disk.new) }
    ensures growth { GrowsByRecord D.model disk.old disk.new }
    ensures folder { FaultsRise F.model folder.old folder.new }
    ensures disk { tells.FaultsRise D.model disk.old disk.new }
{
    match carry_out(alloc, command, now, zone, folder, disk) {
        Ok(shown) => print_shown(out, &shown),
        Err(error) => Cause::from(error),
    }
}
