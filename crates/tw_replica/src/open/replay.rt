// Replaying the records of a journal.
ghost use Rattle.std.specs.Prelude.{◌≡◌, ◌<◌, List, ℕ, true, false, IfOk, OnOk, IfErr};
ghost use Rattle.tw_world.specs.Disk.{Untouched};
ghost use Rattle.tw_journal.specs.Window.{IsWindowOn};
ghost use Rattle.tw_journal.specs.Journal.{IsOpenOn, is_closed, journal_count, journal_end};
ghost use Rattle.tw_state.specs.State.{Stands, is_sound};
ghost use Rattle.tw_state.specs.Core.{state_of};
ghost use Rattle.tw_state.specs.Indexed.{IsUpToDate};
ghost use Rattle.tw_replica.specs.Replica.{magic, TakesRecord, TakingRefused, ReplayRefused};

use crate::error::{OpenError, read_error};
use std::alloc::Global;
use tw_journal::{Journal, Window};
use tw_state::{Core, Indexed};
use tw_world::Disk;

// Takes the step of the record with number `n`.
fn take_record<D: Disk>(
    alloc: Global,
    journal: &Journal,
    window: &mut Window,
    disk: &mut D,
    n: u64,
    indexed: &mut Indexed,
) -> Result<(), OpenError>
    requires window { IsWindowOn D.model disk.old window.old }
    requires ready { IsUpToDate indexed.old }
    requires inside { n < journal_count journal.now }
    requires open_now { is_closed journal.now ≡ false }
    requires length { D.model.len disk.old ≡ journal_end journal.now }
    ensures step { OnOk result (TakesRecord D.model journal.now disk.old n (state_of indexed.old.core) (state_of indexed.new.core)) }
    ensures ready { OnOk result (IsUpToDate indexed.new) }
    ensures sound { OnOk result (is_sound (state_of indexed.old.core) ≡ true → is_sound (state_of indexed.new.core) ≡ true) }
    ensures window { OnOk result (IsWindowOn D.model disk.new window.new) }
    ensures untouched { Untouched D.model disk.old disk.new }
    ensures refused { IfErr result (λ e. TakingRefused D.model disk.old disk.new journal.now n (state_of indexed.old.core) e) }
{
    let body = match journal.body_through(alloc, window, disk, n) {
        Ok(body) => body,
        Err(error) => return Err(read_error(error)),
    };
    if indexed.step(alloc, body)? {
        return Ok(());
    }
    match journal.offset(disk, n) {
        Ok(offset) => Err(OpenError::Damaged { offset }),
        Err(error) => Err(read_error(error)),
    }
}

/// What the records of an open journal lead to.
pub(crate) fn replay<D: Disk>(
    alloc: Global,
    journal: &Journal,
    disk: &mut D,
) -> Result<Core, OpenError>
    requires open_now { is_closed journal.now ≡ false }
    requires length { D.model.len disk.old ≡ journal_end journal.now }
    ensures stands { IfOk result (λ core. (bodies : List (List ℕ)) → IsOpenOn D.model magic journal.now disk.old bodies → Stands bodies (state_of core)) }
    ensures sound { IfOk result (λ core. is_sound (state_of core) ≡ true) }
    ensures untouched { Untouched D.model disk.old disk.new }
    ensures refused { IfErr result (λ e. ReplayRefused D.model disk.old disk.new journal.now e) }
{
    let mut indexed = Indexed::new(alloc);
    let mut window = Window::on(alloc, &*disk);
    for n in 0..journal.count() {
        take_record(alloc, journal, &mut window, disk, n, &mut indexed)?;
    }
    Ok(indexed.into_core())
}
