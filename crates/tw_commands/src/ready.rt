// A command that is made in memory, with its text.
ghost use Rattle.std.specs.Prelude.{◌≡◌, length, Ok as AnOk, Err as AnErr, None as Nowhere, IfOk, IfErr};
ghost use Rattle.tw_state.specs.State.{State, applied};
ghost use Rattle.tw_replica.specs.Replica.{held_state};
ghost use Rattle.tw_replica.specs.Prepared.{IsPrepared, prepared_state};
ghost use Rattle.tw_commands.specs.Plan.{step_in, work_view, show_view, plan_view};
ghost use Rattle.tw_commands.specs.Plan.Work.{Changes};
ghost use Rattle.tw_commands.specs.Carried.{circle_in};
ghost use Rattle.tw_commands.specs.Texts.{shown, texted};
ghost use Rattle.tw_commands.specs.Carried.{concluded};
ghost use Rattle.tw_commands.specs.Ready.{IsReady, NotReady};

use crate::commands::report::reported;
use crate::plan::{Plan, Show, Work};
use crate::texts::{counted_text, created_text, logged_text, undone_text};
use std::alloc::Global;
use tw_changes::{Mark, Refusal, Request, first_circle, is_judged, mask_changes};
use tw_model::Change;
use tw_replica::{Prepared, Replica, TakeBackError};
use tw_world::{Memory, Moment};
use uuid::Uuid;

/// A command that is made in memory: its step, which is yet to be written, and what is to be printed then.
#[derive(Drop)]
pub struct Ready {
    pub prepared: Prepared,
    pub text: Vec<u8>,
}

/// Makes the changes of a command in memory, and then those of the parents that it marks.
pub(crate) fn make_changes(
    alloc: Global,
    replica: Replica,
    changes: Vec<Change>,
    marks: &Vec<Mark>,
    now: Moment,
    renumber: bool,
) -> Result<Prepared, Memory>
    ensures { IfOk result (IsPrepared replica (step_in now (held_state replica) (Changes renumber changes.items marks.now.items))) }
{
    let mut editing = replica.edit(alloc);
    editing.make(alloc, changes, now)?;
    let masks = mask_changes(alloc, now, editing.tasks(), marks)?;
    editing.make(alloc, masks, now)?;
    editing.prepare(alloc, renumber)
}

// Takes the step of a command in memory.
fn prepare(
    alloc: Global,
    replica: Replica,
    work: Work,
    now: Moment,
) -> Result<Result<Prepared, Refusal>, Memory>
    ensures prepared { IfOk result (λ made. IfOk made (IsPrepared replica (step_in now (held_state replica) (work_view work)))) }
    ensures refused { IfOk result (λ made. IfErr made (λ refusal. (refusal ≡ Refusal.NothingToUndo)
        × (applied (held_state replica) (step_in now (held_state replica) (work_view work)) ≡ Nowhere))) }
{
    match work {
        Work::Changes {
            renumber,
            changes,
            marks,
        } => {
            let prepared = make_changes(alloc, replica, changes, &marks, now, renumber)?;
            Ok(Ok(prepared))
        }
        Work::TakeBack => match replica.take_back(alloc) {
            Ok(prepared) => Ok(Ok(prepared)),
            Err(TakeBackError::NothingToUndo) => Ok(Err(Refusal::NothingToUndo)),
            Err(TakeBackError::Memory) => Err(Memory),
        },
    }
}

// The text of a command, once its step is taken in memory. Before it, so many operations were pending.
fn shown(
    alloc: Global,
    request: &Request<'_>,
    show: Show,
    pending: usize,
    prepared: &Prepared,
) -> Result<Result<Vec<u8>, Refusal>, Memory>
    ensures { IfOk result (λ text. (old : State) → pending ≡ length old.pending
        → texted text ≡ shown request.now (show_view show) old (prepared_state prepared.now)) }
{
    let text = match show {
        Show::Counted { deed, count } => counted_text(alloc, deed, count)?,
        Show::Created { uuid } => {
            created_text(alloc, uuid, prepared.numbers(), prepared.tasks())?
        }
        Show::Logged => logged_text(alloc)?,
        Show::TakenBack => {
            let gone = pending.saturating_sub(prepared.pending().len());
            undone_text(alloc, gone.saturating_sub(1) as u64)?
        }
        Show::Text(text) => text,
        Show::Report { report, numbers } => {
            return reported(alloc, request, report, &numbers, prepared);
        }
    };
    Ok(Ok(text))
}

// The first circle that a command closes. Before its step, so many operations were pending.
fn circle_in(
    alloc: Global,
    request: &Request<'_>,
    pending: usize,
    prepared: &Prepared,
) -> Result<Option<Uuid>, Memory>
    ensures { IfOk result (λ circle. (old : State) → pending ≡ length old.pending
        → circle ≡ circle_in request.now.command old (prepared_state prepared.now)) }
{
    if is_judged(request.command) {
        let made = prepared.pending().behind(alloc, pending)?;
        first_circle(alloc, prepared.tasks(), &made, 0)
    } else {
        Ok(None)
    }
}

// The text of a command, or why it does nothing after all.
fn concluded(
    alloc: Global,
    request: &Request<'_>,
    show: Show,
    pending: usize,
    prepared: &Prepared,
) -> Result<Result<Vec<u8>, Refusal>, Memory>
    ensures { IfOk result (λ text. (old : State) → pending ≡ length old.pending
        → texted text ≡ concluded request.now (show_view show) old (prepared_state prepared.now)) }
{
    if let Some(uuid) = circle_in(alloc, request, pending, prepared)? {
        return Ok(Err(Refusal::Cycle { uuid }));
    }
    shown(alloc, request, show, pending, prepared)
}

/// Makes in memory what a plan comes to in the replica for which it was made, with its text, or says why the command does nothing.
/// All the memory that it wants is taken here. What is refused is dropped with the replica.
pub fn conclude(
    alloc: Global,
    request: &Request<'_>,
    plan: Plan,
    replica: Replica,
) -> Result<Result<Ready, Refusal>, Memory>
    ensures ready { IfOk result (λ concluded. IfOk concluded (IsReady request.now (plan_view plan) replica)) }
    ensures refused { IfOk result (λ concluded. IfErr concluded (NotReady request.now (plan_view plan) replica)) }
{
    let pending = replica.pending().len();
    let (work, show) = plan.into_parts();
    let prepared = match prepare(alloc, replica, work, request.at)? {
        Ok(prepared) => prepared,
        Err(refusal) => return Ok(Err(refusal)),
    };
    match concluded(alloc, request, show, pending, &prepared)? {
        Ok(text) => Ok(Ok(Ready { prepared, text })),
        Err(refusal) => Ok(Err(refusal)),
    }
}
