// When a recurring task is due.
ghost use Rattle.std.specs.Prelude.{◌≡◌, ◌<◌, ◌≤◌, ◌^◌, true, IfSome, length, chars};
ghost use Rattle.std.specs.Option.{option_copied};
ghost use Rattle.tw_time.specs.Lengths.{IsOfOneUnit, shift_of};
ghost use Rattle.tw_recur.specs.Recurrence.{length_of, paired, recurrence_of, mask_of, due_of, are_due, up_to, wanted, IsRecurrence, IsLongPast};

use tw_model::TaskMap;
use tw_time::{Length, Zone, add_length, read_duration};
use tw_urgency::moment_at;
use tw_world::MOMENT_LIMIT;

/// A due moment that comes again after each length.
#[derive(Clone, Copy)]
pub(crate) struct Recurrence {
    pub(crate) due: u64,
    pub(crate) length: Length,
}

fn length_of(text: Option<&str>) -> Option<Length>
    ensures value { result ≡ length_of (option_copied text.entry) }
    ensures of_one_unit { IfSome result IsOfOneUnit }
{
    match text {
        Some(text) => read_duration(text).ok(),
        None => None,
    }
}

fn paired(due: Option<u64>, length: Option<Length>) -> Option<Recurrence>
    requires due { IfSome due (λ at. at < MOMENT_LIMIT) }
    requires length { IfSome length IsOfOneUnit }
    ensures value { result ≡ paired due length }
    ensures right { IfSome result IsRecurrence }
{
    match (due, length) {
        (Some(due), Some(length)) => Some(Recurrence { due, length }),
        _ => None,
    }
}

/// The recurrence of a recurring task, if its `due` and its `recur` can be read.
#[tactic(auto, unfolding(crate::specs::Recurrence::recurrence_of))]
pub(crate) fn recurrence_of(task: &TaskMap) -> Option<Recurrence>
    ensures value { result ≡ recurrence_of task.now }
    ensures right { IfSome result IsRecurrence }
{
    if task.get("status") != Some("recurring") {
        return None;
    }
    paired(moment_at(task, "due"), length_of(task.get("recur")))
}

/// The mask of a task: a character for each instance that was made.
pub(crate) fn mask_of(task: &TaskMap) -> &str
    ensures { result.now ≡ mask_of task.now }
{
    match task.get("mask") {
        Some(mask) => mask,
        None => "",
    }
}

/// When instance `i` is due, counted from the task's own `due`.
#[tactic(auto, unfolding(crate::specs::Recurrence::due_of))]
pub(crate) fn due_of(recurrence: &Recurrence, zone: &Zone, i: u32) -> Option<u64>
    requires { IsRecurrence recurrence.now }
    ensures value { result ≡ due_of recurrence.now zone.now i }
    ensures in_range { IfSome result (λ at. at < MOMENT_LIMIT) }
{
    add_length(recurrence.due, &recurrence.length, i, zone)
}

fn shift_of(length: &Length) -> u64
    ensures value { result ≡ shift_of length.now }
    ensures small { result ≤ 187198 }
{
    if length.months == 0 && length.days == 0 {
        0
    } else {
        187_198
    }
}

// Whether all instances before one that is due at this moment are due by now, whatever the zone's clock does.
fn is_long_past(recurrence: &Recurrence, now: u64, at: u64) -> bool
    requires { at < MOMENT_LIMIT }
    ensures { result ≡ true → IsLongPast recurrence.now now at }
{
    let shift = shift_of(&recurrence.length);
    shift <= recurrence.due && at + shift <= now && at + shift < MOMENT_LIMIT
}

// Whether each of the first instances is due by now, looked at from the last. So many are known to be.
fn are_due(recurrence: &Recurrence, zone: &Zone, now: u64, known: &mut u64, count: u64) -> bool
    requires right { IsRecurrence recurrence.now }
    requires known { are_due recurrence.now zone.now now known.old ≡ true }
    requires few { count ≤ 2 ^ 32 }
    ensures value { result ≡ are_due recurrence.now zone.now now count }
    ensures known { are_due recurrence.now zone.now now known.new ≡ true }
{
    if count <= *known {
        return true;
    }
    let mut left = count;
    while *known < left {
        let Some(at) = due_of(recurrence, zone, (left - 1) as u32) else {
            return false;
        };
        if now < at {
            return false;
        }
        if is_long_past(recurrence, now, at) {
            *known = count;
            return true;
        }
        left -= 1;
    }
    *known = count;
    true
}

fn up_to(until: Option<u64>, at: Option<u64>) -> Option<u64>
    requires { IfSome at (λ n. n < MOMENT_LIMIT) }
    ensures value { result ≡ up_to until at }
    ensures in_range { IfSome result (λ n. n < MOMENT_LIMIT) }
{
    let at = at?;
    match until {
        Some(until) => if at <= until { Some(at) } else { None },
        None => Some(at),
    }
}

/// When instance `i` is due, if it is to be made. So many are known to be due by now.
#[tactic(auto, unfolding(crate::specs::Recurrence::wanted))]
pub(crate) fn wanted(
    recurrence: &Recurrence,
    until: Option<u64>,
    zone: &Zone,
    now: u64,
    limit: u32,
    i: u64,
    known: &mut u64,
) -> Option<u64>
    requires right { IsRecurrence recurrence.now }
    requires known { are_due recurrence.now zone.now now known.old ≡ true }
    ensures value { result ≡ wanted recurrence.now until zone.now now limit i }
    ensures small { IfSome result (λ n. i < 2 ^ 32) }
    ensures in_range { IfSome result (λ n. n < MOMENT_LIMIT) }
    ensures known { are_due recurrence.now zone.now now known.new ≡ true }
{
    if i >= 4_294_967_296 {
        return None;
    }
    if !are_due(
        recurrence,
        zone,
        now,
        known,
        (i + 1).saturating_sub(u64::from(limit)),
    ) {
        return None;
    }
    up_to(until, due_of(recurrence, zone, i as u32))
}
