// How urgent a task is.
ghost use Rattle.std.specs.Prelude.{◌≡◌, ◌≤◌, ◌<◌, count_by, is_some, codes, IfSome};
ghost use Rattle.std.specs.Option.{option_copied};
ghost use Rattle.std.specs.FinMap as map;
ghost use Rattle.tw_world.specs.declared.moment.TheConstants.{MOMENT_LIMIT};
ghost use Rattle.tw_urgency.specs.Stored.{is_tag, is_annotation};
ghost use Rattle.tw_urgency.specs.Urgency.{IsSmall, IsWithin, AreWeights, share, term_if, count_term, priority_term, has_come, age_term};
ghost use Rattle.tw_urgency.specs.Urgency.{due_term_at, due_term, property_terms, count_terms, moment_terms, waiting_terms};
ghost use Rattle.tw_urgency.specs.Urgency.{is_waiting, task_urgency, urgency};

use crate::coefficients::Coefficients;
use crate::dependencies::{blocking, is_blocked};
use crate::status::{is_pending, waits};
use crate::stored::{is_annotation, is_tag, moment_at};
use tw_model::{TaskMap, Tasks};
use uuid::Uuid;

// So many parts of a coefficient, cut toward zero.
#[tactic(auto, unfolding(crate::specs::Urgency::share))]
fn share(c: i64, part: u64, whole: u64) -> i64
    requires small { IsSmall c }
    requires part { part ≤ whole }
    requires some { 0 < whole }
    requires few { whole ≤ 8_640_000_000 }
    ensures value { result ≡ share c part whole }
    ensures small { IsSmall result }
{
    let size = c.unsigned_abs() * part / whole;
    if c < 0 { -(size as i64) } else { size as i64 }
}

fn term_if(holds: bool, c: i64) -> i64
    requires small { IsSmall c }
    ensures value { result ≡ term_if holds c }
    ensures small { IsSmall result }
{
    if holds { c } else { 0 }
}

// What a number of tags or annotations weighs.
#[tactic(auto, unfolding(crate::specs::Urgency::count_term))]
fn count_term(n: u64, c: i64) -> i64
    requires small { IsSmall c }
    ensures value { result ≡ count_term n c }
    ensures small { IsSmall result }
{
    match n {
        0 => 0,
        1 => share(c, 8, 10),
        2 => share(c, 9, 10),
        _ => c,
    }
}

fn priority_term(weights: &Coefficients, value: Option<&str>) -> i64
    requires { AreWeights weights.now }
    ensures value { result ≡ priority_term weights.now (option_copied value.entry) }
    ensures small { IsSmall result }
{
    match value {
        Some("H") => weights.high,
        Some("M") => weights.medium,
        Some("L") => weights.low,
        _ => 0,
    }
}

fn has_come(now: u64, at: Option<u64>) -> bool
    ensures { result ≡ has_come now at }
{
    match at {
        Some(at) => at <= now,
        None => false,
    }
}

// What an age weighs, up to the greatest one.
#[tactic(auto, unfolding(crate::specs::Urgency::age_term))]
fn age_term(now: u64, weights: &Coefficients, entry: Option<u64>) -> i64
    requires { AreWeights weights.now }
    ensures value { result ≡ age_term now weights.now entry }
    ensures small { IsSmall result }
{
    let Some(entry) = entry else {
        return 0;
    };
    if entry > now {
        return 0;
    }
    let most = u64::from(weights.age_max) * 86_400;
    share(weights.age, (now - entry).min(most), most)
}

// What a due moment weighs.
#[tactic(auto, unfolding(crate::specs::Urgency::due_term_at))]
fn due_term_at(now: u64, c: i64, due: u64) -> i64
    requires small { IsSmall c }
    requires now { now < MOMENT_LIMIT }
    requires due { due < MOMENT_LIMIT }
    ensures value { result ≡ due_term_at now c due }
    ensures small { IsSmall result }
{
    if due + 604_800 <= now {
        return c;
    }
    if now + 1_209_600 <= due {
        return share(c, 2, 10);
    }
    share(c, 3_628_800 + 8 * (now + 1_209_600 - due), 18_144_000)
}

fn due_term(now: u64, c: i64, due: Option<u64>) -> i64
    requires small { IsSmall c }
    requires now { now < MOMENT_LIMIT }
    requires due { IfSome due (λ due. due < MOMENT_LIMIT) }
    ensures value { result ≡ due_term now c due }
    ensures small { IsSmall result }
{
    match due {
        Some(due) => due_term_at(now, c, due),
        None => 0,
    }
}

fn has(task: &TaskMap, property: &str) -> bool
    ensures { result ≡ is_some (map.get task.now property.now) }
{
    task.get(property).is_some()
}

// The terms that go by a property alone.
#[tactic(auto, unfolding(crate::specs::Urgency::property_terms))]
fn property_terms(task: &TaskMap, weights: &Coefficients) -> i64
    requires { AreWeights weights.now }
    ensures value { result ≡ property_terms task.now weights.now }
    ensures small { IsWithin 4 result }
{
    term_if(has(task, "tag_next"), weights.tag_next)
        + priority_term(weights, task.get("priority"))
        + term_if(has(task, "start"), weights.active)
        + term_if(has(task, "project"), weights.project)
}

// How many of a task's properties are tags.
fn count_tags(task: &TaskMap) -> u64
    ensures { result ≡ count_by is_tag (map.keys task.now) }
{
    let mut count = 0;
    for n in 0..task.len() {
        if is_tag(task.key(n)) {
            count += 1;
        }
    }
    count
}

// How many of them are annotations.
fn count_annotations(task: &TaskMap) -> u64
    ensures { result ≡ count_by is_annotation (map.keys task.now) }
{
    let mut count = 0;
    for n in 0..task.len() {
        if is_annotation(task.key(n)) {
            count += 1;
        }
    }
    count
}

// The terms that count properties.
#[tactic(auto, unfolding(crate::specs::Urgency::count_terms))]
fn count_terms(task: &TaskMap, weights: &Coefficients) -> i64
    requires { AreWeights weights.now }
    ensures value { result ≡ count_terms task.now weights.now }
    ensures small { IsWithin 2 result }
{
    count_term(count_tags(task), weights.tags)
        + count_term(count_annotations(task), weights.annotations)
}

// The terms that go by moments.
#[tactic(auto, unfolding(crate::specs::Urgency::moment_terms))]
fn moment_terms(task: &TaskMap, now: u64, weights: &Coefficients) -> i64
    requires now { now < MOMENT_LIMIT }
    requires weights { AreWeights weights.now }
    ensures value { result ≡ moment_terms task.now now weights.now }
    ensures small { IsWithin 3 result }
{
    term_if(
        has_come(now, moment_at(task, "scheduled")),
        weights.scheduled,
    ) + age_term(now, weights, moment_at(task, "entry"))
        + due_term(now, weights.due, moment_at(task, "due"))
}

// The terms of what stands in the way.
#[tactic(auto, unfolding(crate::specs::Urgency::waiting_terms))]
fn waiting_terms(blocked: bool, blocking: bool, waiting: bool, weights: &Coefficients) -> i64
    requires { AreWeights weights.now }
    ensures value { result ≡ waiting_terms blocked blocking waiting weights.now }
    ensures small { IsWithin 3 result }
{
    term_if(blocked, weights.blocked)
        + term_if(blocking, weights.blocking)
        + term_if(waiting, weights.waiting)
}

fn is_waiting(task: &TaskMap, now: u64) -> bool
    ensures { result ≡ is_waiting task.now now }
{
    is_pending(Some(task)) && waits(task, now)
}

/// How urgent a task is, in thousandths, where it is known whether it is blocking (taskrc(5), "URGENCY"). Each term is cut
/// toward zero.
#[tactic(auto, unfolding(crate::specs::Urgency::task_urgency))]
pub fn task_urgency(
    tasks: &Tasks,
    task: &TaskMap,
    is_blocking: bool,
    now: u64,
    weights: &Coefficients,
) -> i64
    requires now { now < MOMENT_LIMIT }
    requires weights { AreWeights weights.now }
    ensures value { result ≡ task_urgency tasks.now task.now is_blocking now weights.now }
    ensures small { IsWithin 12 result }
{
    property_terms(task, weights)
        + count_terms(task, weights)
        + moment_terms(task, now, weights)
        + waiting_terms(
            is_blocked(tasks, task),
            is_blocking,
            is_waiting(task, now),
            weights,
        )
}

/// How urgent the task of a uuid is, in thousandths; 0 where there is none. It looks at all tasks;
/// for many uuids `all_blocking` and `task_urgency` are meant.
pub fn urgency_of(tasks: &Tasks, uuid: Uuid, now: u64, weights: &Coefficients) -> i64
    requires now { now < MOMENT_LIMIT }
    requires weights { AreWeights weights.now }
    ensures { result ≡ urgency tasks.now uuid now weights.now }
{
    match tasks.get(uuid) {
        Some(task) => task_urgency(tasks, task, blocking(tasks, uuid), now, weights),
        None => 0,
    }
}
