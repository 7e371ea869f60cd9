// Whether a term holds for a task.
ghost use Rattle.std.specs.Prelude.{◌≡◌, ◌&&◌, nat_lt, is_some, codes};
ghost use Rattle.tw_terms.specs.Facts.{AreFacts};
ghost use Rattle.tw_terms.specs.Scenes.{scene_of};
ghost use Rattle.tw_terms.specs.Holds.{has_status, test_holds, term_holds, name_holds, passes};
ghost use Rattle.tw_urgency.specs.Dependencies.{depends_on};
ghost use Rattle.tw_urgency.specs.Stored.{moment_at};
ghost use Rattle.tw_urgency.specs.declared.status.Status.TheVariants.{Pending};
ghost use Rattle.tw_model.specs.Places.{uuid_of};

use crate::facts::{Facts, id_for, is_blocking};
use crate::id_word::Name;
use crate::task_test::{
    after, at, before, begins, contains, ends, has, has_moment, has_the_word, is_annotated,
    is_tagged, is_value, is_within, mentions, on_day, same_status,
};
use crate::term::{Term, Test};
use crate::view::View;
use tw_model::{TaskMap, uuid_of};
use tw_urgency::{Status, depends_on, has_dependency, is_blocked, moment_at, status_of};
use uuid::Uuid;

fn has_status(view: &View<'_>, task: &TaskMap, status: Status) -> bool
    ensures { result ≡ has_status (scene_of view.entry.now) task.now status }
{
    same_status(status_of(task, view.now.seconds), status)
}

fn is_active(view: &View<'_>, task: &TaskMap) -> bool
    ensures { result ≡ (has_status (scene_of view.entry.now) task.now Pending && is_some (moment_at (codes "start") task.now)) }
{
    has_status(view, task, Status::Pending) && moment_at(task, "start").is_some()
}

fn is_past(at: Option<u64>, now: u64) -> bool
    ensures { result ≡ passes (λ at. nat_lt at now) at }
{
    match at {
        Some(at) => at < now,
        None => false,
    }
}

fn is_overdue(view: &View<'_>, task: &TaskMap) -> bool
    ensures { result ≡ (has_status (scene_of view.entry.now) task.now Pending
        && passes (λ due. nat_lt due view.entry.now.now.seconds) (moment_at (codes "due") task.now)) }
{
    has_status(view, task, Status::Pending) && is_past(moment_at(task, "due"), view.now.seconds)
}

fn depends_on_number(view: &View<'_>, task: &TaskMap, id: u64) -> bool
    ensures { result ≡ passes (depends_on task.now) (uuid_of id (scene_of view.entry.now).places) }
{
    match uuid_of(view.numbers, id) {
        Some(uuid) => depends_on(task, uuid),
        None => false,
    }
}

// Whether a test holds for the task of a uuid.
#[tactic(auto, unfolding(crate::specs::Holds::test_holds))]
fn test_holds(facts: &Facts, view: &View<'_>, uuid: Uuid, task: &TaskMap, test: &Test) -> bool
    requires { AreFacts facts.now (scene_of view.now) }
    ensures { result ≡ test_holds (scene_of view.entry.now) uuid task.now test.now }
{
    match test {
        Test::IsUuid(other) => uuid == *other,
        Test::Has(property) => has(task, property),
        Test::HasMoment(property) => has_moment(task, property),
        Test::HasDependency => has_dependency(task),
        Test::DependsOn(other) => depends_on(task, *other),
        Test::DependsOnNumber(id) => depends_on_number(view, task, *id),
        Test::Is(property, value) => is_value(task, property, value),
        Test::IsWithin(property, value) => is_within(task, property, value),
        Test::Contains(property, value) => contains(task, property, value),
        Test::Begins(property, value) => begins(task, property, value),
        Test::Ends(property, value) => ends(task, property, value),
        Test::HasWord(property, value) => has_the_word(task, property, value),
        Test::Mentions(value) => mentions(task, value.as_str()),
        Test::OnDay(property, day) => on_day(task, property, *day, view.zone),
        Test::At(property, second) => at(task, property, *second),
        Test::Before(property, second) => before(task, property, *second),
        Test::After(property, second) => after(task, property, *second),
        Test::HasStatus(status) => has_status(view, task, *status),
        Test::IsActive => is_active(view, task),
        Test::IsOverdue => is_overdue(view, task),
        Test::IsBlocked => is_blocked(view.tasks, task),
        Test::IsBlocking => is_blocking(facts, view, uuid),
        Test::IsTagged => is_tagged(task),
        Test::IsAnnotated => is_annotated(task),
    }
}

/// Whether a term holds for the task of a uuid, by what was found out of all tasks.
pub fn term_holds(facts: &Facts, view: &View<'_>, uuid: Uuid, task: &TaskMap, term: &Term) -> bool
    requires { AreFacts facts.now (scene_of view.now) }
    ensures { result ≡ term_holds (scene_of view.entry.now) uuid task.now term.now }
{
    let holds = test_holds(facts, view, uuid, task, &term.test);
    if term.wanted { holds } else { !holds }
}

/// Whether a name is one of the task of a uuid.
pub fn name_holds(facts: &Facts, view: &View<'_>, uuid: Uuid, name: Name) -> bool
    requires { AreFacts facts.now (scene_of view.now) }
    ensures { result ≡ name_holds (scene_of view.entry.now) uuid name }
{
    match name {
        Name::Numbers(first, last) => match id_for(facts, view, uuid, first, last) {
            Some(id) => first <= id && id <= last,
            None => false,
        },
        Name::One(other) => uuid == other,
    }
}
