// What the texts look at.
ghost use Rattle.std.specs.Prelude.{◌≡◌, IfOk};
ghost use Rattle.std.specs.BTreeMap as tree;
ghost use Rattle.tw_model.specs.Maps.{bytes_cmp};
ghost use Rattle.tw_model.specs.Places.{id_of};
ghost use Rattle.tw_urgency.specs.Dependencies.{blocking as is_blocking_in};
ghost use Rattle.tw_urgency.specs.Urgency.{urgency, AreWeights};
ghost use Rattle.tw_report.specs.Sight.{IsLook, IsModest, sight_in, sight_of};

use std::alloc::Global;
use std::collections::{BTreeMap, BTreeSet};
use tw_model::id_of;
use tw_terms::{View, all_ids};
use tw_urgency::{Coefficients, all_blocking, blocking, task_urgency};
use tw_world::Memory;
use uuid::Uuid;

/// A view, and what is found in it for many tasks at once, if that is worth it.
pub(crate) struct Look<'a> {
    pub(crate) view: &'a View<'a>,
    pub(crate) weights: &'a Coefficients,
    /// The numbers of all tasks.
    pub(crate) ids: Option<BTreeMap<Uuid, u64>>,
    /// The tasks that are blocking.
    pub(crate) blocking: Option<BTreeSet<Uuid>>,
}

// It is written out, so that a caller does not prove again how each part is dropped.
impl Drop for Look<'_> {
    fn drop(self) {
        let Look {
            view: _,
            weights: _,
            ids: _,
            blocking: _,
        } = self;
    }
}

// A task's number is found by one look at each place; for more rows than these, all numbers are found at once.
const FEW_ROWS: usize = 32;

/// Finds what is asked of so many rows, and for their urgency, if that is asked for.
pub(crate) fn look_at<'a>(
    alloc: Global,
    view: &'a View<'a>,
    weights: &'a Coefficients,
    rows: usize,
    has_urgency: bool,
) -> Result<Look<'a>, Memory>
    requires { AreWeights weights.now }
    ensures found { IfOk result (λ look. IsLook look) }
    ensures sight { IfOk result (λ look. sight_in look ≡ sight_of view.entry.now weights.now) }
{
    let ids = if rows > FEW_ROWS {
        Some(all_ids(alloc, view.numbers)?)
    } else {
        None
    };
    let blocking = if has_urgency {
        Some(all_blocking(alloc, view.tasks)?)
    } else {
        None
    };
    Ok(Look {
        view,
        weights,
        ids,
        blocking,
    })
}

/// The number of a task, if it has one.
pub(crate) fn id_in(look: &Look<'_>, uuid: Uuid) -> Option<u64>
    requires { IsLook look.now }
    ensures { result ≡ id_of uuid (sight_in look.now).numbers }
{
    match &look.ids {
        Some(ids) => ids.get(&uuid).copied(),
        None => id_of(look.view.numbers, uuid),
    }
}

fn is_blocking(look: &Look<'_>, uuid: Uuid) -> bool
    requires { IsLook look.now }
    ensures { result ≡ is_blocking_in (sight_in look.now).tasks uuid }
{
    match &look.blocking {
        Some(uuids) => uuids.contains(&uuid),
        None => blocking(look.view.tasks, uuid),
    }
}

/// How urgent a task is.
#[tactic(auto, unfolding(tw_urgency::specs::Urgency::urgency))]
pub(crate) fn urgency_in(look: &Look<'_>, uuid: Uuid) -> i64
    requires { IsLook look.now }
    ensures value { result ≡ urgency (sight_in look.now).tasks uuid (sight_in look.now).now (sight_in look.now).weights }
    ensures modest { IsModest result }
{
    match look.view.tasks.get(uuid) {
        Some(task) => task_urgency(
            look.view.tasks,
            task,
            is_blocking(look, uuid),
            look.view.now.seconds,
            look.weights,
        ),
        None => 0,
    }
}
