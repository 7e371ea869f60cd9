// What is found out once for many tests.
ghost use Rattle.std.specs.Prelude.{◌≡◌, IfOk};
ghost use Rattle.tw_urgency.specs.Dependencies.{blocking};
ghost use Rattle.tw_model.specs.Places.{id_of};
ghost use Rattle.tw_terms.specs.Facts.{between, AreIn, AreFacts};
ghost use Rattle.tw_terms.specs.Indexes.{AreBlocking};
ghost use Rattle.tw_terms.specs.Scenes.{Scene, scene_of};
ghost use Rattle.tw_terms.specs.Holds.{passes};

use crate::id_range::IdRange;
use crate::id_word::Name;
use crate::term::{Term, Test};
use crate::token::Token;
use crate::view::View;
use std::alloc::Global;
use std::collections::BTreeSet;
use tw_model::{Tasks, id_of};
use tw_urgency::all_blocking;
use tw_world::Memory;
use uuid::Uuid;

/// The numbers that are named and the uuids of the tasks that are blocking, if many tests ask for them.
pub struct Facts {
    pub(crate) ids: Option<IdRange>,
    pub(crate) blocking: Option<BTreeSet<Uuid>>,
}

// It is written out, so that a caller does not prove again how each part is dropped.
impl Drop for Facts {
    fn drop(self) {
        let Facts {
            ids: _,
            blocking: _,
        } = self;
    }
}

impl Facts {
    /// Nothing is found out: each test looks for itself.
    pub fn none() -> Facts
        ensures { (scene : Scene) → AreFacts result scene }
    {
        Facts {
            ids: None,
            blocking: None,
        }
    }

    /// What tests of these tokens ask for.
    pub fn of(alloc: Global, tokens: &[Token], view: &View<'_>) -> Result<Facts, Memory>
        ensures { IfOk result (λ facts. AreFacts facts (scene_of view.entry.now)) }
    {
        let ids = ids_in(alloc, tokens, view.numbers)?;
        let blocking = blocking_in(alloc, tokens, view.tasks)?;
        Ok(Facts { ids, blocking })
    }
}

// A range made so wide that it has these numbers too.
fn widened(range: Option<(u64, u64)>, first: u64, last: u64) -> (u64, u64) {
    match range {
        Some((least, greatest)) => (least.min(first), greatest.max(last)),
        None => (first, last),
    }
}

// From the least to the greatest number that tokens name. What is left out here would be looked up for each task.
fn range_in(tokens: &[Token]) -> Option<(u64, u64)> {
    let mut range = None;
    for token in tokens {
        if let Token::Named(Name::Numbers(first, last)) = token {
            range = Some(widened(range, *first, *last));
        }
    }
    range
}

fn ids_in(
    alloc: Global,
    tokens: &[Token],
    numbers: &Vec<Option<Uuid>>,
) -> Result<Option<IdRange>, Memory>
    ensures { IfOk result (λ ids. AreIn ids numbers.now.items) }
{
    match range_in(tokens) {
        Some((first, last)) => Ok(Some(IdRange::new(alloc, numbers, first, last)?)),
        None => Ok(None),
    }
}

// Whether it asks which tasks are blocking.
fn asks_blocking(token: &Token) -> bool {
    match token {
        Token::Asked(
            Term {
                test: Test::IsBlocking,
                ..
            },
        ) => true,
        _ => false,
    }
}

// Whether one of them asks so.
fn ask_blocking(tokens: &[Token]) -> bool {
    tokens.iter().any(|token| asks_blocking(token))
}

fn blocking_in(
    alloc: Global,
    tokens: &[Token],
    tasks: &Tasks,
) -> Result<Option<BTreeSet<Uuid>>, Memory>
    ensures { IfOk result (λ uuids. AreBlocking uuids tasks.now) }
{
    if ask_blocking(tokens) {
        return Ok(Some(all_blocking(alloc, tasks)?));
    }
    Ok(None)
}

/// The number of a task, as far as the first and the last ask for it.
pub(crate) fn id_for(
    facts: &Facts,
    view: &View<'_>,
    uuid: Uuid,
    first: u64,
    last: u64,
) -> Option<u64>
    requires { AreFacts facts.now (scene_of view.now) }
    ensures { passes (between first last) result ≡ passes (between first last) (id_of uuid (scene_of view.entry.now).places) }
{
    match &facts.ids {
        Some(range) => range.id_for(view.numbers, uuid, first, last),
        None => id_of(view.numbers, uuid),
    }
}

/// Whether a task is blocking.
pub(crate) fn is_blocking(facts: &Facts, view: &View<'_>, uuid: Uuid) -> bool
    requires { AreFacts facts.now (scene_of view.now) }
    ensures { result ≡ blocking (scene_of view.entry.now).tasks uuid }
{
    match &facts.blocking {
        Some(uuids) => uuids.contains(&uuid),
        None => tw_urgency::blocking(view.tasks, uuid),
    }
}
