// The numbers in a range, found out at once.
ghost use Rattle.std.specs.Prelude.{◌≡◌, ℕ, List, cond, nat_le, ◌&&◌, Some, None, IfOk, OnOk};
ghost use Rattle.std.specs.BTreeMap as tree;
ghost use Rattle.tw_model.specs.Maps.{bytes_cmp};
ghost use Rattle.tw_model.specs.Places.{has_uuid, id_of};
ghost use Rattle.tw_terms.specs.Facts.{between, within, HasIds};
ghost use Rattle.tw_terms.specs.Holds.{passes};

use std::alloc::Global;
use std::collections::BTreeMap;
use tw_model::id_of;
use tw_world::Memory;
use uuid::Uuid;

/// The tasks with numbers from the first to the last.
#[derive(Drop)]
pub(crate) struct IdRange {
    pub(crate) first: u64,
    pub(crate) last: u64,
    pub(crate) ids: BTreeMap<Uuid, u64>,
}

impl IdRange {
    /// By one look at each place up to the last. A uuid in two places has the first number.
    pub(crate) fn new(
        alloc: Global,
        numbers: &Vec<Option<Uuid>>,
        first: u64,
        last: u64,
    ) -> Result<IdRange, Memory>
        ensures { IfOk result (λ range. HasIds range numbers.now.items) }
    {
        let ids = ids_within(alloc, numbers, first, last)?;
        Ok(IdRange { first, last, ids })
    }

    /// The number of a task, as far as the first and the last here ask for it: it looks through the places if the range
    /// has not all of these.
    pub(crate) fn id_for(
        &self,
        numbers: &Vec<Option<Uuid>>,
        uuid: Uuid,
        first: u64,
        last: u64,
    ) -> Option<u64>
        requires { HasIds self.now numbers.now.items }
        ensures { passes (between first last) result ≡ passes (between first last) (id_of uuid numbers.now.items) }
    {
        if self.first <= first && last <= self.last {
            self.ids.get(&uuid).copied()
        } else {
            id_of(numbers, uuid)
        }
    }
}

fn is_between(first: u64, last: u64, id: u64) -> bool
    ensures { result ≡ between first last id }
{
    first <= id && id <= last
}

// Goes over one place more, from the last to the first: what is in it is numbered here, whatever came after.
fn take_id(
    ids: &mut BTreeMap<Uuid, u64>,
    place: &Option<Uuid>,
    id: u64,
    is_within: bool,
) -> Result<(), Memory>
    ensures { OnOk result ((u : List ℕ) → tree.get bytes_cmp ids.new u
        ≡ cond (has_uuid u place.now) (cond is_within (Some id) None) (tree.get bytes_cmp ids.old u)) }
{
    let Some(uuid) = place else {
        return Ok(());
    };
    if is_within {
        ids.insert(*uuid, id)?;
    } else {
        ids.remove(uuid);
    }
    Ok(())
}

fn ids_within(
    alloc: Global,
    numbers: &Vec<Option<Uuid>>,
    first: u64,
    last: u64,
) -> Result<BTreeMap<Uuid, u64>, Memory>
    ensures { IfOk result (λ ids. (u : List ℕ) → tree.get bytes_cmp ids u ≡ within first last (id_of u numbers.now.items)) }
{
    let mut ids = BTreeMap::new(alloc);
    let end = last.min(numbers.len() as u64);
    let mut at = end as usize;
    while at > 0 {
        at -= 1;
        let id = at as u64 + 1;
        take_id(&mut ids, &numbers[at], id, is_between(first, last, id))?;
    }
    Ok(ids)
}
