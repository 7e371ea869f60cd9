// Whether places are assigned to tasks, as a whole state has to have them.
ghost use Rattle.std.specs.Prelude.{◌≡◌, ◌++◌, drop, IfOk, OnOk};
ghost use lib.Pointwise.{pointwise};
ghost use Rattle.std.specs.FinMap.{entries};
ghost use Rattle.tw_model.specs.Maps.{same_bytes};
ghost use Rattle.tw_numbers.specs.Assigned.{is_assigned};
ghost use Rattle.tw_numbers.specs.Placed.{uuid_of_place, placed_uuids, open_uuids, begins_with};

use crate::rank::is_open;
use std::alloc::Global;
use tw_model::Tasks;
use tw_world::Memory;
use uuid::Uuid;

fn push_placed(uuids: &mut Vec<Uuid>, place: &Option<Uuid>) -> Result<(), Memory>
    ensures { OnOk result (uuids.new.items ≡ uuids.old.items ++ uuid_of_place place.now) }
{
    match place {
        Some(uuid) => {
            uuids.push(*uuid)?;
            Ok(())
        }
        None => Ok(()),
    }
}

// The uuids that have a place, in the order of the places.
fn placed_uuids(alloc: Global, places: &Vec<Option<Uuid>>) -> Result<Vec<Uuid>, Memory>
    ensures { IfOk result (λ uuids. uuids.items ≡ placed_uuids places.now.items) }
{
    let mut uuids = Vec::with_capacity(alloc, places.len())?;
    for place in places {
        push_placed(&mut uuids, place)?;
    }
    Ok(uuids)
}

// Whether a uuid is the one with this number.
fn is_at(uuids: &Vec<Uuid>, at: usize, uuid: Uuid) -> bool
    ensures { result ≡ begins_with uuid (drop at uuids.now.items) }
{
    at < uuids.len() && uuids[at] == uuid
}

// Whether these are the uuids of the open tasks, in their order.
fn are_those_open(uuids: &Vec<Uuid>, tasks: &Tasks) -> bool
    ensures { result ≡ pointwise same_bytes uuids.now.items (open_uuids (entries tasks.now)) }
{
    let mut at = 0;
    for (uuid, task) in tasks.iter() {
        if is_open(Some(task)) {
            if !is_at(uuids, at, *uuid) {
                return false;
            }
            at += 1;
        }
    }
    at == uuids.len()
}

/// Whether places are assigned to tasks.
pub fn is_assigned(alloc: Global, places: &Vec<Option<Uuid>>, tasks: &Tasks) -> Result<bool, Memory>
    ensures { IfOk result (λ assigned. assigned ≡ is_assigned places.now.items tasks.now) }
{
    let mut uuids = placed_uuids(alloc, places)?;
    uuids.sort_unstable();
    Ok(are_those_open(&uuids, tasks))
}
