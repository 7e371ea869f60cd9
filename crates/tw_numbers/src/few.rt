// Assigning few tasks: the place of each is looked for among all places.
ghost use Rattle.std.specs.Prelude.{◌≡◌, Some, false, map as list_map, OnOk, IfSome, IfNone};
ghost use Rattle.std.specs.Option.{option_copied};
ghost use Rattle.tw_model.specs.Maps.{same_bytes};
ghost use Rattle.tw_model.specs.Places.{has_uuid, uuid_at};
ghost use Rattle.tw_numbers.specs.Numbering.{is_placed, with_rank};
ghost use Rattle.tw_numbers.specs.Assigned.{Assigns, IsOnce, Renews, without, vacated};

use crate::numbering::{assigned, pack, push_ranks};
use crate::rank::{is_open, rank};
use std::alloc::Global;
use std::collections::BTreeSet;
use tw_model::Tasks;
use tw_world::Memory;
use uuid::Uuid;

// For more tasks than these, one pass over the places with the tasks in a set is faster than a look for each.
const FEW: usize = 8;

// Whether a uuid is another. Most others differ in the first byte, which takes less time than the whole.
fn is_same(uuid: Uuid, other: Uuid) -> bool
    ensures { result ≡ same_bytes uuid other }
{
    if uuid.as_bytes()[0] != other.as_bytes()[0] {
        return false;
    }
    uuid == other
}

fn is_of(place: &Option<Uuid>, uuid: Uuid) -> bool
    ensures { result ≡ has_uuid uuid place.now }
{
    match place {
        Some(other) => is_same(uuid, *other),
        None => false,
    }
}

// The place of a task, of which the first has number 0.
fn place_of(places: &Vec<Option<Uuid>>, uuid: Uuid) -> Option<usize>
    ensures found { IfSome result (λ at. uuid_at at places.now.items ≡ Some uuid) }
    ensures none { IfNone result (is_placed places.now.items uuid ≡ false) }
{
    let mut at = 0;
    while at < places.len() {
        if is_of(&places[at], uuid) {
            return Some(at);
        }
        at += 1;
    }
    None
}

// Makes the place of a task vacant, if it has one.
fn vacate(places: &mut Vec<Option<Uuid>>, uuid: Uuid)
    ensures { IsOnce places.old.items → places.new.items ≡ list_map (without uuid) places.old.items }
{
    match place_of(places, uuid) {
        Some(at) => {
            places[at] = None;
        }
        None => {}
    }
}

// Looks at a task that may have changed. If it is open and has no place, it gets a rank. If it is not open, its place becomes vacant.
fn look_for(
    places: &mut Vec<Option<Uuid>>,
    ranks: &mut BTreeSet<(u64, u64, Uuid)>,
    tasks: &Tasks,
    uuid: Uuid,
) -> Result<(), Memory>
    ensures places { OnOk result (IsOnce places.old.items → places.new.items ≡ vacated tasks.now places.old.items uuid) }
    ensures ranks { OnOk result (ranks.new.keys ≡ with_rank places.old.items tasks.now ranks.old.keys uuid) }
{
    let task = tasks.get(uuid);
    if !is_open(task) {
        vacate(places, uuid);
        return Ok(());
    }
    if place_of(places, uuid).is_none() {
        ranks.insert(rank(task, uuid))?;
    }
    Ok(())
}

/// Assigns the places anew after some tasks have changed. It looks through the places once for each of these.
pub(crate) fn assign_few(
    alloc: Global,
    places: &mut Vec<Option<Uuid>>,
    tasks: &Tasks,
    touched: &BTreeSet<Uuid>,
) -> Result<(), Memory>
    ensures { OnOk result (Assigns places.old.items places.new.items tasks.now touched.now.keys) }
{
    let mut ranks = BTreeSet::new(alloc);
    for uuid in touched {
        look_for(places, &mut ranks, tasks, *uuid)?;
    }
    push_ranks(places, &ranks)
}

// Assigns the places anew after some tasks have changed.
fn assign_changed(
    alloc: Global,
    places: &mut Vec<Option<Uuid>>,
    tasks: &Tasks,
    touched: &BTreeSet<Uuid>,
) -> Result<(), Memory>
    ensures { OnOk result (Assigns places.old.items places.new.items tasks.now touched.now.keys) }
{
    if touched.len() <= FEW {
        return assign_few(alloc, places, tasks, touched);
    }
    *places = assigned(alloc, places, tasks, touched)?;
    Ok(())
}

/// Assigns the places anew after some tasks have changed, and packs them if it is asked. After want of memory a part of them may
/// have changed, and they are to be let go.
pub fn renew_places(
    alloc: Global,
    places: &mut Vec<Option<Uuid>>,
    tasks: &Tasks,
    touched: &BTreeSet<Uuid>,
    renumber: bool,
) -> Result<(), Memory>
    ensures { OnOk result (Renews renumber places.old.items places.new.items tasks.now touched.now.keys) }
{
    assign_changed(alloc, places, tasks, touched)?;
    if renumber {
        pack(places);
    }
    Ok(())
}
