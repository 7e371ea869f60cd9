// The numbers of open tasks.
ghost use Rattle.std.specs.Prelude.{◌≡◌, ◌++◌, ◌&&◌, not, [], map as list_map, IfOk, OnOk};
ghost use Rattle.std.specs.Option.{option_copied};
ghost use Rattle.std.specs.FinMap as map;
ghost use Rattle.tw_model.specs.Places.{Places, has_uuid};
ghost use Rattle.tw_numbers.specs.Numbering.{is_open, with_rank, place_of, assigned, packed};
ghost use Rattle.tw_numbers.specs.Assigned.{is_among, left_place, AssignsByPart, GainsAmong, IsUnplacedBy, RanksUnplaced, KnowsPlaced, KnowsPlacedAmong};
ghost use Rattle.tw_model.specs.Maps.{same_bytes};
ghost use Rattle.tw_model.specs.Ops.{TasksValue};

use crate::rank::{is_open, rank};
use std::alloc::Global;
use std::collections::BTreeSet;
use tw_model::{TaskMap, Tasks};
use tw_world::Memory;
use uuid::Uuid;

// Whether a task is among those that have changed, and not open.
fn is_gone(tasks: &Tasks, touched: &BTreeSet<Uuid>, uuid: Uuid) -> bool
    ensures { result ≡ (is_among touched.now.keys uuid && not (is_open (map.get tasks.now uuid))) }
{
    touched.contains(&uuid) && !is_open(tasks.get(uuid))
}

fn left_place(tasks: &Tasks, touched: &BTreeSet<Uuid>, place: &Option<Uuid>) -> Option<Uuid>
    ensures { result ≡ left_place tasks.now touched.now.keys place.now }
{
    match place {
        Some(uuid) => {
            if is_gone(tasks, touched, *uuid) {
                None
            } else {
                Some(*uuid)
            }
        }
        None => None,
    }
}

// The places without the tasks that have changed and are not open.
fn left_places(
    alloc: Global,
    numbers: &Vec<Option<Uuid>>,
    tasks: &Tasks,
    touched: &BTreeSet<Uuid>,
) -> Result<Vec<Option<Uuid>>, Memory>
    ensures { IfOk result (λ places. places.items ≡ list_map (left_place tasks.now touched.now.keys) numbers.now.items) }
{
    let mut places = Vec::new(alloc);
    for place in numbers {
        places.push(left_place(tasks, touched, place))?;
    }
    Ok(places)
}

// Puts a uuid beside others, if its task is among those that have changed.
fn add_among(
    placed: &mut BTreeSet<Uuid>,
    touched: &BTreeSet<Uuid>,
    uuid: Uuid,
) -> Result<(), Memory>
    ensures { OnOk result (GainsAmong touched.now.keys placed.old placed.new (λ u. same_bytes u uuid)) }
{
    if touched.contains(&uuid) {
        placed.insert(uuid)?;
    }
    Ok(())
}

fn add_placed(
    placed: &mut BTreeSet<Uuid>,
    touched: &BTreeSet<Uuid>,
    place: &Option<Uuid>,
) -> Result<(), Memory>
    ensures { OnOk result (GainsAmong touched.now.keys placed.old placed.new (λ u. has_uuid u place.now)) }
{
    match place {
        Some(uuid) => add_among(placed, touched, *uuid),
        None => Ok(()),
    }
}

// Those among the tasks that have changed that have a place.
fn placed_among(
    alloc: Global,
    numbers: &Vec<Option<Uuid>>,
    touched: &BTreeSet<Uuid>,
) -> Result<BTreeSet<Uuid>, Memory>
    ensures { IfOk result (λ placed. KnowsPlacedAmong touched.now.keys placed numbers.now.items) }
{
    let mut placed = BTreeSet::new(alloc);
    for place in numbers {
        add_placed(&mut placed, touched, place)?;
    }
    Ok(placed)
}

fn is_unplaced(task: Option<&TaskMap>, placed: &BTreeSet<Uuid>, uuid: Uuid) -> bool
    ensures { IsUnplacedBy placed.now (option_copied task.entry) uuid result }
{
    is_open(task) && !placed.contains(&uuid)
}

fn add_rank(
    ranks: &mut BTreeSet<(u64, u64, Uuid)>,
    tasks: &Tasks,
    placed: &BTreeSet<Uuid>,
    uuid: Uuid,
) -> Result<(), Memory>
    ensures { OnOk result ((places : Places) → KnowsPlaced placed.now places uuid → ranks.new.keys ≡ with_rank places tasks.now ranks.old.keys uuid) }
{
    let task = tasks.get(uuid);
    if is_unplaced(task, placed, uuid) {
        ranks.insert(rank(task, uuid))?;
    }
    Ok(())
}

fn new_ranks(
    alloc: Global,
    tasks: &Tasks,
    touched: &BTreeSet<Uuid>,
    placed: &BTreeSet<Uuid>,
) -> Result<BTreeSet<(u64, u64, Uuid)>, Memory>
    ensures { IfOk result (λ ranks. RanksUnplaced touched.now.keys placed.now tasks.now ranks.keys) }
{
    let mut ranks = BTreeSet::new(alloc);
    for uuid in touched {
        add_rank(&mut ranks, tasks, placed, *uuid)?;
    }
    Ok(ranks)
}

pub(crate) fn push_ranks(
    places: &mut Vec<Option<Uuid>>,
    ranks: &BTreeSet<(u64, u64, Uuid)>,
) -> Result<(), Memory>
    ensures { OnOk result (places.new.items ≡ places.old.items ++ list_map place_of ranks.now.keys) }
{
    for rank in ranks {
        places.push(Some(rank.2))?;
    }
    Ok(())
}

/// The places assigned anew after some tasks have changed. It looks at the part that has changed.
pub fn assigned(
    alloc: Global,
    numbers: &Vec<Option<Uuid>>,
    part: &Tasks,
    touched: &BTreeSet<Uuid>,
) -> Result<Vec<Option<Uuid>>, Memory>
    ensures { IfOk result (λ places. AssignsByPart numbers.now.items places.items part.now touched.now.keys) }
{
    let placed = placed_among(alloc, numbers, touched)?;
    let ranks = new_ranks(alloc, part, touched, &placed)?;
    let mut places = left_places(alloc, numbers, part, touched)?;
    push_ranks(&mut places, &ranks)?;
    Ok(places)
}

/// Takes the vacant places out.
pub fn pack(numbers: &mut Vec<Option<Uuid>>)
    ensures { numbers.new.items ≡ packed numbers.old.items }
{
    numbers.retain(|place| place.is_some());
}

// Puts the rank of a task beside others, if it is open.
fn add_open(
    ranks: &mut BTreeSet<(u64, u64, Uuid)>,
    task: &TaskMap,
    uuid: Uuid,
) -> Result<(), Memory>
    ensures { OnOk result ((tasks : TasksValue) → map.get tasks uuid ≡ Some task.now → ranks.new.keys ≡ with_rank [] tasks ranks.old.keys uuid) }
{
    let task = Some(task);
    if is_open(task) {
        ranks.insert(rank(task, uuid))?;
    }
    Ok(())
}

/// The places of tasks of which none has one: those that are open, in the order of their ranks.
pub(crate) fn first_places(alloc: Global, tasks: &Tasks) -> Result<Vec<Option<Uuid>>, Memory>
    ensures { IfOk result (λ places. places.items ≡ assigned [] tasks.now) }
{
    let mut ranks = BTreeSet::new(alloc);
    for (uuid, task) in tasks.iter() {
        add_open(&mut ranks, task, *uuid)?;
    }
    let mut places = Vec::new(alloc);
    push_ranks(&mut places, &ranks)?;
    Ok(places)
}
