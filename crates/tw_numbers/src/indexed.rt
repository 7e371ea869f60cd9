// Assigning after a step, by a look at the tasks that it is about.
ghost use Rattle.std.specs.Prelude.{◌≡◌, ◌++◌, ◌∷◌, List, ℕ, [], map as list_map, Some, None, false, cond, is_some, IfOk, OnOk, IfSome};
ghost use Rattle.std.specs.Ordering.{eq_by_cmp};
ghost use Rattle.std.specs.BTreeMap as tree;
ghost use Rattle.std.specs.Option.{option_copied};
ghost use Rattle.std.specs.FinMap.{get};
ghost use Rattle.tw_model.specs.Maps.{bytes_cmp};
ghost use Rattle.tw_model.specs.Ops.{TasksValue};
ghost use Rattle.tw_numbers.specs.Numbering.{is_placed, with_rank, place_of, assigned, packed_if};
ghost use Rattle.tw_numbers.specs.Assigned.{IndexesNext, IsOnce, IsIndex, IsAssignedExcept, without, vacated};

use crate::few::assign_few;
use crate::numbering::{assigned, first_places, pack};
use crate::rank::{is_open, rank};
use std::alloc::Global;
use std::collections::{BTreeMap, BTreeSet};
use tw_model::{TaskMap, Tasks};
use tw_world::Memory;
use uuid::Uuid;

fn place_in(index: &BTreeMap<Uuid, u64>, uuid: Uuid) -> Option<u64>
    ensures { result ≡ tree.get bytes_cmp index.now uuid }
{
    index.get(&uuid).copied()
}

fn has_place(index: &BTreeMap<Uuid, u64>, uuid: Uuid) -> bool
    ensures { result ≡ is_some (tree.get bytes_cmp index.now uuid) }
{
    place_in(index, uuid).is_some()
}

fn take_from(index: &mut BTreeMap<Uuid, u64>, uuid: Uuid) -> Option<u64>
    ensures place { result ≡ tree.get bytes_cmp index.old uuid }
    ensures others { (q : List ℕ) → tree.get bytes_cmp index.new q ≡ cond (eq_by_cmp bytes_cmp uuid q) None (tree.get bytes_cmp index.old q) }
{
    index.remove(&uuid)
}

// Makes the place of a task that is not open vacant.
fn vacate(places: &mut Vec<Option<Uuid>>, index: &mut BTreeMap<Uuid, u64>, uuid: Uuid)
    requires { IsIndex index.old places.old.items }
    ensures index { IsIndex index.new places.new.items }
    ensures places { places.new.items ≡ list_map (without uuid) places.old.items }
{
    match take_from(index, uuid) {
        Some(at) => {
            places[at as usize] = None;
        }
        None => {}
    }
}

// Looks at a task that may have changed. If it is open and has no place, it gets a rank. If it is not open, its place becomes vacant.
fn look_at(
    places: &mut Vec<Option<Uuid>>,
    index: &mut BTreeMap<Uuid, u64>,
    ranks: &mut BTreeSet<(u64, u64, Uuid)>,
    tasks: &Tasks,
    uuid: Uuid,
) -> Result<(), Memory>
    requires { IsIndex index.old places.old.items }
    ensures index { OnOk result (IsIndex index.new places.new.items) }
    ensures places { OnOk result (places.new.items ≡ vacated tasks.now places.old.items uuid) }
    ensures ranks { OnOk result (ranks.new.keys ≡ with_rank places.old.items tasks.now ranks.old.keys uuid) }
{
    let task = tasks.get(uuid);
    if !is_open(task) {
        vacate(places, index, uuid);
        return Ok(());
    }
    if !has_place(index, uuid) {
        ranks.insert(rank(task, uuid))?;
    }
    Ok(())
}

fn push_place(
    places: &mut Vec<Option<Uuid>>,
    index: &mut BTreeMap<Uuid, u64>,
    uuid: Uuid,
) -> Result<(), Memory>
    requires index { IsIndex index.old places.old.items }
    requires free { is_placed places.old.items uuid ≡ false }
    ensures places { OnOk result (places.new.items ≡ places.old.items ++ Some uuid ∷ []) }
    ensures index { OnOk result (IsIndex index.new places.new.items) }
{
    index.insert(uuid, places.len() as u64)?;
    places.push(Some(uuid))?;
    Ok(())
}

fn push_places(
    places: &mut Vec<Option<Uuid>>,
    index: &mut BTreeMap<Uuid, u64>,
    ranks: &BTreeSet<(u64, u64, Uuid)>,
) -> Result<(), Memory>
    requires index { IsIndex index.old places.old.items }
    requires once { IsOnce (places.old.items ++ list_map place_of ranks.now.keys) }
    ensures places { OnOk result (places.new.items ≡ places.old.items ++ list_map place_of ranks.now.keys) }
    ensures index { OnOk result (IsIndex index.new places.new.items) }
{
    for rank in ranks {
        push_place(places, index, rank.2)?;
    }
    Ok(())
}

// Assigns the places anew after some tasks have changed, and keeps the index.
fn assign_in(
    alloc: Global,
    places: &mut Vec<Option<Uuid>>,
    index: &mut BTreeMap<Uuid, u64>,
    tasks: &Tasks,
    touched: &BTreeSet<Uuid>,
) -> Result<(), Memory>
    requires ready { IsAssignedExcept places.old.items tasks.now touched.now.keys }
    requires index { IsIndex index.old places.old.items }
    ensures places { OnOk result (places.new.items ≡ assigned places.old.items tasks.now) }
    ensures index { OnOk result (IsIndex index.new places.new.items) }
{
    let mut ranks = BTreeSet::new(alloc);
    for uuid in touched {
        look_at(places, index, &mut ranks, tasks, *uuid)?;
    }
    push_places(places, index, &ranks)
}

fn index_place(index: &mut BTreeMap<Uuid, u64>, place: &Option<Uuid>, at: u64) -> Result<(), Memory>
    ensures { OnOk result (IndexesNext index.old index.new place.now at) }
{
    match place {
        Some(uuid) => {
            index.insert(*uuid, at)?;
            Ok(())
        }
        None => Ok(()),
    }
}

/// Where each task is in the places.
pub(crate) fn index_of(
    alloc: Global,
    places: &Vec<Option<Uuid>>,
) -> Result<BTreeMap<Uuid, u64>, Memory>
    requires { IsOnce places.now.items }
    ensures { IfOk result (λ index. IsIndex index places.now.items) }
{
    let mut index = BTreeMap::new(alloc);
    let mut at = 0;
    while at < places.len() {
        index_place(&mut index, &places[at], at as u64)?;
        at += 1;
    }
    Ok(index)
}

// Where each task is in the places: as it is known, or else by a look through them.
fn known_index(
    alloc: Global,
    index: &mut Option<BTreeMap<Uuid, u64>>,
    places: &Vec<Option<Uuid>>,
) -> Result<BTreeMap<Uuid, u64>, Memory>
    requires once { IsOnce places.now.items }
    requires index { IfSome index.old (λ index. IsIndex index places.now.items) }
    ensures { IfOk result (λ index. IsIndex index places.now.items) }
{
    match index.take() {
        Some(index) => Ok(index),
        None => index_of(alloc, places),
    }
}

/// For so many tasks the places are looked through before the index is made, which takes as long as some hundreds of looks.
pub const LOOKS: usize = 64;

// Whether so many tasks may still be looked for without an index. It counts their looks.
fn takes_looks(looks: &mut usize, count: usize) -> bool {
    if count > *looks {
        return false;
    }
    *looks -= count;
    true
}

/// Assigns the places anew after some tasks have changed. If there is no place yet, or if few
/// tasks have changed so far, no index is needed. If besides all tasks have changed, as a first sync does, one pass over them serves.
/// After want of memory places and index may have changed in part, and are to be let go.
pub fn assign(
    alloc: Global,
    places: &mut Vec<Option<Uuid>>,
    index: &mut Option<BTreeMap<Uuid, u64>>,
    looks: &mut usize,
    tasks: &Tasks,
    touched: &BTreeSet<Uuid>,
) -> Result<(), Memory>
    requires ready { IsAssignedExcept places.old.items tasks.now touched.now.keys }
    requires index { IfSome index.old (λ index. IsIndex index places.old.items) }
    ensures places { OnOk result (places.new.items ≡ assigned places.old.items tasks.now) }
    ensures index { OnOk result (IfSome index.new (λ index. IsIndex index places.new.items)) }
{
    if places.len() == 0 && touched.len() as u64 >= tasks.len() {
        *places = first_places(alloc, tasks)?;
        *index = None;
        return Ok(());
    }
    if places.len() == 0 {
        *places = assigned(alloc, places, tasks, touched)?;
        *index = None;
        return Ok(());
    }
    if index.is_none() && takes_looks(looks, touched.len()) {
        return assign_few(alloc, places, tasks, touched);
    }
    let mut known = known_index(alloc, index, places)?;
    assign_in(alloc, places, &mut known, tasks, touched)?;
    *index = Some(known);
    Ok(())
}

// Puts a place after the others, and into the index if there is one.
fn push_known(
    places: &mut Vec<Option<Uuid>>,
    index: &mut Option<BTreeMap<Uuid, u64>>,
    uuid: Uuid,
) -> Result<(), Memory>
    requires index { IfSome index.old (λ index. IsIndex index places.old.items) }
    requires free { is_placed places.old.items uuid ≡ false }
    ensures places { OnOk result (places.new.items ≡ places.old.items ++ Some uuid ∷ []) }
    ensures index { OnOk result (IfSome index.new (λ index. IsIndex index places.new.items)) }
{
    match index {
        Some(index) => push_place(places, index, uuid),
        None => {
            places.push(Some(uuid))?;
            Ok(())
        }
    }
}

/// Assigns tasks of which one has changed that has no place. It looks nothing up in the index.
/// After want of memory places and index may have changed in part, and are to be let go.
pub fn assign_new(
    places: &mut Vec<Option<Uuid>>,
    index: &mut Option<BTreeMap<Uuid, u64>>,
    tasks: &Tasks,
    uuid: Uuid,
) -> Result<(), Memory>
    requires ready { IsAssignedExcept places.old.items tasks.now (uuid ∷ []) }
    requires index { IfSome index.old (λ index. IsIndex index places.old.items) }
    requires free { is_placed places.old.items uuid ≡ false }
    ensures places { OnOk result (places.new.items ≡ assigned places.old.items tasks.now) }
    ensures index { OnOk result (IfSome index.new (λ index. IsIndex index places.new.items)) }
{
    if !is_open(tasks.get(uuid)) {
        return Ok(());
    }
    push_known(places, index, uuid)
}

/// Takes the vacant places out, if it is asked. The index is made again when it is needed.
pub fn pack_if(
    places: &mut Vec<Option<Uuid>>,
    index: &mut Option<BTreeMap<Uuid, u64>>,
    looks: &mut usize,
    renumber: bool,
)
    requires index { IfSome index.old (λ index. IsIndex index places.old.items) }
    ensures places { places.new.items ≡ packed_if renumber places.old.items }
    ensures index { IfSome index.new (λ index. IsIndex index places.new.items) }
{
    if renumber {
        pack(places);
        *index = None;
        *looks = LOOKS;
    }
}
