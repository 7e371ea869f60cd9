// The pending operations, kept in the bodies of the commits that they came with, and read when they are wanted.
ghost use Rattle.std.specs.Prelude.{◌≡◌, ◌<◌, ◌^◌, ◌||◌, ◌++◌, [], List, ℕ, length, drop, IfOk, OnOk, OnErr};
ghost use Rattle.tw_model.specs.declared.Op.{Op as AnyOp};
ghost use Rattle.tw_model.specs.LocalOps.{take_back_all};
ghost use Rattle.tw_state.specs.Groups.{ops_or_none, group_in, groups_in, AreCounted, IsLastOf, IsLast};
ghost use Rattle.tw_bodies.specs.Reading.{group_of};
ghost use Rattle.tw_numbers.specs.Assigned.{is_among};
ghost use Rattle.tw_state.specs.Touched.{is_touched};

use crate::state::take_back_from;
use crate::touched::add_all_touched;
use std::alloc::Global;
use std::collections::BTreeSet;
use std::marker::Model;
use tw_bodies::read_group;
use tw_fields::ReadError;
use tw_model::{Op, Tasks};
use tw_world::Memory;
use uuid::Uuid;

// The body of a commit, and how many operations it holds.
#[derive(Drop)]
struct Group {
    count: usize,
    body: Vec<u8>,
}

/// Operations that no server has seen yet, seen as their list, the oldest first, with an undo point before those of each command.
/// They lie in the bodies of their records: to read them takes memory, and time with their number.
pub struct Pending {
    bodies: Vec<Group>,
    count: usize,
}

// It is written out, so that a caller does not prove again how each part is dropped.
impl Drop for Pending {
    fn drop(self) {
        let Pending {
            bodies: _,
            count: _,
        } = self;
    }
}

impl Model for Pending {
    ghost use Rattle.std.specs.Prelude.{List};
    ghost use Rattle.std.specs.Coded.{codes};
    ghost use Rattle.tw_model.specs.declared.Op.{Op as AnyOp};
    ghost use Rattle.tw_model.specs.contracts.task_map.TaskMap as task;

    ghost Value = { List AnyOp };

    ghost coded = { Prim.hlevel (codes, task.the_row.coded) };

    ghost use Rattle.tw_state.specs.Groups.{groups_in, AreCounted};

    ghost view = { λ p. groups_in p.bodies.items };

    ghost invariant = { λ p. AreCounted p.bodies.items p.count };
}

// The operations of a commit's body, without its first bytes.
fn read_ops_of(alloc: Global, rest: &[u8]) -> Result<Vec<Op>, Memory>
    ensures { IfOk result (λ ops. ops.items ≡ ops_or_none (group_of rest.now)) }
{
    match read_group(alloc, rest) {
        Ok(ops) => Ok(ops),
        Err(ReadError::Malformed) => Ok(Vec::new(alloc)),
        Err(ReadError::Memory) => Err(Memory),
    }
}

// The operations of a commit's body.
fn group_in(alloc: Global, body: &[u8]) -> Result<Vec<Op>, Memory>
    ensures { IfOk result (λ ops. ops.items ≡ group_in body.now) }
{
    match body {
        [_, _, rest @ ..] => read_ops_of(alloc, rest),
        _ => Ok(Vec::new(alloc)),
    }
}

// The operations of bodies from a number on, one after another.
fn read_from(alloc: Global, bodies: &Vec<Group>, from: usize) -> Result<Vec<Op>, Memory>
    ensures { IfOk result (λ ops. ops.items ≡ groups_in (drop from bodies.now.items)) }
{
    if from >= bodies.len() {
        return Ok(Vec::new(alloc));
    }
    let mut ops = group_in(alloc, &bodies[from].body)?;
    let mut at = from + 1;
    while at < bodies.len() {
        let mut group = group_in(alloc, &bodies[at].body)?;
        ops.append(&mut group)?;
        at += 1;
    }
    Ok(ops)
}

// Takes operations back, the last one first, and puts the uuids of their tasks beside others.
fn take_these_back(
    alloc: Global,
    tasks: &mut Tasks,
    touched: &mut BTreeSet<Uuid>,
    ops: &Vec<Op>,
) -> Result<(), Memory>
    ensures tasks { OnOk result (tasks.new ≡ take_back_all tasks.old ops.now.items) }
    ensures touched { OnOk result ((u : List ℕ) → is_among touched.new.keys u ≡ (is_among touched.old.keys u || is_touched ops.now.items u)) }
{
    add_all_touched(touched, ops)?;
    take_back_from(alloc, tasks, ops, 0)
}

// Takes the operations of bodies back, the last one first, and answers the uuids of their tasks. Those of one body are read at a time.
fn take_bodies_back(
    alloc: Global,
    tasks: &mut Tasks,
    bodies: &Vec<Group>,
) -> Result<BTreeSet<Uuid>, Memory>
    ensures tasks { OnOk result (tasks.new ≡ take_back_all tasks.old (groups_in bodies.now.items)) }
    ensures touched { IfOk result (λ touched. (u : List ℕ) → is_among touched.keys u ≡ is_touched (groups_in bodies.now.items) u) }
{
    let mut touched = BTreeSet::new(alloc);
    let mut at = bodies.len();
    while at > 0 {
        at -= 1;
        let ops = group_in(alloc, &bodies[at].body)?;
        take_these_back(alloc, tasks, &mut touched, &ops)?;
    }
    Ok(touched)
}

// The operations of bodies from a number on. Bodies whose operations all come before it are not read.
fn read_behind(
    alloc: Global,
    bodies: &Vec<Group>,
    count: usize,
    from: usize,
) -> Result<Vec<Op>, Memory>
    requires { AreCounted bodies.now.items count }
    ensures { IfOk result (λ ops. ops.items ≡ drop from (groups_in bodies.now.items)) }
{
    let mut at = bodies.len();
    let mut first = count;
    while first > from {
        at -= 1;
        first -= bodies[at].count;
    }
    let mut ops = read_from(alloc, bodies, at)?;
    let before = from - first;
    let held = ops.len();
    if before >= held {
        return Ok(Vec::new(alloc));
    }
    ops.rotate_left(before);
    ops.truncate(held - before);
    Ok(ops)
}

// A record's body takes fewer bytes.
pub(crate) const BODY_LIMIT: usize = 4_294_967_296;

/// A copy of a body that a record can hold. To keep another there is no room.
pub fn copy_of(alloc: Global, body: &[u8]) -> Result<Vec<u8>, Memory>
    ensures copy { IfOk result (λ copy. copy.items ≡ body.now) }
    ensures short { OnOk result (length body.now < 2 ^ 32) }
{
    if body.len() >= BODY_LIMIT {
        return Err(Memory);
    }
    let mut copy = Vec::with_capacity(alloc, body.len())?;
    copy.extend_from_slice(body)?;
    Ok(copy)
}

impl Pending {
    /// No operations.
    pub fn new(alloc: Global) -> Pending
        ensures { result ≡ [] }
    {
        Pending {
            bodies: Vec::new(alloc),
            count: 0,
        }
    }

    /// How many operations there are. It reads none.
    pub fn len(&self) -> usize
        ensures { result ≡ length self.now }
    {
        self.count
    }

    /// The operations from a number on, counted from 0. Those before it are not read.
    pub fn behind(&self, alloc: Global, from: usize) -> Result<Vec<Op>, Memory>
        ensures { IfOk result (λ ops. ops.items ≡ drop from self.now) }
    {
        read_behind(alloc, &self.bodies, self.count, from)
    }

    /// All operations.
    pub fn ops(&self, alloc: Global) -> Result<Vec<Op>, Memory>
        ensures { IfOk result (λ ops. ops.items ≡ self.now) }
    {
        read_from(alloc, &self.bodies, 0)
    }

    /// The operations of the last command, with the undo point before them.
    pub fn last(&self, alloc: Global) -> Result<Option<Vec<Op>>, Memory>
        ensures { IfOk result (λ found. IsLast self.now found) }
    {
        let held = self.bodies.len();
        if held == 0 {
            return Ok(None);
        }
        Ok(Some(group_in(alloc, &self.bodies[held - 1].body)?))
    }

    /// Puts the operations of a commit's body after the others, which are so many, or changes nothing.
    pub fn keep(&mut self, body: Vec<u8>, count: usize) -> Result<(), Memory>
        requires { count ≡ length (group_in body.items) }
        ensures ok { OnOk result (self.new ≡ self.old ++ group_in body.items) }
        ensures err { OnErr result (self.new ≡ self.old) }
    {
        if count == 0 {
            return Ok(());
        }
        let Some(all) = self.count.checked_add(count) else {
            return Err(Memory);
        };
        self.bodies.push(Group { count, body })?;
        self.count = all;
        Ok(())
    }

    /// Lets the last group go.
    pub fn pop(&mut self)
        ensures { (ops : List AnyOp) (last : IsLastOf self.old ops) → self.new ≡ last.left }
    {
        if let Some(kept) = self.bodies.pop() {
            self.count -= kept.count;
        }
    }

    /// Takes the operations back, the last one first, and answers the uuids of their tasks. Those of one command are read at a time.
    pub(crate) fn take_back(
        &self,
        alloc: Global,
        tasks: &mut Tasks,
    ) -> Result<BTreeSet<Uuid>, Memory>
        ensures tasks { OnOk result (tasks.new ≡ take_back_all tasks.old self.now) }
        ensures touched { IfOk result (λ touched. (u : List ℕ) → is_among touched.keys u ≡ is_touched self.now u) }
    {
        take_bodies_back(alloc, tasks, &self.bodies)
    }
}
