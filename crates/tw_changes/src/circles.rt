// Dependencies that a command adds, and circles that they close.
ghost use Rattle.std.specs.Prelude.{◌≡◌, ◌++◌, drop, IfOk, OnOk};
ghost use Rattle.tw_urgency.specs.Paths.{IsClosed};
ghost use Rattle.tw_changes.specs.Circles as spec;

use std::alloc::Global;
use std::collections::BTreeSet;
use tw_model::{Op, Tasks};
use tw_urgency::{dependency_in, reach, reached};
use tw_words::Command;
use tw_world::Memory;
use uuid::Uuid;

/// Whether circles are judged: not of what is imported, nor of the instances that a report makes.
pub fn is_judged(command: Command) -> bool
    ensures { result ≡ spec.is_judged command }
{
    match command {
        Command::Import
        | Command::List
        | Command::Next
        | Command::All
        | Command::Completed
        | Command::Waiting
        | Command::Blocked => false,
        _ => true,
    }
}

// Adds the task and the dependency, where an operation adds one.
fn push_gain(gains: &mut Vec<(Uuid, Uuid)>, op: &Op) -> Result<(), Memory>
    ensures { OnOk result (gains.new.items ≡ gains.old.items ++ spec.gain_by op.now) }
{
    if let Op::Update {
        uuid,
        property,
        before: None,
        after: Some(_),
        ..
    } = op
    {
        if let Some(dependency) = dependency_in(property.as_str()) {
            gains.push((*uuid, dependency))?;
        }
    }
    Ok(())
}

// The tasks and the dependencies that the operations from a place on add.
fn gains_from(alloc: Global, ops: &Vec<Op>, from: usize) -> Result<Vec<(Uuid, Uuid)>, Memory>
    ensures { IfOk result (λ all. all.items ≡ spec.gains (drop from ops.now.items)) }
{
    let mut all = Vec::new(alloc);
    let mut at = from;
    while at < ops.len() {
        push_gain(&mut all, &ops[at])?;
        at += 1;
    }
    Ok(all)
}

// Whether a dependency of a task closes a circle. What the dependencies before it lead to is known. If the task is among that, one of them
// may lead to it: then what this one leads to is searched alone.
fn closes(
    alloc: Global,
    tasks: &Tasks,
    known: &mut BTreeSet<Uuid>,
    uuid: Uuid,
    dependency: Uuid,
) -> Result<bool, Memory>
    requires closed { IsClosed tasks.now known.old }
    ensures closes { IfOk result (λ is. is ≡ spec.closes tasks.now (uuid, dependency)) }
    ensures closed { OnOk result (IsClosed tasks.now known.new) }
{
    reach(alloc, tasks, known, dependency)?;
    if !known.contains(&uuid) {
        return Ok(false);
    }
    let alone = reached(alloc, tasks, dependency)?;
    let is = alone.contains(&uuid);
    *known = alone;
    Ok(is)
}

/// The first dependency that the operations from a place on add and that closes a circle. All of them are searched at once. A command gives
/// each of its tasks the same dependencies. So one is searched alone only if one of them closes a circle, or if there was one before.
pub fn first_circle(
    alloc: Global,
    tasks: &Tasks,
    ops: &Vec<Op>,
    from: usize,
) -> Result<Option<Uuid>, Memory>
    ensures { IfOk result (λ circle. circle ≡ spec.first_circle tasks.now (drop from ops.now.items)) }
{
    let gains = gains_from(alloc, ops, from)?;
    let mut known = BTreeSet::new(alloc);
    for (uuid, dependency) in &gains {
        if closes(alloc, tasks, &mut known, *uuid, *dependency)? {
            return Ok(Some(*dependency));
        }
    }
    Ok(None)
}
