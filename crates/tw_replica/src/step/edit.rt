// Changing the tasks of a replica in memory.
ghost use Rattle.std.specs.Prelude.{◌≡◌, ◌++◌, OnOk};
ghost use Rattle.tw_model.specs.Maps.{same_bytes};
ghost use Rattle.tw_model.specs.Changes.{changed, changed_all, ops_of, ops_of_all};
ghost use Rattle.tw_model.specs.Ops.{TasksValue};
ghost use Rattle.tw_state.specs.Touched.{Gains};
ghost use Rattle.tw_replica.specs.Prepared.{ChangedAmong};

use crate::step::prepare::commit_core;
use crate::step::write::Prepared;
use std::alloc::Global;
use std::collections::BTreeSet;
use tw_journal::Journal;
use tw_model::{Change, Op, Tasks, make};
use tw_state::Core;
use tw_world::{Memory, Moment};
use uuid::Uuid;

/// A replica whose tasks are being changed, in memory. Dropping it leaves the file as it was.
pub struct Editing {
    pub(crate) journal: Journal,
    pub(crate) core: Core,
    pub(crate) ops: Vec<Op>,
    pub(crate) touched: BTreeSet<Uuid>,
}

// It is written out, so that a caller does not prove again how each part is dropped.
impl Drop for Editing {
    fn drop(self) {
        let Editing {
            journal: _,
            core: _,
            ops: _,
            touched: _,
        } = self;
    }
}

impl Editing {
    ghost use Rattle.std.specs.Prelude.{◌≡◌, ◌++◌, List, Bool, IfOk, OnOk};
    ghost use Rattle.tw_world.specs.declared.Moment.{Moment as AnyMoment};
    ghost use Rattle.tw_model.specs.declared.Change.{Change as AnyChange};
    ghost use Rattle.tw_replica.specs.Prepared.{IsEditing, MakesAll, PreparesChanges};
    ghost use Rattle.tw_replica.specs.declared.replica.Replica.{Replica as AnyReplica};

    /// The tasks, with the changes that were made.
    pub fn tasks(&self) -> &Tasks
        ensures { result.now ≡ self.now.core.tasks }
    {
        &self.core.tasks
    }

    /// Makes changes, one after another, each of what those before it leave. Their updates are stamped with the moment `at`.
    /// After want of memory a part of them may be made, and it is to be dropped.
    pub fn make(&mut self, alloc: Global, changes: Vec<Change>, at: Moment) -> Result<(), Memory>
        ensures { OnOk result (MakesAll self.old self.new changes.items at) }
    {
        make_all(
            alloc,
            &mut self.core.tasks,
            &mut self.ops,
            &mut self.touched,
            changes,
            at,
        )
    }

    /// Makes a step of the changes, with an undo point in front of their operations, and packs the numbers if it is asked.
    /// Nothing is written yet.
    pub fn prepare(self, alloc: Global, renumber: bool) -> Result<Prepared, Memory>
        requires { (old : AnyReplica) × (made : List AnyChange) × (at : AnyMoment) × IsEditing old made at self }
        ensures { IfOk result (λ prepared. PreparesChanges self renumber prepared) }
    {
        let Editing {
            journal,
            core,
            ops,
            touched,
        } = self;
        let mut core = core;
        let body = commit_core(alloc, &mut core, ops, &touched, renumber)?;
        Ok(Prepared {
            journal,
            core,
            body,
        })
    }
}

fn make_one(
    alloc: Global,
    tasks: &mut Tasks,
    ops: &mut Vec<Op>,
    touched: &mut BTreeSet<Uuid>,
    change: Change,
    at: Moment,
) -> Result<(), Memory>
    ensures tasks { OnOk result (tasks.new ≡ changed tasks.old change) }
    ensures ops { OnOk result (ops.new.items ≡ ops.old.items ++ ops_of tasks.old change at) }
    ensures touched { OnOk result (Gains touched.old touched.new (λ u. same_bytes u change.uuid)) }
{
    touched.insert(change.uuid)?;
    make(alloc, tasks, ops, change, at)
}

// Makes changes, one after another, puts their operations after others, and the uuids of their tasks beside others.
fn make_all(
    alloc: Global,
    tasks: &mut Tasks,
    ops: &mut Vec<Op>,
    touched: &mut BTreeSet<Uuid>,
    changes: Vec<Change>,
    at: Moment,
) -> Result<(), Memory>
    ensures tasks { OnOk result (tasks.new ≡ changed_all tasks.old changes.items) }
    ensures ops { OnOk result (ops.new.items ≡ ops.old.items ++ ops_of_all tasks.old changes.items at) }
    ensures among { OnOk result ((first : TasksValue) → ChangedAmong touched.old.keys first tasks.old → ChangedAmong touched.new.keys first tasks.new) }
{
    for change in changes {
        make_one(alloc, tasks, ops, touched, change, at)?;
    }
    Ok(())
}
