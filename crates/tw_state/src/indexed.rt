// Taking one step after another in memory, with an index of the places.
ghost use Rattle.std.specs.Prelude.{◌≡◌, true, false, IfOk};
ghost use Rattle.tw_state.specs.State.{start, stepped, committed, undone, is_sound};
ghost use Rattle.tw_state.specs.Core.{state_of, StepsTo};
ghost use Rattle.tw_state.specs.Groups.{group_in};
ghost use Rattle.tw_state.specs.Applied.{synced_by};
ghost use Rattle.tw_state.specs.Restoring.{restored_by};
ghost use Rattle.tw_state.specs.Indexed.{IsUpToDate, MakesOne};

use crate::apply::apply_read;
use crate::pending::Pending;
use crate::restore::take_pending;
use crate::state::{Core, apply_ops, is_idle, take_back_from};
use crate::touched::{made_task, touched_uuids};
use std::alloc::Global;
use std::collections::BTreeMap;
use tw_bodies::{Read, read_step};
use tw_fields::ReadError;
use tw_model::{Op, Tasks};
use tw_numbers::{LOOKS, assign, assign_new, is_assigned, pack_if};
use tw_world::Memory;
use uuid::Uuid;

/// A replica that is replayed, and where each of its tasks is in the places, once that was needed.
pub struct Indexed {
    pub core: Core,
    pub index: Option<BTreeMap<Uuid, u64>>,
    /// For how many tasks the places may still be looked through before the index is made.
    pub looks: usize,
}

// It is written out, so that a caller does not prove again how each part is dropped.
impl Drop for Indexed {
    fn drop(self) {
        let Indexed {
            core: _,
            index: _,
            looks: _,
        } = self;
    }
}

impl Indexed {
    /// What no record leads to.
    pub fn new(alloc: Global) -> Indexed
        ensures state { state_of result.core ≡ start }
        ensures sound { is_sound (state_of result.core) ≡ true }
        ensures ready { IsUpToDate result }
    {
        Indexed {
            core: Core::new(alloc),
            index: None,
            looks: LOOKS,
        }
    }

    /// What was replayed.
    pub fn into_core(self) -> Core
        ensures { result ≡ self.core }
    {
        let Indexed {
            core,
            index: _,
            looks: _,
        } = self;
        core
    }

    // Commits operations that make a task and are about no other, as an `add` does.
    fn commit_new(
        &mut self,
        alloc: Global,
        ops: Vec<Op>,
        uuid: Uuid,
        body: Vec<u8>,
    ) -> Result<bool, Memory>
        requires ready { IsUpToDate self.old }
        requires body { group_in body.items ≡ ops.items }
        requires one { MakesOne uuid ops.items }
        ensures step { IfOk result (λ done. StepsTo done (committed false ops.items) self.old.core self.new.core) }
        ensures ready { IfOk result (λ done. done ≡ true → IsUpToDate self.new) }
    {
        if let Some(_) = apply_ops(alloc, &mut self.core.tasks, &ops)? {
            return Ok(false);
        }
        assign_new(
            &mut self.core.numbers,
            &mut self.index,
            &self.core.tasks,
            uuid,
        )?;
        self.core.pending.keep(body, ops.len())?;
        Ok(true)
    }

    // Commits the operations of a body, and answers whether all of them fit. What is left of one that does not is of no use.
    fn commit(
        &mut self,
        alloc: Global,
        ops: Vec<Op>,
        renumber: bool,
        body: Vec<u8>,
    ) -> Result<bool, Memory>
        requires ready { IsUpToDate self.old }
        requires body { group_in body.items ≡ ops.items }
        ensures step { IfOk result (λ done. StepsTo done (committed renumber ops.items) self.old.core self.new.core) }
        ensures ready { IfOk result (λ done. done ≡ true → IsUpToDate self.new) }
    {
        if renumber {
            return self.commit_any(alloc, ops, true, body);
        }
        match made_task(&ops) {
            Some(uuid) => self.commit_new(alloc, ops, uuid, body),
            None => self.commit_any(alloc, ops, false, body),
        }
    }

    // Commits operations of any kind.
    fn commit_any(
        &mut self,
        alloc: Global,
        ops: Vec<Op>,
        renumber: bool,
        body: Vec<u8>,
    ) -> Result<bool, Memory>
        requires ready { IsUpToDate self.old }
        requires body { group_in body.items ≡ ops.items }
        ensures step { IfOk result (λ done. StepsTo done (committed renumber ops.items) self.old.core self.new.core) }
        ensures ready { IfOk result (λ done. done ≡ true → IsUpToDate self.new) }
    {
        if is_idle(renumber, &ops) {
            return Ok(true);
        }
        let touched = touched_uuids(alloc, &ops, 0)?;
        if let Some(_) = apply_ops(alloc, &mut self.core.tasks, &ops)? {
            return Ok(false);
        }
        assign(
            alloc,
            &mut self.core.numbers,
            &mut self.index,
            &mut self.looks,
            &self.core.tasks,
            &touched,
        )?;
        pack_if(
            &mut self.core.numbers,
            &mut self.index,
            &mut self.looks,
            renumber,
        );
        self.core.pending.keep(body, ops.len())?;
        Ok(true)
    }

    // Takes the last group back, and answers whether there was an undo point.
    fn undo(&mut self, alloc: Global) -> Result<bool, Memory>
        requires { IsUpToDate self.old }
        ensures step { IfOk result (λ done. StepsTo done undone self.old.core self.new.core) }
        ensures ready { IfOk result (λ done. done ≡ true → IsUpToDate self.new) }
    {
        match self.core.pending.last(alloc)? {
            None => Ok(false),
            Some(group) => {
                let touched = touched_uuids(alloc, &group, 1)?;
                take_back_from(alloc, &mut self.core.tasks, &group, 1)?;
                assign(
                    alloc,
                    &mut self.core.numbers,
                    &mut self.index,
                    &mut self.looks,
                    &self.core.tasks,
                    &touched,
                )?;
                self.core.pending.pop();
                Ok(true)
            }
        }
    }

    // Takes what is pending back, and applies what a sync brought. Answers whether the bytes are so many operations.
    fn sync(&mut self, alloc: Global, base: Uuid, count: u32, bytes: &[u8]) -> Result<bool, Memory>
        requires { IsUpToDate self.old }
        ensures step { IfOk result (λ done. StepsTo done (synced_by base count bytes.now) self.old.core self.new.core) }
        ensures ready { IfOk result (λ done. done ≡ true → IsUpToDate self.new) }
    {
        let mut touched = self.core.pending.take_back(alloc, &mut self.core.tasks)?;
        if !apply_read(alloc, &mut self.core.tasks, &mut touched, count, bytes)? {
            return Ok(false);
        }
        assign(
            alloc,
            &mut self.core.numbers,
            &mut self.index,
            &mut self.looks,
            &self.core.tasks,
            &touched,
        )?;
        self.core.pending = Pending::new(alloc);
        self.core.base = base;
        Ok(true)
    }

    // Takes a whole state in place of what is there, and answers whether the bytes are so many pending operations and it is sound.
    fn restore(
        &mut self,
        alloc: Global,
        base: Uuid,
        places: Vec<Option<Uuid>>,
        tasks: Tasks,
        count: u32,
        bytes: &[u8],
    ) -> Result<bool, Memory>
        ensures step { IfOk result (λ done. StepsTo done (restored_by base places.items tasks count bytes.now) self.old.core self.new.core) }
        ensures ready { IfOk result (λ done. done ≡ true → IsUpToDate self.new) }
    {
        let mut tasks = tasks;
        let mut pending = Pending::new(alloc);
        if !take_pending(alloc, &mut tasks, &mut pending, count, bytes)? {
            return Ok(false);
        }
        if !is_assigned(alloc, &places, &tasks)? {
            return Ok(false);
        }
        self.index = None;
        self.looks = LOOKS;
        self.core = Core {
            base,
            pending,
            tasks,
            numbers: places,
        };
        Ok(true)
    }

    /// Takes the step of a body, and answers whether it is one that can be taken here.
    pub fn step(&mut self, alloc: Global, body: Vec<u8>) -> Result<bool, Memory>
        requires { IsUpToDate self.old }
        ensures step { IfOk result (λ done. StepsTo done (λ state. stepped state body.items) self.old.core self.new.core) }
        ensures ready { IfOk result (λ done. done ≡ true → IsUpToDate self.new) }
    {
        match read_step(alloc, &body) {
            Ok(Read::Commit { renumber, ops }) => self.commit(alloc, ops, renumber, body),
            Ok(Read::Undo) => self.undo(alloc),
            Ok(Read::Sync { base, count, ops }) => {
                self.sync(alloc, Uuid::from_bytes(base), count, ops)
            }
            Ok(Read::Carried { base, count, ops }) => {
                self.carried(alloc, Uuid::from_bytes(base), count, ops)
            }
            Ok(Read::Partial { base, count, ops }) => {
                self.partly(alloc, Uuid::from_bytes(base), count, ops)
            }
            Ok(
                Read::Checkpoint {
                    base,
                    places,
                    tasks,
                    count,
                    ops,
                },
            ) => self.restore(alloc, Uuid::from_bytes(base), places, tasks, count, ops),
            Err(ReadError::Malformed) => Ok(false),
            Err(ReadError::Memory) => Err(Memory),
        }
    }
}
