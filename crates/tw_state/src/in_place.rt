// The steps of syncs that leave the tasks at hand in place, and of those that were cut short.
ghost use Rattle.std.specs.Prelude.{◌≡◌, true, option_map, IfOk};
ghost use Rattle.tw_bodies.specs.Reading.{all_ops_of};
ghost use Rattle.tw_state.specs.Core.{StepsTo};
ghost use Rattle.tw_state.specs.Indexed.{IsUpToDate};
ghost use Rattle.tw_state.specs.Applied.{carried_by, partly_by};

use crate::fitting::apply_fitting;
use crate::indexed::Indexed;
use crate::pending::Pending;
use crate::pends::{may_pend, pending_of};
use std::alloc::Global;
use std::collections::BTreeSet;
use tw_bodies::read_all_ops;
use tw_fields::ReadError;
use tw_model::Op;
use tw_numbers::assign;
use tw_world::Memory;
use uuid::Uuid;

// What is pending after a sync that was cut short, if the bytes are that.
fn pending_in(alloc: Global, bytes: &[u8]) -> Result<Option<Vec<Op>>, Memory>
    ensures { IfOk result (λ ops. option_map (λ ops. ops.items) ops ≡ all_ops_of bytes.now) }
{
    match read_all_ops(alloc, bytes) {
        Ok(ops) => Ok(Some(ops)),
        Err(ReadError::Malformed) => Ok(None),
        Err(ReadError::Memory) => Err(Memory),
    }
}

impl Indexed {
    /// Applies what a sync in place carried to the tasks at hand, and answers whether the bytes are so many operations and all fit.
    pub(crate) fn carried(
        &mut self,
        alloc: Global,
        base: Uuid,
        count: u32,
        bytes: &[u8],
    ) -> Result<bool, Memory>
        requires { IsUpToDate self.old }
        ensures step { IfOk result (λ done. StepsTo done (carried_by base count bytes.now) self.old.core self.new.core) }
        ensures ready { IfOk result (λ done. done ≡ true → IsUpToDate self.new) }
    {
        let mut touched = BTreeSet::new(alloc);
        let tasks = &mut self.core.tasks;
        let Some(rest) = apply_fitting(alloc, tasks, &mut touched, count, bytes)? else {
            return Ok(false);
        };
        if rest.len() > 0 {
            return Ok(false);
        }
        assign(
            alloc,
            &mut self.core.numbers,
            &mut self.index,
            &mut self.looks,
            &self.core.tasks,
            &touched,
        )?;
        self.core.pending = Pending::new(alloc);
        self.core.base = base;
        Ok(true)
    }

    /// Applies what a sync that was cut short carried, and takes what is pending then.
    /// Answers whether the bytes are so many operations and what is pending, the ones fit and the others may be pending.
    pub(crate) fn partly(
        &mut self,
        alloc: Global,
        base: Uuid,
        count: u32,
        bytes: &[u8],
    ) -> Result<bool, Memory>
        requires { IsUpToDate self.old }
        ensures step { IfOk result (λ done. StepsTo done (partly_by base count bytes.now) self.old.core self.new.core) }
        ensures ready { IfOk result (λ done. done ≡ true → IsUpToDate self.new) }
    {
        let mut touched = BTreeSet::new(alloc);
        let tasks = &mut self.core.tasks;
        let Some(rest) = apply_fitting(alloc, tasks, &mut touched, count, bytes)? else {
            return Ok(false);
        };
        let Some(pending) = pending_in(alloc, rest)? else {
            return Ok(false);
        };
        if !may_pend(alloc, &mut self.core.tasks, &pending)? {
            return Ok(false);
        }
        let kept = pending_of(alloc, &pending)?;
        assign(
            alloc,
            &mut self.core.numbers,
            &mut self.index,
            &mut self.looks,
            &self.core.tasks,
            &touched,
        )?;
        self.core.pending = kept;
        self.core.base = base;
        Ok(true)
    }
}
