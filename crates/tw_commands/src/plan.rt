// What a command is to do, and what it is to print.
ghost use Rattle.std.specs.Prelude.{◌≡◌, Ok as AnOk, IfOk};
ghost use Rattle.tw_replica.specs.Replica.{held_state};
ghost use Rattle.tw_commands.specs.Plan.{work_view, plan_view};
ghost use Rattle.tw_commands.specs.Asks.{asked_of, answered_with};

use crate::asks::{answered_work, asks_of, event_in};
use std::alloc::Global;
use tw_changes::{Mark, Request};
use tw_hooks::Ask;
use tw_model::{Change, TaskMap};
use tw_replica::Replica;
use tw_report::Report;
use tw_world::Memory;
use uuid::Uuid;

/// What was done to tasks.
#[derive(Clone, Copy, Drop)]
pub enum Deed {
    Modified,
    Annotated,
    Denotated,
    Completed,
    Deleted,
    Purged,
    Started,
    Stopped,
    Duplicated,
    Imported,
}

/// The step of a command.
#[derive(Drop)]
pub enum Work {
    /// Changes are made, one after another, parents marked, and the numbers packed if that is asked.
    Changes {
        renumber: bool,
        changes: Vec<Change>,
        marks: Vec<Mark>,
    },
    /// The last group is taken back.
    TakeBack,
}

/// What is printed.
#[derive(Drop)]
pub enum Show {
    /// On how many tasks it acted.
    Counted {
        deed: Deed,
        count: u64,
    },
    /// The number of a task that was added, and whether it recurs.
    Created {
        uuid: Uuid,
    },
    /// That a task was logged.
    Logged,
    /// How many operations were taken back.
    TakenBack,
    /// This text.
    Text(Vec<u8>),
    /// A report, whose words name tasks by the numbers from before.
    Report {
        report: Report,
        numbers: Vec<Option<Uuid>>,
    },
}

/// What a command is to do, and what it is to print.
pub struct Plan {
    pub work: Work,
    pub show: Show,
}

// It is written out, so that a caller does not prove again how each part is dropped.
impl Drop for Plan {
    fn drop(self) {
        let Plan { work: _, show: _ } = self;
    }
}

impl Plan {
    /// What it is to do, and what it is to print.
    pub(crate) fn into_parts(self) -> (Work, Show)
        ensures { result ≡ (self.work, self.show) }
    {
        let Plan { work, show } = self;
        (work, show)
    }
    /// The tasks that hooks are asked about before the plan is concluded, in the order of its changes. The replica is that for which it
    /// was made.
    pub fn asks(
        &self,
        alloc: Global,
        request: &Request<'_>,
        replica: &Replica,
    ) -> Result<Vec<Ask>, Memory>
        ensures { IfOk result (λ asks. asks.items ≡ asked_of request.now (held_state replica.now).tasks (work_view self.now.work)) }
    {
        if event_in(request).is_none() {
            return Ok(Vec::new(alloc));
        }
        match &self.work {
            Work::Changes { changes, .. } => asks_of(alloc, replica.tasks(), changes),
            Work::TakeBack => Ok(Vec::new(alloc)),
        }
    }

    /// The plan, where the tasks that hooks are asked about become these, in their order. Tasks that are left stay as they were planned, and
    /// answers that are left are passed over.
    pub fn answered(
        self,
        alloc: Global,
        replica: &Replica,
        answers: &Vec<TaskMap>,
    ) -> Result<Plan, Memory>
        ensures { IfOk result (λ plan. answered_with answers.now.items (held_state replica.now).tasks (AnOk (plan_view self)) ≡ AnOk (plan_view plan)) }
    {
        let Plan { work, show } = self;
        let work = answered_work(alloc, replica.tasks(), work, answers)?;
        Ok(Plan { work, show })
    }
}
