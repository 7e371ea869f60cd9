// What a step leads to, made on copies of the tasks that it is about.
ghost use Rattle.std.specs.Prelude.{◌≡◌, IfOk};
ghost use Rattle.tw_model.specs.Ops.{TasksValue};
ghost use Rattle.tw_numbers.specs.Assigned.{RenewsByPart};
ghost use Rattle.tw_state.specs.Part.{fresh_among, with_part, HasRoom};
ghost use Rattle.tw_state.specs.Next.{after};

use crate::copies::{fresh_among, take_part};
use crate::state::{Core, places_for};
use std::alloc::Global;
use std::collections::BTreeSet;
use tw_model::Tasks;
use tw_world::Memory;
use uuid::Uuid;

/// What a step leads to: the tasks that it is about as they become, and the places.
pub struct Next {
    pub touched: BTreeSet<Uuid>,
    pub part: Tasks,
    /// The uuids of the part's tasks that were not there before.
    pub fresh: Vec<Uuid>,
    pub numbers: Vec<Option<Uuid>>,
}

// It is written out, so that a caller does not prove again how each part is dropped.
impl Drop for Next {
    fn drop(self) {
        let Next {
            touched: _,
            part: _,
            fresh: _,
            numbers: _,
        } = self;
    }
}

/// What a step leads to that makes this part of the tasks of these uuids.
pub fn next_on(
    alloc: Global,
    core: &Core,
    touched: BTreeSet<Uuid>,
    part: Tasks,
    renumber: bool,
) -> Result<Next, Memory>
    ensures leads { IfOk result (λ next. (tasks : TasksValue) → after next tasks ≡ with_part touched.keys part tasks) }
    ensures fresh { IfOk result (λ next. next.fresh.items ≡ fresh_among next.part core.now.tasks next.touched.keys) }
    ensures numbers { IfOk result (λ next. RenewsByPart renumber core.now.numbers.items next.numbers.items part touched.keys) }
{
    let fresh = fresh_among(alloc, &part, &core.tasks, &touched)?;
    let numbers = places_for(alloc, &core.numbers, &part, &touched, renumber)?;
    Ok(Next {
        touched,
        part,
        fresh,
        numbers,
    })
}

impl Next {
    /// Takes what a step leads to. It takes no memory.
    pub fn take_over(self, core: &mut Core)
        requires { HasRoom self.touched.keys self.part core.old.tasks }
        ensures base { core.new.base ≡ core.old.base }
        ensures pending { core.new.pending ≡ core.old.pending }
        ensures tasks { core.new.tasks ≡ after self core.old.tasks }
        ensures numbers { core.new.numbers ≡ self.numbers }
    {
        let Next {
            touched,
            part,
            fresh: _,
            numbers,
        } = self;
        take_part(&mut core.tasks, part, &touched);
        core.numbers = numbers;
    }
}
