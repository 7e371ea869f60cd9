// `untag`: takes tags from intervals.
ghost use Rattle.std.specs.Prelude.{◌+◌, ◌≤◌, length, IfOk};
ghost use Rattle.timew_interval.specs.Edit.{edited};
ghost use Rattle.timew_cmd.specs.Commands.Untag.{untagged};
ghost use Rattle.timew_cmd.specs.Planned.{Answers};

use crate::error::TimewError;
use crate::labels::{Label, labelled};
use std::alloc::Global;
use timew_interval::{Edit, Interval};
use timew_words::Tagging;

/// What `untag` makes of intervals.
pub fn untag(alloc: Global, parts: &Tagging, rows: &[Interval]) -> Result<Edit, TimewError>
    ensures untagged { Answers (λ e. edited e rows.now) result (untagged parts.now.ids parts.now.tags rows.now) }
    ensures inside { IfOk result (λ e. e.at + e.count ≤ length rows.now) }
{
    labelled(
        alloc,
        parts.ids.as_slice(),
        Label::Remove(&parts.tags),
        rows,
    )
}
