// `annotate`: sets the annotation of an interval.
ghost use Rattle.std.specs.Prelude.{◌+◌, ◌≤◌, length, IfOk};
ghost use Rattle.timew_interval.specs.Edit.{edited};
ghost use Rattle.timew_cmd.specs.Commands.Annotate.{as_ids, annotated};
ghost use Rattle.timew_cmd.specs.Planned.{Answers};

use crate::error::TimewError;
use crate::labels::{Label, labelled};
use std::alloc::Global;
use timew_interval::{Edit, Interval};
use timew_words::Annotate;

/// What `annotate` makes of intervals.
pub fn annotate(alloc: Global, parts: &Annotate, rows: &[Interval]) -> Result<Edit, TimewError>
    ensures annotated { Answers (λ e. edited e rows.now) result (annotated (as_ids parts.now.id) parts.now.text rows.now) }
    ensures inside { IfOk result (λ e. e.at + e.count ≤ length rows.now) }
{
    match parts.id {
        Some(id) => labelled(alloc, &[id], Label::Annotation(&parts.text), rows),
        None => labelled(alloc, &[], Label::Annotation(&parts.text), rows),
    }
}
