// The intervals after a command.
ghost use Rattle.std.specs.Prelude.{◌+◌, length, ◌<◌, IfOk, ◌≤◌};
ghost use Rattle.timew_interval.specs.Edit.{edited, IsEditOf};
ghost use Rattle.timew_interval.specs.Interval.{limit, AreRows};
ghost use Rattle.timew_words.specs.Given.{IsGivenChange};
ghost use Rattle.timew_cmd.specs.Planned.{planned, Answers};

use crate::commands::annotate::annotate;
use crate::commands::cancel::cancel;
use crate::commands::continue_::go_on;
use crate::commands::delete::delete;
use crate::commands::join::join;
use crate::commands::lengthen::lengthen;
use crate::commands::move_to::move_to;
use crate::commands::shorten::shorten;
use crate::commands::split::split;
use crate::commands::start::begin;
use crate::commands::stop::stop;
use crate::commands::tag::tag;
use crate::commands::track::track;
use crate::commands::untag::untag;
use crate::error::TimewError;
use crate::open::moment_or;
use std::alloc::Global;
use timew_interval::{Edit, Interval, Intervals};
use timew_words::Changing;

/// The edit by which a command leads to other intervals at a moment, in seconds since 1970. A refusal changes nothing.
pub fn plan(
    alloc: Global,
    command: &Changing,
    rows: &Intervals,
    now: u64,
) -> Result<Edit, TimewError>
    requires command { IsGivenChange command.now }
    requires now { now < limit }
    ensures planned { Answers (λ e. edited e rows.now) result (planned command.now rows.now now) }
    ensures edit { IfOk result (IsEditOf rows.now) }
{
    plan_rows(alloc, command, rows.as_slice(), now)
}

// The same of rows.
fn plan_rows(
    alloc: Global,
    command: &Changing,
    rows: &[Interval],
    now: u64,
) -> Result<Edit, TimewError>
    requires command { IsGivenChange command.now }
    requires rows { AreRows rows.now }
    ensures planned { Answers (λ e. edited e rows.now) result (planned command.now rows.now now) }
    ensures inside { IfOk result (λ e. e.at + e.count ≤ length rows.now) }
{
    match command {
        Changing::Start(it) => begin(alloc, it.word, it.moment, &it.tags, it.adjust, rows, now),
        Changing::Stop(it) => stop(alloc, it.word, moment_or(now, it.moment), rows),
        Changing::Cancel => cancel(alloc, rows),
        Changing::Continue(parts) => go_on(alloc, parts, rows, now),
        Changing::Track(parts) => track(alloc, parts, rows),
        Changing::Tag(parts) => tag(alloc, parts, rows),
        Changing::Untag(parts) => untag(alloc, parts, rows),
        Changing::Annotate(parts) => annotate(alloc, parts, rows),
        Changing::Delete(ids) => delete(alloc, ids.as_slice(), rows),
        Changing::Split(ids) => split(alloc, ids.as_slice(), rows, now),
        Changing::Join(parts) => join(alloc, parts, rows),
        Changing::Move(parts) => move_to(alloc, parts, rows),
        Changing::Lengthen(parts) => lengthen(alloc, parts, rows),
        Changing::Shorten(parts) => shorten(alloc, parts, rows),
    }
}
