// The members of a task's object.
ghost use Rattle.std.specs.Prelude.{◌≡◌, ◌≤◌, ◌++◌, OnOk};
ghost use Rattle.std.specs.Ordering.{is_lt};
ghost use Rattle.tw_model.specs.Maps.{bytes_cmp};
ghost use Rattle.tw_export.specs.Export.{own_below, own_from, own_tokens};
ghost use Rattle.tw_export.specs.Owns.{owns_in, tokens_of};

use crate::own::{own_name, put_own};
use crate::property::put_property;
use json::Writer;
use std::alloc::Global;
use std::cmp::Ordering;
use tw_model::TaskMap;
use tw_world::Memory;
use uuid::Uuid;

/// What the members of the export's own are made of.
#[derive(Clone, Copy)]
pub(crate) struct Subject<'a> {
    pub(crate) uuid: Uuid,
    pub(crate) task: &'a TaskMap,
    /// What is printed under `urgency`, if anything.
    pub(crate) urgency: Option<i64>,
}

/// Writes the members of a task's object, in byte order of their names.
pub(crate) fn put_members(
    writer: &mut Writer,
    alloc: Global,
    subject: &Subject<'_>,
    second: u64,
) -> Result<(), Memory>
    ensures written { OnOk result (writer.new.tokens ≡ writer.old.tokens ++ tokens_of subject.now second) }
    ensures before { writer.new.before ≡ writer.old.before }
{
    let task = subject.task;
    let mut next = 0;
    for n in 0..task.len() {
        put_own_below(writer, alloc, subject, &mut next, task.key(n))?;
        put_property(writer, task, second, task.key(n), task.value(n))?;
    }
    put_rest(writer, alloc, subject, next)
}

fn is_below(a: &str, b: &str) -> bool
    ensures { result ≡ is_lt (bytes_cmp a.now b.now) }
{
    a.cmp(&b) == Ordering::Less
}

// Writes the members of the export's own from number `next` on whose names are below a name.
fn put_own_below(
    writer: &mut Writer,
    alloc: Global,
    subject: &Subject<'_>,
    next: &mut u64,
    name: &str,
) -> Result<(), Memory>
    requires { next.old ≤ 5 }
    ensures few { next.new ≤ 5 }
    ensures written { OnOk result (writer.new.tokens ≡ writer.old.tokens ++ own_tokens (own_below name.now (owns_in subject.now next.old))) }
    ensures left { OnOk result (owns_in subject.now next.new ≡ own_from name.now (owns_in subject.now next.old)) }
    ensures before { writer.new.before ≡ writer.old.before }
{
    while *next < 5 {
        if !is_below(own_name(subject, *next), name) {
            return Ok(());
        }
        put_own(writer, alloc, subject, *next)?;
        *next += 1;
    }
    Ok(())
}

// Writes the members of the export's own from number `from` on.
fn put_rest(
    writer: &mut Writer,
    alloc: Global,
    subject: &Subject<'_>,
    from: u64,
) -> Result<(), Memory>
    requires { from ≤ 5 }
    ensures written { OnOk result (writer.new.tokens ≡ writer.old.tokens ++ own_tokens (owns_in subject.now from)) }
    ensures before { writer.new.before ≡ writer.old.before }
{
    for n in from..5 {
        put_own(writer, alloc, subject, n)?;
    }
    Ok(())
}
