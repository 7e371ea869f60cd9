// The order of a report's rows.
ghost use Rattle.std.specs.Prelude.{◌≡◌, ◌<◌, [], IfOk, IfSome, OnOk};
ghost use Rattle.std.specs.BTreeSet.{insert_key};
ghost use Rattle.tw_report.specs.Sight.{IsLook, IsModest, sight_in};
ghost use Rattle.tw_terms.specs.Chosen.{chosen};
ghost use Rattle.tw_report.specs.Order.{absent_last, rank_number, rank_of, rank_cmp, with_ranks};

use crate::look::{Look, urgency_in};
use crate::report::Report;
use std::alloc::Global;
use std::collections::BTreeSet;
use tw_model::TaskMap;
use tw_terms::chosen_of;
use tw_urgency::moment_at;
use tw_world::{MOMENT_LIMIT, Memory};
use uuid::Uuid;

fn absent_last(at: Option<u64>) -> i64
    requires { IfSome at (λ n. n < MOMENT_LIMIT) }
    ensures value { result ≡ absent_last at }
    ensures modest { IsModest result }
{
    match at {
        Some(at) => at as i64,
        None => MOMENT_LIMIT as i64,
    }
}

fn rank_number(report: Report, look: &Look<'_>, uuid: Uuid, task: &TaskMap) -> i64
    requires { IsLook look.now }
    ensures value { result ≡ rank_number report (sight_in look.now) uuid task.now }
    ensures modest { IsModest result }
{
    match report {
        Report::List | Report::Blocked => absent_last(moment_at(task, "due")),
        Report::Next => -urgency_in(look, uuid),
        Report::All => 0,
        Report::Completed => absent_last(moment_at(task, "end")),
        Report::Waiting => absent_last(moment_at(task, "wait")),
    }
}

fn add_rank(
    ranks: &mut BTreeSet<(i64, Uuid)>,
    report: Report,
    look: &Look<'_>,
    uuid: Uuid,
    task: &TaskMap,
) -> Result<(), Memory>
    requires { IsLook look.now }
    ensures { OnOk result (ranks.new.keys ≡ insert_key rank_cmp ranks.old.keys (rank_of report (sight_in look.now) (uuid, task.now))) }
{
    ranks.insert((rank_number(report, look, uuid, task), uuid))?;
    Ok(())
}

/// The rows in the order of a report.
pub(crate) fn ranks_of(
    alloc: Global,
    report: Report,
    rows: &Vec<Uuid>,
    look: &Look<'_>,
) -> Result<BTreeSet<(i64, Uuid)>, Memory>
    requires { IsLook look.now }
    ensures { IfOk result (λ ranks. ranks.keys ≡ with_ranks report (sight_in look.now) [] (chosen rows.now.items (sight_in look.now).tasks)) }
{
    let chosen = chosen_of(alloc, rows)?;
    let mut ranks = BTreeSet::new(alloc);
    for (uuid, task) in look.view.tasks.iter() {
        if chosen.contains(uuid) {
            add_rank(&mut ranks, report, look, *uuid, task)?;
        }
    }
    Ok(ranks)
}
