//! Laws of several runs. Each function does nothing: its contract is the law.
ghost use Rattle.tw_cli.specs.Headline.{MachinesExportAlike};
ghost use Rattle.tw_cli.specs.Resending.{AddedIsNotSentAgain, CommitAppends, AppendingGoesOn};
ghost use Rattle.tw_cli.specs.Served.{ServedIsEvent};
ghost use Rattle.tw_cli.specs.Surviving.{DoneIsAlone, AcknowledgedSurvives};

use tw_server::laws::a_drawn_id_is_real;
use tw_spawn::Spawner;
use tw_world::{Disk, Peer};

/// Each version that a refused sync added was sent: a later sync sends nothing again of what was sent up to it.
pub fn what_a_refused_sync_added_is_not_sent_again()
    ensures { AddedIsNotSentAgain }
{}

/// A commit appends to what is pending, and changes nothing before it. Each command but `undo` is one.
pub fn a_commit_appends()
    ensures { CommitAppends }
{}

/// What is appended in two runs is appended.
pub fn appending_goes_on()
    ensures { AppendingGoesOn }
{}

/// Machines that follow one chain, have one base and have nothing pending print equal exports: at one moment, in one zone, by the same weights
/// and one filter without numbers. `task_run`'s clause `headline` says that a run of `export` prints such a text.
pub fn machines_export_alike()
    ensures { MachinesExportAlike }
{}

/// A command that was carried out is acknowledged: its state is all that a later crash leaves.
pub fn what_was_done_is_all_that_is_left<D: Disk, P: Spawner>()
    ensures { DoneIsAlone D.model P.model }
{}

/// An acknowledged command survives: after every list of runs, crashes, lost and repeated requests and other clients, what is left of its
/// operations is pending, or a sync has put it into the chain, or an undo has taken it back. Only an operation that met one of a version that
/// was pulled since, and is not kept beside it, is dropped.
pub fn an_acknowledged_command_survives()
    ensures { AcknowledgedSurvives }
{}

/// An exchange of a server changed nothing, or what the peer asked is an event of each world whose chain is that of the request's client: the
/// world's `Answer` with the id that is drawn. What a crash leaves of it at any moment has the chain of before or that of the answer. The premises
/// are `serve_one`'s clause `step`, and that the peer tells what it asks.
pub fn an_exchange_is_an_event<D: Disk, P: Peer>(start: u128)
    ensures { ServedIsEvent D.model P.model start }
{
    a_drawn_id_is_real(start);
}
