// Hints of a run of `task`, by its cause.

use crate::hints::says_over;
use std::alloc::Global;
use std::test::Fail;
use tw_cli::Cause;
use tw_sync::ReplyKind;
use tw_world::{Memory, Text};
use uuid::Uuid;

fn says(alloc: Global, cause: Cause, want: &str) -> bool {
    says_over(alloc, &cause, "", "", want)
}

fn are_refusals_said(alloc: Global) -> bool {
    let uuid = Uuid::from_u128(1);
    says(alloc, Cause::Done, "")
        & says(
            alloc,
            Cause::NoMatch,
            "tw: no task fits; tw task all shows all of them\n",
        )
        & says_over(
            alloc,
            &Cause::NoMatch,
            "task|--help",
            "",
            "tw: for help: tw --help\n",
        )
        & says(
            alloc,
            Cause::NothingToUndo,
            "tw: what a sync has sent can't be undone\n",
        )
        & says(
            alloc,
            Cause::NoServer,
            "tw: set sync.server.url and sync.server.client_id: twrc(5)\n",
        )
        & says(
            alloc,
            Cause::Cycle { uuid },
            "tw: that task waits for this one already, perhaps through others\n",
        )
        & says(
            alloc,
            Cause::IdTaken { uuid },
            "tw: run it again: another uuid is drawn\n",
        )
        & says(
            alloc,
            Cause::RecordTooLong { bytes: 1 },
            "tw: do it in parts\n",
        )
        & says(
            alloc,
            Cause::InputTooLong,
            "tw: import at most 64 MiB at a time\n",
        )
        & says(
            alloc,
            Cause::Memory,
            "tw: free some memory, or do it in parts\n",
        )
}

fn are_faults_said(alloc: Global) -> bool {
    says(
        alloc,
        Cause::DiskFault,
        "tw: /a/j: a write failed; is the disk full?\n",
    ) & says(
        alloc,
        Cause::OutFault,
        "tw: it was carried out; only the answer is lost\n",
    ) & says(
        alloc,
        Cause::Damaged { offset: 9 },
        "tw: tw rescue /a/j saves what is whole; keep the damaged file\n",
    ) & says(
        alloc,
        Cause::InFault,
        "tw: the standard input can't be read\n",
    ) & says(
        alloc,
        Cause::HookFault,
        "tw: hooks can't be read, or a signal ended one\n",
    ) & says(
        alloc,
        Cause::TrackFault,
        "tw: the hours are in /a/h; try tw timew\n",
    ) & says(
        alloc,
        Cause::TrackDamaged { offset: 9 },
        "tw: tw rescue /a/h/undo.journal saves what is whole; keep the damaged file\n",
    )
}

#[test]
fn a_cause_of_this_machine_is_answered(rt: HostRuntime) -> Result<(), Fail> {
    let alloc = rt.alloc();
    assert!(rt; are_refusals_said(alloc) & are_faults_said(alloc));
    Ok(())
}

fn are_named_causes_said(alloc: Global) -> Result<bool, Memory> {
    let key = Text::from_str(alloc, "due")?;
    let hook = Text::from_str(alloc, "on-add")?;
    let answer = Text::from_str(alloc, "on-add")?;
    let none = Text::from_str(alloc, "")?;
    let bad = Cause::BadInput {
        index: 3,
        name: key,
    };
    let no_array = Cause::BadInput {
        index: 0,
        name: none,
    };
    let refused = Cause::HookRefused {
        name: hook,
        status: 3,
    };
    let answered = Cause::HookAnswer { name: answer };
    Ok(
        says(
            alloc,
            bad,
            "tw: elements count from 0; due is its first bad key\n",
        ) & says(
            alloc,
            no_array,
            "tw: no JSON array; tools/from-taskwarrior mends exports\n",
        ) & says(alloc, refused, "tw: it ended with status 3\n")
            & says(
                alloc,
                answered,
                "tw: its first line must be the task, as JSON\n",
            ),
    )
}

#[test]
fn a_cause_with_a_name_is_answered(rt: HostRuntime) -> Result<(), Fail> {
    assert!(rt; are_named_causes_said(rt.alloc())?);
    Ok(())
}

fn says_reply(alloc: Global, kind: ReplyKind, want: &str) -> bool {
    says(alloc, Cause::BadReply { kind }, want)
}

fn are_syncs_said(alloc: Global) -> bool {
    let id = Uuid::from_u128(1);
    says(
        alloc,
        Cause::LinkFault,
        "tw: no answer from box:8080; is the server up, and the tunnel?\n",
    ) & says(
        alloc,
        Cause::Gone { base: id },
        "tw: its file is older than this machine: SERVING, A lost server\n",
    ) & says(
        alloc,
        Cause::Busy { parent: id },
        "tw: others add versions all the time; sync again\n",
    ) & says(
        alloc,
        Cause::OutOfSync {
            base: id,
            parent: id,
        },
        "tw: box:8080 contradicts itself: two servers?\n",
    ) & says(
        alloc,
        Cause::BadSegment { version: id },
        "tw: another program wrote it, or the server's file is damaged\n",
    ) & says(
        alloc,
        Cause::SegmentTooLong { bytes: 1 },
        "tw: one change is above 16 MB\n",
    ) & says(
        alloc,
        Cause::PullTooLong { bytes: 1 },
        "tw: sync again: it goes on from there\n",
    )
}

fn are_replies_said(alloc: Global) -> bool {
    says_reply(
        alloc,
        ReplyKind::Status { code: 404 },
        "tw: box:8080 answered with 404; is it a sync server?\n",
    ) & says_reply(
        alloc,
        ReplyKind::Status { code: 413 },
        "tw: the server takes no version as long as this\n",
    ) & says_reply(alloc, ReplyKind::Status { code: 500 }, "tw: sync again\n")
        & says_reply(
            alloc,
            ReplyKind::Cut,
            "tw: its reply was cut off; sync again\n",
        )
        & says_reply(alloc, ReplyKind::TooLong, "tw: its reply is too long\n")
        & says_reply(
            alloc,
            ReplyKind::Nil,
            "tw: box:8080 does not speak as a sync server\n",
        )
}

#[test]
fn a_cause_of_a_server_is_answered(rt: HostRuntime) -> Result<(), Fail> {
    let alloc = rt.alloc();
    assert!(rt; are_syncs_said(alloc) & are_replies_said(alloc));
    Ok(())
}
