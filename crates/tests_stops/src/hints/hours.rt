// Hints of a run of `timew`, and of a zone.

use crate::hints::{places_of, words_of};
use std::alloc::Global;
use std::test::Fail;
use tw_hints::{NotOpened, timew_hint, zone_hint};

// Whether a run of `timew` that ended so is answered by this line.
fn tells(alloc: Global, cause: timew_cli::Cause, why: Option<NotOpened>, want: &str) -> bool {
    let Ok(words) = words_of(alloc, "summary|2026\u{7}") else {
        return false;
    };
    let Ok(places) = places_of(alloc, why) else {
        return false;
    };
    match timew_hint(alloc, &cause, &words, &places) {
        Ok(hint) => hint.as_str() == want,
        Err(_) => false,
    }
}

fn tells_word(alloc: Global, kind: timew_cli::WordKind, want: &str) -> bool {
    tells(
        alloc,
        timew_cli::Cause::BadWords { word: 1, kind },
        None,
        want,
    )
}

fn tells_disk(alloc: Global, why: NotOpened, want: &str) -> bool {
    tells(alloc, timew_cli::Cause::DiskFault, Some(why), want)
}

fn are_hours_told(alloc: Global) -> bool {
    tells(
        alloc,
        timew_cli::Cause::Range { word: 1 },
        None,
        "tw: \"2026 \" is before the start, or too far\n",
    ) & tells(
        alloc,
        timew_cli::Cause::Overlap { id: 1 },
        None,
        "tw: :adjust makes room\n",
    ) & tells(
        alloc,
        timew_cli::Cause::NoOpen,
        None,
        "tw: tw timew start begins one\n",
    ) & tells(
        alloc,
        timew_cli::Cause::AlreadyOpen { id: 1 },
        None,
        "tw: tw timew stop ends it\n",
    ) & tells(
        alloc,
        timew_cli::Cause::NoInterval { id: 1 },
        None,
        "tw: tw timew summary :all has the numbers\n",
    ) & tells(
        alloc,
        timew_cli::Cause::FolderFault,
        None,
        "tw: /a/h can't be read or written\n",
    ) & tells_word(
        alloc,
        timew_cli::WordKind::Value,
        "tw: \"2026 \" has no meaning here; see tw --help\n",
    ) & tells_word(
        alloc,
        timew_cli::WordKind::Missing,
        "tw: \"2026 \" needs words behind it\n",
    )
}

fn are_files_told(alloc: Global) -> bool {
    tells_disk(
        alloc,
        NotOpened::Rights,
        "tw: /a/j: no right to read and write it\n",
    ) & tells_disk(alloc, NotOpened::Folder, "tw: /a/j is a folder\n")
        & tells_disk(
            alloc,
            NotOpened::InTheWay,
            "tw: /a/j: a file is in its way\n",
        )
        & tells_disk(
            alloc,
            NotOpened::ReadOnly,
            "tw: /a/j: its disk is read-only\n",
        )
        & tells_disk(alloc, NotOpened::Other, "tw: /a/j can't be opened\n")
}

#[test]
fn a_cause_of_the_hours_is_answered(rt: HostRuntime) -> Result<(), Fail> {
    let alloc = rt.alloc();
    assert!(rt; are_hours_told(alloc) & are_files_told(alloc));
    Ok(())
}

#[test]
fn a_zone_that_is_no_rule_is_answered_by_two_lines(rt: HostRuntime) -> Result<(), Fail> {
    let hint = zone_hint(
        rt.alloc(),
        "Europe/Berlin",
        "/usr/share/zoneinfo/Europe/Berlin",
    )?;
    assert!(rt;
        hint.as_str()
            == "tw: TZ is \"Europe/Berlin\", and tw takes its rule; set it by\ntw:   export TZ=\"$(tail -n 1 /usr/share/zoneinfo/Europe/Berlin)\"\n"
    );
    Ok(())
}
