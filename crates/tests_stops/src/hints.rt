// The table of hints: a cause, what was typed, and the lines that are said of it.

mod causes;
mod hours;

use std::alloc::Global;
use std::test::Fail;
use tw_cli::{Cause, WordKind};
use tw_hints::{NotOpened, Places, task_hint};
use tw_world::{Memory, Text};

// The words between bars.
pub(crate) fn words_of(alloc: Global, line: &str) -> Result<Vec<String>, Memory> {
    let mut words = Vec::new(alloc);
    for word in line.split('|') {
        words.push(String::from_str(alloc, word)?)?;
    }
    Ok(words)
}

pub(crate) fn places_of(alloc: Global, not_opened: Option<NotOpened>) -> Result<Places, Memory> {
    let settings = Text::from_str(alloc, "/a/.taskrc")?;
    let journal = Text::from_str(alloc, "/a/j")?;
    let hours = Text::from_str(alloc, "/a/h")?;
    Ok(Places {
        settings,
        journal,
        not_opened,
        hours,
        server: Text::from_str(alloc, "box:8080")?,
    })
}

// Whether a run of `task` that ended so is answered by these lines.
pub(crate) fn says_over(
    alloc: Global,
    cause: &Cause,
    line: &str,
    settings: &str,
    want: &str,
) -> bool {
    let Ok(words) = words_of(alloc, line) else {
        return false;
    };
    let Ok(places) = places_of(alloc, None) else {
        return false;
    };
    match task_hint(alloc, cause, &words, settings.as_bytes(), &places) {
        Ok(hint) => hint.as_str() == want,
        Err(_) => false,
    }
}

// Words that are wrong: the kind, the words, the number of the wrong one, and what is said.
const WORDS: [(WordKind, &str, u64, &str); 16] = [
    (
        WordKind::Value,
        "add|a|priority:X",
        2,
        "tw: \"priority:X\": a priority is H, M or L\n",
    ),
    (
        WordKind::Value,
        "recur.is:x|list",
        0,
        "tw: \"recur.is:x\": a length is as 3d, 2w, 1mo or weekly\n",
    ),
    (
        WordKind::Value,
        "1|modify|depends:x",
        2,
        "tw: \"depends:x\": depends takes numbers and uuids\n",
    ),
    (
        WordKind::Value,
        "xor|list",
        0,
        "tw: \"xor\" needs a part before it and one behind it\n",
    ),
    (
        WordKind::Value,
        "urgency:x|list",
        0,
        "tw: \"urgency:x\": no value that it takes; see tw --help\n",
    ),
    (
        WordKind::Date,
        "add|a|due:tomorow",
        2,
        "tw: \"due:tomorow\": no moment; as tomorrow, eow, 2026-12-31\n",
    ),
    (
        WordKind::Modifier,
        "due.to:1",
        0,
        "tw: \"due.to:1\": no such modifier; tw --help has the list\n",
    ),
    (
        WordKind::Attribute,
        "mask:x",
        0,
        "tw: \"mask:x\": no attribute for here; see tw --help\n",
    ),
    (
        WordKind::Bracket,
        "(",
        0,
        "tw: \"(\": brackets do not match; quote each alone: '(' a or b ')'\n",
    ),
    (
        WordKind::End,
        "a|or",
        2,
        "tw: the words end where a part is missing\n",
    ),
    (
        WordKind::Missing,
        "add",
        0,
        "tw: \"add\" needs words behind it\n",
    ),
    (
        WordKind::Extra,
        "1|done|now",
        2,
        "tw: \"now\" may not be here; words behind -- are text\n",
    ),
    (
        WordKind::NoFilter,
        "done",
        0,
        "tw: \"done\" needs to know which: tw task 3 done\n",
    ),
    (
        WordKind::Id,
        "1|modify|depends:9",
        2,
        "tw: \"depends:9\" names no task; tw task list has the numbers\n",
    ),
    (
        WordKind::Extra,
        "1|done|ÄÖÜäöüÄÖÜäöüÄÖÜäöüÄÖ",
        2,
        "tw: \"ÄÖÜäöüÄÖÜäöüÄÖÜäöüÄÖ\" may not be here; words behind -- are text\n",
    ),
    (
        WordKind::Extra,
        "1|done|ÄÖÜäöüÄÖÜäöüÄÖÜäöüÄÖÜ",
        2,
        "tw: \"ÄÖÜäöüÄÖÜäöüÄÖÜäöü..\" may not be here; words behind -- are text\n",
    ),
];

fn are_words_said(alloc: Global) -> bool {
    for (kind, line, word, want) in WORDS.iter() {
        let cause = Cause::BadWords {
            word: *word,
            kind: *kind,
        };
        if !says_over(alloc, &cause, line, "", want) {
            return false;
        }
    }
    true
}

#[test]
fn a_word_that_is_wrong_is_answered_by_its_kind(rt: HostRuntime) -> Result<(), Fail> {
    assert!(rt; are_words_said(rt.alloc()));
    Ok(())
}

// Settings that are none: the words, the settings, the number of the line, and what is said.
const SETTINGS: [(&str, &str, u64, &str); 9] = [
    (
        "list",
        "gc=on\nhello",
        2,
        "tw: /a/.taskrc: hello\ntw: a line is name=value\n",
    ),
    (
        "list",
        "include /etc/tw",
        1,
        "tw: /a/.taskrc: include /etc/tw\ntw: include is not known; take the line out\n",
    ),
    (
        "list",
        "gc=maybe",
        1,
        "tw: /a/.taskrc: gc=maybe\ntw: it takes on or off\n",
    ),
    (
        "list",
        "recurrence.limit=101",
        1,
        "tw: /a/.taskrc: recurrence.limit=101\ntw: it takes a number up to 100\n",
    ),
    (
        "list",
        "sync.server.url=box:1",
        1,
        "tw: /a/.taskrc: sync.server.url=bo..\ntw: it takes http://HOST:PORT\n",
    ),
    (
        "list",
        "sync.server.client_id=1",
        1,
        "tw: /a/.taskrc: sync.server.client..\ntw: it takes a uuid\n",
    ),
    (
        "list",
        "urgency.due.coefficient=x",
        1,
        "tw: /a/.taskrc: urgency.due.coeffi..\ntw: it takes a number as 1.5\n",
    ),
    (
        "list",
        "sync.encryption_secret=x",
        1,
        "tw: /a/.taskrc: sync.encryption_se..\ntw: tw does not encrypt; take the line out\n",
    ),
    (
        "rc.gc:on|rc.gc=no way|--|rc.gc:x",
        "",
        0,
        "tw: \"rc.gc=no way\"\ntw: it takes on or off\n",
    ),
];

fn are_settings_said(alloc: Global) -> bool {
    for (line, settings, number, want) in SETTINGS.iter() {
        let cause = Cause::BadSetting { line: *number };
        if !says_over(alloc, &cause, line, settings, want) {
            return false;
        }
    }
    true
}

#[test]
fn a_line_that_is_no_setting_is_answered_by_its_reason(rt: HostRuntime) -> Result<(), Fail> {
    assert!(rt; are_settings_said(rt.alloc()));
    Ok(())
}
