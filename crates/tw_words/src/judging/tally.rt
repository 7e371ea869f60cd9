// What the modification words of a line give besides their changes.
ghost use Rattle.std.specs.Prelude.{◌≡◌, ◌<◌, ◌≤◌, ◌+◌};
ghost use Rattle.tw_words.specs.Modifications.{tag_of, with_text, with_pair, tally_tag, tally_of};

use crate::changes::modification::{is_plain, pair_of, tag_of};
use crate::line::Line;

/// What modification words give besides their changes.
#[derive(Clone, Copy)]
pub(crate) struct Tally {
    /// How many are texts.
    pub(crate) texts: u64,
    /// Whether there is a word of a description.
    pub(crate) described: bool,
    /// Whether the last word of `recur` gives a value.
    pub(crate) recurs: bool,
    /// Whether the last word of `due` does.
    pub(crate) due: bool,
}

fn with_pair(tally: Tally, name: &str, value: &str) -> Tally
    ensures { result ≡ with_pair tally name.now value.now }
{
    Tally {
        texts: tally.texts,
        described: tally.described || name == "description",
        recurs: if name == "recur" {
            !value.is_empty()
        } else {
            tally.recurs
        },
        due: if name == "due" {
            !value.is_empty()
        } else {
            tally.due
        },
    }
}

fn with_text(tally: Tally) -> Tally
    requires { tally.texts < 18_446_744_073_709_551_615 }
    ensures { result ≡ with_text tally }
{
    Tally {
        texts: tally.texts + 1,
        described: tally.described,
        recurs: tally.recurs,
        due: tally.due,
    }
}

fn tally_word(tally: Tally, plain: bool, word: &str) -> Tally
    requires { tally.texts < 18_446_744_073_709_551_615 }
    ensures value { result ≡ tally_tag tally plain word.now (tag_of plain word.now) }
    ensures few { result.texts ≤ tally.texts + 1 }
{
    if tag_of(plain, word).is_some() {
        return tally;
    }
    match pair_of(plain, word) {
        Some((name, value)) => with_pair(tally, name, value),
        None => with_text(tally),
    }
}

/// What the modification words of a line give besides their changes.
pub(crate) fn tally_of(line: &Line) -> Tally
    ensures { result ≡ tally_of line.now }
{
    let mut tally = Tally {
        texts: 0,
        described: false,
        recurs: false,
        due: false,
    };
    for n in line.rest_from..line.words.len() as u64 {
        tally = tally_word(tally, is_plain(line, n), line.word(n));
    }
    tally
}
