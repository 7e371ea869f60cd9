mod many;

use std::alloc::Global;
use std::test::Fail;
use tw_settings::WordError;
use tw_terms::{BadWord, WordKind};
use tw_time::Zone;
use tw_words::{Line, cut_words, judge_line};
use tw_world::{Memory, Moment};

// 2026-03-04T10:00:00Z, a Wednesday.
const NOW: Moment = Moment {
    seconds: 1_772_618_400,
    nanos: 0,
};

// The words between bars.
pub(crate) fn words_of(alloc: Global, line: &str) -> Result<Vec<String>, Memory> {
    let mut words = Vec::new(alloc);
    for word in line.split('|') {
        words.push(String::from_str(alloc, word)?)?;
    }
    Ok(words)
}

// A line with a bar between its words, and the first that is wrong: by its number, from 0, and its kind.
const ROWS: [(&str, u64, WordKind); 9] = [
    ("1|annotate", 1, WordKind::Missing),
    ("done|x", 0, WordKind::NoFilter),
    ("1|done|x", 2, WordKind::Extra),
    ("1|modify|depends:1,,2", 2, WordKind::Value),
    ("add|x|recur:weekly|due:never", 3, WordKind::Date),
    ("add|x|+PENDING", 2, WordKind::Attribute),
    ("count|project.a.b:x", 1, WordKind::Modifier),
    (")|list", 0, WordKind::Bracket),
    ("(|1|modify", 2, WordKind::End),
];

fn line_of(alloc: Global, line: &str) -> Result<Line, Memory> {
    let words = words_of(alloc, line)?;
    cut_words(alloc, &words)
}

fn is_bad(alloc: Global, line: &str, word: u64, kind: WordKind) -> Result<bool, Memory> {
    let line = line_of(alloc, line)?;
    Ok(match judge_line(alloc, &line, NOW, &Zone::utc()) {
        Err(WordError::Bad(bad)) => bad == BadWord { word, kind },
        _ => false,
    })
}

// How many of the lines are wrong so, up to the first that is not.
fn bad_so_far(alloc: Global) -> Result<usize, Memory> {
    for (number, (line, word, kind)) in ROWS.iter().enumerate() {
        if !is_bad(alloc, line, *word, *kind)? {
            return Ok(number);
        }
    }
    Ok(ROWS.len())
}

// What is printed names the number alone.
#[test]
fn the_first_bad_word_has_a_kind(rt: HostRuntime) -> Result<(), Fail> {
    assert_eq!(rt; bad_so_far(rt.alloc())?, ROWS.len());
    Ok(())
}
