mod filters;
mod long;
mod looks;
mod modifiers;
mod single_words;
mod tasks;

use self::tasks::{TASKS, made_places, made_tasks, now, uuid_ending};
use std::alloc::Global;
use std::collections::BTreeSet;
use std::test::Fail;
use tw_filter::{Filter, FilterError, Looks, read_filter, select};
use tw_model::Tasks;
use tw_terms::{BadWord, View, WordKind, chosen_of, number_in, uuid_of_36};
use tw_time::Zone;
use tw_world::Memory;
use uuid::Uuid;

// The words of a text, and the number from which on they come after `--`.
fn words_of(alloc: Global, text: &str) -> Result<(Vec<String>, u64), Memory> {
    let mut words = Vec::new(alloc);
    let mut plain = u64::MAX;
    for word in text.split(' ') {
        if word == "--" && plain == u64::MAX {
            plain = words.len() as u64;
        } else {
            words.push(String::from_str(alloc, word)?)?;
        }
    }
    Ok((words, plain))
}

// Whether a filter holds for a task, if it is there.
fn holds_alone(filter: &Filter, view: &View<'_>, uuid: Uuid) -> bool {
    view.tasks.get(uuid).is_some() && filter.holds(view, uuid, &mut Looks::new())
}

fn is_range(part: &str) -> bool {
    match part.split_once('-') {
        Some((first, last)) => match (number_in(first), number_in(last)) {
            (Some(first), Some(last)) => first <= last,
            _ => false,
        },
        None => number_in(part).is_some(),
    }
}

// Whether a word is a list of numbers and ranges, or a uuid.
fn is_name(word: &str) -> bool {
    if uuid_of_36(word).is_some() {
        return true;
    }
    for part in word.split(',') {
        if !is_range(part) {
            return false;
        }
    }
    true
}

// Whether there is a word, and each is a number, a list of them or a uuid, and none comes after `--`.
fn are_names(words: &Vec<String>, plain: u64) -> bool {
    for word in words {
        if !is_name(word.as_str()) {
            return false;
        }
    }
    !words.is_empty() && words.len() as u64 <= plain
}

// The tasks that are selected, if only these were looked at where words name tasks alone, and else no task twice.
fn selected(
    alloc: Global,
    filter: &Filter,
    names_alone: bool,
    view: &View<'_>,
) -> Result<Option<Vec<Uuid>>, Memory> {
    let mut looks = Looks::new();
    let uuids = select(alloc, filter, view, &mut looks)?;
    let most = if names_alone {
        uuids.len() as u128
    } else {
        u128::from(view.tasks.len())
    };
    if uuids.len() as u128 <= looks.taken() && looks.taken() <= most {
        Ok(Some(uuids))
    } else {
        Ok(None)
    }
}

// The last digits of the tasks for which a filter holds alone.
fn digits_alone(alloc: Global, filter: &Filter, view: &View<'_>) -> Result<String, Fail> {
    let mut digits = String::new(alloc);
    for (number, _) in &TASKS {
        if holds_alone(filter, view, uuid_ending(*number)) {
            digits.push(char::from_digit(u32::from(*number), 10).ok_or("no digit")?)?;
        }
    }
    Ok(digits)
}

// Whether each task is among the chosen where the filter holds for it alone.
fn are_those_alone(chosen: &BTreeSet<Uuid>, filter: &Filter, view: &View<'_>) -> bool {
    for (number, _) in &TASKS {
        let uuid = uuid_ending(*number);
        if holds_alone(filter, view, uuid) != chosen.contains(&uuid) {
            return false;
        }
    }
    true
}

// The last digits of the tasks that are selected, each of which is held alone too.
fn digits_of(
    alloc: Global,
    filter: &Filter,
    names_alone: bool,
    view: &View<'_>,
) -> Result<String, Fail> {
    let uuids = selected(alloc, filter, names_alone, view)?.ok_or("another count of looks")?;
    let chosen = chosen_of(alloc, &uuids)?;
    if !are_those_alone(&chosen, filter, view) {
        return Err("another answer alone")?;
    }
    let digits = digits_alone(alloc, filter, view)?;
    if digits.len() != uuids.len() {
        return Err("a uuid without a task")?;
    }
    Ok(digits)
}

fn fault_of(alloc: Global, bad: BadWord) -> Result<String, Fail> {
    let kind = match bad.kind {
        WordKind::Value => "Value",
        WordKind::Date => "Date",
        WordKind::Modifier => "Modifier",
        WordKind::Attribute => "Attribute",
        WordKind::Bracket => "Bracket",
        WordKind::End => "End",
        _ => "another kind",
    };
    Ok(format!(in alloc; "{kind} {}", bad.word)?)
}

// What words select, or the kind and the number of the first bad one.
fn answer_to(
    alloc: Global,
    words: &Vec<String>,
    plain: u64,
    view: &View<'_>,
) -> Result<String, Fail> {
    match read_filter(
        alloc,
        words,
        0,
        words.len() as u64,
        plain,
        view.now,
        view.zone,
    ) {
        Ok(filter) => digits_of(alloc, &filter, are_names(words, plain), view),
        Err(FilterError::Bad(bad)) => fault_of(alloc, bad),
        Err(FilterError::Memory) => Err("no memory")?,
    }
}

// The zone's rule, the words and the answer of a row.
fn parts_of(row: &str) -> Option<(&str, &str, &str)> {
    let mut fields = row.split('|');
    Some((fields.next()?, fields.next()?, fields.next()?))
}

// The answer to words of a row.
fn answer_in(
    alloc: Global,
    rule: &str,
    words: &str,
    tasks: &Tasks,
    numbers: &Vec<Option<Uuid>>,
) -> Result<String, Fail> {
    let zone = Zone::read(rule).or(Err("no zone"))?;
    let (words, plain) = words_of(alloc, words)?;
    let view = View {
        tasks,
        numbers,
        now: now(),
        zone: &zone,
    };
    answer_to(alloc, &words, plain, &view)
}

fn is_answered(
    alloc: Global,
    row: &str,
    tasks: &Tasks,
    numbers: &Vec<Option<Uuid>>,
) -> Result<bool, Fail> {
    match parts_of(row) {
        Some((rule, words, want)) => {
            Ok(answer_in(alloc, rule, words, tasks, numbers)?.as_str() == want)
        }
        None => Ok(false),
    }
}

// The first of these rows that is answered otherwise.
fn other_of(
    alloc: Global,
    rows: &'static str,
    tasks: &Tasks,
    numbers: &Vec<Option<Uuid>>,
) -> Result<Option<&'static str>, Fail> {
    for row in rows.split('\n') {
        if !is_answered(alloc, row, tasks, numbers)? {
            return Ok(Some(row));
        }
    }
    Ok(None)
}

fn other_answer(alloc: Global, rows: &'static str) -> Result<Option<&'static str>, Fail> {
    let tasks = made_tasks(alloc)?;
    let numbers = made_places(alloc)?;
    other_of(alloc, rows, &tasks, &numbers)
}

fn other_word(alloc: Global) -> Result<Option<&'static str>, Fail> {
    match other_answer(alloc, modifiers::WORDS)? {
        Some(row) => Ok(Some(row)),
        None => other_answer(alloc, single_words::WORDS),
    }
}

#[test]
fn words_and_filters_select_what_another_reading_does(rt: HostRuntime) -> Result<(), Fail> {
    let alloc = rt.alloc();
    assert_eq!(rt; other_word(alloc)?, None);
    assert_eq!(rt; other_answer(alloc, filters::FILTERS)?, None);
    Ok(())
}
