// Filters of many words, and of many brackets.
use super::answer_to;
use super::tasks::{made_places, made_tasks, now};
use std::alloc::Global;
use std::test::Fail;
use tw_terms::View;
use tw_time::Zone;
use tw_world::Memory;

// So many brackets round the first number.
fn nested(alloc: Global, depth: u64) -> Result<Vec<String>, Memory> {
    let mut words = Vec::new(alloc);
    for _ in 0..depth {
        words.push(String::from_str(alloc, "(")?)?;
    }
    words.push(String::from_str(alloc, "1")?)?;
    for _ in 0..depth {
        words.push(String::from_str(alloc, ")")?)?;
    }
    Ok(words)
}

fn push_words(alloc: Global, words: &mut Vec<String>, more: &[&str]) -> Result<(), Memory> {
    for word in more {
        words.push(String::from_str(alloc, word)?)?;
    }
    Ok(())
}

// Words of five thousand tasks that are not blocked, and these after them.
fn many(alloc: Global, behind: &[&str]) -> Result<Vec<String>, Memory> {
    let mut words = Vec::new(alloc);
    for _ in 0..5_000 {
        push_words(alloc, &mut words, &["!", "+BLOCKED"])?;
    }
    push_words(alloc, &mut words, behind)?;
    Ok(words)
}

fn answer_in_utc(alloc: Global, words: &Vec<String>) -> Result<String, Fail> {
    let tasks = made_tasks(alloc)?;
    let numbers = made_places(alloc)?;
    let view = View {
        tasks: &tasks,
        numbers: &numbers,
        now: now(),
        zone: &Zone::utc(),
    };
    answer_to(alloc, words, words.len() as u64, &view)
}

fn are_answered(alloc: Global, words: &Vec<String>, want: &str) -> Result<bool, Fail> {
    Ok(answer_in_utc(alloc, words)?.as_str() == want)
}

// Whether words of five thousand tasks are answered, and those that end in a mark.
fn is_long_answered(alloc: Global) -> Result<bool, Fail> {
    let whole = are_answered(alloc, &many(alloc, &[])?, "1234579")?;
    let broken = are_answered(alloc, &many(alloc, &["or"])?, "End 10001")?;
    Ok(whole && broken)
}

// Whether so many brackets are answered so.
fn is_nested_answered(alloc: Global, depth: u64, want: &str) -> Result<bool, Fail> {
    let words = nested(alloc, depth)?;
    are_answered(alloc, &words, want)
}

#[test]
fn ten_thousand_words_and_a_hundred_brackets_are_read(rt: HostRuntime) -> Result<(), Fail> {
    let alloc = rt.alloc();
    assert!(rt; is_long_answered(alloc)?);
    assert!(rt; is_nested_answered(alloc, 1, "3")? && is_nested_answered(alloc, 100, "3")?);
    assert!(rt; is_nested_answered(alloc, 101, "Bracket 100")?);
    Ok(())
}
