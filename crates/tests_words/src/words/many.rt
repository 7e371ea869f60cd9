// A line of five hundred words.

use std::alloc::Global;
use std::test::Fail;
use tw_words::{Line, read_line};
use tw_world::Memory;

// Two hundred words, each with an override after it.
fn push_filter(alloc: Global, words: &mut Vec<String>) -> Result<(), Memory> {
    for n in 0..200u64 {
        words.push(format!(in alloc; "w{n}")?)?;
        words.push(format!(in alloc; "rc.a:{n}")?)?;
    }
    Ok(())
}

// `modify` with a hundred words after it.
fn push_changes(alloc: Global, words: &mut Vec<String>) -> Result<(), Memory> {
    words.push(String::from_str(alloc, "modify")?)?;
    for n in 0..100u64 {
        words.push(format!(in alloc; "x{n}")?)?;
    }
    Ok(())
}

fn is_at(line: &Line, n: usize, place: u64) -> bool {
    line.word_numbers.get(n).copied() == Some(place)
}

// Whether a line of 501 words is read, with each word at its place.
fn are_placed(alloc: Global) -> Result<bool, Fail> {
    let mut words = Vec::new(alloc);
    push_filter(alloc, &mut words)?;
    push_changes(alloc, &mut words)?;
    let line = read_line(alloc, &words).or(Err("no line"))?;
    let counts = (line.words.len() == 300) & (line.overrides.len() == 200);
    let filter = (line.filter_to == 200) & is_at(&line, 1, 2) & is_at(&line, 199, 398);
    Ok(counts & filter & (line.word_number == 400) & is_at(&line, 299, 500))
}

#[test]
fn words_by_the_hundred_have_their_places(rt: HostRuntime) -> Result<(), Fail> {
    assert!(rt; are_placed(rt.alloc())?);
    Ok(())
}
