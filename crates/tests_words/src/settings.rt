// Settings of many lines, and of bytes that are no text.

use crate::words::words_of;
use std::alloc::Global;
use std::test::Fail;
use tw_settings::{Settings, WordError, read_settings};
use tw_words::cut_words;
use tw_world::Memory;

fn read(alloc: Global, bytes: &[u8]) -> Result<Result<Settings, WordError>, Memory> {
    let words = words_of(alloc, "count")?;
    let line = cut_words(alloc, &words)?;
    Ok(read_settings(alloc, bytes, &line.overrides))
}

fn settings_of(alloc: Global, bytes: &[u8]) -> Result<Settings, Fail> {
    Ok(read(alloc, bytes)?.or(Err("no settings"))?)
}

// Whether the line with this number is the first that is no setting.
fn is_named(alloc: Global, bytes: &[u8], number: u64) -> Result<bool, Memory> {
    Ok(match read(alloc, bytes)? {
        Err(WordError::Setting { line }) => line == number,
        _ => false,
    })
}

#[test]
fn a_line_that_is_no_text_is_named(rt: HostRuntime) -> Result<(), Fail> {
    let no_text = is_named(rt.alloc(), b"a=1\nb=\xff", 2)?;
    assert!(rt; no_text && is_named(rt.alloc(), b"gc=on\r\n", 1)?);
    Ok(())
}

// A thousand lines, of which this is the last.
fn thousand(alloc: Global, last: &str) -> Result<Vec<u8>, Memory> {
    let mut bytes = Vec::new(alloc);
    for n in 1..1000u64 {
        bytes.extend_from_slice(format!(in alloc; "name{n}=value{n}\n")?.as_bytes())?;
    }
    bytes.extend_from_slice(last.as_bytes())?;
    Ok(bytes)
}

fn are_a_thousand(alloc: Global) -> Result<bool, Fail> {
    let settings = settings_of(alloc, &thousand(alloc, "name1=again")?)?;
    let first = settings.get("name1") == Some("again");
    let last = settings.get("name999") == Some("value999");
    Ok(first & last & is_named(alloc, &thousand(alloc, "gc=maybe")?, 1_000)?)
}

#[test]
fn a_thousand_lines_are_read(rt: HostRuntime) -> Result<(), Fail> {
    assert!(rt; are_a_thousand(rt.alloc())?);
    Ok(())
}
