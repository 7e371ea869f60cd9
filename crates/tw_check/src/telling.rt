// What is printed of a journal that is looked at, and of what is saved of one.
ghost use Rattle.std.specs.Prelude.{◌≡◌, ◌++◌, string_bytes, IfOk, OnOk};
ghost use Rattle.tw_check.specs.Texts.{base_line, counted, damage_text, damaged_text, digit, digits, digest_line, held_text, journal_text, kind_word};
ghost use Rattle.tw_check.specs.Texts.{last_text, left_out_text, length_text, lost_text, place_line, saved_line, saved_text, size_text, sound_text};
ghost use Rattle.tw_check.specs.Texts.{tasks_text, too_long_text, whole_text};

use crate::holding::Held;
use crate::kind::Kind;
use std::alloc::Global;
use tw_time::print_extended;
use tw_world::{Memory, Moment};
use uuid::Uuid;

// So many of a thing.
fn counted(alloc: Global, n: u64, word: &str) -> Result<String, Memory>
    ensures { IfOk result (λ text. string_bytes text ≡ counted n word.now) }
{
    if n == 1 {
        Ok(format!(in alloc; "{n} {word}")?)
    } else {
        Ok(format!(in alloc; "{n} {word}s")?)
    }
}

fn kind_word(kind: Kind) -> &'static str
    ensures { result.now ≡ kind_word kind }
{
    match kind {
        Kind::Tasks => "tasks    ",
        Kind::Hours => "hours    ",
        Kind::History => "history  ",
    }
}

fn place_line(alloc: Global, kind: Kind, path: &str) -> Result<String, Memory>
    ensures { IfOk result (λ text. string_bytes text ≡ place_line kind path.now) }
{
    Ok(format!(in alloc; "{}{}\n", kind_word(kind), path)?)
}

fn size_text(alloc: Global, bytes: u64, records: u64) -> Result<String, Memory>
    ensures { IfOk result (λ text. string_bytes text ≡ size_text bytes records) }
{
    let bytes = counted(alloc, bytes, "byte")?;
    let records = counted(alloc, records, "record")?;
    Ok(format!(in alloc; "         {}, {}", bytes.as_str(), records.as_str())?)
}

/// What is told of a journal at a path, if its records are not looked into.
pub fn journal_text(
    alloc: Global,
    kind: Kind,
    path: &str,
    bytes: u64,
    records: u64,
) -> Result<String, Memory>
    ensures { IfOk result (λ text. string_bytes text ≡ journal_text kind path.now bytes records) }
{
    let place = place_line(alloc, kind, path)?;
    let size = size_text(alloc, bytes, records)?;
    Ok(format!(in alloc; "{}{}\n", place.as_str(), size.as_str())?)
}

fn tasks_text(alloc: Global, tasks: u64, pending: u64) -> Result<String, Memory>
    ensures { IfOk result (λ text. string_bytes text ≡ tasks_text tasks pending) }
{
    let tasks = counted(alloc, tasks, "task")?;
    let pending = counted(alloc, pending, "pending operation")?;
    Ok(format!(in alloc; ", {}, {}", tasks.as_str(), pending.as_str())?)
}

fn push(text: &mut Vec<u8>, more: &[u8]) -> Result<(), Memory>
    ensures { OnOk result (text.new.items ≡ text.old.items ++ more.now) }
{
    text.extend_from_slice(more)?;
    Ok(())
}

// The moment of the last pending update.
fn push_last(text: &mut Vec<u8>, last: Option<Moment>) -> Result<(), Memory>
    ensures { OnOk result (text.new.items ≡ text.old.items ++ last_text last) }
{
    let Some(at) = last else {
        return push(text, b"\n");
    };
    push(text, b", the last at ")?;
    push(text, &print_extended(at.seconds))?;
    push(text, b"Z\n")
}

fn push_base(text: &mut Vec<u8>, base: Uuid) -> Result<(), Memory>
    ensures { OnOk result (text.new.items ≡ text.old.items ++ base_line base) }
{
    push(text, b"base     ")?;
    push(
        text,
        base.hyphenated()
            .encode_lower(&mut Uuid::encode_buffer())
            .as_bytes(),
    )?;
    push(text, b"\n")
}

// The digit of a number below 16.
fn digit(n: u8) -> u8
    ensures { result ≡ digit n }
{
    if n < 10 {
        return n + 48;
    }
    if n < 16 {
        return n + 87;
    }
    63
}

fn push_digits(text: &mut Vec<u8>, bytes: &[u8]) -> Result<(), Memory>
    ensures { OnOk result (text.new.items ≡ text.old.items ++ digits bytes.now) }
{
    for byte in bytes {
        push(text, &[digit(*byte / 16), digit(*byte % 16)])?;
    }
    Ok(())
}

// Sixteen bytes of a digest, and a dash for none.
fn push_digest(text: &mut Vec<u8>, digest: &Option<[u8; 20]>) -> Result<(), Memory>
    ensures { OnOk result (text.new.items ≡ text.old.items ++ digest_line digest.now) }
{
    let Some(digest) = digest else {
        return push(text, b"digest   -\n");
    };
    push(text, b"digest   ")?;
    push_digits(text, &digest[..16])?;
    push(text, b"\n")
}

/// What is told of a journal of tasks at a path.
pub fn held_text(
    alloc: Global,
    path: &str,
    bytes: u64,
    records: u64,
    held: &Held,
) -> Result<Vec<u8>, Memory>
    ensures { IfOk result (λ text. text.items ≡ held_text path.now bytes records held.now) }
{
    let mut text = place_line(alloc, Kind::Tasks, path)?.into_bytes();
    push(&mut text, size_text(alloc, bytes, records)?.as_bytes())?;
    push(
        &mut text,
        tasks_text(alloc, held.tasks, held.pending)?.as_bytes(),
    )?;
    push_last(&mut text, held.changed)?;
    push_base(&mut text, held.base)?;
    push_digest(&mut text, &held.digest)?;
    Ok(text)
}

fn damage_text(alloc: Global, path: &str, offset: u64, bytes: u64) -> Result<String, Memory>
    ensures { IfOk result (λ text. string_bytes text ≡ damage_text path.now offset bytes) }
{
    let bytes = counted(alloc, bytes, "byte")?;
    Ok(format!(in alloc; "{path}: damaged at {offset} of {}", bytes.as_str())?)
}

fn whole_text(alloc: Global, is_older: bool, records: u64) -> Result<String, Memory>
    ensures { IfOk result (λ text. string_bytes text ≡ whole_text is_older records) }
{
    let records = counted(alloc, records, "record")?;
    if is_older {
        Ok(format!(in alloc; "; whole as of an earlier moment: {}\n", records.as_str())?)
    } else {
        Ok(format!(in alloc; "; whole before that: {}\n", records.as_str())?)
    }
}

/// What is told of a damaged journal of which so many records can be saved.
pub fn damaged_text(
    alloc: Global,
    path: &str,
    offset: u64,
    bytes: u64,
    is_older: bool,
    records: u64,
) -> Result<String, Memory>
    ensures { IfOk result (λ text. string_bytes text ≡ damaged_text path.now offset bytes is_older records) }
{
    let damage = damage_text(alloc, path, offset, bytes)?;
    let whole = whole_text(alloc, is_older, records)?;
    Ok(format!(in alloc;
        "{}{}to go on with that: tw rescue {}\n",
        damage.as_str(),
        whole.as_str(),
        path
    )?)
}

/// What is told of one of which nothing can be saved.
pub fn lost_text(alloc: Global, path: &str, offset: u64, bytes: u64) -> Result<String, Memory>
    ensures { IfOk result (λ text. string_bytes text ≡ lost_text path.now offset bytes) }
{
    let damage = damage_text(alloc, path, offset, bytes)?;
    Ok(format!(in alloc;
        "{}; no record is whole\nkeep it, and put back a copy\n",
        damage.as_str()
    )?)
}

fn saved_line(alloc: Global, path: &str, records: u64, bytes: u64) -> Result<String, Memory>
    ensures { IfOk result (λ text. string_bytes text ≡ saved_line path.now records bytes) }
{
    let records = counted(alloc, records, "record")?;
    let bytes = counted(alloc, bytes, "byte")?;
    Ok(format!(in alloc;
        "{}.rescued: {}, {}",
        path,
        records.as_str(),
        bytes.as_str()
    )?)
}

fn left_out_text(alloc: Global, is_older: bool, left_out: u64) -> Result<String, Memory>
    ensures { IfOk result (λ text. string_bytes text ≡ left_out_text is_older left_out) }
{
    if is_older {
        return Ok(String::from_str(
            alloc,
            ", as of an earlier moment; the newer state is damaged\n",
        )?);
    }
    let left_out = counted(alloc, left_out, "byte")?;
    Ok(format!(in alloc; "; left out: {}\n", left_out.as_str())?)
}

/// What is told of the file beside a damaged journal at a path, and how many of its bytes are not in that file.
pub fn saved_text(
    alloc: Global,
    path: &str,
    records: u64,
    bytes: u64,
    is_older: bool,
    left_out: u64,
) -> Result<String, Memory>
    ensures { IfOk result (λ text. string_bytes text ≡ saved_text path.now records bytes is_older left_out) }
{
    let saved = saved_line(alloc, path, records, bytes)?;
    let rest = left_out_text(alloc, is_older, left_out)?;
    Ok(format!(in alloc;
        "{}{}keep the damaged file, and move this one to {}\n",
        saved.as_str(),
        rest.as_str(),
        path
    )?)
}

/// What is told of a journal that is not damaged and has nothing to save.
pub fn sound_text(alloc: Global, path: &str) -> Result<String, Memory>
    ensures { IfOk result (λ text. string_bytes text ≡ sound_text path.now) }
{
    Ok(format!(in alloc; "{path}: not damaged\n")?)
}

// How long the one record in place of a row would be.
fn length_text(alloc: Global, bytes: u64) -> Result<String, Memory>
    ensures { IfOk result (λ text. string_bytes text ≡ length_text bytes) }
{
    let bytes = counted(alloc, bytes, "byte")?;
    Ok(format!(in alloc;
        ": not damaged; as one record it would have {}\n",
        bytes.as_str()
    )?)
}

/// What is told of a row of the first version that can't be made new, since one record in its place would have so many bytes.
pub fn too_long_text(alloc: Global, path: &str, bytes: u64) -> Result<Vec<u8>, Memory>
    ensures { IfOk result (λ text. text.items ≡ too_long_text path.now bytes) }
{
    let mut text = String::from_str(alloc, path)?.into_bytes();
    push(&mut text, length_text(alloc, bytes)?.as_bytes())?;
    Ok(text)
}
