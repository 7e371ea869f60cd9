// The body of a record: what a change or an undo did to month files.
ghost use Rattle.std.specs.Prelude.{◌≡◌, IfOk, true, ◌++◌, OnOk};
ghost use Rattle.std.specs.Ordering.{is_lt};
ghost use Rattle.tw_world.specs.Folder.{bytes_cmp};
ghost use Rattle.timew_month.specs.Body.{AreMonths, named, file_at, files_of, step_of, names_rise, file_bytes, files_bytes, body_of};
ghost use Rattle.timew_interval.specs.MonthName.{is_month_name};
ghost use Rattle.timew_month.specs.Records.{change_of, changes_of, step_in, files_held};
ghost use Rattle.tw_fields.specs.Reading.{Gives, many_at};
ghost use Rattle.timew_month.specs.Body.Step.{Change, Undo};

use crate::months::NewFile;
use std::alloc::Global;
use timew_interval::is_month_name;
use tw_fields::{ReadError, bytes_at, put_bytes, put_count, u32_at};
use tw_world::{Memory, Text};

/// What a record holds: what a change did to month files, or what an undo did.
#[derive(Drop)]
pub enum Record {
    Change(Vec<NewFile>),
    Undo(Vec<NewFile>),
}

fn read_name(alloc: Global, name: &[u8]) -> Result<Text, ReadError>
    ensures value { Gives (λ text. text) result (named name.now) }
    ensures name { IfOk result (λ text. is_month_name text ≡ true) }
{
    if !is_month_name(name) {
        return Err(ReadError::Malformed);
    }
    match std::str::from_utf8(name) {
        Ok(text) => Ok(Text::from_str(alloc, text)?),
        Err(_) => Err(ReadError::Malformed),
    }
}

#[tactic(auto, unfolding(crate::specs::Body::file_at))]
fn read_file(alloc: Global, bytes: &[u8]) -> Result<(NewFile, &[u8]), ReadError>
    ensures value { Gives (λ x. (change_of x.0, x.1.now)) result (file_at bytes.now) }
    ensures name { IfOk result (λ x. is_month_name x.0.name ≡ true) }
{
    let (name, rest) = bytes_at(bytes)?;
    let (old, rest) = bytes_at(rest)?;
    let (new, rest) = bytes_at(rest)?;
    let name = read_name(alloc, name)?;
    let old = old.to_vec(alloc)?;
    let new = new.to_vec(alloc)?;
    Ok((NewFile { name, old, new }, rest))
}

fn read_files(alloc: Global, count: u32, bytes: &[u8]) -> Result<(Vec<NewFile>, &[u8]), ReadError>
    ensures value { Gives (λ x. (changes_of x.0.items, x.1.now)) result (many_at file_at count bytes.now) }
    ensures names { IfOk result (λ x. AreMonths (changes_of x.0.items)) }
{
    let mut files = Vec::new(alloc);
    let mut rest = bytes;
    for _ in 0..count {
        let (file, after) = read_file(alloc, rest)?;
        files.push(file)?;
        rest = after;
    }
    Ok((files, rest))
}

// Whether the names rise in byte order.
fn names_rise(files: &Vec<NewFile>) -> bool
    ensures { result ≡ names_rise (changes_of files.now.items) }
{
    let mut at = 1;
    while at < files.len() {
        if !is_before(&files[at - 1], &files[at]) {
            return false;
        }
        at += 1;
    }
    true
}

fn is_before(file: &NewFile, next: &NewFile) -> bool
    ensures { result ≡ is_lt (bytes_cmp file.now.name next.now.name) }
{
    file.name.as_str() < next.name.as_str()
}

// So many files with rising names, which end with the bytes.
#[tactic(auto, unfolding(crate::specs::Body::files_of))]
fn all_files(alloc: Global, bytes: &[u8]) -> Result<Vec<NewFile>, ReadError>
    ensures value { Gives (λ files. changes_of files.items) result (files_of bytes.now) }
    ensures names { IfOk result (λ files. AreMonths (changes_of files.items)) }
    ensures rise { IfOk result (λ files. names_rise (changes_of files.items) ≡ true) }
{
    let (count, rest) = u32_at(bytes)?;
    let (files, rest) = read_files(alloc, count, rest)?;
    if rest.len() == 0 && names_rise(&files) {
        Ok(files)
    } else {
        Err(ReadError::Malformed)
    }
}

/// The record that a body holds, all of it.
#[tactic(auto, unfolding(crate::specs::Body::step_of))]
pub fn read_record(alloc: Global, body: &[u8]) -> Result<Record, ReadError>
    ensures value { Gives step_in result (step_of body.now) }
    ensures names { IfOk result (λ held. AreMonths (changes_of (files_held held))) }
    ensures rise { IfOk result (λ held. names_rise (changes_of (files_held held)) ≡ true) }
{
    match body {
        [1, rest @ ..] => Ok(Record::Change(all_files(alloc, rest)?)),
        [2, rest @ ..] => Ok(Record::Undo(all_files(alloc, rest)?)),
        _ => Err(ReadError::Malformed),
    }
}

impl Record {
    /// The files, whatever is done to them.
    pub fn into_files(self) -> Vec<NewFile>
        ensures { result.items ≡ files_held self }
    {
        match self {
            Record::Change(files) => files,
            Record::Undo(files) => files,
        }
    }
}

fn put_file(out: &mut Vec<u8>, file: &NewFile) -> Result<(), Memory>
    ensures { OnOk result (out.new.items ≡ out.old.items ++ file_bytes (change_of file.now)) }
{
    put_bytes(out, file.name.as_str().as_bytes())?;
    put_bytes(out, &file.old)?;
    put_bytes(out, &file.new)
}

fn put_files(out: &mut Vec<u8>, files: &Vec<NewFile>) -> Result<(), Memory>
    ensures { OnOk result (out.new.items ≡ out.old.items ++ files_bytes (changes_of files.now.items)) }
{
    put_count(out, files.len())?;
    for file in files {
        put_file(out, file)?;
    }
    Ok(())
}

/// The body of a change.
pub fn change_body(alloc: Global, files: &Vec<NewFile>) -> Result<Vec<u8>, Memory>
    ensures { IfOk result (λ body. body.items ≡ body_of (Change (changes_of files.now.items))) }
{
    let mut body = Vec::new(alloc);
    body.push(1)?;
    put_files(&mut body, files)?;
    Ok(body)
}

/// The body of an undo.
pub fn undo_body(alloc: Global, files: &Vec<NewFile>) -> Result<Vec<u8>, Memory>
    ensures { IfOk result (λ body. body.items ≡ body_of (Undo (changes_of files.now.items))) }
{
    let mut body = Vec::new(alloc);
    body.push(2)?;
    put_files(&mut body, files)?;
    Ok(body)
}
