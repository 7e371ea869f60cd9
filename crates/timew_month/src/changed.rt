// What month files are after a change.
ghost use Rattle.std.specs.Prelude.{◌≡◌, ◌<◌, ◌≤◌, ◌+◌, [], length, slice_set, IfOk, IfErr};
ghost use Rattle.std.specs.List.{insert as insert_at};
ghost use Rattle.std.specs.Vec.{vec_len, vec_capacity};
ghost use Rattle.tw_world.specs.Folder.{bytes_cmp};
ghost use Rattle.timew_month.specs.Gathered.{file_of, files_of};
ghost use Rattle.timew_month.specs.NamedFiles.{bytes_in, bytes_after, names_after, files_after, file_after, IsPlaceOf, with_file, with_changes};
ghost use Rattle.timew_month.specs.Records.{changes_of};

use crate::months::{MonthFile, NewFile, bytes_in, names_of};
use std::alloc::Global;
use std::cmp::Ordering;
use timew_interval::add_tag;
use tw_world::{Memory, Text};

// The bytes under a name after a change, if there were these before.
fn bytes_after<'a>(changes: &'a Vec<NewFile>, name: &Text, before: &'a [u8]) -> &'a [u8]
    ensures { result.now ≡ bytes_after (changes_of changes.now.items) name.now before.now }
{
    let mut bytes = before;
    for change in changes {
        if name.as_str() == change.name.as_str() {
            bytes = &change.new;
        }
    }
    bytes
}

// The names of the files that are there after a change, in byte order.
fn names_after(
    alloc: Global,
    files: &Vec<MonthFile>,
    changes: &Vec<NewFile>,
) -> Result<Vec<Text>, Memory>
    ensures { IfOk result (λ names. names.items ≡ names_after (files_of files.now.items) (changes_of changes.now.items)) }
{
    let mut names = names_of(alloc, files)?;
    for change in changes {
        add_tag(alloc, &mut names, change.name.as_str())?;
    }
    Ok(names)
}

// The file with a name after a change.
fn file_after(
    alloc: Global,
    files: &Vec<MonthFile>,
    changes: &Vec<NewFile>,
    name: &Text,
) -> Result<MonthFile, Memory>
    ensures { IfOk result (λ file. file_of file ≡ file_after (files_of files.now.items) (changes_of changes.now.items) name.now) }
{
    let before = bytes_in(files, name);
    let bytes = bytes_after(changes, name, before).to_vec(alloc)?;
    let name = name.copy(alloc)?;
    Ok(MonthFile { name, bytes })
}

/// The month files after a change, in byte order of their names.
pub fn files_after(
    alloc: Global,
    files: &Vec<MonthFile>,
    changes: &Vec<NewFile>,
) -> Result<Vec<MonthFile>, Memory>
    ensures { IfOk result (λ next. files_of next.items ≡ files_after (files_of files.now.items) (changes_of changes.now.items)) }
{
    let names = names_after(alloc, files, changes)?;
    let mut next = Vec::with_capacity(alloc, names.len())?;
    for name in &names {
        next.push(file_after(alloc, files, changes, name)?)?;
    }
    Ok(next)
}

// Whether a name is before that of a file in byte order, after it, or the same.
fn order_of(name: &Text, file: &MonthFile) -> Ordering
    ensures { result ≡ bytes_cmp name.now file.now.name }
{
    name.as_str().cmp(&file.name.as_str())
}

// The index of the file of a name among files in the order of names, or the one that it would get.
fn index_of(files: &Vec<MonthFile>, name: &Text) -> Result<usize, usize>
    ensures there { IfOk result (λ at. (at < length files.now.items) × IsPlaceOf name.now files.now.items (λ file. slice_set files.now.items at file)) }
    ensures absent { IfErr result (λ at. (at ≤ length files.now.items) × IsPlaceOf name.now files.now.items (λ file. insert_at files.now.items at file)) }
{
    for at in 0..files.len() {
        match order_of(name, &files[at]) {
            Ordering::Less => return Err(at),
            Ordering::Equal => return Ok(at),
            Ordering::Greater => {}
        }
    }
    Err(files.len())
}

// Puts a file among others in the order of names, in the place of the one of its name.
fn put_file(files: &mut Vec<MonthFile>, file: MonthFile)
    requires { vec_len files.old < vec_capacity files.old }
    ensures files { files_of files.new.items ≡ with_file (file_of file) (files_of files.old.items) }
    ensures len { vec_len files.new ≤ vec_len files.old + 1 }
    ensures capacity { vec_capacity files.new ≡ vec_capacity files.old }
{
    match index_of(files, &file.name) {
        Ok(at) => files[at] = file,
        Err(at) => {
            if files.insert(at, file).is_err() {
                unreachable!();
            }
        }
    }
}

/// The month files after a change, moved into a vector that has room for them.
pub fn files_with(
    room: Vec<MonthFile>,
    files: Vec<MonthFile>,
    changes: Vec<NewFile>,
) -> Vec<MonthFile>
    requires empty { room.items ≡ [] }
    requires room { vec_len files + vec_len changes ≤ vec_capacity room }
    ensures { files_of result.items ≡ with_changes (files_of files.items) (changes_of changes.items) }
{
    let mut next = room;
    let mut files = files;
    if next.append(&mut files).is_err() {
        unreachable!();
    }
    for change in changes {
        let NewFile { name, old: _, new } = change;
        put_file(&mut next, MonthFile { name, bytes: new });
    }
    next
}
