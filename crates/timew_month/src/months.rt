// Month files and their intervals, as they are in memory, and what a change makes of a file.
ghost use Rattle.std.specs.Prelude.{◌≡◌, true, ◌<◌, IfOk};
ghost use Rattle.tw_world.specs.Folder.{same_bytes};
ghost use Rattle.timew_month.specs.Gathered.{files_of};
ghost use Rattle.timew_month.specs.NamedFiles.{are_named, bytes_in, names_in};
ghost use Rattle.timew_month.specs.Known.{AreKnown};
ghost use Rattle.timew_interval.specs.Interval.{IsEnd-prop};
ghost use Rattle.std.proofs.Props.{props};

use std::alloc::Global;
use timew_interval::{Intervals, push_copy};
use tw_world::{Memory, Text};

/// A month file: its name, and its bytes.
#[derive(Drop)]
pub struct MonthFile {
    pub name: Text,
    pub bytes: Vec<u8>,
}

/// What a change makes of one month file.
#[derive(Drop)]
pub struct NewFile {
    pub name: Text,
    pub old: Vec<u8>,
    pub new: Vec<u8>,
}

/// The file with a number, from 0, is the text of so many intervals, from one on.
#[derive(Clone, Copy)]
pub struct KnownText {
    pub file: usize,
    pub first: usize,
    pub count: usize,
}

/// Month files, in byte order of their names, the intervals that they hold, and which files are known to be the text of some of them.
#[derive(Drop)]
pub struct Months {
    pub files: Vec<MonthFile>,
    pub rows: Intervals,
    pub known: Vec<KnownText>,
    ghost named: { are_named files.items ≡ true },
    ghost known_are: { AreKnown files.items rows known.items } by { Prim.hlevel (props, IsEnd-prop) },
}

impl Months {
    /// No month files.
    pub fn none(alloc: Global) -> Months {
        Months {
            files: Vec::new(alloc),
            rows: Intervals::new(alloc),
            known: Vec::new(alloc),
        }
    }
}

fn has_name(file: &MonthFile, name: &Text) -> bool
    ensures { result ≡ same_bytes file.now.name name.now }
{
    file.name.as_str() == name.as_str()
}

/// The names of these files.
pub(crate) fn names_of(alloc: Global, files: &Vec<MonthFile>) -> Result<Vec<Text>, Memory>
    ensures { IfOk result (λ names. names.items ≡ names_in (files_of files.now.items)) }
{
    let mut names = Vec::with_capacity(alloc, files.len())?;
    for file in files {
        push_copy(alloc, &mut names, &file.name)?;
    }
    Ok(names)
}

/// The bytes under a name. If there is no file of that name, there are none.
pub fn bytes_in<'a>(files: &'a Vec<MonthFile>, name: &Text) -> &'a [u8]
    ensures { result.now ≡ bytes_in (files_of files.now.items) name.now }
{
    for file in files {
        if has_name(file, name) {
            return &file.bytes;
        }
    }
    &[]
}
