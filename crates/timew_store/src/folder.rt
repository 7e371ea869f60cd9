// Reading the month files of a folder.
ghost use Rattle.std.specs.Prelude.{◌≡◌, true, filter, map, IfOk, IfErr};
ghost use Rattle.std.specs.String.{string_bytes};
ghost use Rattle.tw_world.specs.Crash.{Tells, Reads};
ghost use Rattle.timew_interval.specs.MonthName.{is_month_name};
ghost use Rattle.timew_month.specs.Gathered.{file_of, files_of, months_in};
ghost use Rattle.timew_month.specs.Files.{bytes_of};
ghost use Rattle.timew_month.specs.NamedFiles.{are_named};
ghost use Rattle.timew_store.specs.Loading.{FilesRefused};
ghost use Rattle.timew_store.specs.Store.{HoldMonths, MonthsRefused};

use crate::error::{LoadError, StoreError};
use std::alloc::Global;
use timew_interval::is_month_name;
use timew_month::{MonthFile, Months, ReadRows, read_known};
use tw_world::{Folder, Memory, Text};

// The names of month files among names.
fn months_among(alloc: Global, names: &Vec<String>) -> Result<Vec<Text>, Memory>
    ensures names { IfOk result (λ months. months.items ≡ filter is_month_name (map string_bytes names.now.items)) }
{
    let mut months = Vec::new(alloc);
    for name in names {
        if is_month_name(name.as_bytes()) {
            months.push(Text::from_str(alloc, name.as_str())?)?;
        }
    }
    Ok(months)
}

fn read_file<F: Folder>(alloc: Global, folder: &mut F, name: &Text) -> Result<MonthFile, StoreError>
    requires { is_month_name name.now ≡ true }
    ensures file { IfOk result (λ file. Tells F.model folder.old → file_of file ≡ (name.now, bytes_of (F.model.seen folder.old) name.now)) }
    ensures name { IfOk result (λ file. file.name ≡ name.now) }
    ensures reads { Reads F.model folder.old folder.new }
    ensures refused { IfErr result (FilesRefused F.model folder.old folder.new) }
{
    let bytes = match folder.read(alloc, name.as_str())? {
        Some(bytes) => bytes,
        None => Vec::new(alloc),
    };
    let name = name.copy(alloc)?;
    Ok(MonthFile { name, bytes })
}

// The month files of a folder, in byte order of their names.
fn read_files<F: Folder>(alloc: Global, folder: &mut F) -> Result<Vec<MonthFile>, StoreError>
    ensures files { IfOk result (λ files. Tells F.model folder.old → files_of files.items ≡ months_in (F.model.seen folder.old)) }
    ensures reads { Reads F.model folder.old folder.new }
    ensures named { IfOk result (λ files. are_named files.items ≡ true) }
    ensures refused { IfErr result (FilesRefused F.model folder.old folder.new) }
{
    let names = folder.names(alloc)?;
    let months = months_among(alloc, &names)?;
    let mut files = Vec::new(alloc);
    for name in &months {
        files.push(read_file(alloc, folder, name)?)?;
    }
    Ok(files)
}

/// The month files of a folder and their intervals, or the first bad line.
pub(crate) fn read_months<F: Folder>(alloc: Global, folder: &mut F) -> Result<Months, LoadError>
    ensures months { IfOk result (λ months. Tells F.model folder.old → HoldMonths (F.model.seen folder.old) months) }
    ensures reads { Reads F.model folder.old folder.new }
    ensures refused { IfErr result (λ e. MonthsRefused F.model folder.old folder.new e) }
{
    let files = read_files(alloc, folder)?;
    let ReadRows { rows, known } = read_known(alloc, &files)?;
    Ok(Months { files, rows, known })
}
