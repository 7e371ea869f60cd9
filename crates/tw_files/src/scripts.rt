// Scripts of the system, and the programs that they become.
ghost use Rattle.std.specs.Prelude.{◌≡◌, ℕ, List, Option, None, map, option_map, IfOk, IfErr, IfSome, OnErr};
ghost use Rattle.std.specs.String.{string_bytes};
ghost use Rattle.std.specs.Io.{ReadsAtMost};
ghost use Rattle.std.specs.Io.KnownBytes.{ReadConsumes};
ghost use Rattle.tw_files.specs.FolderFiles.{FailsAlone};

use crate::folders::OWN_FILE;
use std::alloc::Global;
use std::fs::{DirEntry, File, OpenOptions};
use std::io::{ErrorKind, Read, Write};
use std::os::unix::fs::OpenOptionsExt;
use std::process::{Child, Command, Stdio};
use std::{fs, io};

/// A script that was started.
pub trait OpenScript {
    /// Holds if it is the run of the script of this path, with these bytes as its standard input.
    ghost is_run: { Self → List ℕ → List ℕ → Type 0 };

    /// The bytes that it is still to write to its standard output, if they are known.
    ghost remaining: { Self → Option (List ℕ) };

    /// Holds if it ended with this status.
    ghost ended: { Self → ℕ → Type 0 };

    /// Holds if a call of it has failed.
    ghost has_failed: { Self → Type 0 };

    /// Holds if it brings no status: it was stopped after a call had failed, or waiting for it failed, or a signal ended it.
    ghost is_given_up: { Self → Type 0 };

    /// Reads what it writes, and waits for that.
    fn read_some(&mut self, buffer: &mut [u8]) -> io::Result<usize>
        ensures bound { ReadsAtMost result buffer.new }
        ensures bytes { ReadConsumes (remaining self.old) (remaining self.new) result buffer.new }
        ensures failed { OnErr result (has_failed self.new) };

    /// Ends it.
    fn stop(&mut self) -> io::Result<()>
        ensures stopped { has_failed self.old → is_given_up self.new };

    /// Waits for its end, and gives its status, or `None` if a signal ended it.
    fn finish(&mut self) -> io::Result<Option<u8>>
        ensures ended { IfOk result (λ status. IfSome status (ended self.new)) }
        ensures none { IfOk result (λ status. status ≡ None → is_given_up self.new) }
        ensures failed { OnErr result (is_given_up self.new) }
        ensures stopped { is_given_up self.old → is_given_up self.new };
}

/// What the system offers of scripts.
pub trait Scripts {
    type Script: OpenScript + Drop;

    /// Holds if the folder of this path has the files of these names, in any order, and no other whose name is a text;
    /// with `None`, if it is not there.
    ghost lists: { Self → List ℕ → Option (List (List ℕ)) → Type 0 };

    /// Holds if the system may refuse to list a folder, or to start a script.
    ghost may_fail: { Type 0 };

    /// The names of the files in a folder, in any order, and none if it is not there. A name that is no text is left out.
    fn files(&mut self, alloc: Global, folder: &str) -> io::Result<Option<Vec<String>>>
        ensures files { IfOk result (λ names. lists self.new folder.now (option_map (λ names. map string_bytes names.items) names)) }
        ensures failed { IfErr result (FailsAlone may_fail) };

    /// Starts the script of a path by `sh`, with these bytes as its standard input. They are in a file of the path `spare`
    /// until it is started, since a pipe holds few, and then that name is gone.
    fn start(
        &mut self,
        alloc: Global,
        path: &str,
        spare: &str,
        input: &[u8],
    ) -> io::Result<Self::Script>
        ensures run { IfOk result (λ script. Self.Script.is_run script path.now input.now) }
        ensures failed { IfErr result (FailsAlone may_fail) };
}

// The system's programs tell nothing of what they write.
impl OpenScript for Child {
    ghost is_run = { λ script path input. Unit {0} };

    ghost remaining = { λ script. None };

    ghost ended = { λ script status. Unit {0} };

    ghost has_failed = { λ script. Unit {0} };

    ghost is_given_up = { λ script. Unit {0} };

    fn read_some(&mut self, buffer: &mut [u8]) -> io::Result<usize> {
        match &mut self.stdout {
            Some(output) => output.read(buffer),
            None => Ok(0),
        }
    }

    fn stop(&mut self) -> io::Result<()> {
        self.kill()
    }

    fn finish(&mut self) -> io::Result<Option<u8>> {
        match self.wait()?.code() {
            Some(code) => Ok(u8::try_from(code).ok()),
            None => Ok(None),
        }
    }
}

impl Scripts for &HostRuntime {
    type Script = Child;

    ghost lists = { λ system folder names. Unit {0} };

    ghost may_fail = { Unit {0} };

    fn files(&mut self, alloc: Global, folder: &str) -> io::Result<Option<Vec<String>>> {
        let entries = match fs::read_dir(*self, folder) {
            Ok(entries) => entries,
            Err(error) if error.kind() == ErrorKind::NotFound => return Ok(None),
            Err(error) => return Err(error),
        };
        let mut names = Vec::new(alloc);
        for entry in entries {
            add_file(*self, alloc, &mut names, entry)?;
        }
        Ok(Some(names))
    }

    fn start(&mut self, alloc: Global, path: &str, spare: &str, input: &[u8]) -> io::Result<Child> {
        let given = input_file(*self, spare, input)?;
        let mut command = script_command(alloc, path)?;
        command.stdin(given).stdout(Stdio::piped());
        command.spawn(*self)
    }
}

// Adds the name of an entry, if it is a text and leads to a file.
fn add_file(
    rt: &HostRuntime,
    alloc: Global,
    names: &mut Vec<String>,
    entry: io::Result<DirEntry>,
) -> io::Result<()> {
    let entry = match entry {
        Ok(entry) => entry,
        Err(error) if error.kind() == ErrorKind::InvalidFilename => return Ok(()),
        Err(error) => return Err(error),
    };
    match fs::metadata(rt, entry.path()) {
        Ok(file) if file.is_file() => {
            Ok(names.push(String::from_str(alloc, entry.file_name())?)?)
        }
        Ok(_) => Ok(()),
        Err(error) if error.kind() == ErrorKind::NotFound => Ok(()),
        Err(error) => Err(error),
    }
}

// A file with these bytes, to be read, which has no name any more.
fn input_file(rt: &HostRuntime, spare: &str, input: &[u8]) -> io::Result<File> {
    let mut file = OpenOptions::new()
        .write(true)
        .create(true)
        .truncate(true)
        .mode(OWN_FILE)
        .open(rt, spare)?;
    file.write_all(input)?;
    drop(file);
    let given = File::open(rt, spare)?;
    fs::remove_file(rt, spare)?;
    Ok(given)
}

// `sh` with a script. No path is taken for an option, and a `tw` that the script starts finds `TW_HOOK`.
fn script_command(alloc: Global, path: &str) -> io::Result<Command> {
    let mut command = Command::new(alloc, "sh")?;
    command.arg("--")?.arg(path)?.env("TW_HOOK", "1")?;
    Ok(command)
}
