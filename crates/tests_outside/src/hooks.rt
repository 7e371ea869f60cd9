// Hooks that the system runs.
use std::alloc::Global;
use std::fs::OpenOptions;
use std::io::Write;
use std::test::Fail;
use std::{fs, io};
use tw_files::{ProcessSpawner, Scripts};
use tw_spawn::{SpawnError, Spawner};

fn put(rt: &HostRuntime, path: &str, text: &str) -> io::Result<()> {
    let mut file = OpenOptions::new()
        .write(true)
        .create(true)
        .truncate(true)
        .open(rt, path)?;
    file.write_all(text.as_bytes())
}

// What a script answers to an input, and the first bytes that it writes, if that is what is wanted.
fn is_run<S: Scripts>(
    hooks: &mut ProcessSpawner<S>,
    alloc: Global,
    input: &[u8],
    wanted: Result<u8, SpawnError>,
    output: &str,
) -> bool {
    let mut bytes = Vec::new(alloc);
    let status = hooks.run("hook", input, &mut bytes);
    (status == wanted) & (wanted.is_err() || bytes.as_slice() == output.as_bytes())
}

// Scripts, what they are given, their status, and what they write.
const ROWS: [(&str, &str, Result<u8, SpawnError>, &str); 6] = [
    ("cat", "two\nlines\n", Ok(0), "two\nlines\n"),
    (
        "read line; echo \"$line!\"; exit 3",
        "two\nlines\n",
        Ok(3),
        "two!\n",
    ),
    ("echo $TW_HOOK; cat >&2", "", Ok(0), "1\n"),
    ("exit 255", "unread", Ok(255), ""),
    ("echo x; kill -9 $$", "", Err(SpawnError::Failed), ""),
    ("no_such_program", "", Ok(127), ""),
];

// How many of the scripts answer as wanted, up to the first that does not.
fn rows_so_far<S: Scripts>(
    rt: &HostRuntime,
    hooks: &mut ProcessSpawner<S>,
    alloc: Global,
) -> io::Result<usize> {
    for (number, (script, input, wanted, output)) in ROWS.iter().enumerate() {
        put(rt, "hooked_rows/hooks/hook", script)?;
        if !is_run(hooks, alloc, input.as_bytes(), *wanted, output) {
            return Ok(number);
        }
    }
    Ok(ROWS.len())
}

#[test]
fn scripts_answer_as_they_end(rt: HostRuntime) -> Result<(), Fail> {
    let alloc = rt.alloc();
    fs::create_dir_all(&rt, "hooked_rows/hooks")?;
    let mut hooks = ProcessSpawner::new(alloc, &rt, "hooked_rows")?;
    assert_eq!(rt; rows_so_far(&rt, &mut hooks, alloc)?, ROWS.len());
    assert!(rt; fs::read_dir(&rt, "hooked_rows")?.count() == 1);
    fs::remove_dir_all(&rt, "hooked_rows")?;
    Ok(())
}

// A script that writes more than is kept, and one that leaves a long input unread.
fn are_long<S: Scripts>(
    hooks: &mut ProcessSpawner<S>,
    alloc: Global,
    input: &[u8],
) -> Option<usize> {
    let mut bytes = Vec::new(alloc);
    match hooks.run("hook", input, &mut bytes) {
        Ok(0) => Some(bytes.len()),
        _ => None,
    }
}

#[test]
fn long_texts_keep_no_script_waiting(rt: HostRuntime) -> Result<(), Fail> {
    let alloc = rt.alloc();
    fs::create_dir_all(&rt, "hooked_long/hooks")?;
    let mut hooks = ProcessSpawner::new(alloc, &rt, "hooked_long")?;
    let input = vec![in alloc; b'x'; 1_000_000]?;
    put(
        &rt,
        "hooked_long/hooks/hook",
        "head -c 17000000 /dev/zero && exit 0",
    )?;
    assert!(rt; are_long(&mut hooks, alloc, &input) == Some(16_777_217));
    put(&rt, "hooked_long/hooks/hook", "cat; cat /dev/null")?;
    assert!(rt; are_long(&mut hooks, alloc, &input) == Some(1_000_000));
    fs::remove_dir_all(&rt, "hooked_long")?;
    Ok(())
}

#[test]
fn the_files_of_the_folder_are_the_hooks(rt: HostRuntime) -> Result<(), Fail> {
    let alloc = rt.alloc();
    fs::create_dir_all(&rt, "hooked_names")?;
    let mut hooks = ProcessSpawner::new(alloc, &rt, "hooked_names")?;
    assert!(rt; hooks.names(alloc)?.is_empty());
    fs::create_dir_all(&rt, "hooked_names/hooks/folder")?;
    put(&rt, "hooked_names/hooks/on-add", "cat")?;
    let names = hooks.names(alloc)?;
    assert!(rt; names.len() == 1 && names[0].as_str() == "on-add");
    fs::remove_dir_all(&rt, "hooked_names")?;
    Ok(())
}
