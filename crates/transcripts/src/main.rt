//! Carries transcripts out over machines in memory, and compares what is printed with what stands there.
//! Its arguments are the files; it prints a line for each, and ends with 1 if a line of one is not as written.
//! It makes the calls of the program, `task_run` and `timew_run`, over the objects in memory of `tw_world` and `tw_server`.
#![tactic(auto)]

mod directive;
mod given;
mod hooks;
mod machine;
mod printed;
mod scene;
mod stop;
mod way;
mod words;

use directive::Directive;
use scene::Scene;
use std::alloc::Global;
use std::process::ExitCode;
use std::{env, fs, io};
use stop::Stop;

// Takes the next line of a transcript, within a scene or between two.
fn take(alloc: Global, scene: &mut Option<Scene>, line: &str) -> Result<(), Stop> {
    if let Some(open) = scene {
        if open.take(line)? {
            *scene = None;
        }
        return Ok(());
    }
    match Directive::of(line).0 {
        Directive::Scene => *scene = Some(Scene::new(alloc)?),
        Directive::Comment => {}
        _ => return Err(Stop::Wrong("a scene begins with a title")),
    }
    Ok(())
}

fn end(scene: &Option<Scene>) -> Result<(), Stop> {
    match scene {
        Some(open) => open.end(),
        None => Ok(()),
    }
}

// Prints what was found in place of a line.
fn complain(rt: &HostRuntime, name: &str, number: u64, line: &str, stop: &Stop) -> io::Result<()> {
    let got = stop.as_str();
    println!(rt; "{name}:{number}: wanted {line}")?;
    println!(rt; "{name}:{number}: got {got}")
}

// Carries a text out. Whether each of its lines is as written.
fn is_right(rt: &HostRuntime, name: &str, text: &str) -> io::Result<bool> {
    let mut scene = None;
    let mut number = 0u64;
    for line in text.lines() {
        number = number.saturating_add(1);
        if let Err(stop) = take(rt.alloc(), &mut scene, line) {
            complain(rt, name, number, line, &stop)?;
            return Ok(false);
        }
    }
    if let Err(stop) = end(&scene) {
        complain(rt, name, number, "the end", &stop)?;
        return Ok(false);
    }
    println!(rt; "{name}: {number} lines as written")?;
    Ok(true)
}

// Carries out the files that the arguments name. Whether all are as written.
fn are_right(rt: &HostRuntime) -> io::Result<bool> {
    let mut are_right = true;
    for name in env::args(rt)?.skip(1) {
        let text = fs::read_to_string(rt, name.as_str())?;
        are_right &= is_right(rt, name.as_str(), text.as_str())?;
    }
    Ok(are_right)
}

fn main(rt: HostRuntime) -> ExitCode {
    match are_right(&rt) {
        Ok(true) => ExitCode::from(0),
        Ok(false) => ExitCode::from(1),
        Err(_) => ExitCode::from(2),
    }
}
