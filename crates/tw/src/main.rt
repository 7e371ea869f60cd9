//! The program `tw`: tasks and working hours from the command line.
//! It hands the words, the clock, the zone, the random source, files, the standard streams and connections to
//! the calls of `tw_cli`, `timew_cli` and `tw_server`, and ends with the status that they give.
#![tactic(auto)]

mod asked;
mod audit;
mod check;
mod disk;
mod help;
mod hint;
mod hours;
mod input;
mod link;
mod log;
mod print;
mod reasons;
mod rescue;
mod server;
mod server_words;
mod settings;
mod start;
mod streams;
mod task;
mod task_paths;
mod timew;
mod timew_paths;
mod zone;

use audit::run_audit;
use check::run_check;
use help::{HELP, VERSION};
use print::{print, print_error};
use reasons::hint_start;
use rescue::run_rescue;
use server::run_server;
use start::{Part, StartError, part_of, take_first, words};
use std::alloc::Global;
use std::process::ExitCode;
use streams::stand_ins;
use task::run_task;
use timew::run_timew;

// Does what the words ask for, and gives the program's status.
fn run(rt: &HostRuntime, alloc: Global) -> Result<u8, StartError> {
    let mut words = words(rt, alloc)?;
    let Some(first) = take_first(&mut words) else {
        return run_task(rt, alloc, &words);
    };
    match part_of(first.as_str()) {
        Some(Part::Help) => Ok(print(rt, HELP)),
        Some(Part::Version) => Ok(print(rt, VERSION)),
        Some(Part::Task) => run_task(rt, alloc, &words),
        Some(Part::Timew) => run_timew(rt, alloc, &words),
        Some(Part::Server) => match run_server(rt, alloc, &words) {
            Err(StartError::CommandLine) => Err(StartError::Service),
            ended => ended,
        },
        Some(Part::Check) => run_check(rt, alloc, &words),
        Some(Part::Rescue) => run_rescue(rt, alloc, &words),
        Some(Part::Audit) => run_audit(rt, alloc, &words),
        None => Err(StartError::CommandLine),
    }
}

fn main(rt: HostRuntime) -> ExitCode {
    let alloc = rt.alloc();
    let stand_ins = match stand_ins(&rt) {
        Ok(stand_ins) => stand_ins,
        Err(error) => return ExitCode::from(print_error(&rt, error)),
    };
    let status = match run(&rt, alloc) {
        Ok(status) => status,
        Err(error) => {
            let status = print_error(&rt, error);
            hint_start(&rt, alloc, error);
            status
        }
    };
    drop(stand_ins);
    ExitCode::from(status)
}
