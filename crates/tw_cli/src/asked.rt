// What a command line asks for.
ghost use Rattle.std.specs.Prelude.{◌≡◌, IfOk, Ok};
ghost use Rattle.tw_cli.specs.Asked.{job_by, asked_by, needs_store, needs_hours, IsAsked};

use crate::hours::is_driving;
use std::alloc::Global;
use tw_changes::{Input, Request};
use tw_filter::Filter;
use tw_settings::{ServerSettings, Settings, WordError, read_settings};
use tw_time::Zone;
use tw_words::{AnyCommand, Line, cut_words, judge_line};
use tw_world::{Memory, Moment};

/// What is to be done.
#[derive(Drop)]
pub(crate) enum Job<'a> {
    /// A command that stays on this machine.
    Here(Request<'a>),
    /// A sync with a server.
    Sync(ServerSettings),
    /// A large world in memory, which takes and leaves nothing outside: by the numbers of this line, with the weights of these settings.
    Generate(Line, Settings),
}

/// Why nothing is to be done.
#[derive(Drop)]
pub(crate) enum LineError {
    /// A setting or a word is wrong, or there was no memory to read them.
    Words(WordError),
    /// The settings name no sync server, or no client.
    NoServer,
}

impl From<WordError> for LineError {
    ghost use Rattle.std.specs.Prelude.{◌≡◌};
    ghost use Rattle.tw_cli.specs.declared.asked.LineError.TheVariants.{Words};

    ghost from_gives = { λ error line. line ≡ Words error };

    fn from(error: WordError) -> LineError {
        LineError::Words(error)
    }
}

impl From<Memory> for LineError {
    ghost use Rattle.std.specs.Prelude.{◌≡◌};
    ghost use Rattle.tw_cli.specs.declared.asked.LineError.TheVariants.{Words};
    ghost use Rattle.tw_settings.specs.declared.word_error.WordError.TheVariants.{Memory as NoMemory};

    ghost from_gives = { λ _ line. line ≡ Words NoMemory };

    fn from(_: Memory) -> LineError {
        LineError::Words(WordError::Memory)
    }
}

// What a line asks for, whose words are good.
fn job_by<'a>(
    alloc: Global,
    line: Line,
    filter: Filter,
    settings: Settings,
    now: Moment,
    zone: &'a Zone,
) -> Result<Job<'a>, LineError>
    ensures { IsAsked (job_by line.command line filter settings now zone.entry) result }
{
    match line.command {
        AnyCommand::Tasks(command) => Ok(Job::Here(Request {
            command,
            line,
            filter,
            settings,
            at: now,
            zone,
            input: Input::none(alloc),
        })),
        AnyCommand::Sync => match settings.server(alloc)? {
            Some(server) => Ok(Job::Sync(server)),
            None => Err(LineError::NoServer),
        },
        AnyCommand::Generate => Ok(Job::Generate(line, settings)),
    }
}

/// What the words ask for, or why nothing is done: the first line of the settings that is no setting, the first word that is wrong whatever the
/// tasks are, or a sync without a server.
pub(crate) fn asked<'a>(
    alloc: Global,
    words: &Vec<String>,
    settings: &Vec<u8>,
    now: Moment,
    zone: &'a Zone,
) -> Result<Job<'a>, LineError>
    ensures { IsAsked (asked_by words.now settings.now now zone.entry) result }
{
    let line = cut_words(alloc, words)?;
    let settings = read_settings(alloc, settings.as_slice(), &line.overrides)?;
    let filter = judge_line(alloc, &line, now, zone)?;
    job_by(alloc, line, filter, settings, now, zone)
}

/// Whether the words ask for something that needs the store: not if they or the settings are wrong, nor for `_generate`.
pub fn needs_store(
    alloc: Global,
    words: &Vec<String>,
    settings: &Vec<u8>,
    now: Moment,
    zone: &Zone,
) -> Result<bool, Memory>
    ensures { IfOk result (λ needs. needs ≡ needs_store (asked_by words.now settings.now now zone.entry)) }
{
    match asked(alloc, words, settings, now, zone) {
        Ok(job) => Ok(is_for_store(&job)),
        Err(LineError::Words(WordError::Memory)) => Err(Memory),
        Err(_) => Ok(false),
    }
}

// Whether what is to be done needs the store.
fn is_for_store(job: &Job<'_>) -> bool
    ensures { result ≡ needs_store (Ok job.now) }
{
    match job {
        Job::Here(_) | Job::Sync(_) => true,
        Job::Generate(_, _) => false,
    }
}

/// Whether the words ask for something that needs the store of hours: a command that drives intervals, if the setting `timetrack` is on.
pub fn needs_hours(
    alloc: Global,
    words: &Vec<String>,
    settings: &Vec<u8>,
    now: Moment,
    zone: &Zone,
) -> Result<bool, Memory>
    ensures { IfOk result (λ needs. needs ≡ needs_hours (asked_by words.now settings.now now zone.entry)) }
{
    match asked(alloc, words, settings, now, zone) {
        Ok(job) => Ok(is_for_hours(&job)),
        Err(LineError::Words(WordError::Memory)) => Err(Memory),
        Err(_) => Ok(false),
    }
}

// Whether what is to be done drives intervals.
fn is_for_hours(job: &Job<'_>) -> bool
    ensures { result ≡ needs_hours (Ok job.now) }
{
    match job {
        Job::Here(request) => is_driving(request),
        Job::Sync(_) | Job::Generate(_, _) => false,
    }
}
