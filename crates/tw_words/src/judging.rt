// The first word of a line that is wrong.
ghost use Rattle.std.specs.Prelude.{◌≡◌, ◌<◌, map, string_bytes, option_copied};
ghost use Rattle.tw_words.specs.Modifications.{first_of, text_fault};
ghost use Rattle.tw_words.specs.Clocks.{clock_of};
ghost use Rattle.tw_words.specs.declared.command.AnyCommand.TheVariants.{Tasks};
ghost use Rattle.tw_words.specs.Commands.{filtering_of, rest_of};
ghost use Rattle.tw_words.specs.Faults.{filter_fault, lacks_change, lacks_by, lacks_filter, at_command, lack_fault, at_rest, if_there};
ghost use Rattle.tw_words.specs.Faults.{no_dash, no_amount, no_seed, extra_at, dash_fault, numbers_fault, text_rest_fault};
ghost use Rattle.tw_words.specs.Faults.{rest_fault, fault_of, line_in};
ghost use Rattle.tw_words.specs.Faults.{numbered, filter_of_words, filter_by, judged};
ghost use Rattle.tw_filter.specs.Gives.{Gives as GivesFilter};
ghost use Rattle.tw_filter.specs.Grammar.{filter_in};
ghost use Rattle.tw_settings.specs.Gives.{Gives};

pub(crate) mod fault;
pub(crate) mod tally;

use crate::changes::modification::number_at;
use crate::clock::Clock;
use crate::command::{AnyCommand, Command, Filtering, Rest};
use crate::judging::fault::{at_word, first_fault, text_fault, unless};
use crate::judging::tally::{Tally, tally_of};
use crate::line::{Line, cut_words};
use std::alloc::Global;
use tw_filter::{Filter, FilterError, read_filter};
use tw_settings::WordError;
use tw_terms::{BadWord, WordKind};
use tw_text::read_u64;
use tw_time::Zone;
use tw_world::Moment;

// The first of two.
fn first_of(first: Option<BadWord>, second: Option<BadWord>) -> Option<BadWord>
    ensures { result ≡ first_of first second }
{
    match first {
        Some(bad) => Some(bad),
        None => second,
    }
}

// A word before a command that has no filter.
fn filter_fault(line: &Line) -> Option<BadWord>
    ensures { result ≡ filter_fault line.now }
{
    match line.command.filtering() {
        Filtering::Nothing => at_word(line, 0, unless(line.filter_to == 0, WordKind::Extra)),
        _ => None,
    }
}

fn lacks_task_change(command: Command, few: bool, tally: Tally) -> bool
    ensures { result ≡ lacks_change (Tasks command) few tally }
{
    match command {
        Command::Add => tally.texts == 0 && !tally.described || tally.recurs && !tally.due,
        Command::Log => tally.texts == 0 && !tally.described,
        Command::Modify => few,
        _ => false,
    }
}

fn lacks_change(command: AnyCommand, few: bool, tally: Tally) -> bool
    ensures { result ≡ lacks_change command few tally }
{
    match command {
        AnyCommand::Tasks(command) => lacks_task_change(command, few, tally),
        AnyCommand::Sync | AnyCommand::Generate => false,
    }
}

// Whether a word is missing after the command's word.
fn lacks_word(line: &Line) -> bool
    ensures { result ≡ lacks_by (rest_of line.now.command) line.now }
{
    match line.command.rest() {
        Rest::Modifications => lacks_change(
            line.command,
            line.rest_word(0).is_none(),
            tally_of(line),
        ),
        Rest::Text => line.rest_word(0).is_none(),
        Rest::Numbers => line.rest_word(1).is_none(),
        _ => false,
    }
}

fn lacks_filter(line: &Line) -> bool
    ensures { result ≡ lacks_filter (filtering_of line.now.command) line.now }
{
    match line.command.filtering() {
        Filtering::Needed => line.filter_to == 0,
        _ => false,
    }
}

fn at_command(line: &Line, kind: WordKind) -> Option<BadWord>
    ensures { result ≡ at_command line.now kind }
{
    Some(BadWord {
        word: line.word_number,
        kind,
    })
}

// What the command's word lacks.
fn lack_fault(line: &Line) -> Option<BadWord>
    ensures { result ≡ lack_fault line.now }
{
    if lacks_word(line) {
        return at_command(line, WordKind::Missing);
    }
    if lacks_filter(line) {
        return at_command(line, WordKind::NoFilter);
    }
    None
}

fn at_rest(line: &Line, k: u64, kind: Option<WordKind>) -> Option<BadWord>
    requires { k < 3 }
    ensures { result ≡ at_rest line.now k kind }
{
    at_word(line, line.rest_from + k, kind)
}

fn no_dash(word: Option<&str>) -> Option<WordKind>
    ensures { result ≡ if_there no_dash (option_copied word.entry) }
{
    match word {
        Some(word) => unless(word == "-", WordKind::Extra),
        None => None,
    }
}

fn no_amount(word: Option<&str>) -> Option<WordKind>
    ensures { result ≡ if_there no_amount (option_copied word.entry) }
{
    match word {
        Some(word) => match read_u64(word) {
            Some(n) => unless(1 <= n && n <= 10_000, WordKind::Value),
            None => Some(WordKind::Value),
        },
        None => None,
    }
}

fn no_seed(word: Option<&str>) -> Option<WordKind>
    ensures { result ≡ if_there no_seed (option_copied word.entry) }
{
    match word {
        Some(word) => unless(read_u64(word).is_some(), WordKind::Value),
        None => None,
    }
}

// A word that is where none may.
fn extra_at(line: &Line, k: u64) -> Option<BadWord>
    requires { k < 3 }
    ensures { result ≡ extra_at line.now k }
{
    match line.rest_word(k) {
        Some(_) => at_rest(line, k, Some(WordKind::Extra)),
        None => None,
    }
}

fn dash_fault(line: &Line) -> Option<BadWord>
    ensures { result ≡ dash_fault line.now }
{
    first_of(
        at_rest(line, 0, no_dash(line.rest_word(0))),
        extra_at(line, 1),
    )
}

fn numbers_fault(line: &Line) -> Option<BadWord>
    ensures { result ≡ numbers_fault line.now }
{
    let seed = at_rest(line, 1, no_seed(line.rest_word(1)));
    let behind = first_of(seed, extra_at(line, 2));
    first_of(at_rest(line, 0, no_amount(line.rest_word(0))), behind)
}

fn no_text(sole: bool, word: Option<&str>) -> Option<WordKind>
    ensures { result ≡ if_there (text_fault sole) (option_copied word.entry) }
{
    match word {
        Some(word) => text_fault(sole, word),
        None => None,
    }
}

// What comes after `append` and its kin is a text that is not empty.
fn text_rest_fault(line: &Line) -> Option<BadWord>
    ensures { result ≡ text_rest_fault line.now }
{
    let sole = line.rest_word(1).is_none();
    at_rest(line, 0, no_text(sole, line.rest_word(0)))
}

// The first word after the command's word that is wrong.
fn rest_fault(clock: Option<Clock<'_>>, line: &Line) -> Option<BadWord>
    ensures { result ≡ rest_fault (clock_of clock.entry) line.now }
{
    match line.command.rest() {
        Rest::Modifications => first_fault(clock, tally_of(line).texts == 1, line),
        Rest::Text => text_rest_fault(line),
        Rest::Nothing => extra_at(line, 0),
        Rest::Dash => dash_fault(line),
        Rest::Numbers => numbers_fault(line),
        _ => None,
    }
}

/// The first word that is wrong, but for the words of a filter. Without a clock, words of dates and the value of `recur` are not
/// judged. It takes no memory.
pub fn fault_of(line: &Line, clock: Option<Clock<'_>>) -> Option<BadWord>
    ensures { result ≡ fault_of (clock_of clock.entry) line.now }
{
    let behind = first_of(lack_fault(line), rest_fault(clock, line));
    first_of(filter_fault(line), behind)
}

/// The parts of a line, or the first word that is wrong whatever the moment, the zone and the tasks are. The words of the filter are not
/// judged, so `judge_line` may name a word before it.
pub fn read_line(alloc: Global, words: &Vec<String>) -> Result<Line, WordError>
    ensures { Gives (λ line. line) result (line_in (map string_bytes words.now.items)) }
{
    let line = cut_words(alloc, words)?;
    match fault_of(&line, None) {
        Some(bad) => Err(WordError::Bad(bad)),
        None => Ok(line),
    }
}

// A bad word of the filter, by its number among the words taken.
fn numbered(line: &Line, bad: BadWord) -> BadWord
    ensures { result ≡ numbered line.now bad }
{
    let word = match bad.kind {
        WordKind::End => number_at(line, line.filter_to.saturating_sub(1)) + 1,
        _ => number_at(line, bad.word),
    };
    BadWord {
        word,
        kind: bad.kind,
    }
}

// The filter of the words before the command's word, or of all.
fn filter_in(alloc: Global, line: &Line, now: Moment, zone: &Zone) -> Result<Filter, FilterError>
    ensures { GivesFilter (λ filter. filter) result (filter_of_words line.now now.seconds zone.now) }
{
    match read_filter(
        alloc,
        &line.words,
        line.filter_from,
        line.filter_to,
        line.plain_from,
        now,
        zone,
    ) {
        Ok(filter) => Ok(filter),
        Err(FilterError::Bad(bad)) => Err(FilterError::Bad(numbered(line, bad))),
        Err(FilterError::Memory) => Err(FilterError::Memory),
    }
}

// The filter of a line, whose words have their numbers among the words taken.
fn filter_of(alloc: Global, line: &Line, now: Moment, zone: &Zone) -> Result<Filter, FilterError>
    ensures { GivesFilter (λ filter. filter) result (filter_by (filtering_of line.now.command) line.now now.seconds zone.now) }
{
    match line.command.filtering() {
        Filtering::Nothing => Ok(Filter::all(alloc)),
        _ => filter_in(alloc, line, now, zone),
    }
}

/// The filter of a line, or the first word that is wrong whatever the tasks are, by its number among the words taken. Left is
/// whether words name tasks, which `read_changes` judges.
pub fn judge_line(alloc: Global, line: &Line, now: Moment, zone: &Zone) -> Result<Filter, WordError>
    ensures { Gives (λ filter. filter) result (judged line.now now.seconds zone.now) }
{
    match filter_of(alloc, line, now, zone) {
        Ok(filter) => match fault_of(line, Some(Clock { now, zone })) {
            Some(bad) => Err(WordError::Bad(bad)),
            None => Ok(filter),
        },
        Err(FilterError::Bad(bad)) => Err(WordError::Bad(bad)),
        Err(FilterError::Memory) => Err(WordError::Memory),
    }
}
