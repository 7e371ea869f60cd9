// The settings of a run: taskrc(5), and task(1), under "CONFIGURATION FILE AND OVERRIDE OPTIONS".
ghost use Rattle.std.specs.Prelude.{◌≡◌, ◌∷◌, ◌++◌, [], option_map, OnOk};
ghost use Rattle.std.specs.Option.{option_copied};
ghost use Rattle.tw_terms.specs.Cuts.{parts};
ghost use Rattle.tw_settings.specs.Gives.{Gives, MakesAll};
ghost use Rattle.tw_settings.specs.Settings.{with_setting, lines_from, overridden, settings_in, value_of};

use crate::pair::{allowed, cut_line, setting_in, trimmed};
use crate::word_error::WordError;
use std::alloc::Global;
use std::marker::Model;
use tw_world::{Memory, Text};

/// Settings, seen as the names and values that lines and overrides set, in their order. A later one wins over an earlier one.
#[derive(Drop)]
pub struct Settings {
    pairs: Vec<(Text, Text)>,
}

impl Model for Settings {
    ghost use Rattle.std.specs.Prelude.{List};
    ghost use Rattle.tw_settings.specs.Settings.{Pair};

    ghost Value = { List Pair };

    ghost view = { λ s. s.pairs.items };
}

fn push_pair(
    alloc: Global,
    pairs: &mut Vec<(Text, Text)>,
    name: &str,
    value: &str,
) -> Result<(), Memory>
    ensures { OnOk result (pairs.new.items ≡ pairs.old.items ++ (name.now, value.now) ∷ []) }
{
    let name = Text::from_str(alloc, name)?;
    let value = Text::from_str(alloc, value)?;
    pairs.push((name, value))?;
    Ok(())
}

fn push_setting(
    alloc: Global,
    pairs: &mut Vec<(Text, Text)>,
    set: Option<(&str, &str)>,
) -> Result<(), Memory>
    ensures { OnOk result (pairs.new.items ≡ with_setting pairs.old.items (option_map (λ x. (x.0.now, x.1.now)) set.entry)) }
{
    match set {
        Some((name, value)) => push_pair(alloc, pairs, name, value),
        None => Ok(()),
    }
}

// Adds what the lines of a text set.
fn read_lines(alloc: Global, pairs: &mut Vec<(Text, Text)>, bytes: &[u8]) -> Result<(), WordError>
    ensures { MakesAll result (lines_from 1 pairs.old.items (parts 10 bytes.now)) pairs.new.items }
{
    let mut number = 1;
    let mut left = Some(bytes);
    while let Some(text) = left {
        let (line, rest) = cut_line(text);
        let Some(set) = setting_in(line) else {
            return Err(WordError::Setting { line: number });
        };
        push_setting(alloc, pairs, set)?;
        number += 1;
        left = rest;
    }
    Ok(())
}

// Adds what overrides set.
fn read_overrides(
    alloc: Global,
    pairs: &mut Vec<(Text, Text)>,
    overrides: &Vec<(Text, Text)>,
) -> Result<(), WordError>
    ensures { MakesAll result (overridden pairs.old.items overrides.now.items) pairs.new.items }
{
    for (name, value) in overrides {
        let Some((name, value)) = allowed(trimmed(name.as_str()), trimmed(value.as_str())) else {
            return Err(WordError::Setting { line: 0 });
        };
        push_pair(alloc, pairs, name, value)?;
    }
    Ok(())
}

/// The settings that lines and overrides give, or the first that is no setting: a line by its number from 1, and an override, which is
/// judged after all lines, by 0. A name that is not known has no effect. `include` is no setting.
pub fn read_settings(
    alloc: Global,
    bytes: &[u8],
    overrides: &Vec<(Text, Text)>,
) -> Result<Settings, WordError>
    ensures { Gives (λ settings. settings) result (settings_in bytes.now overrides.now.items) }
{
    let mut pairs = Vec::new(alloc);
    read_lines(alloc, &mut pairs, bytes)?;
    read_overrides(alloc, &mut pairs, overrides)?;
    Ok(Settings { pairs })
}

impl Settings {
    /// The value of the last line or override of a name, which may be empty. It gives no default, and takes no memory.
    pub fn get(&self, name: &str) -> Option<&str>
        ensures { option_copied result ≡ value_of name.now self.now }
    {
        let mut found = None;
        for (set, value) in &self.pairs {
            if set.as_str() == name {
                found = Some(value.as_str());
            }
        }
        found
    }
}
