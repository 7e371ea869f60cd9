// A task that is being modified.
ghost use Rattle.std.specs.Prelude.{◌≡◌, option_map, string_bytes, IfOk, OnOk};
ghost use Rattle.std.specs.Option.{option_copied};
ghost use Rattle.tw_model.specs.Maps.{set_at};
ghost use Rattle.tw_words.specs.Changed.{given, with_task, with_text, with_description, made, beginning, modified};

use crate::changes::dependencies::clear_dependencies;
use crate::changes::modification::Modification;
use std::alloc::Global;
use std::marker::Model;
use tw_model::TaskMap;
use tw_world::{Memory, Text};

/// A task that is being modified, with the texts of its description so far.
pub(crate) struct Draft {
    task: TaskMap,
    joined: Option<String>,
    given: Option<String>,
    by_words: bool,
}

// It is written out, so that a caller does not prove again how each part is dropped.
impl Drop for Draft {
    fn drop(self) {
        let Draft {
            task: _,
            joined: _,
            given: _,
            by_words: _,
        } = self;
    }
}

impl Model for Draft {
    ghost use Rattle.std.specs.Prelude.{option_map, string_bytes};
    ghost use Rattle.tw_words.specs.Changed.{Draft, draft_code};

    ghost Value = { Draft };

    ghost coded = { draft_code };

    ghost view = { λ m. record { task = m.task; joined = option_map string_bytes m.joined; given = option_map string_bytes m.given; by_words = m.by_words } };
}

fn text_in(text: &Option<Text>) -> Option<&str>
    ensures { option_copied result ≡ text.now }
{
    match text {
        Some(text) => Some(text.as_str()),
        None => None,
    }
}

fn describe(alloc: Global, task: &mut TaskMap, text: &Option<String>) -> Result<(), Memory>
    ensures { OnOk result (task.new ≡ with_description task.old (option_map string_bytes text.now)) }
{
    match text {
        Some(text) => task.set(alloc, "description", Some(text.as_str())),
        None => Ok(()),
    }
}

impl Draft {
    /// A task before any word.
    pub(crate) fn new(task: TaskMap) -> Draft
        ensures { result ≡ beginning task }
    {
        Draft {
            task,
            joined: None,
            given: None,
            by_words: false,
        }
    }

    fn give(&mut self, alloc: Global, value: &str) -> Result<(), Memory>
        ensures { OnOk result (self.new ≡ given self.old value.now) }
    {
        self.given = Some(String::from_str(alloc, value)?);
        self.by_words = false;
        Ok(())
    }

    fn set(&mut self, alloc: Global, name: &str, value: Option<&str>) -> Result<(), Memory>
        ensures { OnOk result (self.new ≡ with_task self.old (set_at self.old.task name.now (option_copied value.entry))) }
    {
        self.task.set(alloc, name, value)
    }

    fn put_text(&mut self, alloc: Global, word: &str) -> Result<(), Memory>
        ensures { OnOk result (self.new ≡ with_text self.old word.now) }
    {
        match &mut self.joined {
            Some(text) => {
                text.push(' ')?;
                text.push_str(word)?;
            }
            None => self.joined = Some(String::from_str(alloc, word)?),
        }
        self.by_words = true;
        Ok(())
    }

    /// Makes one more modification.
    pub(crate) fn modify(&mut self, alloc: Global, change: &Modification) -> Result<(), Memory>
        ensures { OnOk result (self.new ≡ modified self.old change.now) }
    {
        match change {
            Modification::Word(word) => self.put_text(alloc, word.as_str()),
            Modification::Description(value) => self.give(alloc, value.as_str()),
            Modification::Property { name, value } => {
                self.set(alloc, name.as_str(), text_in(value))
            }
            Modification::Independent => clear_dependencies(alloc, &mut self.task),
        }
    }

    /// The task, with its description.
    pub(crate) fn made(self, alloc: Global) -> Result<TaskMap, Memory>
        ensures { IfOk result (λ task. task ≡ made self) }
    {
        let Draft {
            mut task,
            joined,
            given,
            by_words,
        } = self;
        if by_words {
            describe(alloc, &mut task, &joined)?;
        } else {
            describe(alloc, &mut task, &given)?;
        }
        Ok(task)
    }
}
