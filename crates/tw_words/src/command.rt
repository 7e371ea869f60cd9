// The commands: task(1), under "SUBCOMMANDS".
ghost use Rattle.std.specs.Prelude.{◌≡◌};
ghost use Rattle.tw_words.specs.Commands.{command_named, drives, form_over, filtering_of, rest_of};

use tw_time::look_up;

/// A command: task(1), under "READ SUBCOMMANDS", "WRITE SUBCOMMANDS" and "MISCELLANEOUS SUBCOMMANDS".
#[derive(Clone, Copy, PartialEq, Eq, Drop)]
pub enum AnyCommand {
    /// One that has a plan over the tasks of a replica.
    Tasks(Command),
    /// Syncs with a server.
    Sync,
    /// Runs two replicas over memory with many tasks; no command of task(1).
    Generate,
}

/// A command that has a plan over the tasks of a replica.
#[derive(Clone, Copy, PartialEq, Eq, Drop)]
pub enum Command {
    /// Adds a task.
    Add,
    /// Adds a task that is done.
    Log,
    /// Changes properties.
    Modify,
    /// Puts a text after the description.
    Append,
    /// Puts a text before the description.
    Prepend,
    /// Adds an annotation.
    Annotate,
    /// Takes an annotation away.
    Denotate,
    /// Completes tasks.
    Done,
    /// Deletes tasks, and keeps what they were.
    Delete,
    /// Takes deleted tasks out for good.
    Purge,
    /// Begins work on tasks.
    Start,
    /// Ends work on tasks.
    Stop,
    /// Adds a copy of a task.
    Duplicate,
    /// Takes the last group of operations back.
    Undo,
    /// Adds the tasks of a JSON text.
    Import,
    /// Prints how many tasks there are.
    Count,
    /// Prints numbers of tasks.
    Ids,
    /// Prints uuids of tasks.
    Uuids,
    /// Prints tasks as JSON.
    Export,
    /// Prints all of a task.
    Information,
    /// Prints the projects.
    Projects,
    /// Prints the tags.
    Tags,
    /// Reports pending tasks by their due date.
    List,
    /// Reports pending tasks by their urgency.
    Next,
    /// Reports all tasks.
    All,
    /// Reports completed tasks.
    Completed,
    /// Reports waiting tasks.
    Waiting,
    /// Reports blocked tasks.
    Blocked,
}

/// Whether a command has a filter: task(1), under "FILTER".
#[derive(Clone, Copy, Drop)]
pub enum Filtering {
    /// No word may come before the command.
    Nothing,
    /// Words may. Without one the command is about all tasks.
    Free,
    /// A word must.
    Needed,
}

/// What the words after a command are.
#[derive(Clone, Copy, Drop)]
pub enum Rest {
    /// More of the filter.
    Filter,
    /// Changes of properties: task(1), under "MODIFICATIONS".
    Modifications,
    /// A text.
    Text,
    /// No word may be there.
    Nothing,
    /// At most one `-`, which is standard input.
    Dash,
    /// Two numbers.
    Numbers,
}

// The words of commands.
const COMMANDS: [(&str, AnyCommand); 30] = [
    ("add", AnyCommand::Tasks(Command::Add)),
    ("log", AnyCommand::Tasks(Command::Log)),
    ("modify", AnyCommand::Tasks(Command::Modify)),
    ("append", AnyCommand::Tasks(Command::Append)),
    ("prepend", AnyCommand::Tasks(Command::Prepend)),
    ("annotate", AnyCommand::Tasks(Command::Annotate)),
    ("denotate", AnyCommand::Tasks(Command::Denotate)),
    ("done", AnyCommand::Tasks(Command::Done)),
    ("delete", AnyCommand::Tasks(Command::Delete)),
    ("purge", AnyCommand::Tasks(Command::Purge)),
    ("start", AnyCommand::Tasks(Command::Start)),
    ("stop", AnyCommand::Tasks(Command::Stop)),
    ("duplicate", AnyCommand::Tasks(Command::Duplicate)),
    ("undo", AnyCommand::Tasks(Command::Undo)),
    ("import", AnyCommand::Tasks(Command::Import)),
    ("count", AnyCommand::Tasks(Command::Count)),
    ("ids", AnyCommand::Tasks(Command::Ids)),
    ("uuids", AnyCommand::Tasks(Command::Uuids)),
    ("export", AnyCommand::Tasks(Command::Export)),
    ("information", AnyCommand::Tasks(Command::Information)),
    ("projects", AnyCommand::Tasks(Command::Projects)),
    ("tags", AnyCommand::Tasks(Command::Tags)),
    ("list", AnyCommand::Tasks(Command::List)),
    ("next", AnyCommand::Tasks(Command::Next)),
    ("all", AnyCommand::Tasks(Command::All)),
    ("completed", AnyCommand::Tasks(Command::Completed)),
    ("waiting", AnyCommand::Tasks(Command::Waiting)),
    ("blocked", AnyCommand::Tasks(Command::Blocked)),
    ("sync", AnyCommand::Sync),
    ("_generate", AnyCommand::Generate),
];

/// The command that a word names.
#[tactic(auto, unfolding(crate::specs::Commands::command_named))]
pub(crate) fn command_named(word: &str) -> Option<AnyCommand>
    ensures { result ≡ command_named word.now }
{
    look_up(word.as_bytes(), &COMMANDS)
}

impl Command {
    // Whether it has a filter, and what the words after it are.
    fn form(self) -> (Filtering, Rest)
        ensures { result ≡ ((form_over self).filtering, (form_over self).rest) }
    {
        match self {
            Command::Add | Command::Log => (Filtering::Nothing, Rest::Modifications),
            Command::Modify | Command::Duplicate => (Filtering::Needed, Rest::Modifications),
            Command::Append | Command::Prepend | Command::Annotate | Command::Denotate => {
                (Filtering::Needed, Rest::Text)
            }
            Command::Done | Command::Delete | Command::Purge | Command::Start | Command::Stop => {
                (Filtering::Needed, Rest::Nothing)
            }
            Command::Undo => (Filtering::Nothing, Rest::Nothing),
            Command::Import => (Filtering::Nothing, Rest::Dash),
            Command::Count
            | Command::Ids
            | Command::Uuids
            | Command::Export
            | Command::Projects
            | Command::Tags
            | Command::List
            | Command::Next
            | Command::All
            | Command::Completed
            | Command::Waiting
            | Command::Blocked => (Filtering::Free, Rest::Filter),
            Command::Information => (Filtering::Needed, Rest::Filter),
        }
    }

    /// Whether it changes tasks that drive intervals: all that write a record but the import and the reports.
    pub fn drives(self) -> bool
        ensures { result ≡ drives self }
    {
        match self {
            Command::Import
            | Command::Count
            | Command::Ids
            | Command::Uuids
            | Command::Export
            | Command::Information
            | Command::Projects
            | Command::Tags
            | Command::List
            | Command::Next
            | Command::All
            | Command::Completed
            | Command::Waiting
            | Command::Blocked => false,
            _ => true,
        }
    }
}

impl AnyCommand {
    // Whether it has a filter, and what the words after it are.
    fn form(self) -> (Filtering, Rest)
        ensures { result ≡ (filtering_of self, rest_of self) }
    {
        match self {
            AnyCommand::Tasks(command) => command.form(),
            AnyCommand::Sync => (Filtering::Nothing, Rest::Nothing),
            AnyCommand::Generate => (Filtering::Nothing, Rest::Numbers),
        }
    }

    /// Whether it has a filter.
    pub fn filtering(self) -> Filtering
        ensures { result ≡ filtering_of self }
    {
        self.form().0
    }

    /// What the words after it are.
    pub fn rest(self) -> Rest
        ensures { result ≡ rest_of self }
    {
        self.form().1
    }
}
