// What a line of a transcript asks for.

/// What a line asks for.
#[derive(Clone, Copy)]
pub enum Directive {
    /// A scene begins: no machine has a task, and the server has no version.
    Scene,
    Comment,
    /// The moment of the commands that follow, as `2023-11-14T22:13:20Z`.
    At,
    /// The first identifier that the next command draws.
    Ids,
    /// The zone of the commands that follow, by a POSIX rule.
    Zone,
    /// A line of the settings.
    Setting,
    /// The lines up to an empty one are the month file of this name.
    File,
    /// A read of the next command's input fails: the first one, or the one after so many others.
    InputFails,
    /// The lines up to an empty one are the input of the next command.
    Input,
    /// The next command has a hook of this name, which ends with this status. The lines up to an empty one are what it prints.
    Hook,
    /// Another client of the user adds this version to the chain: before the next exchange, or the one after so many others.
    Others,
    /// The next exchange is lost before it acts, or the one after so many others.
    LostRequest,
    /// The same after it acted.
    LostReply,
    /// The output of the next command fails.
    OutputFails,
    /// The last command wrote a record.
    Changed,
    /// The last command wrote no record.
    Unchanged,
    /// All machines print one export.
    Agree,
    /// A command line, after a prompt `$ ` or `NAME$ `.
    Command,
}

// A name that begins as another one comes before it.
const NAMES: [(&str, Directive); 17] = [
    ("## ", Directive::Scene),
    ("# ", Directive::Comment),
    ("at ", Directive::At),
    ("ids from ", Directive::Ids),
    ("zone ", Directive::Zone),
    ("rc: ", Directive::Setting),
    ("file ", Directive::File),
    ("input fails", Directive::InputFails),
    ("input", Directive::Input),
    ("hook ", Directive::Hook),
    ("others ", Directive::Others),
    ("lost request", Directive::LostRequest),
    ("lost reply", Directive::LostReply),
    ("output fails", Directive::OutputFails),
    ("changed", Directive::Changed),
    ("unchanged", Directive::Unchanged),
    ("agree", Directive::Agree),
];

impl Directive {
    /// What a line asks for, and what follows its name.
    pub fn of(line: &str) -> (Directive, &str) {
        for (name, directive) in &NAMES {
            if let Some(rest) = line.strip_prefix(*name) {
                return (*directive, rest);
            }
        }
        (Directive::Command, line)
    }
}
