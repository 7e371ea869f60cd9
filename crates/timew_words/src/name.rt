// The names of the commands.
ghost use Rattle.std.specs.Prelude.{◌≡◌};
ghost use Rattle.tw_time.specs.Tables.{look_up};
ghost use Rattle.timew_words.specs.Names.{names, places};

use crate::command::TimeReport;
use tw_time::look_up;

/// A command of timew(1), by its name.
#[derive(Clone, Copy)]
pub enum Name {
    Start,
    Stop,
    Cancel,
    Continue,
    Track,
    Tag,
    Untag,
    Annotate,
    Delete,
    Split,
    Join,
    Move,
    Lengthen,
    Shorten,
    Undo,
    Export,
    Summary,
    Hours(TimeReport),
}

const NAMES: [(&str, Name); 21] = [
    ("start", Name::Start),
    ("stop", Name::Stop),
    ("cancel", Name::Cancel),
    ("continue", Name::Continue),
    ("track", Name::Track),
    ("tag", Name::Tag),
    ("untag", Name::Untag),
    ("annotate", Name::Annotate),
    ("delete", Name::Delete),
    ("split", Name::Split),
    ("join", Name::Join),
    ("move", Name::Move),
    ("lengthen", Name::Lengthen),
    ("shorten", Name::Shorten),
    ("undo", Name::Undo),
    ("export", Name::Export),
    ("summary", Name::Summary),
    ("gaps", Name::Hours(TimeReport::Gaps)),
    ("days", Name::Hours(TimeReport::Days)),
    ("weeks", Name::Hours(TimeReport::Weeks)),
    ("totals", Name::Hours(TimeReport::Totals)),
];

/// The command that a word names.
pub fn name_of(text: &str) -> Option<Name>
    ensures { result ≡ look_up text.now names }
{
    look_up(text.as_bytes(), &NAMES)
}

impl Name {
    /// Whether it places an interval, so that `:adjust` is no part of it, wherever it is.
    pub fn places(self) -> bool
        ensures { result ≡ places self }
    {
        match self {
            Name::Start
            | Name::Continue
            | Name::Track
            | Name::Join
            | Name::Move
            | Name::Lengthen
            | Name::Shorten => true,
            Name::Stop
            | Name::Cancel
            | Name::Tag
            | Name::Untag
            | Name::Annotate
            | Name::Delete
            | Name::Split
            | Name::Undo
            | Name::Export
            | Name::Summary
            | Name::Hours(_) => false,
        }
    }
}
