// What the words of a command ask for.
use crate::ids::Ids;
use crate::range::Range;
use timew_interval::Texts;
use tw_time::Length;
use tw_world::Text;

/// The parts of `start`.
#[derive(Drop)]
pub struct Start {
    pub word: u64,
    pub moment: Option<u64>,
    pub tags: Texts,
    pub adjust: bool,
}

/// The parts of `stop`.
#[derive(Clone, Copy)]
pub struct Stop {
    pub word: u64,
    pub moment: Option<u64>,
}

/// The parts of `continue`.
#[derive(Clone, Copy)]
pub struct Continue {
    pub id: Option<u64>,
    pub adjust: bool,
}

/// The parts of `track`.
#[derive(Drop)]
pub struct Track {
    pub word: u64,
    pub start: u64,
    pub end: u64,
    pub tags: Texts,
    pub adjust: bool,
}

/// The parts of `tag` and `untag`. No id is that of the open interval.
#[derive(Drop)]
pub struct Tagging {
    pub ids: Ids,
    pub tags: Texts,
}

/// The parts of `annotate`. No id is that of the open interval.
#[derive(Drop)]
pub struct Annotate {
    pub id: Option<u64>,
    pub text: Text,
}

/// The parts of `join`.
#[derive(Clone, Copy)]
pub struct Join {
    pub first: u64,
    pub second: u64,
    pub adjust: bool,
}

/// The parts of `move`.
#[derive(Clone, Copy)]
pub struct Move {
    pub id: u64,
    pub word: u64,
    pub start: u64,
    pub adjust: bool,
}

/// The parts of `lengthen` and `shorten`.
#[derive(Clone, Copy)]
pub struct Resize {
    pub id: u64,
    pub word: u64,
    pub length: Length,
    pub adjust: bool,
}

/// A command that changes intervals, with its parts, as timew(1) has them. Moments are seconds since 1970; an id counts from the
/// last interval, from 1, as the intervals are before the command; a `word` is the number of the word that a refusal names.
/// With `adjust` the other intervals make room for the one that is placed.
pub enum Changing {
    /// Ends the open interval, and begins one at the moment, or now.
    Start(Start),
    /// Ends the open interval at the moment, or now.
    Stop(Stop),
    /// Drops the open interval.
    Cancel,
    /// Begins one now with the tags of that interval, or of the last one.
    Continue(Continue),
    /// Places a closed interval.
    Track(Track),
    /// Adds tags to these intervals.
    Tag(Tagging),
    /// Takes tags from these intervals.
    Untag(Tagging),
    /// Sets the annotation of an interval. An empty text takes it away.
    Annotate(Annotate),
    /// Drops these intervals.
    Delete(Ids),
    /// Cuts these intervals in the middle. An open one is measured to now, and its second part stays open.
    Split(Ids),
    /// Makes one interval of two, from the earlier start to the later end.
    Join(Join),
    /// Moves an interval to another start.
    Move(Move),
    /// Moves the end of a closed interval to a later moment.
    Lengthen(Resize),
    /// Moves the end of a closed interval to an earlier moment, not before its start.
    Shorten(Resize),
}

// It is written out, so that a caller does not prove again how each part is dropped.
impl Drop for Changing {
    fn drop(self) {
        match self {
            Changing::Start(_parts) => {}
            Changing::Stop(_parts) => {}
            Changing::Cancel => {}
            Changing::Continue(_parts) => {}
            Changing::Track(_parts) => {}
            Changing::Tag(_parts) => {}
            Changing::Untag(_parts) => {}
            Changing::Annotate(_parts) => {}
            Changing::Delete(_ids) => {}
            Changing::Split(_ids) => {}
            Changing::Join(_parts) => {}
            Changing::Move(_parts) => {}
            Changing::Lengthen(_parts) => {}
            Changing::Shorten(_parts) => {}
        }
    }
}

/// A report of hours, which is about a range.
#[derive(Clone, Copy, Drop)]
pub enum TimeReport {
    /// The stretches in which nothing is tracked.
    Gaps,
    /// The tracked time of each day.
    Days,
    /// The tracked time of each week, under its Monday.
    Weeks,
    /// The tracked time of each tag.
    Totals,
}

/// A command that only shows.
#[derive(Clone, Copy, Drop)]
pub enum Showing {
    /// What is tracked now.
    Tracked,
    /// The intervals as JSON.
    Export(Range),
    /// The intervals as a table.
    Summary(Range),
    /// Sums of their time.
    Hours(TimeReport, Range),
}

/// A command.
pub enum Command {
    Change(Changing),
    /// Takes back the last change.
    Undo,
    Show(Showing),
}

impl Drop for Command {
    fn drop(self) {
        match self {
            Command::Change(_changing) => {}
            Command::Undo => {}
            Command::Show(_showing) => {}
        }
    }
}
