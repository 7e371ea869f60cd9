//! What follows from the definitions, as contracts of functions that do nothing.
ghost use Rattle.std.specs.Prelude.{ℕ, List, Some, Ok, ◌≡◌, ◌≤◌};
ghost use Rattle.timew_interval.specs.Interval.{AreRows};
ghost use Rattle.timew_interval.specs.declared.interval.Interval.{Interval};
ghost use Rattle.timew_cmd.specs.Commands.Split.{middle, split, SameSeconds, IsHalved};
ghost use Rattle.timew_cmd.specs.Seconds.{TrackGivesTags, StartGivesTags, ContinueGivesTags, StopFrees, CancelFrees};
ghost use Rattle.timew_cmd.specs.Seconds.{MoveMoves, LengthenMoves, ShortenMoves, JoinTakes};
ghost use Rattle.timew_cmd.specs.Seconds.{TagAddsTags, UntagTakesTags, AnnotateSetsText, DeleteFrees};

/// Intervals that are split leave each second what it had.
pub fn a_split_leaves_each_second()
    ensures { (ids : List ℕ) (rows next : List Interval) (now : ℕ) → AreRows rows → split ids rows now ≡ Ok next → SameSeconds rows next }
{}

/// The first part of an interval that is split has half the length, rounded down, and the second one the rest.
pub fn a_split_keeps_the_odd_second()
    ensures { (now end : ℕ) (r : Interval) → r.end ≡ Some end → r.start ≤ end → IsHalved r.start (middle now r) end }
{}

/// After `track` each second from the start up to the end has the tags alone, and every other second what it had.
pub fn track_gives_its_seconds_the_tags()
    ensures { TrackGivesTags }
{}

/// After `start` each second from the moment on has the tags alone, and every earlier one what it had.
pub fn start_gives_the_seconds_from_the_moment_on_the_tags()
    ensures { StartGivesTags }
{}

/// After `continue` each second from now on has the tags of the interval that goes on, and every earlier one what it had.
pub fn continue_gives_the_seconds_from_now_on_the_tags()
    ensures { ContinueGivesTags }
{}

/// After `stop` each second from the moment on is free, and every earlier one has what it had.
pub fn stop_frees_the_seconds_from_the_moment_on()
    ensures { StopFrees }
{}

/// After `cancel` each second from the start of the open interval on is free, and every earlier one has what it had.
pub fn cancel_frees_the_seconds_of_the_open_interval()
    ensures { CancelFrees }
{}

/// After `tag` each second of these intervals, or of the open one, has the tags too, and every other second has what it had.
pub fn tag_gives_its_seconds_more_tags()
    ensures { TagAddsTags }
{}

/// After `untag` each second of these intervals, or of the open one, has the tags no more, and every other second has what it had.
pub fn untag_takes_tags_of_its_seconds()
    ensures { UntagTakesTags }
{}

/// After `annotate` each second of the interval, or of the open one, has the text and its tags, and every other second has what it had.
pub fn annotate_gives_its_seconds_the_text()
    ensures { AnnotateSetsText }
{}

/// After `delete` each second of these intervals is free, and every other second has what it had.
pub fn delete_frees_its_seconds()
    ensures { DeleteFrees }
{}

/// After `move` the seconds from the new start on, as many as the interval had, have what it says. Those that only it had are free, and all
/// others have what they had.
pub fn move_gives_an_interval_other_seconds()
    ensures { MoveMoves }
{}

/// After `lengthen` the seconds up to the later end have what the interval says, and all others what they had.
pub fn lengthen_gives_an_interval_more_seconds()
    ensures { LengthenMoves }
{}

/// After `shorten` the seconds of the interval from the earlier end on are free, and all others have what they had.
pub fn shorten_takes_seconds_of_an_interval()
    ensures { ShortenMoves }
{}

/// After `join` the seconds from the earlier start to the later end have both tag sets, and all others what the other intervals say.
pub fn join_gives_one_interval_the_seconds_of_two()
    ensures { JoinTakes }
{}
