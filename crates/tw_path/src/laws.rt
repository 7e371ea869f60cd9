//! Laws of a path through a chain. Each function does nothing: its contract is the law.
ghost use Rattle.tw_path.specs.PathLaws.{PathStandsBeside, PathApplies, PathIsPosition, PathCarries, PathsJoin, PathSplits, PathCounts};
ghost use Rattle.tw_path.specs.PathLaws.{PathFolds, CutPullsBack};
ghost use Rattle.tw_path.specs.Over.{PullIsOver};
ghost use Rattle.tw_path.specs.Lengths.{SegmentLength, BatchIsSum, SegmentGrows, BatchIsLimit};
ghost use Rattle.tw_path.specs.Sent.{PushWasSent, UntoldWasSent, SentStays, SentIsNotSentAgain, SentIsNeverSentAgain};

/// A path keeps what is left fitting, and leads to the tasks at hand with what is carried.
pub fn path_stands_beside()
    ensures { PathStandsBeside }
{}

/// The tasks at its end are those of its start and all operations of its versions.
pub fn path_applies()
    ensures { PathApplies }
{}

/// What is left is what all its versions leave, also those that were pushed.
pub fn path_is_position()
    ensures { PathIsPosition }
{}

/// What is carried is the server's side of that.
pub fn path_carries()
    ensures { PathCarries }
{}

/// A path and then another are one.
pub fn paths_join()
    ensures { PathsJoin }
{}

/// The first versions of a path are one, and so are the others.
pub fn path_splits()
    ensures { PathSplits }
{}

/// What was left is sent, still left, or was dropped.
pub fn path_counts()
    ensures { PathCounts }
{}

/// A path from the tasks of a chain leads to the tasks of that chain.
pub fn path_folds()
    ensures { PathFolds }
{}

/// If what is left has two parts, so has what it is left of.
pub fn cut_pulls_back()
    ensures { CutPullsBack }
{}

/// A version that is pulled leads to where its operations lead, one after another.
pub fn pull_is_over()
    ensures { PullIsOver }
{}

/// A segment is as long as its operations, and the brackets around them.
pub fn segment_length()
    ensures { SegmentLength }
{}

/// With more operations it is no shorter.
pub fn segment_grows()
    ensures { SegmentGrows }
{}

/// Whether operations are a batch is a sum.
pub fn batch_is_sum()
    ensures { BatchIsSum }
{}

/// What is sent as one version is the longest row within the limit.
pub fn batch_is_limit()
    ensures { BatchIsLimit }
{}

/// What is pushed on a path was sent.
pub fn push_was_sent()
    ensures { PushWasSent }
{}

/// So was a version that is pushed at its start.
pub fn untold_was_sent()
    ensures { UntoldWasSent }
{}

/// It stays so as the chain grows, whatever is pending after it.
pub fn sent_stays()
    ensures { SentStays }
{}

/// A path to the end of all that the chain held sends what is left of the later operations alone.
pub fn sent_is_not_sent_again()
    ensures { SentIsNotSentAgain }
{}

/// And one that ends before that has sent nothing.
pub fn sent_is_never_sent_again()
    ensures { SentIsNeverSentAgain }
{}
