// What is said of a file that failed, and of the replies of a server.
ghost use Rattle.std.specs.Prelude.{◌≡◌};
ghost use Rattle.tw_hints.specs.Causes.{disk_text, status_text, reply_text, code_of};

use crate::places::NotOpened;
use tw_sync::ReplyKind;

/// Why a journal's file failed.
pub(crate) fn disk_text(not_opened: Option<NotOpened>) -> &'static str
    ensures { result.now ≡ disk_text not_opened }
{
    match not_opened {
        None => "%: a write failed; is the disk full?",
        Some(NotOpened::Rights) => "%: no right to read and write it",
        Some(NotOpened::Folder) => "% is a folder",
        Some(NotOpened::InTheWay) => "%: a file is in its way",
        Some(NotOpened::ReadOnly) => "%: its disk is read-only",
        Some(NotOpened::Other) => "% can't be opened",
    }
}

fn status_text(code: u16) -> &'static str
    ensures { result.now ≡ status_text code }
{
    if code == 413 {
        return "the server takes no version as long as this";
    }
    if code == 500 {
        return "sync again";
    }
    "% answered with #; is it a sync server?"
}

/// What is wrong with a reply.
pub(crate) fn reply_text(kind: ReplyKind) -> &'static str
    ensures { result.now ≡ reply_text kind }
{
    match kind {
        ReplyKind::Cut => "its reply was cut off; sync again",
        ReplyKind::TooLong => "its reply is too long",
        ReplyKind::Status { code } => status_text(code),
        _ => "% does not speak as a sync server",
    }
}

/// The status of a reply from which a sync can't go on.
pub(crate) fn code_of(kind: ReplyKind) -> u64
    ensures { result ≡ code_of kind }
{
    match kind {
        ReplyKind::Status { code } => u64::from(code),
        _ => 0,
    }
}
