//! Laws of a server's records. Each function does nothing: its contract is the law.
ghost use Rattle.tw_records.specs.Laws.{StandingIsRead, NumbersTell, OpenedStands, VersionStands, SnapshotStands, WalkedRows};
ghost use Rattle.tw_records.specs.Demands.{OwnAccountIsAnswered, OtherAccountsStay, AccountsStay, AnsweredStands};

/// If records stand for versions and snapshots, an opening that reads blocks finds no damage, and finds these.
pub fn what_stands_is_read()
    ensures { StandingIsRead }
{}

/// The records with the numbers of an opening's table are those of the versions and the snapshots.
pub fn numbers_tell()
    ensures { NumbersTell }
{}

/// The records that an opening leaves, with or without a new block, stand for the same versions and snapshots.
pub fn opened_records_stand()
    ensures { OpenedStands }
{}

/// One version more, at the end of records that stand.
pub fn an_added_version_stands()
    ensures { VersionStands }
{}

/// One snapshot more, at the end of records that stand.
pub fn a_stored_snapshot_stands()
    ensures { SnapshotStands }
{}

/// Where an opening finds the versions of a few rows of records, with blocks of two.
pub fn walked_rows()
    ensures { WalkedRows }
{}

/// A demand makes of its client's account what the protocol says.
pub fn own_account_is_answered()
    ensures { OwnAccountIsAnswered }
{}

/// A demand leaves the accounts of all other clients.
pub fn other_accounts_stay()
    ensures { OtherAccountsStay }
{}

/// After a demand each client's account is one still.
pub fn accounts_stay()
    ensures { AccountsStay }
{}

/// The records that a demand adds stand for what the log becomes.
pub fn answered_records_stand()
    ensures { AnsweredStands }
{}
