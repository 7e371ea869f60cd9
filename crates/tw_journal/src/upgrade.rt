// Bringing a file to the second version: a row becomes one record in a file with areas, and in a file with areas one byte is written.
ghost use Rattle.std.specs.Prelude.{◌≡◌, ◌⊎◌, ◌<◌, ◌≤◌, ◌+◌, ◌^◌, ◌∷◌, [], List, ℕ, length, IfOk, OnOk, IfErr};
ghost use Rattle.tw_world.specs.Disk.{Rose, FaultsRise};
ghost use Rattle.tw_journal.specs.Writes.{MakesOfStable, LeavesOfStable};
ghost use Rattle.tw_journal.specs.Checkpoint.{IsCopying};
ghost use Rattle.tw_journal.specs.Form.{version_of};
ghost use Rattle.tw_journal.specs.Upgrade.{set_apart, upgrade_offset, HasAtMost, IsUpgraded, LeavesUpgrading};

use crate::checkpoint::{make_room, write_record};
use crate::error::AppendError;
use crate::form::{FRONT, Form, VERSION};
use crate::journal::{Journal, MAX_RECORD};
use crate::settle::settle;
use crate::writes::write_byte;
use tw_world::{Disk, DiskError};

// The last byte of a magic of the first version.
const FIRST: u8 = 49;

impl Journal {
    ghost use Rattle.std.specs.Prelude.{true, false};
    ghost use Rattle.tw_journal.specs.Record.{IsLongerBy};
    ghost use Rattle.tw_journal.specs.Journal.{AppendRefused, journal_end, journal_version, is_closed, can_checkpoint};
    ghost use Rattle.tw_journal.specs.Upgrade.{upgraded, upgrade_size, OpenBecome, OpenLeave, SecondBecome, SecondLeave, RecordsOrThose, LeavesRowOrOne};

    /// Brings a file of the first version to the second, for a journal that was opened by this magic, which ends in 2. A row
    /// becomes one record with this body, in a file with areas. In a file with areas the version alone is written; its records
    /// stay, and `body` is not used.
    ///
    /// A crash at any moment of the call leaves the records from before it, or those after it; after `Ok` each crash leaves these.
    /// After `Disk` the journal is closed. Takes no memory.
    pub fn upgrade<D: Disk>(
        &mut self,
        disk: &mut D,
        magic: &[u8; 8],
        body: &[u8],
    ) -> Result<(), AppendError>
        requires second { version_of magic.now ≡ 50 }
        requires first { journal_version self.old ≡ 49 }
        requires length { is_closed self.old ≡ false → D.model.len disk.old ≡ journal_end self.old }

        ensures upgraded { OnOk result (OpenBecome D.model magic.now self.old self.new disk.old disk.new (λ bodies. upgraded self.old bodies body.now)) }
        ensures any_moment { OpenLeave D.model magic.now self.old disk.old disk.new (λ bodies. RecordsOrThose magic.now bodies (upgraded self.old bodies body.now)) }
        ensures growth { OpenLeave D.model magic.now self.old disk.old disk.new (λ bodies. IsLongerBy D.model disk.old (length body.now + 29)) }
        ensures length { is_closed self.new ≡ false → D.model.len disk.new ≡ journal_end self.new }
        ensures kept { FaultsRise D.model disk.old disk.new }

        ensures accepted { OnOk result ((journal_version self.new ≡ 50) × (can_checkpoint self.new ≡ true) × (is_closed self.new ≡ false)) }
        ensures end { OnOk result (can_checkpoint self.old ≡ true → journal_end self.new ≡ journal_end self.old) }
        ensures refused { IfErr result (λ e. AppendRefused D.model self.old self.new disk.old disk.new (upgrade_size self.old body.now) e) }
        ensures closed { is_closed self.old ≡ true → result ≡ Err AppendError.Closed }
    {
        if self.closed {
            return Err(AppendError::Closed);
        }
        if self.can_checkpoint() {
            return self.write_version(disk, magic[7]);
        }
        self.replace_row(disk, magic[7], body)
    }

    // Writes the second version into a file with areas.
    fn write_version<D: Disk>(&mut self, disk: &mut D, version: u8) -> Result<(), AppendError>
        requires second { version ≡ 50 }
        requires open { is_closed self.old ≡ false }
        requires areas { can_checkpoint self.old ≡ true }
        requires length { D.model.len disk.old ≡ journal_end self.old }

        ensures upgraded { OnOk result (SecondBecome D.model self.old self.new disk.old disk.new (λ bodies. bodies)) }
        ensures any_moment { SecondLeave D.model self.old disk.old disk.new (λ magic bodies. HasAtMost magic bodies (journal_end self.old)) }
        ensures length { D.model.len disk.new ≡ journal_end self.new }
        ensures kept { FaultsRise D.model disk.old disk.new }
        ensures accepted { OnOk result ((journal_version self.new ≡ 50) × (can_checkpoint self.new ≡ true) × (is_closed self.new ≡ false)) }
        ensures end { journal_end self.new ≡ journal_end self.old }
        ensures refused { IfErr result (λ e. AppendRefused D.model self.old self.new disk.old disk.new 0 e) }
    {
        if let Err(_) = write_byte(disk, VERSION, version) {
            self.closed = true;
            return Err(AppendError::Disk);
        }
        self.version = version;
        Ok(())
    }

    // Replaces a row by one record.
    fn replace_row<D: Disk>(
        &mut self,
        disk: &mut D,
        version: u8,
        body: &[u8],
    ) -> Result<(), AppendError>
        requires second { version ≡ 50 }
        requires open { is_closed self.old ≡ false }
        requires row { can_checkpoint self.old ≡ false }
        requires first { journal_version self.old ≡ 49 }
        requires length { D.model.len disk.old ≡ journal_end self.old }

        ensures upgraded { OnOk result (SecondBecome D.model self.old self.new disk.old disk.new (λ bodies. body.now ∷ [])) }
        ensures any_moment { SecondLeave D.model self.old disk.old disk.new (λ magic bodies. LeavesRowOrOne self.old magic bodies body.now) }
        ensures length { is_closed self.new ≡ false → D.model.len disk.new ≡ journal_end self.new }
        ensures kept { FaultsRise D.model disk.old disk.new }
        ensures accepted { OnOk result ((journal_version self.new ≡ 50) × (can_checkpoint self.new ≡ true) × (is_closed self.new ≡ false)) }
        ensures refused { IfErr result (λ e. AppendRefused D.model self.old self.new disk.old disk.new (length body.now + 5) e) }
    {
        let size = body.len() + 5;
        if size > MAX_RECORD {
            return Err(AppendError::TooLong { bytes: size as u64 });
        }
        let at = upgrade_offset(self.end);
        if let Err(_) = move_apart(disk, version, self.end, at, body) {
            self.closed = true;
            return Err(AppendError::Disk);
        }
        self.offsets.truncate(0);
        self.firsts.truncate(0);
        self.selector = 2;
        self.start = at;
        self.version = version;
        self.end = at + size as u64;
        self.count = 1;
        Ok(())
    }
}

// Where the record is put that replaces a row.
fn upgrade_offset(end: u64) -> u64
    requires { end < 2 ^ 56 }

    ensures offset { result ≡ upgrade_offset end }
    ensures behind { (end + 1 ≤ result) × (29 ≤ result) }
    ensures near { 13 ≤ end → result ≤ end + 16 }
{
    (end + 1).max(FRONT)
}

// Writes the record apart from the row, and its offset after it, and answers the file's length.
fn set_apart<D: Disk>(disk: &mut D, end: u64, at: u64, body: &[u8]) -> Result<u64, DiskError>
    requires len { D.model.len disk.old ≡ end }
    requires below { end < 2 ^ 56 }
    requires size { length body.now + 5 ≤ 2 ^ 30 }
    requires near { at ≤ end + 16 }
    requires behind { end + 1 ≤ at }

    ensures done { OnOk result (MakesOfStable D.model disk.old disk.new (set_apart at body.now)) }
    ensures any_moment { LeavesOfStable D.model disk.old disk.new (IsCopying at (at + length body.now + 13)) }
    ensures len { IfOk result (λ len. (D.model.len disk.new ≡ len) × (len ≡ at + length body.now + 13) × (len < 2 ^ 56)) }
    ensures kept { FaultsRise D.model disk.old disk.new }
    ensures failed { IfErr result (λ e. (e ≡ DiskError.Failed) × Rose (D.model.faults disk.old) (D.model.faults disk.new)) }
{
    let len = make_room(disk, end, at + body.len() as u64 + 13)?;
    let offset = at.to_be_bytes();
    write_record(disk, at, body, &offset)?;
    Ok(len)
}

// Replaces a row by one record, whole or not at all.
fn move_apart<D: Disk>(
    disk: &mut D,
    version: u8,
    end: u64,
    at: u64,
    body: &[u8],
) -> Result<(), DiskError>
    requires second { version ≡ 50 }
    requires len { D.model.len disk.old ≡ end }
    requires below { end < 2 ^ 56 }
    requires row { 13 ≤ end }
    requires size { length body.now + 5 ≤ 2 ^ 30 }
    requires near { at ≤ end + 16 }
    requires behind { (end + 1 ≤ at) × (29 ≤ at) }

    ensures done { OnOk result (IsUpgraded D.model at disk.old disk.new body.now) }
    ensures any_moment { LeavesUpgrading D.model (end + (length body.now + 29)) disk.old disk.new body.now }
    ensures len { OnOk result ((D.model.len disk.new ≡ at + length body.now + 5) × (at + length body.now + 5 < 2 ^ 56)) }
    ensures kept { FaultsRise D.model disk.old disk.new }
    ensures failed { IfErr result (λ e. (e ≡ DiskError.Failed) × Rose (D.model.faults disk.old) (D.model.faults disk.new)) }
{
    let len = set_apart(disk, end, at, body)?;
    write_byte(disk, 0, 4)?;
    let apart = Form {
        selector: 4,
        start: at,
        version: FIRST,
    };
    settle(disk, version, apart, at + body.len() as u64 + 5, len)?;
    Ok(())
}
