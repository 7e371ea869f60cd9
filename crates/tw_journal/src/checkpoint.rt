// Writing one record that replaces all others: the record first, apart from them, then the slot that holds its offset, then the
// first byte, by which that slot counts, and at last the file's end. Each of these steps ends with a sync.
ghost use Rattle.std.specs.Prelude.{◌≡◌, ◌⊎◌, ◌≤◌, ◌<◌, ◌+◌, ◌^◌, ◌∷◌, [], List, ℕ, length, IfOk, OnOk, IfErr};
ghost use Rattle.std.specs.Int.{to_be_bytes, w64};
ghost use Rattle.tw_world.specs.Disk.{Rose, FaultsRise, overwritten};
ghost use Rattle.tw_journal.specs.Writes.{Makes, MakesOfStable, LeavesOfStable, IsOldOr};
ghost use Rattle.tw_journal.specs.Checkpoint.{checkpoint_offset, other_slot, other_selector, record_with, copied, extended, pointed};
ghost use Rattle.tw_journal.specs.Checkpoint.{IsSameBeside, IsCopying, IsPointing, IsReplaced, LeavesReplacing, IsMovedTo};

use crate::error::AppendError;
use crate::form::{FRONT, SLOT_A, SLOT_B};
use crate::journal::{Journal, MAX_RECORD};
use crate::writes::{cut_tail, write_byte};
use tw_world::{Disk, DiskError};

impl Journal {
    ghost use Rattle.std.specs.Prelude.{true, false};
    ghost use Rattle.tw_journal.specs.Record.{IsLongerBy};
    ghost use Rattle.tw_journal.specs.Journal.{RecordsBecome, Leaves, RecordsOrOne, Accepted, AppendRefused};
    ghost use Rattle.tw_journal.specs.Journal.{journal_end, journal_version, is_closed, can_checkpoint};

    /// Replaces all records by one. A crash at any moment of the call leaves the records from before it, or this one alone;
    /// after `Ok` each crash leaves it. After `Disk` the journal is closed. Takes no memory.
    pub fn checkpoint<D: Disk>(&mut self, disk: &mut D, body: &[u8]) -> Result<(), AppendError>
        requires can { can_checkpoint self.old ≡ true }
        requires length { is_closed self.old ≡ false → D.model.len disk.old ≡ journal_end self.old }

        ensures replaced { OnOk result (RecordsBecome D.model self.old self.new disk.old disk.new (λ bodies. body.now ∷ [])) }
        ensures any_moment { Leaves D.model self.old disk.old disk.new (λ magic bodies. RecordsOrOne magic bodies body.now) }
        ensures growth { Leaves D.model self.old disk.old disk.new (λ magic bodies. IsLongerBy D.model disk.old (length body.now + 7)) }
        ensures length { is_closed self.new ≡ false → D.model.len disk.new ≡ journal_end self.new }
        ensures kept { FaultsRise D.model disk.old disk.new }

        ensures accepted { OnOk result (Accepted self.old self.new (length body.now + 5) 1) }
        ensures offset { OnOk result (IsMovedTo self.old self.new (length body.now)) }
        ensures can { can_checkpoint self.new ≡ true }
        ensures version { journal_version self.new ≡ journal_version self.old }
        ensures refused { IfErr result (λ e. AppendRefused D.model self.old self.new disk.old disk.new (length body.now + 5) e) }
        ensures closed { is_closed self.old ≡ true → result ≡ Err AppendError.Closed }
    {
        if self.closed {
            return Err(AppendError::Closed);
        }
        let size = body.len() + 5;
        if size > MAX_RECORD {
            return Err(AppendError::TooLong { bytes: size as u64 });
        }
        let at = checkpoint_offset(size as u64, self.start, self.end);
        if let Err(_) = replace_records(disk, self.selector, self.start, self.end, at, body) {
            self.closed = true;
            return Err(AppendError::Disk);
        }
        self.offsets.truncate(0);
        self.firsts.truncate(0);
        self.selector = other_selector(self.selector);
        self.start = at;
        self.end = at + size as u64;
        self.count = 1;
        Ok(())
    }
}

// Where a record of so many bytes is put that replaces those from `start` to `end`.
fn checkpoint_offset(size: u64, start: u64, end: u64) -> u64
    requires size { size ≤ 2 ^ 30 }
    requires below { end < 2 ^ 56 }
    requires inside { start ≤ end }

    ensures offset { result ≡ checkpoint_offset size start end }
    ensures behind { 29 ≤ end → 29 ≤ result }
    ensures near { result ≤ end + 1 }
{
    if FRONT + size + 1 <= start {
        FRONT
    } else {
        end + 1
    }
}

fn other_slot(selector: u8) -> u64
    ensures slot { result ≡ other_slot selector }
    ensures small { (result ≡ 13) ⊎ (result ≡ 21) }
{
    if selector == 2 { SLOT_B } else { SLOT_A }
}

// The first byte by which the slot counts that does not yet.
fn other_selector(selector: u8) -> u8
    ensures selector { result ≡ other_selector selector }
    ensures range { (2 ≤ result) × (result < 4) }
{
    if selector == 2 { 3 } else { 2 }
}

/// Makes the file as long as is needed, with zeros, and answers its length.
pub fn make_room<D: Disk>(disk: &mut D, end: u64, needed: u64) -> Result<u64, DiskError>
    requires len { D.model.len disk.old ≡ end }
    requires below { end < 2 ^ 56 }
    requires size { needed ≤ end + 2 ^ 31 }

    ensures done { OnOk result (MakesOfStable D.model disk.old disk.new (extended needed)) }
    ensures any_moment { LeavesOfStable D.model disk.old disk.new (IsOldOr (extended needed)) }
    ensures len { IfOk result (λ len. (D.model.len disk.new ≡ len) × (needed ≤ len) × (end ≤ len) × (len < 2 ^ 56)) }
    ensures grown { IfOk result (λ len. end < needed → len ≡ needed) }
    ensures kept { FaultsRise D.model disk.old disk.new }
    ensures failed { IfErr result (λ e. (e ≡ DiskError.Failed) × Rose (D.model.faults disk.old) (D.model.faults disk.new)) }
{
    if needed <= end {
        return Ok(end);
    }
    disk.set_len(needed)?;
    disk.sync()?;
    Ok(needed)
}

/// Writes an open record, and these bytes after it.
pub fn write_record<D: Disk>(
    disk: &mut D,
    at: u64,
    body: &[u8],
    tail: &[u8],
) -> Result<(), DiskError>
    requires inside { at + length body.now + 5 + length tail.now ≤ D.model.len disk.old }
    requires size { length body.now + 5 ≤ 2 ^ 30 }
    requires below { at < 2 ^ 57 }

    ensures done { OnOk result (Makes D.model disk.old disk.new (overwritten at (record_with body.now tail.now))) }
    ensures any_moment { LeavesOfStable D.model disk.old disk.new (IsSameBeside at (at + length body.now + 5 + length tail.now)) }
    ensures len { D.model.len disk.new ≡ D.model.len disk.old }
    ensures kept { FaultsRise D.model disk.old disk.new }
    ensures failed { IfErr result (λ e. (e ≡ DiskError.Failed) × Rose (D.model.faults disk.old) (D.model.faults disk.new)) }
{
    let size = (body.len() as u32).to_be_bytes();
    disk.write_at(at, &[1, size[0], size[1], size[2], size[3]])?;
    disk.write_at(at + 5, body)?;
    disk.write_at(at + 5 + body.len() as u64, tail)?;
    disk.sync()?;
    Ok(())
}

// Writes the record apart from the others, and answers the file's length.
fn copy_record<D: Disk>(disk: &mut D, at: u64, end: u64, body: &[u8]) -> Result<u64, DiskError>
    requires len { D.model.len disk.old ≡ end }
    requires below { end < 2 ^ 56 }
    requires size { length body.now + 5 ≤ 2 ^ 30 }
    requires near { at ≤ end + 1 }

    ensures done { OnOk result (MakesOfStable D.model disk.old disk.new (copied at body.now)) }
    ensures any_moment { LeavesOfStable D.model disk.old disk.new (IsCopying at (at + length body.now + 6)) }
    ensures len { IfOk result (λ len. (D.model.len disk.new ≡ len) × (at + length body.now + 6 ≤ len) × (end ≤ len) × (len < 2 ^ 56)) }
    ensures kept { FaultsRise D.model disk.old disk.new }
    ensures failed { IfErr result (λ e. (e ≡ DiskError.Failed) × Rose (D.model.faults disk.old) (D.model.faults disk.new)) }
{
    let len = make_room(disk, end, at + body.len() as u64 + 6)?;
    write_record(disk, at, body, &[0])?;
    Ok(len)
}

// Writes an offset to a slot.
fn write_slot<D: Disk>(disk: &mut D, slot: u64, at: u64) -> Result<(), DiskError>
    requires { slot + 8 ≤ D.model.len disk.old }

    ensures done { OnOk result (Makes D.model disk.old disk.new (overwritten slot (to_be_bytes w64 at))) }
    ensures any_moment { LeavesOfStable D.model disk.old disk.new (IsSameBeside slot (slot + 8)) }
    ensures len { D.model.len disk.new ≡ D.model.len disk.old }
    ensures kept { FaultsRise D.model disk.old disk.new }
    ensures failed { IfErr result (λ e. (e ≡ DiskError.Failed) × Rose (D.model.faults disk.old) (D.model.faults disk.new)) }
{
    let bytes = at.to_be_bytes();
    disk.write_at(slot, &bytes)?;
    disk.sync()?;
    Ok(())
}

// Makes the other slot hold an offset, and then count.
fn point_to<D: Disk>(disk: &mut D, selector: u8, at: u64) -> Result<(), DiskError>
    requires { 29 ≤ D.model.len disk.old }

    ensures done { OnOk result (Makes D.model disk.old disk.new (pointed selector at)) }
    ensures any_moment { LeavesOfStable D.model disk.old disk.new (IsPointing selector at) }
    ensures len { D.model.len disk.new ≡ D.model.len disk.old }
    ensures kept { FaultsRise D.model disk.old disk.new }
    ensures failed { IfErr result (λ e. (e ≡ DiskError.Failed) × Rose (D.model.faults disk.old) (D.model.faults disk.new)) }
{
    write_slot(disk, other_slot(selector), at)?;
    write_byte(disk, 0, other_selector(selector))?;
    Ok(())
}

// Replaces the records from `start` to `end` by one, whole or not at all.
fn replace_records<D: Disk>(
    disk: &mut D,
    selector: u8,
    start: u64,
    end: u64,
    at: u64,
    body: &[u8],
) -> Result<(), DiskError>
    requires len { D.model.len disk.old ≡ end }
    requires below { end < 2 ^ 56 }
    requires front { 29 ≤ start }
    requires inside { start ≤ end }
    requires selector { (2 ≤ selector) × (selector < 4) }
    requires size { length body.now + 5 ≤ 2 ^ 30 }
    requires offset { at ≡ checkpoint_offset (length body.now + 5) start end }
    requires near { at ≤ end + 1 }

    ensures done { OnOk result (IsReplaced D.model selector start at disk.old disk.new body.now) }
    ensures any_moment { LeavesReplacing D.model selector start (end + (length body.now + 7)) disk.old disk.new body.now }
    ensures len { OnOk result ((D.model.len disk.new ≡ at + length body.now + 5) × (at + length body.now + 5 < 2 ^ 56)) }
    ensures kept { FaultsRise D.model disk.old disk.new }
    ensures failed { IfErr result (λ e. (e ≡ DiskError.Failed) × Rose (D.model.faults disk.old) (D.model.faults disk.new)) }
{
    let len = copy_record(disk, at, end, body)?;
    point_to(disk, selector, at)?;
    cut_tail(disk, at + body.len() as u64 + 5, len)?;
    Ok(())
}
