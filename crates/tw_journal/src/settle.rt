// Ending an upgrade, and cutting a file after its records.
ghost use Rattle.std.specs.Prelude.{◌≡◌, ◌<◌, ◌≤◌, ◌+◌, ◌^◌, ◌++◌, length, IfOk, OnOk, IfErr};
ghost use Rattle.std.specs.Int.{to_be_bytes, w64};
ghost use Rattle.tw_world.specs.Disk.{Rose, FaultsRise, overwritten};
ghost use Rattle.tw_journal.specs.Writes.{Makes, MakesOfStable, LeavesOfStable};
ghost use Rattle.tw_journal.specs.Checkpoint.{IsSameBeside};
ghost use Rattle.tw_journal.specs.Upgrade.{slotted, ended, ended_form, IsEnding, IsEnded, IsSettled, OnRow, LeavesRow};

use crate::form::{Form, SLOT_A, SLOT_B, VERSION};
use crate::writes::{cut_tail, write_byte};
use tw_world::{Disk, DiskError};

// Writes an offset to the first slot, and 0 to the second.
fn write_slots<D: Disk>(disk: &mut D, at: u64) -> Result<(), DiskError>
    requires { 29 ≤ D.model.len disk.old }

    ensures done { OnOk result (Makes D.model disk.old disk.new (slotted at)) }
    ensures any_moment { LeavesOfStable D.model disk.old disk.new (IsSameBeside 13 29) }
    ensures len { D.model.len disk.new ≡ D.model.len disk.old }
    ensures kept { FaultsRise D.model disk.old disk.new }
    ensures failed { IfErr result (λ e. (e ≡ DiskError.Failed) × Rose (D.model.faults disk.old) (D.model.faults disk.new)) }
{
    let first = at.to_be_bytes();
    let second = 0u64.to_be_bytes();
    disk.write_at(SLOT_A, &first)?;
    disk.write_at(SLOT_B, &second)?;
    disk.sync()?;
    Ok(())
}

// Goes on with an upgrade whose record counts: the slots, then the version, and then the first byte, by which the slots count.
fn end_upgrade<D: Disk>(disk: &mut D, version: u8, at: u64) -> Result<(), DiskError>
    requires { 29 ≤ D.model.len disk.old }

    ensures done { OnOk result (MakesOfStable D.model disk.old disk.new (ended version at)) }
    ensures any_moment { LeavesOfStable D.model disk.old disk.new (IsEnding version at) }
    ensures len { D.model.len disk.new ≡ D.model.len disk.old }
    ensures kept { FaultsRise D.model disk.old disk.new }
    ensures failed { IfErr result (λ e. (e ≡ DiskError.Failed) × Rose (D.model.faults disk.old) (D.model.faults disk.new)) }
{
    write_slots(disk, at)?;
    write_byte(disk, VERSION, version)?;
    write_byte(disk, 0, 2)?;
    Ok(())
}

// Ends an upgrade that was cut off, and answers the form that the file then has.
fn end_form<D: Disk>(disk: &mut D, version: u8, form: Form, end: u64) -> Result<Form, DiskError>
    requires below { D.model.len disk.old < 2 ^ 56 }
    requires inside { end ≤ D.model.len disk.old }
    requires start { form.start ≤ end }
    requires areas { 2 ≤ form.selector → 29 ≤ form.start }

    ensures form { IfOk result (λ now. now ≡ ended_form version form) }
    ensures done { IfOk result (λ now. OnRow D.model disk.old version form end (λ magic bodies. IsEnded D.model magic now end disk.old disk.new bodies)) }
    ensures any_moment { OnRow D.model disk.old version form end (LeavesRow D.model disk.old disk.new) }
    ensures len { D.model.len disk.new ≡ D.model.len disk.old }
    ensures kept { FaultsRise D.model disk.old disk.new }
    ensures failed { IfErr result (λ e. (e ≡ DiskError.Failed) × Rose (D.model.faults disk.old) (D.model.faults disk.new)) }
{
    if form.selector != 4 {
        return Ok(form);
    }
    end_upgrade(disk, version, form.start)?;
    Ok(Form {
        selector: 2,
        start: form.start,
        version,
    })
}

/// Ends an upgrade that was cut off, cuts what the file has after its records, and answers the form that it then has.
pub fn settle<D: Disk>(
    disk: &mut D,
    version: u8,
    form: Form,
    end: u64,
    len: u64,
) -> Result<Form, DiskError>
    requires len { D.model.len disk.old ≡ len }
    requires below { len < 2 ^ 56 }
    requires inside { end ≤ len }
    requires start { form.start ≤ end }
    requires range { form.selector < 5 }
    requires areas { 2 ≤ form.selector → 29 ≤ form.start }

    ensures form { IfOk result (λ now. now ≡ ended_form version form) }
    ensures range { IfOk result (λ now. (now.selector < 4) × (now.start ≡ form.start) × (2 ≤ now.selector → 29 ≤ now.start)) }
    ensures done { IfOk result (λ now. OnRow D.model disk.old version form end (λ magic bodies. IsSettled D.model magic now disk.new bodies)) }
    ensures any_moment { OnRow D.model disk.old version form end (LeavesRow D.model disk.old disk.new) }
    ensures len { OnOk result (D.model.len disk.new ≡ end) }
    ensures kept { FaultsRise D.model disk.old disk.new }
    ensures failed { IfErr result (λ e. (e ≡ DiskError.Failed) × Rose (D.model.faults disk.old) (D.model.faults disk.new)) }
{
    let now = end_form(disk, version, form, end)?;
    cut_tail(disk, end, len)?;
    Ok(now)
}
